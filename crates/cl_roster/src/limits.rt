//! How large a cluster and its roster can be.

/// The most nodes, spares included.
pub const NODES_MAX: usize = 16;

/// The most virtual nodes.
pub const VIRTUAL_NODES_MAX: usize = 8;

/// The most spares.
pub const SPARES_MAX: usize = NODES_MAX - VIRTUAL_NODES_MAX;

/// The most entries of a roster. Each node stops at most once, and a stop leaves at most one repair to each virtual node.
pub const ENTRIES_MAX: usize = NODES_MAX * (1 + VIRTUAL_NODES_MAX);
