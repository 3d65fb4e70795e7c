//! The program's cluster, and the limits of a run.

/// How many nodes the cluster has.
pub const NODES: u32 = 4;

/// How many spares the cluster has.
pub const SPARES: u32 = 2;

/// The most turns of a run.
pub const TURNS_MAX: u64 = 10_000_000;

/// The most lines of a run.
pub(crate) const LINES_MAX: usize = 100_000;

/// The most bytes of a run.
pub(crate) const BYTES_MAX: usize = 25_700_000;

/// The most bytes of one read.
pub(crate) const PIECE_MAX: usize = 65_536;
