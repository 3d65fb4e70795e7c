//! The limits of the fields.
use cl_types::OPERATIONS_MAX;

/// The highest actor: the front.
pub(crate) const ACTOR_MAX: u8 = 16;

/// The highest node.
pub(crate) const NODE_MAX: u8 = 15;

/// The highest virtual node.
pub(crate) const VIRTUAL_NODE_MAX: u8 = 7;

/// The highest number of a command in its transaction: BEGIN is 0, then come the operations, and COMMIT or ABORT is last.
pub(crate) const COMMAND_NUMBER_MAX: u32 = OPERATIONS_MAX + 1;

/// The most members of a list.
pub(crate) const LIST_MAX: u8 = 4;
