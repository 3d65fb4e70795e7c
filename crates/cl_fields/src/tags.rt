//! The byte that says which form a field has. Reading and writing, code and definitions, all cite this table.

pub(crate) const MODE_SHARED: u8 = 1;

pub(crate) const MODE_EXCLUSIVE: u8 = 2;

pub(crate) const OP_GET: u8 = 1;

pub(crate) const OP_PUT: u8 = 2;

pub(crate) const OP_DEL: u8 = 3;

pub(crate) const OP_ADD: u8 = 4;

// An operation is a command too, with its own byte.
pub(crate) const COMMAND_BEGIN: u8 = 0;

pub(crate) const COMMAND_COMMIT: u8 = 5;

pub(crate) const COMMAND_ABORT: u8 = 6;

pub(crate) const REPLY_STORED: u8 = 0;

pub(crate) const REPLY_FOUND: u8 = 1;

pub(crate) const REPLY_ABSENT: u8 = 2;

pub(crate) const REPLY_SUM: u8 = 3;

pub(crate) const REPLY_NOT_NUMBER: u8 = 4;

pub(crate) const REPLY_OUT_OF_RANGE: u8 = 5;

pub(crate) const CAUSE_CONFLICT: u8 = 0;

pub(crate) const CAUSE_NODE: u8 = 1;

pub(crate) const CAUSE_CLIENT: u8 = 2;

pub(crate) const CAUSE_MEMORY: u8 = 3;

pub(crate) const OUTCOME_DONE: u8 = 0;

pub(crate) const OUTCOME_BEGUN: u8 = 1;

pub(crate) const OUTCOME_COMMITTED: u8 = 2;

pub(crate) const OUTCOME_ABORTED: u8 = 3;

pub(crate) const ANSWER_DONE: u8 = 0;

pub(crate) const ANSWER_REFUSED: u8 = 1;

pub(crate) const ANSWER_NO_MEMORY: u8 = 2;

pub(crate) const ENTRY_TOUCH: u8 = 1;

pub(crate) const ENTRY_SET: u8 = 2;

pub(crate) const ENTRY_ADD: u8 = 3;

pub(crate) const ENTRY_COMP: u8 = 4;

pub(crate) const ENTRY_PREPARED: u8 = 5;

pub(crate) const ENTRY_END: u8 = 6;

pub(crate) const ENTRY_DECIDE: u8 = 7;
