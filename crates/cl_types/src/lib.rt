//! The types that every crate of the server shares: lists, names, values, operations and answers.
#![tactic(auto)]

mod answers;
mod append_only_list;
mod apply;
mod decimal;
mod draws;
mod growing_list;
mod limits;
mod names;
mod no_memory;
mod operations;
mod placement;
mod value;

pub use answers::{AbortCause, Answer, DumpFault, Outcome, Refused, RepairFault, Reply, StopFault};
pub use append_only_list::AppendOnlyList;
pub use apply::{apply_op, augend_of};
pub use decimal::{
    natural_and_text_law, natural_of, number_and_text_law, number_of, number_of_text,
};
pub use draws::mix;
pub use growing_list::{GrowingList, Text};
pub use limits::{OPERATIONS_MAX, SESSIONS_MAX};
pub use names::{KEY_MAX, Key, TABLE_NAME_MAX, TableName};
pub use no_memory::NoMemory;
pub use operations::{Command, Mode, Op, TxnId, modes_law};
pub use placement::{fragment, hash, is_node_count, placement_law, vnode_of};
pub use value::{VALUE_MAX, Value, copy_value};
