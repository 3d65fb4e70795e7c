//! The line language: reading the lines of clients and operators, and printing answers.
#![tactic(auto)]

mod laws;
mod line;
mod out;
mod printing;
mod reading;
mod words;

pub use cl_types::Command;
pub use laws::{each_answer_is_one_line, each_command_has_one_line, each_order_has_one_line};
pub use line::{LINE_MAX, Line, LineFault, Order, Unread};
pub use out::Out;
pub use printing::print_out;
pub use reading::read_line;
