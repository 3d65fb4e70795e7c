//! How a primary makes its log safe.
#![tactic(auto)]

mod mode;
mod modes;

pub use mode::Mode;
pub use modes::Modes;
