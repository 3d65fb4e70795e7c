//! How large what a step gives can be: few transactions become firm at once, and each packet has a spelling. Definitions
//! and laws, and no other code.
#![tactic(auto)]

mod laws;
mod limits;

pub use laws::{few_become_firm, messages_stay_in_range, packets_are_in_range};
pub use limits::FIRM_MAX;
