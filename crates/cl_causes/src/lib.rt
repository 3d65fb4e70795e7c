//! Why a transaction was aborted: every cause that a run names is true. Definitions and laws, and no other code.
#![tactic(auto)]

mod laws;

pub use laws::causes_are_true;
