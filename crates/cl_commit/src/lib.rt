//! Two-phase commit: where a transaction stands at each virtual node, from its BEGIN to its end everywhere. Definitions
//! and laws, and no other code.
#![tactic(auto)]

mod laws;

pub use laws::commits_are_whole;
