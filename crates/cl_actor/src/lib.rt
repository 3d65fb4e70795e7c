//! An actor as a core, which decides, and an endpoint, which has to do with packets.
#![tactic(auto)]

mod acting;
mod deciding;
mod laws;

pub use acting::Acting;
pub use deciding::Core;
pub use laws::primaries_are_actors;
