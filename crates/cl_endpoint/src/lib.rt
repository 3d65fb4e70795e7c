//! The endpoint of an actor: its links to all actors, what it noted of the roster, acknowledgements and emission.
#![tactic(auto)]

mod emission;
mod endpoint;
mod expecting;
mod laws;
mod limits;
mod received;

pub use endpoint::Endpoint;
pub use laws::{accepted_is_next, emission_is_in_turn, emitted_is_kept, giving_is_sending};
pub use limits::ACTORS;
pub use received::Received;
