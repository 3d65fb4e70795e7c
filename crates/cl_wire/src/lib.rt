//! The wire format: packets between the front and the nodes, as bytes and back.
#![tactic(auto)]

mod bodies;
mod copies;
mod decoding;
mod encoding;
mod kind;
mod laws;
mod limits;
mod packet;
mod payload;

pub use cl_fields::{Undecoded, WireFault};
pub use decoding::decode;
pub use encoding::encode;
pub use laws::{
    bytes_spell_at_most_one, no_spelling_begins_another, no_spelling_is_longer,
    spelling_and_reading_agree, what_faults_mean,
};
pub use limits::PACKET_MAX;
pub use packet::{Body, Packet};
pub use payload::Payload;
