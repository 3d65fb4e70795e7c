//! The fields of packets, as bytes and back: each is read from the left and has one spelling.
#![tactic(auto)]

mod entries;
mod fields;
mod limits;
mod lists;
mod reader;
mod tags;
mod undecoded;
mod writer;
mod writing;

pub use reader::Reader;
pub use undecoded::{Undecoded, WireFault};
pub use writer::Writer;
