//! Where bytes come from and go to: the traits of the outside, and their forms over memory and over std.
#![tactic(auto)]

mod calls;
mod count;
mod failed;
mod fates;
mod gate;
mod mem_sink;
mod mem_source;
mod sink;
mod source;
mod std_sink;
mod std_source;
mod writing;

pub use failed::Failed;
pub use fates::{Always, Fate, Fates};
pub use gate::{Gate, NoGate};
pub use mem_sink::MemSink;
pub use mem_source::MemSource;
pub use sink::Sink;
pub use source::Source;
pub use std_sink::StdSink;
pub use std_source::StdSource;
pub use writing::write_all;
