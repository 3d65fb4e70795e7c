//! Fates that lose packets.
ghost use Rattle.std.specs.Prelude.{◌%◌, nat_lt, if◌then◌else◌};
ghost use Rattle.cl_types.specs.Draws.{mixed};
ghost use Rattle.cl_io.specs.declared.fates.Fate.TheVariants as fate;

use cl_io::{Fate, Fates};
use cl_types::mix;

/// So many packets in a hundred are lost, by a draw of their number; all others are delivered.
#[derive(Clone, Copy)]
pub struct Losing {
    pub in_a_hundred: u64,
}

impl Fates for Losing {
    ghost fates = { λ losing packet times. if nat_lt (mixed packet % 100) losing.in_a_hundred then fate.Lose else fate.Deliver };

    fn fate(&self, packet: u64, _times: u32) -> Fate {
        if mix(packet) % 100 < self.in_a_hundred {
            Fate::Lose
        } else {
            Fate::Deliver
        }
    }
}
