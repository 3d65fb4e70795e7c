//! What becomes of a packet, before it is taken.
use crate::{Endpoint, Received};

impl Endpoint {
    ghost use Rattle.std.specs.Prelude.{◌≡◌, ◌<◌};
    ghost use Rattle.cl_endpoint.specs.declared.limits.TheConstants.{ACTORS};
    ghost use Rattle.cl_endpoint.specs.Endpoint.{received};

    /// What would become of a packet of an actor with this message number.
    #[tactic(auto, unfolding(crate::specs::Endpoint::received, cl_link::specs::LinkState::taken_of))]
    pub fn received(&self, from: u32, seq: u64) -> Received
        requires { from < ACTORS }
        ensures { result ≡ received self.now from seq }
    {
        if !self.roster.living(self.roster.len(), from) {
            return Received::Dropped;
        }
        let accepted = self.links[from as usize].accepted();
        if seq == 0 {
            Received::Bare
        } else if seq - 1 == accepted {
            Received::Now
        } else if seq - 1 > accepted {
            Received::Gap
        } else {
            Received::Old
        }
    }
}
