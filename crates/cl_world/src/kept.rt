//! What is left of a world.
ghost use Rattle.std.specs.Prelude.{◌≡◌, is_some};
ghost use Rattle.cl_runs.specs.World.{Shape, Run};
ghost use Rattle.cl_world.specs.Actors.{is_here};
ghost use Rattle.cl_world.specs.Left.{IsKeptOf};
ghost use Rattle.cl_world.specs.Running.{IsLeftOf};
ghost use Rattle.cl_world.specs.World.{IsWorldOf};

use crate::World;
use crate::actors::Actors;
use cl_front::Front;
use cl_node::Node;
use cl_post::Trace;
use cl_roster::Roster;
use cl_serial::{History, Transcript};

/// What is taken out of a world. An actor that refused a step is not there.
#[derive(Drop)]
pub struct Kept {
    pub transcript: Transcript,
    pub history: History,
    pub trace: Trace,
    pub roster: Roster,
    /// The front, without its transcript.
    pub front: Option<Front>,
    /// Nodes first, then spares.
    pub nodes: Vec<Option<Node>>,
}

impl World {
    /// Takes out what is kept of the run. It may be called after a refusal too, and allocates nothing.
    pub fn kept(self) -> Kept
        ensures left { (shape : Shape) (run : Run) → IsLeftOf shape self run → IsKeptOf shape result run }
        ensures made { (shape : Shape) (run : Run) → IsWorldOf shape self run → IsKeptOf shape result run }
        ensures front { is_some result.front ≡ is_here self.actors.front }
        ensures nodes { result.nodes.items ≡ self.actors.members.items }
    {
        let World {
            actors: Actors { front, members },
            firm,
            trace,
            roster,
            ..
        } = self;
        let (transcript, front) = front.split();
        Kept {
            transcript,
            history: firm.into_history(),
            trace,
            roster,
            front,
            nodes: members,
        }
    }
}
