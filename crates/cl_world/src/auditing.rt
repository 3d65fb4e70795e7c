//! What the records of all virtual nodes are.
ghost use Rattle.std.specs.Prelude.{◌^◌, ◌<◌, IsSome};
ghost use Rattle.cl_actor.specs.Acting.{ActingState};
ghost use Rattle.cl_runs.specs.World.{Shape, Run};
ghost use Rattle.cl_system.specs.System.{Core};
ghost use Rattle.cl_world.specs.Actors.{IsNodeIn, member_at};
ghost use Rattle.cl_world.specs.Audit.{IsAudited, IsLiveAt, replica_of};
ghost use Rattle.cl_world.specs.World.{IsWorldOf, IsWhole, moment_after};

use crate::World;
use crate::actors::Actors;

impl Actors {
    // How many records of a virtual node have a value at the node of its number: none where that is not there.
    fn live_at(&self, v: u32) -> u64
        ensures live { (actor : ActingState Core) → IsNodeIn (member_at self.now v) actor → IsSome (member_at self.now v) → IsSome (replica_of actor.core v)
            → IsLiveAt actor.core v result }
        ensures few { result < 2 ^ 60 }
    {
        let Some(node) = self.member(v) else {
            return 0;
        };
        match node.store(v) {
            Some(store) => store.live_count(),
            None => 0,
        }
    }
}

impl World {
    /// How many records have a value over all primaries, how many virtual nodes have a standby, and how many there are.
    ///
    /// It asks each virtual node once, whatever it stores; no contract says so. Each has a standby, since no node stops.
    pub fn audit(&self) -> (u64, u32, u32)
        ensures { (shape : Shape) (run : Run) → IsWorldOf shape self.now run → IsWhole shape self.now → IsAudited shape (moment_after shape run) result }
    {
        let nodes = self.roster.nodes();
        let mut live = 0;
        for v in 0..nodes {
            live += self.actors.live_at(v);
        }
        (live, nodes, nodes)
    }
}
