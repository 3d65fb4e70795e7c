//! A list of events.
ghost use Rattle.cl_runs.specs.World.{Shape, Run};
ghost use Rattle.cl_world.specs.Running.{IsRunOn, MayRun};

use crate::World;
use cl_post::Event;
use cl_types::Refused;

impl World {
    /// Makes the events, one after another, each of which may happen in its turn.
    ///
    /// What they emit is kept. Where an event is refused, the rest is not made: its actor may be gone, but for the front's
    /// transcript, and from then on only `kept` may be called. It is refused as `Spent` only where the next event needs
    /// a number above its limit, and else for want of memory; no clause says when.
    pub fn run_events(&mut self, events: &[Event]) -> Result<(), Refused>
        requires { (shape : Shape) × (run : Run) × MayRun shape self.old run events.now }
        ensures { (shape : Shape) (run : Run) → MayRun shape self.old run events.now → IsRunOn shape self.old self.new run events.now result }
    {
        for event in events {
            self.take(event)?;
        }
        Ok(())
    }
}
