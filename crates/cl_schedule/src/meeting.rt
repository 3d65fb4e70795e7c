//! What happens in a world.
ghost use Rattle.std.specs.Prelude.{◌≡◌, ◌+◌, ◌∷◌, ◌++◌, [], if◌then◌else◌};
ghost use Rattle.cl_runs.specs.World.{Shape, Run, IsLiving, feed, handle, tick};
ghost use Rattle.cl_schedule.specs.Course as courses;
ghost use Rattle.cl_schedule.specs.Making.{AreMade, IsSound, MayMeet, MayTell, quiet_where, slots_met};
ghost use Rattle.cl_schedule.specs.Turns as turns;
ghost use Rattle.cl_schedule.specs.Turns.{lines_in};
ghost use Rattle.cl_world.specs.Mail.{forgotten, messages_in};
ghost use Rattle.cl_world.specs.World.{moment_after};

use crate::choosing::must_wait;
use cl_io::Fate;
use cl_post::{Event, OutList};
use cl_types::{GrowingList, Refused};
use cl_world::World;

// Whether a packet of this fate is handled.
fn is_handled(fate: Fate) -> bool
    ensures { result ≡ turns.is_handled fate }
{
    match fate {
        Fate::Deliver | Fate::Repeat => true,
        Fate::Lose | Fate::Late => false,
    }
}

/// Whether a packet of this fate is no longer on its way.
pub(crate) fn is_gone(fate: Fate) -> bool
    ensures { result ≡ turns.is_gone fate }
{
    match fate {
        Fate::Deliver | Fate::Lose => true,
        Fate::Repeat | Fate::Late => false,
    }
}

// Handles a packet, or not.
fn handle_where(world: &mut World, handled: bool, id: u64, to: u32) -> Result<(), Refused>
    requires { (shape : Shape) × (run : Run) × MayMeet shape world.old run id to }
    ensures { (shape : Shape) (run : Run) → MayMeet shape world.old run id to
        → AreMade shape world.new run (if handled then handle to id ∷ [] else []) (messages_in world.old.mail) result }
{
    if handled {
        world.run_events(&[Event::Handle(to, id)])
    } else {
        Ok(())
    }
}

// Forgets a packet that is gone.
fn forget_where(world: &mut World, gone: bool, id: u64)
    ensures mail { world.new.mail ≡ (if gone then forgotten world.old.mail id else world.old.mail) }
    ensures sound { (shape : Shape) (run : Run) → IsSound shape world.old run → IsSound shape world.new run }
{
    if gone {
        world.forget(id);
    }
}

/// A packet that is taken meets this fate.
pub(crate) fn meet(world: &mut World, fate: Fate, id: u64, to: u32) -> Result<(), Refused>
    requires { (shape : Shape) × (run : Run) × MayMeet shape world.old run id to }
    ensures { (shape : Shape) (run : Run) → MayMeet shape world.old run id to
        → AreMade shape world.new run (if turns.is_handled fate then handle to id ∷ [] else []) (slots_met (turns.is_gone fate) (messages_in world.old.mail) id) result }
{
    handle_where(world, is_handled(fate), id, to)?;
    forget_where(world, is_gone(fate), id);
    Ok(())
}

// Notes a quiet moment, where a line waits for one.
fn quieten_where(world: &mut World, waits: bool) -> Result<(), Refused>
    requires { (shape : Shape) × (run : Run) × MayTell shape world.old run waits }
    ensures { (shape : Shape) (run : Run) → MayTell shape world.old run waits
        → AreMade shape world.new run (quiet_where waits) (messages_in world.old.mail) result }
{
    if waits {
        world.run_events(&[Event::Quiet])
    } else {
        Ok(())
    }
}

/// Feeds a line, right after a quiet moment where it waits for one.
pub(crate) fn tell(world: &mut World, text: &[u8], step: bool) -> Result<(), Refused>
    requires { (shape : Shape) × (run : Run) × MayTell shape world.old run (courses.must_wait step text.now) }
    ensures { (shape : Shape) (run : Run) → MayTell shape world.old run (courses.must_wait step text.now)
        → AreMade shape world.new run (quiet_where (courses.must_wait step text.now) ++ feed (lines_in shape run + 1) text.now [] ∷ []) (messages_in world.old.mail) result }
{
    let alloc = world.alloc();
    let Some(number) = world.fed().checked_add(1) else {
        return Err(Refused::NoMemory);
    };
    let Ok(copy) = GrowingList::copy_of(alloc, text) else {
        return Err(Refused::NoMemory);
    };
    quieten_where(world, must_wait(step, text))?;
    world.run_events(&[Event::Feed(number, copy, OutList::new(alloc))])
}

/// Time passes for an actor.
pub(crate) fn pass(world: &mut World, actor: u32) -> Result<(), Refused>
    requires { (shape : Shape) × (run : Run) × IsSound shape world.old run
        × IsLiving shape (moment_after shape run).roster actor }
    ensures { (shape : Shape) (run : Run) → IsSound shape world.old run → IsLiving shape (moment_after shape run).roster actor
        → AreMade shape world.new run (tick actor ∷ []) (messages_in world.old.mail) result }
{
    world.run_events(&[Event::Tick(actor)])
}
