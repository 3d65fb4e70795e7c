//! Turn after turn.
ghost use Rattle.std.specs.Prelude.{◌≡◌};
ghost use Rattle.cl_runs.specs.World.{Shape, Run};
ghost use Rattle.cl_schedule.specs.Course.{Course};
ghost use Rattle.cl_schedule.specs.Making.{IsAtCourse, texts_of};
ghost use Rattle.cl_schedule.specs.Schedule.{IsScheduled};
ghost use Rattle.cl_schedule.specs.Turns as turns;
ghost use Rattle.cl_world.specs.World.{IsWorldOf, IsWhole};

use crate::asked::Asked;
use crate::choosing::rests;
use crate::progress::Progress;
use crate::turning::turn;
use crate::{Finish, Setting};
use cl_io::Fates;
use cl_post::Event;
use cl_types::Refused;
use cl_world::{LineList, World};

// Whether each line is fed and the moment is quiet.
fn is_over(world: &World, progress: &Progress, lines: &LineList) -> bool
    ensures { (shape : Shape) (course : Course) → IsAtCourse shape world.now progress.now (texts_of lines.now) course → result ≡ turns.is_over shape course }
{
    progress.fed == lines.len() && rests(world)
}

/// Makes turns until each line is fed and the moment is quiet, or all turns are made.
///
/// Of the candidates a turn takes the first, or the one that the seed draws; a packet then meets its fate. Where an event
/// is refused, the world has made those before it, and only `kept` may be called.
pub fn schedule<F: Fates>(
    world: &mut World,
    lines: &LineList,
    setting: &Setting,
    fates: &F,
) -> Result<Finish, Refused>
    requires { (shape : Shape) × (run : Run) × IsWorldOf shape world.old run × IsWhole shape world.old }
    ensures { (shape : Shape) (run : Run) → IsWorldOf shape world.old run → IsWhole shape world.old
        → IsScheduled shape setting.now (F.fates fates.now) world.old world.new run (texts_of lines.now) result }
{
    let mut progress = Progress {
        asked: Asked::new(world.alloc()),
        fed: 0,
        turns: 0,
    };
    'turns: loop {
        if is_over(world, &progress, lines) {
            world.run_events(&[Event::Quiet])?;
            return Ok(Finish::Quiet);
        }
        if progress.turns >= setting.turns {
            return Ok(Finish::TurnsMade);
        }
        turn(world, &mut progress, lines, setting, fates)?;
    }
}
