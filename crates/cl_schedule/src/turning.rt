//! One turn.
ghost use Rattle.std.specs.Prelude.{◌≡◌, ◌<◌, ◌-◌, ◌^◌, List, ℕ, None, Option, Some};
ghost use Rattle.cl_runs.specs.World.{Shape};
ghost use Rattle.cl_schedule.specs.Course.{Course};
ghost use Rattle.cl_schedule.specs.Making.{IsAtCourse, IsMade, MayMake, texts_of};
ghost use Rattle.cl_schedule.specs.Turns.{FatesOf, MayTurn};
ghost use Rattle.cl_schedule.specs.declared.setting.Setting as settings;
ghost use Rattle.cl_schedule.specs.declared.progress.Taken.TheVariants as takes;

use crate::Setting;
use crate::choosing::taken;
use crate::meeting::{is_gone, meet, pass, tell};
use crate::progress::{Progress, Taken};
use cl_io::Fates;
use cl_types::Refused;
use cl_world::{LineList, World};

// A turn that takes a packet.
fn take_packet<F: Fates>(
    world: &mut World,
    progress: &mut Progress,
    fates: &F,
    id: u64,
    to: u32,
) -> Result<(), Refused>
    requires room { progress.old.turns < 2 ^ 64 - 1 }
    requires course { (shape : Shape) × (setting : settings.Setting) × (lines : List (List ℕ)) × (course : Course)
        × MayMake shape setting world.old progress.old lines course (Some (takes.Packet id to)) }
    ensures { (shape : Shape) (setting : settings.Setting) (lines : List (List ℕ)) (course : Course)
        → MayMake shape setting world.old progress.old lines course (Some (takes.Packet id to))
        → IsMade shape setting (F.fates fates.now) world.new progress.new lines course result }
{
    let fate = fates.fate(id, progress.asked.times(id));
    let Ok(()) = progress.asked.meet(id, is_gone(fate)) else {
        return Err(Refused::NoMemory);
    };
    meet(world, fate, id, to)?;
    progress.turns += 1;
    Ok(())
}

// A turn that takes a line.
fn take_line(
    world: &mut World,
    progress: &mut Progress,
    lines: &LineList,
    setting: &Setting,
    text: &[u8],
) -> Result<(), Refused>
    requires { (shape : Shape) × (course : Course) × MayMake shape setting.now world.old progress.old (texts_of lines.now) course (Some (takes.Line text)) }
    ensures { (shape : Shape) (fates : FatesOf) (course : Course) → MayMake shape setting.now world.old progress.old (texts_of lines.now) course (Some (takes.Line text.entry))
        → IsMade shape setting.now fates world.new progress.new (texts_of lines.now) course result }
{
    // The index is below this number, so the next index fits.
    let _count = lines.len();
    tell(world, text, setting.step)?;
    progress.fed += 1;
    progress.turns += 1;
    Ok(())
}

// A turn in which time passes for an actor.
fn take_time(world: &mut World, progress: &mut Progress, actor: u32) -> Result<(), Refused>
    requires room { progress.old.turns < 2 ^ 64 - 1 }
    requires course { (shape : Shape) × (setting : settings.Setting) × (lines : List (List ℕ)) × (course : Course)
        × MayMake shape setting world.old progress.old lines course (Some (takes.Time actor)) }
    ensures { (shape : Shape) (setting : settings.Setting) (fates : FatesOf) (lines : List (List ℕ)) (course : Course)
        → MayMake shape setting world.old progress.old lines course (Some (takes.Time actor))
        → IsMade shape setting fates world.new progress.new lines course result }
{
    pass(world, actor)?;
    progress.turns += 1;
    Ok(())
}

// A turn that takes nothing.
fn take_nothing(world: &World, progress: &mut Progress) -> Result<(), Refused>
    requires room { progress.old.turns < 2 ^ 64 - 1 }
    requires course { (shape : Shape) × (setting : settings.Setting) × (lines : List (List ℕ)) × (course : Course)
        × MayMake shape setting world.now progress.old lines course None }
    ensures { (shape : Shape) (setting : settings.Setting) (fates : FatesOf) (lines : List (List ℕ)) (course : Course)
        → MayMake shape setting world.now progress.old lines course None
        → IsMade shape setting fates world.now progress.new lines course result }
{
    progress.turns += 1;
    Ok(())
}

// Makes a turn that takes this.
fn take<F: Fates>(
    world: &mut World,
    progress: &mut Progress,
    lines: &LineList,
    setting: &Setting,
    fates: &F,
    taken: Taken,
) -> Result<(), Refused>
    requires room { progress.old.turns < 2 ^ 64 - 1 }
    requires course { (shape : Shape) × (course : Course) × MayMake shape setting.now world.old progress.old (texts_of lines.now) course (Some taken) }
    ensures { (shape : Shape) (course : Course) → MayMake shape setting.now world.old progress.old (texts_of lines.now) course (Some taken.entry)
        → IsMade shape setting.now (F.fates fates.now) world.new progress.new (texts_of lines.now) course result }
{
    match taken {
        Taken::Packet(id, to) => take_packet(world, progress, fates, id, to),
        Taken::Line(text) => take_line(world, progress, lines, setting, text),
        Taken::Time(actor) => take_time(world, progress, actor),
    }
}

/// Makes the next turn.
pub(crate) fn turn<F: Fates>(
    world: &mut World,
    progress: &mut Progress,
    lines: &LineList,
    setting: &Setting,
    fates: &F,
) -> Result<(), Refused>
    requires room { progress.old.turns < 2 ^ 64 - 1 }
    requires course { (shape : Shape) × (course : Course) × IsAtCourse shape world.old progress.old (texts_of lines.now) course × MayTurn shape setting.now course }
    ensures { (shape : Shape) (course : Course) → IsAtCourse shape world.old progress.old (texts_of lines.now) course → MayTurn shape setting.now course
        → IsMade shape setting.now (F.fates fates.now) world.new progress.new (texts_of lines.now) course result }
{
    let Ok(taken) = taken(world, progress, lines, setting) else {
        return Err(Refused::NoMemory);
    };
    match taken {
        Some(taken) => take(world, progress, lines, setting, fates, taken),
        None => take_nothing(world, progress),
    }
}
