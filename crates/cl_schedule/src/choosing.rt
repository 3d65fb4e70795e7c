//! What a turn takes.
ghost use Rattle.std.specs.Prelude.{◌≡◌, ◌<◌, ◌+◌, ◌++◌, ◌∷◌, [], IfOk, OnOk, drop, if◌then◌else◌, length, map, slice_get};
ghost use Rattle.std.specs.Option.{option_copied, option_map};
ghost use Rattle.cl_ranked.specs.Slots.{kept};
ghost use Rattle.cl_runs.specs.World.{Shape, Run};
ghost use Rattle.cl_schedule.specs.Course as courses;
ghost use Rattle.cl_schedule.specs.Course.{Course, is_quiet, time};
ghost use Rattle.cl_schedule.specs.Making.{IsAtCourse, IsSound, candidate_of, line_list, packets_in, texts_of, times_at};
ghost use Rattle.cl_schedule.specs.Turns as turns;
ghost use Rattle.cl_world.specs.World.{moment_after};

use crate::Setting;
use crate::progress::{Progress, Taken};
use cl_steps::FRONT;
use cl_types::{NoMemory, mix};
use cl_world::{LineList, World, waits_for_quiet};

// The place of the candidate that a turn takes, of so many.
fn place_in(seed: u64, turn: u64, count: u128) -> u64
    requires { 0 < count }
    ensures place { result ≡ turns.place_in seed turn count }
    ensures within { result < count }
{
    if seed == 0 {
        0
    } else {
        (u128::from(mix(mix(seed.wrapping_add(1)).wrapping_add(turn))) % count) as u64
    }
}

/// Whether a line waits for a quiet moment.
pub(crate) fn must_wait(step: bool, text: &[u8]) -> bool
    ensures { result ≡ courses.must_wait step text.now }
{
    step || waits_for_quiet(text)
}

/// Whether the moment is quiet.
pub(crate) fn rests(world: &World) -> bool
    ensures { (shape : Shape) (run : Run) → IsSound shape world.now run → result ≡ is_quiet shape (moment_after shape run) }
{
    world.quiet()
}

// The line of an index, where there is one.
fn line_at(lines: &LineList, index: usize) -> Option<&[u8]>
    ensures { option_copied result ≡ slice_get (texts_of lines.now) index }
{
    Some(lines.at(index)?.bytes())
}

// The next line, where it may be fed.
fn next_line<'a>(world: &World, lines: &'a LineList, fed: usize, step: bool) -> Option<&'a [u8]>
    ensures { (shape : Shape) (run : Run) → IsSound shape world.now run
        → line_list result ≡ courses.next_line step (is_quiet shape (moment_after shape run)) (drop fed (texts_of lines.now)) }
{
    let Some(text) = line_at(lines, fed) else {
        return None;
    };
    if !must_wait(step, text) {
        return Some(text);
    }
    if rests(world) { Some(text) } else { None }
}

// Notes an actor, if it waits.
fn add_where(actors: &mut Vec<u32>, actor: u32, waits: bool) -> Result<(), NoMemory>
    ensures { OnOk result (actors.new.items ≡ actors.old.items ++ (if waits then actor ∷ [] else [])) }
{
    if waits {
        actors.push(actor)?;
    }
    Ok(())
}

// The actors with a message that is unsent or unacknowledged, the front first.
fn waiting_actors(world: &World) -> Result<Vec<u32>, NoMemory>
    requires { (shape : Shape) × (run : Run) × IsSound shape world.now run }
    ensures { IfOk result (λ actors. (shape : Shape) (run : Run) → IsSound shape world.now run
        → map time actors.items ≡ courses.waiting_actors shape (moment_after shape run)) }
{
    let mut actors = Vec::new(world.alloc());
    add_where(&mut actors, FRONT, world.waiting(FRONT))?;
    for index in 0..world.members() {
        let actor = index as u32;
        add_where(&mut actors, actor, world.waiting(actor))?;
    }
    Ok(actors)
}

// For whom time passes in a turn that finds no packet and no line, if for anyone.
fn time_taken(world: &World, seed: u64, turn: u64) -> Result<Option<u32>, NoMemory>
    requires { (shape : Shape) × (run : Run) × IsSound shape world.now run }
    ensures { IfOk result (λ actor. (shape : Shape) (run : Run) → IsSound shape world.now run
        → option_map time actor ≡ slice_get (times_at shape run) (turns.place_in seed turn (length (times_at shape run)))) }
{
    if rests(world) {
        return Ok(None);
    }
    let actors = waiting_actors(world)?;
    if actors.is_empty() {
        return Ok(None);
    }
    let place = place_in(seed, turn, actors.len() as u128);
    Ok(actors.get(place as usize).copied())
}

// That time passes for an actor, if for anyone.
fn as_taken<'a>(actor: Option<u32>) -> Option<Taken<'a>>
    ensures { option_map candidate_of result ≡ option_map time actor }
{
    match actor {
        Some(actor) => Some(Taken::Time(actor)),
        None => None,
    }
}

// How many packets and lines may be taken.
fn count_of(world: &World, line: Option<&[u8]>) -> u128
    ensures { result ≡ length (kept world.now.mail) + length (line_list line.entry) }
{
    let packets = u128::from(world.on_way());
    match line {
        Some(_) => packets + 1,
        None => packets,
    }
}

// The packet at a place, and behind the last of them the line.
fn packet_or_line<'a>(world: &World, line: Option<&'a [u8]>, place: u64) -> Option<Taken<'a>>
    requires { place < length (kept world.now.mail) + length (line_list line) }
    ensures { option_map candidate_of result ≡ slice_get (packets_in world.now ++ line_list line.entry) place }
{
    match world.way(place as usize) {
        Some((id, to)) => Some(Taken::Packet(id, to)),
        None => match line {
            Some(text) => Some(Taken::Line(text)),
            None => None,
        },
    }
}

/// What the next turn takes, if anything.
pub(crate) fn taken<'a>(
    world: &World,
    progress: &Progress,
    lines: &'a LineList,
    setting: &Setting,
) -> Result<Option<Taken<'a>>, NoMemory>
    requires course { (shape : Shape) × (course : Course) × IsAtCourse shape world.now progress.now (texts_of lines.now) course }
    requires turns { progress.now.turns < setting.now.turns }
    ensures { IfOk result (λ taken. (shape : Shape) (course : Course) → IsAtCourse shape world.now progress.now (texts_of lines.now) course
        → option_map candidate_of taken ≡ turns.taken shape setting.now course) }
{
    let turn = progress.turns + 1;
    let line = next_line(world, lines, progress.fed, setting.step);
    let count = count_of(world, line);
    if count == 0 {
        return Ok(as_taken(time_taken(world, setting.seed, turn)?));
    }
    let place = place_in(setting.seed, turn, count);
    Ok(packet_or_line(world, line, place))
}
