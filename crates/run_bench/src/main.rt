//! Makes runs of the cluster, in ten parts each: sessions transfer between accounts, and packets are lost. After each part
//! it writes how many events there are so far, and flushes. Four words give a load. With none there are two runs of 64
//! sessions over 1,000 accounts, 100,000 lines each: the first loses no packet, the second 5 in a hundred.
//! `bench/events-per-second` measures it.
#![tactic(auto)]

ghost use Rattle.std.specs.Prelude.{OnOk};
ghost use Rattle.run_bench.specs.Ready.{IsReady};

mod load;
mod losing;
mod transfers;

use cl_io::{Fates, Sink, StdSink, write_all};
use cl_schedule::{Setting, schedule};
use cl_types::{NoMemory, Refused};
use cl_world::World;
use load::{Load, load_of};
use losing::Losing;
use std::alloc::{AllocGlobal, Global};
use std::env::{self, Env};
use std::process::ExitCode;
use transfers::lines_of_part;

// How many parts a run has.
const PARTS: u64 = 10;

// The cluster, and as many turns as each part may need.
const SETTING: Setting = Setting {
    nodes: 4,
    spares: 2,
    step: false,
    seed: 0,
    turns: 10_000_000,
};

// What is run where no words give a load.
const CALM: Load = Load {
    sessions: 64,
    accounts: 1_000,
    lost: 0,
    transfers: 2_500,
};

const LOSSY: Load = Load {
    sessions: 64,
    accounts: 1_000,
    lost: 5,
    transfers: 2_500,
};

// Writes how many events there are after a part.
fn tell<K: Sink>(alloc: Global, sink: &mut K, world: &World) -> Result<(), NoMemory> {
    let text = format!(in alloc; "{}\n", world.events())?;
    match write_all(sink, text.as_bytes()) {
        Ok(()) => sink.flush().map_err(|_| NoMemory),
        Err(_) => Err(NoMemory),
    }
}

// Makes a part of a run.
fn make_part<K: Sink, F: Fates>(
    alloc: Global,
    sink: &mut K,
    fates: &F,
    world: &mut World,
    load: &Load,
    part: u64,
) -> Result<(), Refused>
    requires { IsReady world.old }
    ensures { OnOk result (IsReady world.new) }
{
    let lines = lines_of_part(alloc, load, part)?;
    schedule(world, &lines, &SETTING, fates)?;
    tell(alloc, sink, world)?;
    Ok(())
}

// Makes a run, part by part.
fn make_run<K: Sink, F: Fates>(
    alloc: Global,
    sink: &mut K,
    fates: &F,
    load: &Load,
) -> Result<(), Refused> {
    let mut world = World::new(alloc, SETTING.nodes, SETTING.spares)?;
    for part in 0..PARTS {
        make_part(alloc, sink, fates, &mut world, load, part)?;
    }
    Ok(())
}

// Makes a run of a load.
fn make_load<K: Sink>(alloc: Global, sink: &mut K, load: &Load) -> Result<(), Refused> {
    let fates = Losing {
        in_a_hundred: load.lost,
    };
    make_run(alloc, sink, &fates, load)
}

// The words after the program's name, where they can be had.
fn words_of<R: Env + AllocGlobal>(rt: &R) -> Option<Vec<String>> {
    let mut words = Vec::new(rt.alloc());
    for word in env::args(rt).ok()?.skip(1) {
        words.push(word).ok()?;
    }
    Some(words)
}

// Makes the run of the load that the words give, or both runs where there are none.
fn make_runs<K: Sink>(alloc: Global, sink: &mut K, words: &[String]) -> Result<(), Refused> {
    if words.is_empty() {
        make_load(alloc, sink, &CALM)?;
        return make_load(alloc, sink, &LOSSY);
    }
    match load_of(words) {
        Some(load) => make_load(alloc, sink, &load),
        None => Err(Refused::NoMemory),
    }
}

fn main(rt: HostRuntime) -> ExitCode {
    let Some(words) = words_of(&rt) else {
        return ExitCode::from(1);
    };
    let mut sink = StdSink::new(rt.stdout());
    match make_runs(rt.alloc(), &mut sink, &words) {
        Ok(()) => ExitCode::from(0),
        Err(_) => ExitCode::from(1),
    }
}
