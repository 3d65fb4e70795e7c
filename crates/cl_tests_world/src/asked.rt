//! What may not happen.
use crate::running::{Step, What, goes, may};
use cl_steps::FRONT;
use cl_types::Refused;
use cl_world::World;
use std::alloc::Global;
use std::process::Abort;
use std::test::Fail;

// What happens, and then what is asked for, and whether it may happen.
#[derive(Clone, Copy)]
struct Row(Step, &'static [(What, bool)]);

const FIRST: &[(What, bool)] = &[
    (What::Handles(1, 1), false),
    (What::Feeds(0, "1 BEGIN"), false),
    (What::Feeds(1, "1 BEGIN"), true),
    (What::Feeds(2, "1 BEGIN"), false),
    (What::Feeds(1, "QUIET"), false),
    (What::Ticks(1), true),
    (What::Ticks(2), false),
    (What::Rests, true),
];

const FED: &[(What, bool)] = &[
    (What::Handles(1, 1), true),
    (What::Handles(1, 0), false),
    (What::Handles(1, 2), false),
    (What::Handles(0, 1), false),
    (What::Handles(FRONT, 1), false),
    (What::Feeds(1, "1 PUT t a x"), false),
    (What::Feeds(2, "1 PUT t a x"), true),
    (What::Feeds(2, "QUIET"), false),
    (What::Rests, false),
];

const HANDLED: &[(What, bool)] = &[
    (What::Handles(1, 1), false),
    (What::Handles(FRONT, 2), true),
    (What::Rests, false),
];

const ANSWERED: &[(What, bool)] = &[(What::Handles(1, 3), true), (What::Rests, false)];

const RESTS: &[(What, bool)] = &[(What::Rests, true), (What::Feeds(2, "QUIET"), false)];

const QUIET: &[(What, bool)] = &[
    (What::Rests, true),
    (What::Feeds(2, "QUIET"), true),
    (What::Feeds(3, "QUIET"), false),
];

const ROWS: [Row; 7] = [
    Row(Step::AllCome, FIRST),
    Row(Step::Makes(What::Feeds(1, "1 BEGIN")), FED),
    Row(Step::Comes(1, 1), HANDLED),
    Row(Step::Comes(FRONT, 2), ANSWERED),
    Row(Step::AllCome, RESTS),
    Row(Step::Makes(What::Rests), QUIET),
    Row(Step::Makes(What::Ticks(0)), RESTS),
];

fn answers(
    rt: &impl Abort,
    alloc: Global,
    world: &World,
    asked: &[(What, bool)],
) -> Result<(), Refused> {
    for (what, wanted) in asked {
        assert!(rt; may(alloc, world, *what)? == *wanted, "{what:?}");
    }
    Ok(())
}

#[test]
fn what_may_happen(rt: HostRuntime) -> Result<(), Fail> {
    let mut world = World::new(rt.alloc(), 2, 0)?;
    for row in ROWS {
        let Row(step, asked) = row;
        goes(&rt, rt.alloc(), &mut world, step)?;
        answers(&rt, rt.alloc(), &world, asked)?;
    }
    Ok(())
}
