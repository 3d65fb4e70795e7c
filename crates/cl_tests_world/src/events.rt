//! The first transaction, over networks that deliver, lose, repeat and hold back packets.
use crate::running::{Step, What, goes, told};
use cl_samples::txn;
use cl_steps::FRONT;
use cl_types::Refused;
use cl_world::{Kept, World};
use std::alloc::Global;
use std::process::Abort;
use std::test::Fail;

// What all runs of the first transaction write.
const TEXT: &str = "1 BEGIN\n1 OK\n1 PUT t a x\n1 OK\n1 PUT t b y\n1 OK\n1 COMMIT\n1 COMMITTED\n";

// What a transaction of one operation writes while its COMMITTED is withheld, and with it.
const WITHHELD: &str = "1 BEGIN\n1 OK\n1 PUT t a x\n1 OK\n1 COMMIT\n";

const ANSWERED: &str = "1 BEGIN\n1 OK\n1 PUT t a x\n1 OK\n1 COMMIT\n1 COMMITTED\n";

// A step, and whether the moment is then quiet. Session 1 is of virtual node 1, and key `a` of virtual node 0, whose log
// goes to node 1.
const COMMIT: [(Step, bool); 21] = [
    (Step::Makes(What::Feeds(1, "1 BEGIN")), false),
    (Step::Comes(1, 1), false),
    (Step::Comes(FRONT, 2), false),
    (Step::Comes(1, 3), true),
    (Step::Makes(What::Rests), true),
    (Step::Makes(What::Feeds(2, "1 PUT t a x")), false),
    (Step::Comes(1, 4), false),
    (Step::Comes(FRONT, 5), false),
    (Step::Comes(0, 6), false),
    (Step::Comes(1, 7), false),
    (Step::Comes(1, 8), false),
    (Step::Comes(0, 9), false),
    (Step::Comes(0, 10), false),
    (Step::Comes(FRONT, 11), false),
    (Step::Comes(1, 12), false),
    (Step::Comes(1, 13), true),
    (Step::Makes(What::Feeds(3, "1 PUT t b y")), false),
    (Step::AllCome, true),
    (Step::Makes(What::Feeds(4, "1 COMMIT")), false),
    (Step::AllCome, true),
    (Step::Makes(What::Rests), true),
];

// A packet that is lost is emitted again, under a new number, after a tick of its sender.
const LOSSES: [(Step, bool); 19] = [
    (Step::Makes(What::Feeds(1, "1 BEGIN")), false),
    (Step::IsLost(1, 1), false),
    (Step::Makes(What::Ticks(FRONT)), false),
    (Step::Comes(1, 2), false),
    (Step::IsLost(FRONT, 3), false),
    (Step::Makes(What::Ticks(1)), false),
    (Step::Comes(FRONT, 4), false),
    (Step::Comes(1, 5), true),
    (Step::Makes(What::Feeds(2, "1 PUT t a x")), false),
    (Step::Comes(1, 6), false),
    (Step::Comes(FRONT, 7), false),
    (Step::IsLost(0, 8), false),
    (Step::Makes(What::Ticks(1)), false),
    (Step::Comes(0, 9), false),
    (Step::AllCome, true),
    (Step::Makes(What::Feeds(3, "1 PUT t b y")), false),
    (Step::AllCome, true),
    (Step::Makes(What::Feeds(4, "1 COMMIT")), false),
    (Step::AllCome, true),
];

const TWICE: [(Step, bool); 8] = [
    (Step::Makes(What::Feeds(1, "1 BEGIN")), false),
    (Step::AllComeTwice, true),
    (Step::Makes(What::Feeds(2, "1 PUT t a x")), false),
    (Step::AllComeTwice, true),
    (Step::Makes(What::Feeds(3, "1 PUT t b y")), false),
    (Step::AllComeTwice, true),
    (Step::Makes(What::Feeds(4, "1 COMMIT")), false),
    (Step::AllComeTwice, true),
];

// The Decide is in the log of virtual node 1. Its standby has taken it, and what says so is held back in the first eight
// steps, while time passes at the primary.
const HELD: [(Step, bool); 10] = [
    (Step::Makes(What::Feeds(1, "1 BEGIN")), false),
    (Step::AllCome, true),
    (Step::Makes(What::Feeds(2, "1 PUT t a x")), false),
    (Step::AllCome, true),
    (Step::Makes(What::Feeds(3, "1 COMMIT")), false),
    (Step::AllComeButAcks(1), false),
    (Step::Makes(What::Ticks(1)), false),
    (Step::AllComeButAcks(1), false),
    (Step::Comes(1, 21), false),
    (Step::AllCome, true),
];

fn run(rt: &impl Abort, alloc: Global, rows: &[(Step, bool)]) -> Result<World, Refused> {
    let mut world = World::new(alloc, 2, 0)?;
    for row in rows {
        let (step, quiet) = *row;
        goes(rt, alloc, &mut world, step)?;
        assert!(rt; world.quiet() == quiet, "{step:?}");
    }
    Ok(world)
}

// Whether one transaction alone became firm.
fn is_firm_once(kept: &Kept) -> bool {
    kept.history.as_slice() == [txn(1, 1)].as_slice()
}

#[test]
fn the_first_transaction(rt: HostRuntime) -> Result<(), Fail> {
    let world = run(&rt, rt.alloc(), &COMMIT)?;
    assert!(rt; world.fed() == 4 && told(rt.alloc(), &world, TEXT)?);
    let kept = world.kept();
    // Four lines, 50 packets and two quiet moments.
    assert!(rt; is_firm_once(&kept) && kept.trace.len() == 56);
    Ok(())
}

#[test]
fn packets_are_lost_and_come_again(rt: HostRuntime) -> Result<(), Fail> {
    let world = run(&rt, rt.alloc(), &LOSSES)?;
    assert!(rt; world.fed() == 4 && told(rt.alloc(), &world, TEXT)?);
    assert!(rt; is_firm_once(&world.kept()));
    Ok(())
}

#[test]
fn packets_are_handled_twice(rt: HostRuntime) -> Result<(), Fail> {
    let world = run(&rt, rt.alloc(), &TWICE)?;
    assert!(rt; told(rt.alloc(), &world, TEXT)?);
    assert!(rt; is_firm_once(&world.kept()));
    Ok(())
}

// Whether the transaction is firm after these steps, and this text was fed and printed.
fn is_firm_and_told(
    rt: &impl Abort,
    alloc: Global,
    rows: &[(Step, bool)],
    text: &str,
) -> Result<bool, Refused> {
    let world = run(rt, alloc, rows)?;
    let is_told = told(alloc, &world, text)?;
    Ok(is_told && is_firm_once(&world.kept()))
}

#[test]
fn an_answer_waits_for_the_standby(rt: HostRuntime) -> Result<(), Fail> {
    let before = is_firm_and_told(&rt, rt.alloc(), &HELD[..8], WITHHELD)?;
    let after = is_firm_and_told(&rt, rt.alloc(), &HELD, ANSWERED)?;
    assert!(rt; before && after);
    Ok(())
}
