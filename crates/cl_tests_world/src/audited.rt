//! What an audit counts, and how many packets are on their way.
ghost use Rattle.cl_roster.specs.Roster.{IsClusterSize};

use crate::running::{Step, What, goes};
use cl_types::Refused;
use cl_world::World;
use std::alloc::Global;
use std::process::Abort;
use std::test::Fail;

// A step, and then how many records have a value, and how many packets are on their way.
#[derive(Clone, Copy)]
struct Row(Step, u64, u64);

const ROWS: [Row; 20] = [
    Row(Step::Makes(What::Feeds(1, "1 BEGIN")), 0, 1),
    Row(Step::AllCome, 0, 0),
    Row(Step::Makes(What::Feeds(2, "1 PUT t a x")), 0, 1),
    Row(Step::AllCome, 1, 0),
    Row(Step::Makes(What::Feeds(3, "1 PUT t b y")), 1, 1),
    Row(Step::AllCome, 2, 0),
    Row(Step::Makes(What::Feeds(4, "1 COMMIT")), 2, 1),
    Row(Step::AllCome, 2, 0),
    Row(Step::Makes(What::Feeds(5, "1 BEGIN")), 2, 1),
    Row(Step::AllCome, 2, 0),
    Row(Step::Makes(What::Feeds(6, "1 DEL t a")), 2, 1),
    Row(Step::AllCome, 1, 0),
    Row(Step::Makes(What::Feeds(7, "1 COMMIT")), 1, 1),
    Row(Step::AllCome, 1, 0),
    Row(Step::Makes(What::Feeds(8, "1 BEGIN")), 1, 1),
    Row(Step::AllCome, 1, 0),
    Row(Step::Makes(What::Feeds(9, "1 DEL t b")), 1, 1),
    Row(Step::AllCome, 0, 0),
    Row(Step::Makes(What::Feeds(10, "1 ABORT")), 0, 1),
    Row(Step::AllCome, 1, 0),
];

fn counts(rt: &impl Abort, alloc: Global, nodes: u32) -> Result<(), Refused>
    requires { IsClusterSize nodes 0 }
{
    let mut world = World::new(alloc, nodes, 0)?;
    for row in ROWS {
        let Row(step, live, on_way) = row;
        goes(rt, alloc, &mut world, step)?;
        assert!(rt;
            world.audit() == (live, nodes, nodes) && world.on_way() == on_way,
            "{step:?}"
        );
    }
    Ok(())
}

#[test]
fn what_an_audit_counts(rt: HostRuntime) -> Result<(), Fail> {
    counts(&rt, rt.alloc(), 2)?;
    counts(&rt, rt.alloc(), 4)?;
    Ok(())
}
