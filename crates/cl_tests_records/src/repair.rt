//! Tests of `cl_repair`.
use cl_repair::{Mode, Modes};
use cl_roster::{Roles, RosterEntry};
use std::test::Fail;

// A call, with what it must answer.
#[derive(Clone, Copy, Debug)]
enum Step {
    Acked(u64),
    Note(RosterEntry),
    Safe(u64, bool),
    SafeTo(u64, u64),
    Mode(Mode),
}

// Whether the call has its answer.
fn is_answered(modes: &mut Modes, step: Step) -> bool {
    match step {
        Step::Acked(number) => modes.acked(number).is_none(),
        Step::Note(entry) => {
            modes.note(entry);
            true
        }
        Step::Safe(number, wanted) => modes.safe(number) == wanted,
        Step::SafeTo(last, wanted) => modes.safe_to(last) == wanted,
        Step::Mode(wanted) => modes.mode() == wanted,
    }
}

#[test]
fn a_pair_is_safe_as_far_as_acknowledged_until_its_standby_stops(
    rt: HostRuntime,
) -> Result<(), Fail> {
    let steps = [
        Step::Mode(Mode::Pair(1)),
        Step::Safe(1, false),
        Step::Acked(3),
        Step::Acked(2),
        Step::Safe(3, true),
        Step::Safe(4, false),
        Step::SafeTo(9, 3),
        Step::Note(RosterEntry::Stopped(2)),
        Step::Mode(Mode::Pair(1)),
        Step::Note(RosterEntry::Stopped(1)),
        Step::Mode(Mode::Lone),
        Step::Safe(9, true),
        Step::SafeTo(9, 9),
    ];
    let mut modes = Modes::new(
        0,
        &Roles {
            primary: 0,
            standby: Some(1),
        },
    );
    for step in steps {
        assert!(rt; is_answered(&mut modes, step), "{step:?}");
    }
    Ok(())
}
