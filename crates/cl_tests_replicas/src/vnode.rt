//! Two-phase commit over two primaries, message by message.
use crate::primaries::{Input, ONE, Row, Sent, TWO, Turn, hold};
use cl_steps::FRONT;
use cl_types::AbortCause;
use std::test::Fail;

const COMMIT: &[Row] = &[
    Row(
        "a begin",
        1,
        Turn::Takes(
            FRONT,
            ONE,
            Input::Begin(0),
            &[(FRONT, Sent::Begun(0))],
            false,
        ),
    ),
    Row(
        "a write at 0",
        1,
        Turn::Takes(
            FRONT,
            ONE,
            Input::Put(1, b"a"),
            &[(0, Sent::AskPut(0, 1))],
            false,
        ),
    ),
    Row(
        "it is carried out",
        0,
        Turn::Takes(
            1,
            ONE,
            Input::AskPut(0, 1, b"a"),
            &[(1, Sent::Stored(0, 1))],
            false,
        ),
    ),
    Row(
        "its answer",
        1,
        Turn::Takes(
            0,
            ONE,
            Input::Stored(0, 1),
            &[(FRONT, Sent::SaysStored(1))],
            false,
        ),
    ),
    Row(
        "a write at 1",
        1,
        Turn::Takes(
            FRONT,
            ONE,
            Input::Put(2, b"b"),
            &[(1, Sent::AskPut(1, 2))],
            false,
        ),
    ),
    Row(
        "it is carried out",
        1,
        Turn::Takes(
            1,
            ONE,
            Input::AskPut(1, 2, b"b"),
            &[(1, Sent::Stored(1, 2))],
            false,
        ),
    ),
    Row(
        "its answer",
        1,
        Turn::Takes(
            1,
            ONE,
            Input::Stored(1, 2),
            &[(FRONT, Sent::SaysStored(2))],
            false,
        ),
    ),
    Row(
        "a commit",
        1,
        Turn::Takes(
            FRONT,
            ONE,
            Input::Commit(3),
            &[(0, Sent::Prepare(0)), (1, Sent::Prepare(1))],
            false,
        ),
    ),
    Row(
        "0 prepares",
        0,
        Turn::Takes(1, ONE, Input::Prepare(0), &[(1, Sent::Vote(0))], false),
    ),
    Row(
        "its vote",
        1,
        Turn::Takes(0, ONE, Input::Vote(0), &[], false),
    ),
    Row(
        "its vote again",
        1,
        Turn::Takes(0, ONE, Input::Vote(0), &[], false),
    ),
    Row(
        "1 prepares",
        1,
        Turn::Takes(1, ONE, Input::Prepare(1), &[(1, Sent::Vote(1))], false),
    ),
    Row(
        "the last vote",
        1,
        Turn::Takes(
            1,
            ONE,
            Input::Vote(1),
            &[
                (0, Sent::Finish(0, true)),
                (1, Sent::Finish(1, true)),
                (FRONT, Sent::Committed(3)),
            ],
            true,
        ),
    ),
    Row(
        "0 ends",
        0,
        Turn::Takes(1, ONE, Input::Finish(0, true), &[], false),
    ),
    Row(
        "an end of what is not open",
        0,
        Turn::Takes(1, ONE, Input::Finish(0, true), &[], false),
    ),
    Row(
        "1 ends",
        1,
        Turn::Takes(1, ONE, Input::Finish(1, true), &[], false),
    ),
    Row(
        "the last vote again",
        1,
        Turn::Takes(1, ONE, Input::Vote(1), &[], false),
    ),
    Row("the write stands at 0", 0, Turn::Has(b"a", Some(b"x"))),
    Row("the write stands at 1", 1, Turn::Has(b"b", Some(b"x"))),
];

#[test]
fn a_commit_over_two_virtual_nodes(rt: HostRuntime) -> Result<(), Fail> {
    hold(&rt, rt.alloc(), COMMIT)?;
    Ok(())
}

const REFUSAL: &[Row] = &[
    Row(
        "a write of two",
        0,
        Turn::Takes(
            2,
            TWO,
            Input::AskPut(0, 1, b"a"),
            &[(2, Sent::Stored(0, 1))],
            false,
        ),
    ),
    Row(
        "a begin",
        1,
        Turn::Takes(
            FRONT,
            ONE,
            Input::Begin(0),
            &[(FRONT, Sent::Begun(0))],
            false,
        ),
    ),
    Row(
        "a read",
        1,
        Turn::Takes(
            FRONT,
            ONE,
            Input::Get(1, b"a"),
            &[(0, Sent::AskGet(0, 1))],
            false,
        ),
    ),
    Row(
        "it is refused",
        0,
        Turn::Takes(
            1,
            ONE,
            Input::AskGet(0, 1, b"a"),
            &[(1, Sent::Refused(0, 1))],
            false,
        ),
    ),
    Row(
        "the refusal",
        1,
        Turn::Takes(
            0,
            ONE,
            Input::Refused(0, 1),
            &[
                (0, Sent::Finish(0, false)),
                (FRONT, Sent::Aborted(1, AbortCause::Conflict(TWO))),
            ],
            false,
        ),
    ),
    Row(
        "an end of what never opened",
        0,
        Turn::Takes(1, ONE, Input::Finish(0, false), &[], false),
    ),
    Row(
        "two is rolled back",
        0,
        Turn::Takes(2, TWO, Input::Decision(0, false), &[], false),
    ),
    Row(
        "a write, now that its lock is free",
        0,
        Turn::Takes(
            1,
            ONE,
            Input::AskPut(0, 2, b"a"),
            &[(1, Sent::Stored(0, 2))],
            false,
        ),
    ),
    Row(
        "it is rolled back",
        0,
        Turn::Takes(1, ONE, Input::Finish(0, false), &[], false),
    ),
    Row("nothing stands", 0, Turn::Has(b"a", None)),
];

#[test]
fn a_refusal_aborts_and_a_rollback_ends(rt: HostRuntime) -> Result<(), Fail> {
    hold(&rt, rt.alloc(), REFUSAL)?;
    Ok(())
}

const ALONE: &[Row] = &[
    Row(
        "a begin",
        1,
        Turn::Takes(
            FRONT,
            ONE,
            Input::Begin(0),
            &[(FRONT, Sent::Begun(0))],
            false,
        ),
    ),
    Row(
        "a write",
        1,
        Turn::Takes(
            FRONT,
            ONE,
            Input::Put(1, b"a"),
            &[(0, Sent::AskPut(0, 1))],
            false,
        ),
    ),
    Row(
        "no memory there",
        1,
        Turn::Takes(
            0,
            ONE,
            Input::NoMemory(0, 1),
            &[
                (0, Sent::Finish(0, false)),
                (FRONT, Sent::Aborted(1, AbortCause::Memory)),
            ],
            false,
        ),
    ),
    Row(
        "a begin again",
        1,
        Turn::Takes(
            FRONT,
            ONE,
            Input::Begin(2),
            &[(FRONT, Sent::Begun(2))],
            false,
        ),
    ),
    Row(
        "a commit without participants",
        1,
        Turn::Takes(
            FRONT,
            ONE,
            Input::Commit(3),
            &[(FRONT, Sent::Committed(3))],
            true,
        ),
    ),
    Row("nothing is under way", 1, Turn::Rests),
];

#[test]
fn a_commit_alone_and_want_of_memory(rt: HostRuntime) -> Result<(), Fail> {
    hold(&rt, rt.alloc(), ALONE)?;
    Ok(())
}

const NOT_ADMITTED: &[Row] = &[
    Row(
        "a commit before its begin",
        1,
        Turn::Refuses(ONE, Input::Commit(1)),
    ),
    Row("what carries nothing", 1, Turn::Refuses(ONE, Input::Bare)),
];

#[test]
fn what_comes_at_another_time_is_not_admitted(rt: HostRuntime) -> Result<(), Fail> {
    hold(&rt, rt.alloc(), NOT_ADMITTED)?;
    Ok(())
}
