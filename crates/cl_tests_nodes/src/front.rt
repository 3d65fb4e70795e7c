//! A front that is fed lines and hears outcomes, with what it sends and prints.
ghost use Rattle.std.specs.Prelude.{OnOk, IfOk};
ghost use Rattle.cl_tests_nodes.specs.Run.{HasStepped};

use cl_actor::Core;
use cl_front::{FrontCore, numbers_grow_by_one};
use cl_lines::print_out;
use cl_post::OutList;
use cl_roster::Roster;
use cl_samples::txn;
use cl_serial::Said;
use cl_steps::Steps;
use cl_types::{AbortCause, NoMemory, Outcome, Refused, Reply};
use cl_wire::Body;
use std::alloc::Global;
use std::process::Abort;
use std::test::Fail;

// The outcome of a command.
#[derive(Clone, Copy)]
enum Heard {
    Begun,
    Stored,
    Absent,
    Committed,
    Aborted,
}

// What happens to the front.
#[derive(Clone, Copy)]
enum Happens {
    // It is fed a line.
    Line(&'static str),
    // It hears the outcome of this command of this transaction of session 1.
    Outcome(u64, u32, Heard),
}

// What happens, the number of the command that it sends, the text that it prints, and whether each line is then answered.
#[derive(Clone, Copy)]
struct Row(Happens, Option<u32>, &'static str, bool);

fn outcome(heard: Heard) -> Outcome {
    match heard {
        Heard::Begun => Outcome::Begun,
        Heard::Stored => Outcome::Done(Reply::Stored),
        Heard::Absent => Outcome::Done(Reply::Absent),
        Heard::Committed => Outcome::Committed,
        Heard::Aborted => Outcome::Aborted(AbortCause::Client),
    }
}

// A front among the two nodes that its roster has, and how many steps and lines it had.
#[derive(Drop)]
struct Run {
    core: FrontCore,
    roster: Roster,
    steps: u32,
    lines: u64,
    alloc: Global,
}

// The number of the command that is sent, where it is one alone, and goes to node 1 as virtual node 1.
fn sent(steps: &Steps) -> Option<u32> {
    match steps.send.as_slice() {
        [sent] if sent.to == 1 => match sent.payload.body() {
            Body::Command(1, _, number, _) => Some(*number),
            _ => None,
        },
        _ => None,
    }
}

impl Run {
    fn new(alloc: Global) -> Result<Run, NoMemory>
        ensures { IfOk result (λ run. HasStepped run.core run.steps) }
    {
        numbers_grow_by_one();
        Ok(Run {
            core: FrontCore::new(alloc)?,
            roster: Roster::new(alloc, 2, 0),
            steps: 0,
            lines: 0,
            alloc,
        })
    }

    fn feed(&mut self, rt: &impl Abort, text: &str) -> Result<Steps, Refused>
        requires { HasStepped self.old.core self.old.steps }
        ensures { OnOk result (HasStepped self.new.core self.new.steps) }
    {
        numbers_grow_by_one();
        assert!(rt; self.steps < 1000 && self.lines < 1000);
        self.lines += 1;
        let said = OutList::new(self.alloc);
        let steps = self
            .core
            .feed(&self.roster, self.lines, text.as_bytes(), &said)?;
        self.core.settle();
        self.steps += 1;
        Ok(steps)
    }

    fn hear(
        &mut self,
        rt: &impl Abort,
        txn_number: u64,
        number: u32,
        heard: Heard,
    ) -> Result<Steps, Refused>
        requires { HasStepped self.old.core self.old.steps }
        ensures { OnOk result (HasStepped self.new.core self.new.steps) }
    {
        numbers_grow_by_one();
        assert!(rt; self.steps < 1000);
        let body = Body::Outcome(txn(1, txn_number), number, outcome(heard));
        let steps = self.core.deliver(&self.roster, 1, &body)?;
        self.core.settle();
        self.steps += 1;
        Ok(steps)
    }

    fn step(&mut self, rt: &impl Abort, happens: Happens) -> Result<Steps, Refused>
        requires { HasStepped self.old.core self.old.steps }
        ensures { OnOk result (HasStepped self.new.core self.new.steps) }
    {
        match happens {
            Happens::Line(text) => self.feed(rt, text),
            Happens::Outcome(txn_number, number, heard) => {
                self.hear(rt, txn_number, number, heard)
            }
        }
    }

    // Whether what was printed from this entry of the transcript on is this text.
    fn printed(&self, from: usize, text: &str) -> Result<bool, NoMemory> {
        let mut all = Vec::new(self.alloc);
        for said in self.core.transcript().as_slice().iter().skip(from) {
            if let Said::Out(out) = said {
                all.extend_from_slice(&print_out(self.alloc, out)?)?;
            }
        }
        Ok(all.as_slice() == text.as_bytes())
    }

    // Whether it goes as the row says.
    fn goes(&mut self, rt: &impl Abort, row: Row) -> Result<bool, Refused>
        requires { HasStepped self.old.core self.old.steps }
        ensures { OnOk result (HasStepped self.new.core self.new.steps) }
    {
        let Row(happens, command, text, answered) = row;
        let from = self.core.transcript().len();
        let steps = self.step(rt, happens)?;
        Ok(sent(&steps) == command && self.printed(from, text)? && self.core.answered() == answered)
    }

    // Whether it goes as the rows say, one after another.
    fn all_go(&mut self, rt: &impl Abort, rows: &[Row]) -> Result<bool, Refused>
        requires { HasStepped self.old.core self.old.steps }
        ensures { OnOk result (HasStepped self.new.core self.new.steps) }
    {
        for row in rows {
            if !self.goes(rt, *row)? {
                return Ok(false);
            }
        }
        Ok(true)
    }
}

#[test]
fn a_transaction(rt: HostRuntime) -> Result<(), Fail> {
    let rows = [
        Row(Happens::Line("1 GET t a"), None, "1 ERR NOTXN\n", true),
        Row(Happens::Line("1 BEGIN"), Some(0), "", false),
        Row(Happens::Outcome(1, 0, Heard::Begun), None, "1 OK\n", true),
        Row(Happens::Line("1 PUT t a v"), Some(1), "", false),
        Row(Happens::Outcome(1, 0, Heard::Begun), None, "", false),
        Row(Happens::Outcome(1, 1, Heard::Stored), None, "1 OK\n", true),
        Row(Happens::Line("1 COMMIT"), Some(2), "", false),
        Row(Happens::Outcome(2, 2, Heard::Committed), None, "", false),
        Row(
            Happens::Outcome(1, 2, Heard::Committed),
            None,
            "1 COMMITTED\n",
            true,
        ),
        Row(Happens::Line("1 COMMIT"), None, "1 ERR NOTXN\n", true),
        Row(Happens::Line("1"), None, "* ERR LINE 6 WORDS\n", true),
    ];
    let mut run = Run::new(rt.alloc())?;
    assert!(rt; run.all_go(&rt, &rows)?);
    Ok(())
}

#[test]
fn lines_that_wait_have_their_turns_in_order(rt: HostRuntime) -> Result<(), Fail> {
    let rows = [
        Row(Happens::Line("1 BEGIN"), Some(0), "", false),
        Row(Happens::Line("1 BEGIN"), None, "", false),
        Row(Happens::Line("1 GET t a"), None, "", false),
        Row(
            Happens::Outcome(1, 0, Heard::Begun),
            Some(1),
            "1 OK\n1 ERR INTXN\n",
            false,
        ),
        Row(Happens::Line("1 COMMIT"), None, "", false),
        Row(Happens::Line("1 GET t a"), None, "", false),
        Row(Happens::Line("1 BEGIN"), None, "", false),
        Row(Happens::Line("1 ABORT"), None, "", false),
        Row(Happens::Line("2 COMMIT"), None, "2 ERR NOTXN\n", false),
        Row(
            Happens::Outcome(1, 1, Heard::Absent),
            Some(2),
            "1 NONE\n",
            false,
        ),
        Row(
            Happens::Outcome(1, 2, Heard::Committed),
            Some(0),
            "1 COMMITTED\n1 ERR NOTXN\n",
            false,
        ),
        Row(
            Happens::Outcome(2, 0, Heard::Begun),
            Some(1),
            "1 OK\n",
            false,
        ),
        Row(
            Happens::Outcome(2, 1, Heard::Aborted),
            None,
            "1 ABORTED CLIENT\n",
            true,
        ),
    ];
    let mut run = Run::new(rt.alloc())?;
    assert!(rt; run.all_go(&rt, &rows)?);
    Ok(())
}

#[test]
fn a_65th_operation_is_refused_and_does_not_count(rt: HostRuntime) -> Result<(), Fail> {
    let mut run = Run::new(rt.alloc())?;
    let begin = Row(Happens::Line("1 BEGIN"), Some(0), "", false);
    assert!(rt; run.goes(&rt, begin)?);
    for number in 1..=64 {
        let heard = if number == 1 {
            Heard::Begun
        } else {
            Heard::Stored
        };
        let rows = [
            Row(Happens::Outcome(1, number - 1, heard), None, "1 OK\n", true),
            Row(Happens::Line("1 DEL t a"), Some(number), "", false),
        ];
        assert!(rt; run.all_go(&rt, &rows)?, "operation {number}");
    }
    let rows = [
        Row(Happens::Outcome(1, 64, Heard::Stored), None, "1 OK\n", true),
        Row(Happens::Line("1 DEL t a"), None, "1 ERR FULL\n", true),
        Row(Happens::Line("1 COMMIT"), Some(65), "", false),
    ];
    assert!(rt; run.all_go(&rt, &rows)?);
    Ok(())
}

#[test]
fn a_transcript_is_taken(rt: HostRuntime) -> Result<(), Fail> {
    let mut run = Run::new(rt.alloc())?;
    let faulty = Row(
        Happens::Line("65 BEGIN"),
        None,
        "* ERR LINE 1 SESSION\n",
        true,
    );
    let good = run.goes(&rt, faulty)?;
    run.core.quiet()?;
    let taken = run.core.take_transcript();
    assert!(rt; good && taken.len() == 3 && run.core.transcript().is_empty());
    Ok(())
}
