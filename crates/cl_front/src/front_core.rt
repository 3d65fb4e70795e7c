//! The core of the front.
ghost use Rattle.std.specs.Prelude.{◌≡◌, [], IsTrue, IfOk, OnOk, OnErr};
ghost use Rattle.cl_front.specs.Front.{FrontState, new_front, quiet_front, is_answered};
ghost use Rattle.cl_front.specs.FrontCore.{IsFront, HasNextNumbers, transcript_in};
ghost use Rattle.cl_serial.specs.Transcript.{transcript_of};

use crate::recorder::Recorder;
use crate::sessions::Sessions;
use cl_actor::Core;
use cl_lines::{Line, Out, Unread, read_line};
use cl_post::OutList;
use cl_roster::Roster;
use cl_serial::{Said, Transcript};
use cl_steps::Steps;
use cl_types::{NoMemory, Refused, Text};
use cl_wire::Body;
use std::alloc::Global;

/// The core of the front: the sessions, and the transcript.
///
/// A session's commands go one at a time to its controller, the primary of the session's virtual node. Its further lines
/// wait. After a refusal the core may only be dropped, or its transcript taken, which is as before the step.
#[derive(Debug, Drop)]
pub struct FrontCore {
    sessions: Sessions,
    recorder: Recorder,
    alloc: Global,
}

impl FrontCore {
    /// The core of a front that was fed nothing. It allocates the sessions.
    pub fn new(alloc: Global) -> Result<FrontCore, NoMemory>
        ensures { IfOk result (λ core. IsFront core new_front) }
    {
        Ok(FrontCore {
            sessions: Sessions::new(alloc)?,
            recorder: Recorder::new(alloc),
            alloc,
        })
    }

    /// The transcript.
    pub fn transcript(&self) -> &Transcript
        ensures { transcript_of result.now ≡ transcript_in self.now }
    {
        self.recorder.transcript()
    }

    /// Takes the transcript, and leaves an empty one. It may be called after a refusal too.
    pub fn take_transcript(&mut self) -> Transcript
        ensures taken { transcript_of result ≡ transcript_in self.old }
        ensures left { (before : FrontState) → IsFront self.old before → IsFront self.new (record before { transcript = [] }) }
    {
        self.recorder.take(self.alloc)
    }

    /// Puts a quiet moment into the transcript. After an error all is as before.
    pub fn quiet(&mut self) -> Result<(), NoMemory>
        ensures ok { (before : FrontState) → IsFront self.old before → OnOk result (IsFront self.new (quiet_front before)) }
        ensures err { OnErr result (self.new ≡ self.old) }
    {
        self.recorder.put_aside(Said::Quiet)?;
        self.recorder.settle();
        Ok(())
    }

    /// Whether the step before was settled, and the next command of each session can have a number. It asks each session.
    pub(crate) fn is_ready(&self) -> bool
        ensures told { IsTrue result → (state : FrontState) × IsFront self.now state × HasNextNumbers state }
        ensures refused { (state : FrontState) → IsFront self.now state → HasNextNumbers state → IsTrue result }
    {
        self.recorder.is_settled() && self.sessions.have_next_numbers()
    }

    /// Whether each command that was fed was answered. It takes constant time; no contract says so.
    pub fn answered(&self) -> bool
        ensures { (state : FrontState) → IsFront self.now state → result ≡ is_answered state }
    {
        !self.sessions.is_busy()
    }
}

impl Core for FrontCore {
    ghost use Rattle.std.proofs.Common.{le_refl};
    ghost use Rattle.cl_front.specs.Front.{FrontState, new_front, delivered_front, fed_front, is_delivery_spent, is_line_spent, DeliveryFits, LineFits};
    ghost use Rattle.cl_front.specs.FrontCore.{IsFront, WillBeFront, transcript_in};

    ghost State = { FrontState };

    ghost is_state = { IsFront };

    ghost will_be = { WillBeFront };

    ghost first = { λ nodes spares me. new_front };

    ghost delivered = { delivered_front };

    ghost fed = { fed_front };

    ghost is_delivery_spent = { is_delivery_spent };

    ghost is_line_spent = { is_line_spent };

    ghost delivery_fits = { DeliveryFits };

    ghost line_fits = { LineFits };

    ghost transcript = { transcript_in };

    #[tactic(auto, unfolding(crate::specs::Front::is_delivery_spent))]
    fn deliver(&mut self, roster: &Roster, _from: u32, body: &Body) -> Result<Steps, Refused> {
        let mut steps = Steps::new(self.alloc);
        if let Body::Outcome(txn, number, outcome) = body {
            if self.sessions.awaits(*txn, *number) {
                let outcome = outcome.copy(self.alloc)?;
                self.sessions.hear(txn.session, outcome, roster, &mut self.recorder, &mut steps)?;
            }
        }
        Ok(steps)
    }

    #[tactic(auto, unfolding(crate::specs::Front::fed_front, crate::specs::Front::is_line_spent))]
    fn feed(
        &mut self,
        roster: &Roster,
        line: u64,
        text: &[u8],
        _said: &OutList,
    ) -> Result<Steps, Refused> {
        let mut steps = Steps::new(self.alloc);
        let copy = Text::copy_of(self.alloc, text)?;
        self.recorder.put_aside(Said::In(line, copy))?;
        match read_line(self.alloc, text) {
            Ok(Line::Client(session, command)) => {
                self.sessions
                    .offer(session, command, roster, &mut self.recorder, &mut steps)?;
            }
            Ok(Line::Operator(_)) => {}
            Err(Unread::Fault(fault)) => {
                let refusal = Out::BadLine(line, fault);
                self.recorder.put_aside(Said::Out(refusal))?;
            }
            Err(Unread::NoMemory) => return Err(Refused::NoMemory),
        }
        Ok(steps)
    }

    fn settle(&mut self) {
        self.recorder.settle();
    }

    ghost fewer_by_mark = { λ core noted state from content is to. le_refl _ };
}
