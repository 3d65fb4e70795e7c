//! The sessions of the front.
ghost use Rattle.std.specs.Prelude.{◌≡◌, ◌+◌, ◌≤◌, ◌++◌, map, replicate, true, if◌then◌else◌, IsTrue, IfOk, OnOk};
ghost use Rattle.std.specs.List.{All, list_any};
ghost use Rattle.cl_actor.specs.Core.{noted_of};
ghost use Rattle.cl_front.specs.Session.{no_session, is_busy, with_waiting, taken, heard, HasNextNumber};
ghost use Rattle.cl_front.specs.Sessions.{session_in, with_session, is_awaited};
ghost use Rattle.cl_post.specs.Steps.{IsSpentWhere};
ghost use Rattle.cl_serial.specs.Transcript.{written};
ghost use Rattle.cl_steps.specs.Steps.{step_of};

use crate::recorder::Recorder;
use crate::session::Session;
use cl_roster::Roster;
use cl_steps::Steps;
use cl_types::{Command, NoMemory, Outcome, Refused, SESSIONS_MAX, TxnId};
use std::alloc::Global;
use std::marker::Model;

/// The sessions, and how many of them are busy.
#[derive(Debug, Drop)]
pub(crate) struct Sessions {
    // Session 1 stands at index 0.
    sessions: Vec<Session>,
    busy: u32,
}

impl Model for Sessions {
    ghost use Rattle.std.specs.Prelude.{◌≡◌, List, length};
    ghost use Rattle.std.specs.List.{count_by};
    ghost use Rattle.cl_types.specs.declared.limits.TheConstants.{SESSIONS_MAX};
    ghost use Rattle.cl_front.specs.Session.{SessionState, is_busy};

    ghost Value = { List SessionState };

    ghost view = { λ sessions. sessions.sessions.items };

    ghost invariant = { λ sessions. (length sessions.sessions.items ≡ SESSIONS_MAX)
        × (sessions.busy ≡ count_by is_busy sessions.sessions.items) };
}

// The count of busy sessions once one of them is busy, or not, which was so before, or not.
fn recount(busy: u32, before: bool, after: bool) -> u32
    requires some { before ≡ true → 1 ≤ busy }
    requires few { busy ≤ SESSIONS_MAX }
    ensures { result + (if before then 1 else 0) ≡ busy + (if after then 1 else 0) }
{
    match (before, after) {
        (true, false) => busy - 1,
        (false, true) => busy + 1,
        _ => busy,
    }
}

impl Sessions {
    /// Sessions that have begun nothing.
    pub(crate) fn new(alloc: Global) -> Result<Sessions, NoMemory>
        ensures { IfOk result (λ sessions. sessions ≡ replicate SESSIONS_MAX no_session) }
    {
        let mut sessions = Vec::with_capacity(alloc, SESSIONS_MAX as usize)?;
        for _ in 0..SESSIONS_MAX {
            sessions.push(Session::new(alloc))?;
        }
        Ok(Sessions { sessions, busy: 0 })
    }

    /// Whether a command of some session waits, for its turn or for its outcome. It takes constant time; no contract
    /// says so.
    pub(crate) fn is_busy(&self) -> bool
        ensures { result ≡ list_any is_busy self.now }
    {
        self.busy > 0
    }

    /// Whether the next command of each session can have a number. It asks each.
    pub(crate) fn have_next_numbers(&self) -> bool
        ensures told { IsTrue result → All (λ session. HasNextNumber session.current) self.now }
        ensures refused { All (λ session. HasNextNumber session.current) self.now → IsTrue result }
    {
        self.sessions
            .iter()
            .all(|session| session.has_next_number())
    }

    /// Whether the transaction is that of its session, and its command of this number waits for its outcome.
    pub(crate) fn awaits(&self, txn: TxnId, number: u32) -> bool
        ensures { result ≡ is_awaited self.now txn number }
    {
        if txn.session < 1 || SESSIONS_MAX < txn.session {
            return false;
        }
        self.sessions[txn.session as usize - 1].awaits(txn.number, number)
    }

    /// Takes one more command of a session: it waits behind the others, and those that wait have their turns.
    pub(crate) fn offer(
        &mut self,
        number: u32,
        command: Command,
        roster: &Roster,
        recorder: &mut Recorder,
        steps: &mut Steps,
    ) -> Result<(), Refused>
        requires session { (1 ≤ number) × (number ≤ SESSIONS_MAX) }
        requires fits { HasNextNumber (session_in self.old number).current }
        ensures session { OnOk result (self.new
            ≡ with_session self.old number (taken (noted_of roster.now) number (with_waiting (session_in self.old number) command)).session) }
        ensures printed { OnOk result (recorder.new ≡ record recorder.old {
          aside = recorder.old.aside ++ map written (taken (noted_of roster.now) number (with_waiting (session_in self.old number) command)).outs;
        }) }
        ensures sent { OnOk result (step_of steps.new ≡ record (step_of steps.old) {
          sends = (step_of steps.old).sends ++ (taken (noted_of roster.now) number (with_waiting (session_in self.old number) command)).sends;
        }) }
        ensures spent { IsSpentWhere (taken (noted_of roster.now) number (with_waiting (session_in self.old number) command)).spent result }
        ensures unsettled { recorder.new.transcript ≡ recorder.old.transcript }
    {
        let index = number as usize - 1;
        let was_busy = self.sessions[index].is_busy();
        let result = self.sessions[index].offer(number, command, roster, recorder, steps);
        self.busy = recount(self.busy, was_busy, self.sessions[index].is_busy());
        result
    }

    /// Prints the outcome of the command of a session that waits for it, and the commands that wait have their turns.
    pub(crate) fn hear(
        &mut self,
        number: u32,
        outcome: Outcome,
        roster: &Roster,
        recorder: &mut Recorder,
        steps: &mut Steps,
    ) -> Result<(), Refused>
        requires session { (1 ≤ number) × (number ≤ SESSIONS_MAX) }
        requires fits { HasNextNumber (session_in self.old number).current }
        ensures session { OnOk result (self.new
            ≡ with_session self.old number (heard (noted_of roster.now) number (session_in self.old number) outcome).session) }
        ensures printed { OnOk result (recorder.new ≡ record recorder.old {
          aside = recorder.old.aside ++ map written (heard (noted_of roster.now) number (session_in self.old number) outcome).outs;
        }) }
        ensures sent { OnOk result (step_of steps.new ≡ record (step_of steps.old) {
          sends = (step_of steps.old).sends ++ (heard (noted_of roster.now) number (session_in self.old number) outcome).sends;
        }) }
        ensures spent { IsSpentWhere (heard (noted_of roster.now) number (session_in self.old number) outcome).spent result }
        ensures unsettled { recorder.new.transcript ≡ recorder.old.transcript }
    {
        let index = number as usize - 1;
        let was_busy = self.sessions[index].is_busy();
        let result = self.sessions[index].hear(number, outcome, roster, recorder, steps);
        self.busy = recount(self.busy, was_busy, self.sessions[index].is_busy());
        result
    }
}
