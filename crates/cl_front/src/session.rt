//! A session: its commands have their turns one at a time.
ghost use Rattle.std.specs.Prelude.{◌≡◌, ◌==◌, ◌&&◌, [], ◌∷◌, ◌++◌, map, nat_le, IsTrue, IfOk, OnOk, OnErr};
ghost use Rattle.cl_actor.specs.Core.{noted_of};
ghost use Rattle.cl_front.specs.Session.{no_session, is_outstanding, is_busy, is_awaited_in, with_waiting, turned, next_current, begun_after, is_spent_by, forwarded, command_sent, current_after, taken, heard, HasNextNumber};
ghost use Rattle.cl_front.specs.Turns.{IsNextTurn};
ghost use Rattle.cl_post.specs.Steps.{IsSpentWhere};
ghost use Rattle.cl_serial.specs.Transcript.{written};
ghost use Rattle.cl_steps.specs.Steps.{step_of};

use crate::recorder::Recorder;
use crate::{Current, TXN_NUMBER_MAX};
use cl_lines::Out;
use cl_roster::Roster;
use cl_serial::Said;
use cl_steps::Steps;
use cl_types::{Command, NoMemory, OPERATIONS_MAX, Outcome, Refused, TxnId};
use cl_wire::Body;
use std::alloc::Global;
use std::collections::VecDeque;
use std::marker::Model;

/// A session of a client.
#[derive(Debug, Drop)]
pub(crate) struct Session {
    // The commands that wait for their turn.
    waiting: VecDeque<Command>,
    // How many transactions it has begun.
    begun: u64,
    current: Option<Current>,
}

impl Model for Session {
    ghost use Rattle.cl_front.specs.Session.{SessionState};

    ghost Value = { SessionState };

    ghost view = { λ session. record { waiting = session.waiting.items; begun = session.begun; current = session.current } };
}

// The transaction with the command outstanding, or the outcome that refuses the command.
fn next_current(current: Option<Current>, command: &Command) -> Result<Current, Outcome>
    requires { HasNextNumber current }
    ensures { result ≡ next_current current command.now }
{
    let Some(current) = current else {
        return match command {
            Command::Begin => Ok(Current {
                operations: 0,
                commands: 0,
                outstanding: true,
            }),
            _ => Err(Outcome::NotTxn),
        };
    };
    let operations = match command {
        Command::Begin => return Err(Outcome::InTxn),
        Command::Work(..) if OPERATIONS_MAX <= current.operations => return Err(Outcome::Full),
        Command::Work(..) => current.operations + 1,
        Command::Commit | Command::Abort => current.operations,
    };
    Ok(Current {
        operations,
        commands: current.commands + 1,
        outstanding: true,
    })
}

// How many transactions a session has begun after a command that is sent.
fn begun_after(begun: u64, command: &Command) -> Result<u64, Refused>
    ensures ok { IfOk result (λ after. after ≡ begun_after command.now begun) }
    ensures spent { IsSpentWhere (is_spent_by command.now begun) result }
{
    match command {
        Command::Begin if TXN_NUMBER_MAX <= begun => Err(Refused::Spent),
        Command::Begin => Ok(begun + 1),
        _ => Ok(begun),
    }
}

// Sends a command to its controller, the primary of the session's virtual node.
fn send(
    steps: &mut Steps,
    roster: &Roster,
    txn: TxnId,
    number: u32,
    command: Command,
) -> Result<(), NoMemory>
    ensures { OnOk result (step_of steps.new
        ≡ record (step_of steps.old) { sends = (step_of steps.old).sends ++ command_sent (noted_of roster.now) txn number command ∷ [] }) }
{
    let virtual_node = txn.session % roster.nodes();
    let controller = roster.roles(roster.len(), virtual_node).primary;
    let body = Body::Command(virtual_node, txn, number, command);
    steps.send(controller, body)
}

// The transaction after the outcome of its command.
fn current_after(current: Option<Current>, outcome: &Outcome) -> Option<Current>
    ensures { result ≡ current_after outcome.now current }
{
    let current = current?;
    match outcome {
        Outcome::Committed | Outcome::Aborted(_) => None,
        _ => Some(Current {
            outstanding: false,
            ..current
        }),
    }
}

impl Session {
    /// A session that has begun nothing. It allocates nothing.
    pub(crate) fn new(alloc: Global) -> Session
        ensures { result ≡ no_session }
    {
        Session {
            waiting: VecDeque::new(alloc),
            begun: 0,
            current: None,
        }
    }

    /// Whether a command of it waits, for its turn or for its outcome.
    pub(crate) fn is_busy(&self) -> bool
        ensures { result ≡ is_busy self.now }
    {
        self.is_outstanding() || !self.waiting.is_empty()
    }

    // Whether a command of it waits for its outcome.
    fn is_outstanding(&self) -> bool
        ensures { result ≡ is_outstanding self.now }
    {
        match self.current {
            Some(current) => current.outstanding,
            None => false,
        }
    }

    /// Whether it is in the transaction of that number, whose command of this number waits for its outcome.
    pub(crate) fn awaits(&self, txn_number: u64, number: u32) -> bool
        ensures { result ≡ ((self.now.begun == txn_number) && is_awaited_in self.now.current number) }
    {
        match self.current {
            Some(current) => {
                self.begun == txn_number && current.outstanding && current.commands == number
            }
            None => false,
        }
    }

    /// Takes one more command: it waits behind the others, and those that wait have their turns.
    pub(crate) fn offer(
        &mut self,
        number: u32,
        command: Command,
        roster: &Roster,
        recorder: &mut Recorder,
        steps: &mut Steps,
    ) -> Result<(), Refused>
        requires { HasNextNumber self.old.current }
        ensures session { OnOk result (self.new ≡ (taken (noted_of roster.now) number (with_waiting self.old command)).session) }
        ensures printed { OnOk result (recorder.new
            ≡ record recorder.old { aside = recorder.old.aside ++ map written (taken (noted_of roster.now) number (with_waiting self.old command)).outs }) }
        ensures sent { OnOk result (step_of steps.new
            ≡ record (step_of steps.old) { sends = (step_of steps.old).sends ++ (taken (noted_of roster.now) number (with_waiting self.old command)).sends }) }
        ensures spent { IsSpentWhere (taken (noted_of roster.now) number (with_waiting self.old command)).spent result }
        ensures unsettled { recorder.new.transcript ≡ recorder.old.transcript }
    {
        self.wait(command)?;
        self.take_turns(number, roster, recorder, steps)
    }

    /// Prints the outcome of the command that waits for it, and the commands that wait have their turns.
    pub(crate) fn hear(
        &mut self,
        number: u32,
        outcome: Outcome,
        roster: &Roster,
        recorder: &mut Recorder,
        steps: &mut Steps,
    ) -> Result<(), Refused>
        requires { HasNextNumber self.old.current }
        ensures session { OnOk result (self.new ≡ (heard (noted_of roster.now) number self.old outcome).session) }
        ensures printed { OnOk result (recorder.new
            ≡ record recorder.old { aside = recorder.old.aside ++ map written (heard (noted_of roster.now) number self.old outcome).outs }) }
        ensures sent { OnOk result (step_of steps.new
            ≡ record (step_of steps.old) { sends = (step_of steps.old).sends ++ (heard (noted_of roster.now) number self.old outcome).sends }) }
        ensures spent { IsSpentWhere (heard (noted_of roster.now) number self.old outcome).spent result }
        ensures unsettled { recorder.new.transcript ≡ recorder.old.transcript }
    {
        self.current = current_after(self.current, &outcome);
        recorder.put_aside(Said::Out(Out::Answer(number, outcome)))?;
        self.take_turns(number, roster, recorder, steps)
    }

    /// Whether the next command of the transaction can have a number.
    pub(crate) fn has_next_number(&self) -> bool
        ensures told { IsTrue result → HasNextNumber self.now.current }
        ensures refused { HasNextNumber self.now.current → IsTrue result }
    {
        match self.current {
            Some(current) => current.commands < u32::MAX,
            None => true,
        }
    }

    // Lets a command wait behind the others.
    fn wait(&mut self, command: Command) -> Result<(), NoMemory>
        ensures { OnOk result (self.new ≡ with_waiting self.old command) }
    {
        self.waiting.push_back(command)?;
        Ok(())
    }

    // The command whose turn it is, if there is one. It waits no longer.
    fn next_turn(&mut self) -> Option<Command>
        ensures { IsNextTurn self.old self.new result }
    {
        if self.is_outstanding() {
            return None;
        }
        self.waiting.pop_front()
    }

    // The commands that wait have their turns, in order, until one is outstanding.
    fn take_turns(
        &mut self,
        number: u32,
        roster: &Roster,
        recorder: &mut Recorder,
        steps: &mut Steps,
    ) -> Result<(), Refused>
        requires { HasNextNumber self.old.current }
        ensures session { OnOk result (self.new ≡ (taken (noted_of roster.now) number self.old).session) }
        ensures printed { OnOk result (recorder.new
            ≡ record recorder.old { aside = recorder.old.aside ++ map written (taken (noted_of roster.now) number self.old).outs }) }
        ensures sent { OnOk result (step_of steps.new
            ≡ record (step_of steps.old) { sends = (step_of steps.old).sends ++ (taken (noted_of roster.now) number self.old).sends }) }
        ensures spent { IsSpentWhere (taken (noted_of roster.now) number self.old).spent result }
        ensures unsettled { recorder.new.transcript ≡ recorder.old.transcript }
    {
        while let Some(command) = self.next_turn() {
            self.turn(number, command, roster, recorder, steps)?;
        }
        Ok(())
    }

    // One turn: the command is sent to its controller, or answered at once.
    fn turn(
        &mut self,
        number: u32,
        command: Command,
        roster: &Roster,
        recorder: &mut Recorder,
        steps: &mut Steps,
    ) -> Result<(), Refused>
        requires { HasNextNumber self.old.current }
        ensures session { OnOk result (self.new ≡ (turned (noted_of roster.now) number self.old command).session) }
        ensures printed { OnOk result (recorder.new
            ≡ record recorder.old { aside = recorder.old.aside ++ map written (turned (noted_of roster.now) number self.old command).outs }) }
        ensures sent { OnOk result (step_of steps.new
            ≡ record (step_of steps.old) { sends = (step_of steps.old).sends ++ (turned (noted_of roster.now) number self.old command).sends }) }
        ensures spent { IsSpentWhere (turned (noted_of roster.now) number self.old command).spent result }
        ensures unsettled { recorder.new.transcript ≡ recorder.old.transcript }
    {
        match next_current(self.current, &command) {
            Ok(current) => self.forward(number, current, command, roster, steps),
            Err(outcome) => {
                recorder.put_aside(Said::Out(Out::Answer(number, outcome)))?;
                Ok(())
            }
        }
    }

    // Sends a command to its controller. It is then outstanding in the transaction.
    fn forward(
        &mut self,
        number: u32,
        current: Current,
        command: Command,
        roster: &Roster,
        steps: &mut Steps,
    ) -> Result<(), Refused>
        ensures session { OnOk result (self.new ≡ (forwarded (noted_of roster.now) number self.old current command).session) }
        ensures sent { OnOk result (step_of steps.new
            ≡ record (step_of steps.old) { sends = (step_of steps.old).sends ++ (forwarded (noted_of roster.now) number self.old current command).sends }) }
        ensures spent { IsSpentWhere (is_spent_by command self.old.begun) result }
    {
        self.begun = begun_after(self.begun, &command)?;
        self.current = Some(current);
        let txn = TxnId {
            session: number,
            number: self.begun,
        };
        send(steps, roster, txn, current.commands, command)?;
        Ok(())
    }
}
