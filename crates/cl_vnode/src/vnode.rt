//! The replica.
ghost use Rattle.cl_part.specs.State.{IsBelowNext};

use crate::admitting::{may_come, may_come_to_standby};
use crate::news::{News, news_at};
use crate::noted::Noted;
use crate::noting::tell_firm_after;
use crate::participant::{ask, finish, is_full, prepare};
use crate::sending::{decide_in, reply, send_all, send_to_primary};
use crate::shipping::{ship, tell_firm_at_once};
use crate::taking::{keep_decision, take_record, tell_firm};
use cl_backup::Decisions;
use cl_control::{ActList, Control};
use cl_log::{LOG_NUMBER_MAX, LogRec};
use cl_part::Part;
use cl_repair::{Mode, Modes};
use cl_roster::{Roles, Roster, RosterEntry};
use cl_steps::Steps;
use cl_store::Store;
use cl_types::{Answer, Command, NoMemory, Refused, TxnId};
use cl_wire::Body;
use std::alloc::Global;

/// One replica of a virtual node: its participant, the controller of the sessions that the virtual
/// node serves, how it makes its log safe, and the decisions of its log.
///
/// Contracts see it as a replica's state (`IsReplicaStateOf`). A node makes one for each virtual node
/// of which it is a member, and hands it each message that is for it.
#[derive(Drop)]
pub struct Vnode {
    v: u32,
    part: Part,
    control: Control,
    modes: Modes,
    decisions: Decisions,
    alloc: Global,
    ghost below: { IsBelowNext part },
}

impl Vnode {
    ghost use Rattle.std.specs.Prelude.{◌≡◌, ◌+◌, ◌≤◌, true, false, ◌&&◌, IsTrue, IfOk, OnOk};
    ghost use Rattle.cl_control.specs.Calls.{MayCommand, command_acts, counts_number, vote_acts};
    ghost use Rattle.cl_log.specs.Log.{entries, next_number};
    ghost use Rattle.cl_log.specs.LogEntry.{content_at};
    ghost use Rattle.cl_roster.specs.Roles.{roles_after};
    ghost use Rattle.cl_steps.specs.Steps.{step_of};
    ghost use Rattle.cl_store.specs.Store.{stored};
    ghost use Rattle.cl_types.specs.GrowingList.{items};
    ghost use Rattle.cl_types.specs.Placement.{IsNodeCount};
    ghost use Rattle.cl_types.specs.Places.{Place};
    ghost use Rattle.cl_wire.specs.Message.{content_of};
    ghost use Rattle.cl_vnode.specs.Inputs as inputs;
    ghost use Rattle.cl_vnode.specs.Inputs.{Fits, IsSpentWhere, MayCome, StandbyFits, TakesRecord, has_decide, is_spent, is_standby_spent};
    ghost use Rattle.cl_vnode.specs.Noting.{NoteFits, left_alone, noted_replica, primary_after};
    ghost use Rattle.cl_vnode.specs.Replica.{ReplicaState, IsReplicaStateOf, is_busy, new_replica, safe_number};
    ghost use Rattle.cl_vnode.specs.Sending.{AreActs, HasStepped, primary_of, told_at};
    ghost use Rattle.cl_vnode.specs.Standby.{standby_stepped, with_record};
    ghost use Rattle.cl_vnode.specs.Step.{Stepped, all_performed, all_told, answered, commanded, decided, primary_in, shipped, stepped, taken, voted};

    /// A new replica of the virtual node `v`, in a system of so many nodes, with this standby where
    /// there is one. It allocates nothing.
    pub fn new(alloc: Global, v: u32, nodes: u32, standby: Option<u32>) -> Vnode
        requires { IsNodeCount nodes }
        ensures { IsReplicaStateOf result (new_replica v nodes standby) }
    {
        let roles = Roles {
            primary: v,
            standby,
        };
        Vnode {
            v,
            part: Part::new(alloc, 1),
            control: Control::new(alloc, nodes),
            modes: Modes::new(v, &roles),
            decisions: Decisions::new(alloc),
            alloc,
        }
    }

    /// Whether the message may come to the virtual node's primary now. A caller that keeps to the
    /// order need not ask.
    pub fn admits(&self, roster: &Roster, body: &Body) -> bool
        ensures admitted { IsTrue result → (state : ReplicaState) × IsReplicaStateOf self.now state
            × Fits roster.now.nodes state (content_of body.now) }
        ensures refused { (state : ReplicaState) → IsReplicaStateOf self.now state
            → Fits roster.now.nodes state (content_of body.now) → IsTrue result }
    {
        roster.nodes() == self.control.nodes()
            && may_come(self.modes.mode(), &self.control, &self.part, body)
    }

    /// Whether the message may come to the virtual node's standby now. A caller that keeps to the
    /// order need not ask. It costs at most one look-up in the store, in the locks and in the log.
    pub fn admits_standby(&self, roster: &Roster, body: &Body) -> bool
        ensures admitted { IsTrue result → (state : ReplicaState) × IsReplicaStateOf self.now state
            × StandbyFits roster.now.nodes state (content_of body.now) }
        ensures refused { (state : ReplicaState) → IsReplicaStateOf self.now state
            → StandbyFits roster.now.nodes state (content_of body.now) → IsTrue result }
    {
        roster.nodes() == self.control.nodes() && may_come_to_standby(&self.part, body)
    }

    /// Takes a message as the virtual node's primary, and gives what is to be sent.
    ///
    /// The node calls it for each message that it accepted for a virtual node of which it is primary,
    /// with the roster as it has noted it. After an error the replica may only be dropped. A step
    /// costs its look-ups and appends: a command's, an answer's and a vote's are the controller's,
    /// and an end that is no commit takes back each write of its transaction. With a standby each
    /// record that is appended is copied once more, for it.
    pub fn primary_step(
        &mut self,
        roster: &Roster,
        from: u32,
        body: &Body,
    ) -> Result<Steps, Refused>
        requires { (before : ReplicaState) × IsReplicaStateOf self.old before
            × Fits roster.now.nodes before (content_of body.now) }
        ensures step { (before : ReplicaState) → IsReplicaStateOf self.old before → IfOk result (λ steps.
            let after = stepped (primary_in roster.now.nodes roster.now.entries) before from (content_of body.now) steps.short in
            IsReplicaStateOf self.new after.state × (step_of steps ≡ after.step)) }
        ensures spent { (before : ReplicaState) → IsReplicaStateOf self.old before
            → IsSpentWhere (is_spent before (content_of body.now)) result }
    {
        let last = self.part.log.last();
        let safe = self.safe_number();
        let roster = Noted::so_far(roster);
        let mut steps = Steps::new(self.alloc);
        self.take(&roster, &mut steps, from, body)?;
        self.tell_safe(&roster, &mut steps, safe)?;
        Ok(self.ship(steps, last)?)
    }

    /// Takes a message as the virtual node's standby, and gives what is to be sent.
    ///
    /// The node calls it for each message that it accepted for a virtual node of which it is standby.
    /// A record is copied once; one whose number is above `LOG_NUMBER_MAX` is refused as spent. After
    /// an error the replica may only be dropped.
    pub fn standby_step(
        &mut self,
        roster: &Roster,
        from: u32,
        body: &Body,
    ) -> Result<Steps, Refused>
        requires { (before : ReplicaState) × IsReplicaStateOf self.old before
            × StandbyFits roster.now.nodes before (content_of body.now) }
        ensures step { (before : ReplicaState) → IsReplicaStateOf self.old before → IfOk result (λ steps.
            let after = standby_stepped before from (content_of body.now) in
            IsReplicaStateOf self.new after.state × (step_of steps ≡ after.step)) }
        ensures spent { IsSpentWhere (is_standby_spent (content_of body.now)) result }
    {
        let mut steps = Steps::new(self.alloc);
        if let Body::Log(v, number, content) = body {
            if *number > LOG_NUMBER_MAX {
                return Err(Refused::Spent);
            }
            self.take_record(*number, content)?;
            tell_firm(&mut steps, content)?;
            steps.send(from, Body::LogAck(*v, *number))?;
        }
        Ok(steps)
    }

    /// Whether the replica may note an entry after this roster. A caller that keeps to the order need
    /// not ask.
    pub fn may_note(&self, before: &Roster) -> bool
        ensures admitted { IsTrue result → (state : ReplicaState) × IsReplicaStateOf self.now state × NoteFits before.now state }
        ensures refused { (state : ReplicaState) → IsReplicaStateOf self.now state → NoteFits before.now state → IsTrue result }
    {
        before.nodes() == self.control.nodes() && self.v < before.nodes()
    }

    /// Notes an entry of the roster, with the roster before it, and gives what is to be sent.
    ///
    /// The stop of its standby leaves a primary alone: all records of its log are safe, what waited is
    /// told, and the transactions whose Decide waited are firm now. The stop of its primary makes a
    /// standby primary, which is alone: its log is safe as it stands, and nothing is told, since each
    /// Decide in it was firm when it was taken. Any other stop and a repair leave the replica as it is.
    /// After an error the replica may only be dropped. It costs two look-ups in the log for each record
    /// that waited, and nothing otherwise.
    pub fn note(&mut self, before: &Roster, entry: RosterEntry) -> Result<Steps, Refused>
        requires { (state : ReplicaState) × IsReplicaStateOf self.old state × NoteFits before.now state }
        ensures step { (state : ReplicaState) → IsReplicaStateOf self.old state → IfOk result (λ steps.
            let after = noted_replica (primary_after before.now entry) (roles_after before.now.nodes before.now.entries state.v) state entry in
            IsReplicaStateOf self.new after.state × (step_of steps ≡ after.step)) }
        ensures spent { IsSpentWhere false result }
    {
        match entry {
            RosterEntry::Stopped(node) => Ok(self.note_stop(before, node)?),
            RosterEntry::Repaired(..) => Ok(Steps::new(self.alloc)),
        }
    }

    // Notes the stop of a node.
    fn note_stop(&mut self, before: &Roster, node: u32) -> Result<Steps, NoMemory>
        requires { (state : ReplicaState) × IsReplicaStateOf self.old state × NoteFits before.now state }
        ensures { (state : ReplicaState) → IsReplicaStateOf self.old state
            → IfOk result (λ steps. HasStepped self.new steps (noted_replica (primary_after before.now (RosterEntry.Stopped node))
            (roles_after before.now.nodes before.now.entries state.v) state (RosterEntry.Stopped node))) }
    {
        let roles = before.roles(before.len(), self.v);
        if roles.primary == node {
            self.modes.go_on_alone();
            return Ok(Steps::new(self.alloc));
        }
        if roles.is_standby(node) {
            return self.left_alone(&Noted::with(before, RosterEntry::Stopped(node)));
        }
        Ok(Steps::new(self.alloc))
    }

    // The standby has stopped: what waited is safe, and told.
    fn left_alone(&mut self, roster: &Noted<'_>) -> Result<Steps, NoMemory>
        requires { roster.now.nodes ≡ self.old.control.nodes }
        ensures { (state : ReplicaState) → IsReplicaStateOf self.old state
            → IfOk result (λ steps. HasStepped self.new steps (left_alone (primary_of roster.now) state)) }
    {
        let safe = self.safe_number();
        let mut steps = Steps::new(self.alloc);
        tell_firm_after(&self.part.log, &mut steps, safe)?;
        self.modes.go_on_alone();
        self.tell_safe(roster, &mut steps, safe)?;
        Ok(steps)
    }

    // Takes a record of the primary's log.
    fn take_record(&mut self, number: u64, content: &LogRec) -> Result<(), NoMemory>
        requires takes { (before : ReplicaState) × IsReplicaStateOf self.old before × TakesRecord before.part number content.now }
        requires fits { number ≤ LOG_NUMBER_MAX }
        ensures { (before : ReplicaState) → IsReplicaStateOf self.old before
            → OnOk result (IsReplicaStateOf self.new (with_record before content.now)) }
    {
        let copied = content.copy(self.alloc)?;
        take_record(self.alloc, &mut self.part, number, copied)?;
        keep_decision(&mut self.decisions, content)
    }

    // Ships what was appended since the log ended with this number.
    fn ship(&self, steps: Steps, last: u64) -> Result<Steps, NoMemory>
        ensures { (done : Stepped) → HasStepped self.now steps done
            → IfOk result (λ shipping. HasStepped self.now shipping (shipped (last + 1) done)) }
    {
        ship(
            self.alloc,
            self.modes.mode(),
            self.v,
            &self.part.log,
            last,
            steps,
        )
    }

    /// The records, for a dump.
    pub fn store(&self) -> &Store
        ensures { (state : ReplicaState) → IsReplicaStateOf self.now state
            → (place : Place) → stored result.now place ≡ state.part.stored place }
    {
        &self.part.store
    }

    /// Whether a rollback, an inquiry or a repair is under way between two steps: never, since each
    /// step ends what it begins.
    pub fn busy(&self) -> bool
        ensures { (state : ReplicaState) → IsReplicaStateOf self.now state → result ≡ is_busy state }
    {
        match self.modes.mode() {
            Mode::Lone | Mode::Pair(_) => false,
        }
    }

    // Up to which number the log is safe.
    fn safe_number(&self) -> u64
        ensures { (state : ReplicaState) → IsReplicaStateOf self.now state → result ≡ safe_number state }
    {
        self.modes.safe_to(self.part.log.last())
    }

    // Takes an input of any kind. The mark of an operation stands in what the step gives.
    fn take(
        &mut self,
        roster: &Noted<'_>,
        steps: &mut Steps,
        from: u32,
        body: &Body,
    ) -> Result<(), Refused>
        requires nodes { roster.now.nodes ≡ self.old.control.nodes }
        requires comes { (before : ReplicaState) × IsReplicaStateOf self.old before × MayCome before (content_of body.now) }
        ensures step { (before : Stepped) → HasStepped self.old steps.old before → OnOk result
            (HasStepped self.new steps.new (taken (primary_of roster.now) before from (content_of body.now) steps.new.short)) }
        ensures spent { (before : ReplicaState) → IsReplicaStateOf self.old before
            → IsSpentWhere (is_spent before (content_of body.now)) result }
        ensures nodes { OnOk result (self.new.control.nodes ≡ self.old.control.nodes) }
    {
        match body {
            Body::Command(_, txn, number, what) => self.command(roster, steps, *txn, *number, what),
            Body::Answer(v, txn, number, answer) => {
                self.answer(roster, steps, *v, *txn, *number, answer)
            }
            Body::Vote(v, txn) => self.vote(roster, steps, *v, *txn),
            Body::Ask(v, txn, number, table, key, op) => {
                let answer = ask(&mut self.part, *txn, table, key, op)?;
                Ok(reply(steps, from, *v, *txn, *number, answer)?)
            }
            Body::Prepare(_, txn) => prepare(&mut self.part, *txn),
            Body::Finish(_, txn, commit) | Body::Decision(_, txn, commit) => {
                finish(&mut self.part, *txn, *commit)
            }
            Body::LogAck(_, number) => {
                self.modes.acked(*number);
                Ok(())
            }
            _ => Ok(()),
        }
    }

    // Takes a client's command.
    fn command(
        &mut self,
        roster: &Noted<'_>,
        steps: &mut Steps,
        txn: TxnId,
        number: u32,
        what: &Command,
    ) -> Result<(), Refused>
        requires nodes { roster.now.nodes ≡ self.old.control.nodes }
        requires may { MayCommand self.old.control txn what.now }
        ensures step { (before : Stepped) → HasStepped self.old steps.old before → OnOk result
            (HasStepped self.new steps.new (commanded (primary_of roster.now) before txn number what.now)) }
        ensures spent { IsSpentWhere
            (has_decide (command_acts self.old.control txn number what.now) && inputs.is_full (next_number self.old.part.log)) result }
        ensures nodes { OnOk result (self.new.control.nodes ≡ self.old.control.nodes) }
    {
        let _nodes = roster.nodes();
        let acts = self.control.command(txn, number, what)?;
        self.perform(roster, steps, acts)
    }

    // Takes a participant's answer.
    fn answer(
        &mut self,
        roster: &Noted<'_>,
        steps: &mut Steps,
        v: u32,
        txn: TxnId,
        number: u32,
        answer: &Answer,
    ) -> Result<(), Refused>
        requires { roster.now.nodes ≡ self.old.control.nodes }
        ensures step { (before : Stepped) → HasStepped self.old steps.old before → OnOk result
            (HasStepped self.new steps.new (answered (primary_of roster.now) before v txn number answer.now)) }
        ensures spent { IsSpentWhere false result }
        ensures nodes { OnOk result (self.new.control.nodes ≡ self.old.control.nodes) }
    {
        let answer = answer.copy(self.alloc)?;
        let acts = self.control.answer(v, txn, number, answer)?;
        send_all(roster, steps, acts)?;
        Ok(())
    }

    // Takes a participant's vote.
    fn vote(
        &mut self,
        roster: &Noted<'_>,
        steps: &mut Steps,
        v: u32,
        txn: TxnId,
    ) -> Result<(), Refused>
        requires { roster.now.nodes ≡ self.old.control.nodes }
        ensures step { (before : Stepped) → HasStepped self.old steps.old before → OnOk result
            (HasStepped self.new steps.new (voted (primary_of roster.now) before v txn)) }
        ensures spent { IsSpentWhere
            (has_decide (vote_acts self.old.control v txn) && inputs.is_full (next_number self.old.part.log)) result }
        ensures nodes { OnOk result (self.new.control.nodes ≡ self.old.control.nodes) }
    {
        let acts = self.control.vote(v, txn)?;
        self.perform(roster, steps, acts)
    }

    // Performs the acts of a command or a vote: one Decide, or messages.
    fn perform(
        &mut self,
        roster: &Noted<'_>,
        steps: &mut Steps,
        acts: ActList,
    ) -> Result<(), Refused>
        requires { AreActs roster.now.nodes self.old.control (items acts) }
        ensures step { (before : Stepped) → HasStepped self.old steps.old before → OnOk result
            (HasStepped self.new steps.new (all_performed (primary_of roster.now) before (items acts))) }
        ensures spent { IsSpentWhere (has_decide (items acts) && inputs.is_full (next_number self.old.part.log)) result }
        ensures nodes { OnOk result (self.new.control.nodes ≡ self.old.control.nodes) }
    {
        match decide_in(&acts) {
            Some(txn) => self.decide(steps, txn),
            None => Ok(send_all(roster, steps, acts)?),
        }
    }

    // Appends the Decide of a transaction, and tells the controller its number.
    fn decide(&mut self, steps: &mut Steps, txn: TxnId) -> Result<(), Refused>
        requires { counts_number self.old.control txn ≡ true }
        ensures step { (before : Stepped) → HasStepped self.old steps.old before
            → OnOk result (HasStepped self.new steps.new (decided before txn)) }
        ensures spent { IsSpentWhere (inputs.is_full (next_number self.old.part.log)) result }
        ensures nodes { OnOk result (self.new.control.nodes ≡ self.old.control.nodes) }
    {
        if is_full(&self.part.log) {
            return Err(Refused::Spent);
        }
        let number = self.part.decide(txn)?;
        self.control.decided_at(txn, number);
        self.decisions.take(txn)?;
        Ok(tell_firm_at_once(self.modes.mode(), steps, txn)?)
    }

    // Tells what became safe since the log was safe up to this number.
    fn tell_safe(&mut self, roster: &Noted<'_>, steps: &mut Steps, old: u64) -> Result<(), NoMemory>
        requires { roster.now.nodes ≡ self.old.control.nodes }
        ensures step { (before : Stepped) → HasStepped self.old steps.old before → OnOk result
            (HasStepped self.new steps.new (all_told (primary_of roster.now) old before)) }
        ensures short { OnOk result (steps.new.short ≡ steps.old.short) }
    {
        for number in old..self.safe_number() {
            self.tell(roster, steps, number + 1)?;
        }
        Ok(())
    }

    // Tells that the record of this number is safe.
    fn tell(&mut self, roster: &Noted<'_>, steps: &mut Steps, number: u64) -> Result<(), NoMemory>
        requires { roster.now.nodes ≡ self.old.control.nodes }
        ensures step { (before : Stepped) → HasStepped self.old steps.old before → OnOk result
            (HasStepped self.new steps.new (told_at (primary_of roster.now) before number (content_at (entries self.old.part.log) number))) }
        ensures log { entries self.new.part.log ≡ entries self.old.part.log }
        ensures nodes { OnOk result (self.new.control.nodes ≡ self.old.control.nodes) }
        ensures short { OnOk result (steps.new.short ≡ steps.old.short) }
    {
        match news_at(&self.part.log, number) {
            News::Vote(txn) => {
                let home = txn.session % roster.nodes();
                send_to_primary(roster, steps, home, Body::Vote(self.v, txn))
            }
            News::Decision => {
                let acts = self.control.safe_up_to(number)?;
                send_all(roster, steps, acts)
            }
            News::Nothing => Ok(()),
        }
    }
}
