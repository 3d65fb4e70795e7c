//! The controller itself.
ghost use Rattle.std.specs.Prelude.{◌≡◌, ◌≤◌, ◌↔◌, IsTrue, [], ◌∷◌, ◌++◌, true, false, map, take, flat_map, length, Some, nat_lt, IfOk, OnOk, OnErr};
ghost use Rattle.cl_types.specs.GrowingList.{items};
ghost use Rattle.cl_types.specs.Placement.{IsNodeCount, virtual_node_of};
ghost use Rattle.cl_control.specs.Calls.{MayCommand, act_of, abort_acts, asked, commit_acts, command_acts, committing, after_command, counts_answer, answer_acts, after_answer, counts_vote, is_last_vote, vote_acts, after_vote, counts_number, after_decided_at, committed_acts, acts_of_told, safe_acts, after_safe};
ghost use Rattle.cl_control.specs.Sound.{IsSoundControl, is_logged_here};
ghost use Rattle.cl_control.specs.State.{ascending, with_phase, new_control, is_open_here, phase_of, participants_of, with_new, with_changed, without_entry};

use crate::acts::{Act, ActList, Notice};
use crate::entry::{Phase, Told};
use crate::open_table::OpenTable;
use crate::waiting::{count_up_to, insert, remove_first};
use cl_types::{
    AbortCause, Answer, Command, Key, NoMemory, Op, Outcome, Reply, TableName, TxnId, vnode_of,
};
use std::alloc::Global;
use std::collections::VecDeque;
use std::marker::Model;

/// The controller of the transactions of the sessions that a virtual node serves.
///
/// The replica that acts as the virtual node's primary runs it. Contracts see its open transactions
/// and the Decides that wait to be safe as plain data. Each call looks its transaction up by a hash
/// of the name, and tells at most 8 participants. At most one transaction a session is open, so at
/// most 64. Only a removal walks them, since it keeps their order.
#[derive(Drop)]
pub struct Control {
    nodes: u32,
    transactions: OpenTable,
    waiting: VecDeque<Told>,
    alloc: Global,
}

impl Model for Control {
    ghost use Rattle.std.specs.Prelude.{◌≤◌, length};
    ghost use Rattle.std.specs.VecDeque.{deque_capacity};
    ghost use Rattle.cl_control.specs.State.{ControlState};
    ghost use Rattle.cl_control.specs.Sound.{IsSoundControl};

    ghost Value = { ControlState };

    ghost view = { λ control. record { nodes = control.nodes; transactions = control.transactions; waiting = control.waiting.items } };

    // The queue has room for each open transaction.
    ghost invariant = { λ control. IsSoundControl (record { nodes = control.nodes; transactions = control.transactions; waiting = control.waiting.items })
        × (length control.transactions ≤ deque_capacity control.waiting) };
}

impl Control {
    /// A controller without transactions, in a system of so many virtual nodes. It allocates nothing.
    pub fn new(alloc: Global, nodes: u32) -> Control
        requires { IsNodeCount nodes }
        ensures { result ≡ new_control nodes }
    {
        Control {
            nodes,
            transactions: OpenTable::new(alloc),
            waiting: VecDeque::new(alloc),
            alloc,
        }
    }

    /// In a system of how many virtual nodes it controls.
    pub fn nodes(&self) -> u32
        ensures { result ≡ self.now.nodes }
    {
        self.nodes
    }

    /// Takes a command of a session, under its number there.
    ///
    /// The primary calls it for each command that a session sends: BEGIN of a transaction that is
    /// not open here, or another command, once each earlier one of its transaction was answered.
    /// ABORT walks the open transactions.
    #[tactic(auto, unfolding(crate::specs::Calls::command_acts, crate::specs::Calls::after_command))]
    pub fn command(&mut self, txn: TxnId, number: u32, what: &Command) -> Result<ActList, NoMemory>
        requires { MayCommand self.old txn what.now }
        ensures acts { IfOk result (λ acts. items acts ≡ command_acts self.old txn number what.now) }
        ensures state { OnOk result (self.new ≡ after_command self.old txn number what.now) }
        ensures err { OnErr result (self.new ≡ self.old) }
    {
        match what {
            Command::Begin => self.begin(txn, number),
            Command::Work(table, key, op) => self.work(txn, number, table, key, op),
            Command::Commit => self.commit(txn, number),
            Command::Abort => self.abort(txn, number, AbortCause::Client),
        }
    }

    /// Whether this command of the transaction may be taken now. A caller that keeps to the order
    /// need not ask.
    pub fn may_command(&self, txn: TxnId, what: &Command) -> bool
        ensures { IsTrue result ↔ MayCommand self.now txn what.now }
    {
        match what {
            Command::Begin => !self.is_open(txn),
            Command::Work(..) | Command::Commit | Command::Abort => self.is_idle(txn),
        }
    }

    /// Takes the answer of a participant to an operation, the command of this number.
    ///
    /// The primary calls it for each answer that comes. One that is not waited for changes nothing.
    /// A refusal, and want of memory at the participant, end the transaction, and walk the open ones.
    #[tactic(auto, unfolding(crate::specs::Calls::answer_acts, crate::specs::Calls::after_answer))]
    pub fn answer(
        &mut self,
        v: u32,
        txn: TxnId,
        number: u32,
        answer: Answer,
    ) -> Result<ActList, NoMemory>
        ensures acts { IfOk result (λ acts. items acts ≡ answer_acts self.old v txn number answer) }
        ensures state { OnOk result (self.new ≡ after_answer self.old v txn number answer) }
        ensures err { OnErr result (self.new ≡ self.old) }
    {
        if !self.counts_answer(v, txn, number) {
            return Ok(self.no_act());
        }
        match answer {
            Answer::Done(reply) => self.pass_on(txn, number, reply),
            Answer::Refused(holder) => self.abort(txn, number, AbortCause::Conflict(holder)),
            Answer::NoMemory => self.abort(txn, number, AbortCause::Memory),
        }
    }

    /// Takes the vote of a participant, which is always yes.
    ///
    /// The primary calls it for each vote that comes. One that is not waited for changes nothing.
    #[tactic(auto, unfolding(crate::specs::Calls::vote_acts, crate::specs::Calls::after_vote))]
    pub fn vote(&mut self, v: u32, txn: TxnId) -> Result<ActList, NoMemory>
        ensures acts { IfOk result (λ acts. items acts ≡ vote_acts self.old v txn) }
        ensures state { OnOk result (self.new ≡ after_vote self.old v txn) }
        ensures err { OnErr result (self.new ≡ self.old) }
    {
        if !self.counts_vote(v, txn) {
            return Ok(self.no_act());
        }
        let mut acts = self.no_act();
        if self.is_last_vote(v, txn) {
            acts.push(Act::Decide(txn))?;
        }
        self.transactions.add_vote(txn, v);
        Ok(acts)
    }

    /// Is told the log number of the Decide of a transaction. It takes no memory.
    ///
    /// The primary calls it once for each act `Decide`, when it has appended the record.
    #[tactic(auto, unfolding(crate::specs::Calls::after_decided_at))]
    pub fn decided_at(&mut self, txn: TxnId, number: u64)
        requires { counts_number self.old txn ≡ true }
        ensures { self.new ≡ after_decided_at self.old txn number }
    {
        self.transactions.set_logged(txn);
        insert(&mut self.waiting, Told { number, txn });
    }

    /// Whether the transaction is decided and the log number of its Decide was not told yet. A caller
    /// that keeps to the order need not ask.
    pub fn awaits_number(&self, txn: TxnId) -> bool
        ensures { result ≡ counts_number self.now txn }
    {
        matches!(self.phase_of(txn), Some(Phase::Decided(_)))
    }

    /// Is told that each log record with a number at most this one is safe.
    ///
    /// The primary calls it when its standby has acknowledged more of the log, or when it has no
    /// standby. The call finds the Decides that are safe by a binary search, and walks the open
    /// transactions once for each of them.
    #[tactic(auto, unfolding(crate::specs::Calls::safe_acts, crate::specs::Calls::after_safe))]
    pub fn safe_up_to(&mut self, number: u64) -> Result<ActList, NoMemory>
        ensures acts { IfOk result (λ acts. items acts ≡ safe_acts self.old number) }
        ensures state { OnOk result (self.new ≡ after_safe self.old number) }
        ensures err { OnErr result (self.new ≡ self.old) }
    {
        let count = count_up_to(&self.waiting, number);
        let acts = self.commits(count)?;
        remove_first(&mut self.waiting, &mut self.transactions, count);
        Ok(acts)
    }

    // Each controller is sound.
    pub(crate) fn is_sound(&self)
        ensures { IsSoundControl self.now }
    {
        let _nodes = self.nodes;
    }

    // No act.
    fn no_act(&self) -> ActList
        ensures { items result ≡ [] }
    {
        ActList::new(self.alloc)
    }

    // One act.
    fn one_act(&self, act: Act) -> Result<ActList, NoMemory>
        ensures { IfOk result (λ acts. items acts ≡ act ∷ []) }
    {
        let mut acts = self.no_act();
        acts.push(act)?;
        Ok(acts)
    }

    // Appends the act that tells each participant of the transaction, ascending.
    fn tell(&self, acts: &mut ActList, txn: TxnId, notice: Notice) -> Result<(), NoMemory>
        ensures { OnOk result (items acts.new ≡ items acts.old ++ map (act_of notice txn) (ascending self.now.nodes (participants_of self.now txn))) }
    {
        match self.transactions.get(txn) {
            Some(transaction) => {
                notice.tell(acts, self.nodes, transaction.participants.as_slice(), txn)
            }
            None => Ok(()),
        }
    }

    // The phase of the transaction, where it is open.
    fn phase_of(&self, txn: TxnId) -> Option<Phase>
        ensures { result ≡ phase_of self.now txn }
    {
        Some(self.transactions.get(txn)?.phase)
    }

    // Whether the transaction is open.
    fn is_open(&self, txn: TxnId) -> bool
        ensures { result ≡ is_open_here self.now txn }
    {
        self.transactions.get(txn).is_some()
    }

    // Whether the transaction waits for its next command.
    fn is_idle(&self, txn: TxnId) -> bool
        ensures { IsTrue result ↔ (phase_of self.now txn ≡ Some Phase.Idle) }
    {
        matches!(self.phase_of(txn), Some(Phase::Idle))
    }

    // Whether the transaction has a participant.
    fn has_participant(&self, txn: TxnId) -> bool
        ensures { result ≡ nat_lt 0 (length (participants_of self.now txn)) }
    {
        match self.transactions.get(txn) {
            Some(transaction) => !transaction.participants.is_empty(),
            None => false,
        }
    }

    // Opens a transaction, and makes room for it to wait for its Decide.
    fn begin(&mut self, txn: TxnId, number: u32) -> Result<ActList, NoMemory>
        requires { is_open_here self.old txn ≡ false }
        ensures acts { IfOk result (λ acts. items acts ≡ Act.Say txn number Outcome.Begun ∷ []) }
        ensures state { OnOk result (self.new ≡ with_new self.old txn) }
        ensures err { OnErr result (self.new ≡ self.old) }
    {
        let acts = self.one_act(Act::Say(txn, number, Outcome::Begun))?;
        self.waiting.reserve(self.transactions.len() + 1)?;
        self.transactions.open(txn)?;
        Ok(acts)
    }

    // Sends an operation to the primary of its key's virtual node, which becomes a participant.
    fn work(
        &mut self,
        txn: TxnId,
        number: u32,
        table: &TableName,
        key: &Key,
        op: &Op,
    ) -> Result<ActList, NoMemory>
        requires { phase_of self.old txn ≡ Some Phase.Idle }
        ensures acts { IfOk result (λ acts. items acts ≡ Act.Ask (virtual_node_of key.now self.old.nodes) txn number table.now key.now op.now ∷ []) }
        ensures state { OnOk result (self.new ≡ with_changed self.old txn (asked number (virtual_node_of key.now self.old.nodes))) }
        ensures err { OnErr result (self.new ≡ self.old) }
    {
        let v = vnode_of(key, self.nodes);
        let op = op.copy(self.alloc)?;
        let acts = self.one_act(Act::Ask(v, txn, number, table.copy(), key.copy(), op))?;
        self.transactions.ask(txn, number, v);
        Ok(acts)
    }

    // Asks each participant for its vote. Where there is none, the transaction is decided.
    fn commit(&mut self, txn: TxnId, number: u32) -> Result<ActList, NoMemory>
        requires { phase_of self.old txn ≡ Some Phase.Idle }
        ensures acts { IfOk result (λ acts. items acts ≡ commit_acts self.old txn (participants_of self.old txn)) }
        ensures state { OnOk result (self.new ≡ with_changed self.old txn (committing number)) }
        ensures err { OnErr result (self.new ≡ self.old) }
    {
        let mut acts = self.no_act();
        if self.has_participant(txn) {
            self.tell(&mut acts, txn, Notice::Prepare)?;
        } else {
            acts.push(Act::Decide(txn))?;
        }
        self.transactions.commit(txn, number);
        Ok(acts)
    }

    // Aborts a transaction that is not decided.
    fn abort(&mut self, txn: TxnId, number: u32, cause: AbortCause) -> Result<ActList, NoMemory>
        requires { is_logged_here self.old txn ≡ false }
        ensures acts { IfOk result (λ acts. items acts ≡ abort_acts self.old txn number cause) }
        ensures state { OnOk result (self.new ≡ without_entry self.old txn) }
        ensures err { OnErr result (self.new ≡ self.old) }
    {
        let mut acts = self.no_act();
        self.tell(&mut acts, txn, Notice::Finish(false))?;
        acts.push(Act::Say(txn, number, Outcome::Aborted(cause)))?;
        self.transactions.remove(txn);
        Ok(acts)
    }

    // Whether this answer is waited for.
    fn counts_answer(&self, v: u32, txn: TxnId, number: u32) -> bool
        ensures { result ≡ counts_answer self.now v txn number }
    {
        match self.phase_of(txn) {
            Some(Phase::Asked(command, w)) => number == command && v == w,
            _ => false,
        }
    }

    // Passes the reply to an operation on to the session.
    fn pass_on(&mut self, txn: TxnId, number: u32, reply: Reply) -> Result<ActList, NoMemory>
        requires { is_logged_here self.old txn ≡ false }
        ensures acts { IfOk result (λ acts. items acts ≡ Act.Say txn number (Outcome.Done reply) ∷ []) }
        ensures state { OnOk result (self.new ≡ with_changed self.old txn (with_phase Phase.Idle)) }
        ensures err { OnErr result (self.new ≡ self.old) }
    {
        let acts = self.one_act(Act::Say(txn, number, Outcome::Done(reply)))?;
        self.transactions.set_phase(txn, Phase::Idle);
        Ok(acts)
    }

    // Whether the vote of the virtual node is waited for.
    fn counts_vote(&self, v: u32, txn: TxnId) -> bool
        ensures { result ≡ counts_vote self.now v txn }
    {
        match self.transactions.get(txn) {
            Some(transaction) => transaction.awaits_vote(v),
            None => false,
        }
    }

    // Whether each participant has voted once the virtual node has.
    fn is_last_vote(&self, v: u32, txn: TxnId) -> bool
        ensures { result ≡ is_last_vote self.now v txn }
    {
        match self.transactions.get(txn) {
            Some(transaction) => transaction.is_last_vote(v),
            None => false,
        }
    }

    // The acts of the first Decides, so many, of those that wait to be safe.
    fn commits(&self, count: usize) -> Result<ActList, NoMemory>
        requires { count ≤ length self.now.waiting }
        ensures { IfOk result (λ acts. items acts ≡ flat_map (acts_of_told self.now) (take count self.now.waiting)) }
    {
        let mut acts = self.no_act();
        for index in 0..count {
            self.tell_commit(&mut acts, self.waiting[index].txn)?;
        }
        Ok(acts)
    }

    // Appends the acts of a transaction whose Decide is safe.
    fn tell_commit(&self, acts: &mut ActList, txn: TxnId) -> Result<(), NoMemory>
        ensures { OnOk result (items acts.new ≡ items acts.old ++ committed_acts self.now txn (phase_of self.now txn)) }
    {
        let Some(Phase::Logged(command)) = self.phase_of(txn) else {
            return Ok(());
        };
        self.tell(acts, txn, Notice::Finish(true))?;
        acts.push(Act::Say(txn, command, Outcome::Committed))?;
        Ok(())
    }
}
