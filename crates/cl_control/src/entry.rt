//! What a controller keeps of an open transaction.
ghost use Rattle.std.specs.Prelude.{◌≡◌, ◌<◌, ◌≤◌, ◌||◌, nat_eq, length};
ghost use Rattle.std.specs.List.{list_all};
ghost use Rattle.cl_types.specs.declared.operations.TxnId.{TxnId};
ghost use Rattle.cl_control.specs.Calls.{committing, awaits_vote, voted, decided, logged, is_logged, numbered};
ghost use Rattle.cl_control.specs.State.{is_among, joined, with_participant, with_vote, is_unanimous};
ghost use Rattle.cl_control.specs.Table.{named};

use arrayvec::ArrayVec;
use cl_types::TxnId;

/// The most virtual nodes.
pub(crate) const VIRTUAL_NODES_MAX: usize = 8;

/// Virtual nodes, each once.
pub(crate) type VirtualNodes = ArrayVec<u32, VIRTUAL_NODES_MAX>;

/// How far an open transaction is.
#[derive(Clone, Copy, Debug, PartialEq, Eq)]
pub enum Phase {
    /// It waits for its next command.
    Idle,
    /// The command of this number, an operation, waits for the answer of this virtual node.
    Asked(u32, u32),
    /// COMMIT, the command of this number, waits for votes.
    Preparing(u32),
    /// COMMIT, the command of this number, is decided. The log number of its Decide is not told yet.
    Decided(u32),
    /// The log number of its Decide was told. COMMIT, the command of this number, waits for that
    /// record to be safe.
    Logged(u32),
}

impl Phase {
    // The phase once each participant has voted.
    fn decided(self) -> Phase
        ensures { result ≡ decided self }
    {
        match self {
            Phase::Preparing(command) => Phase::Decided(command),
            phase => phase,
        }
    }

    // The phase once the log number of the Decide is told.
    fn logged(self) -> Phase
        ensures { result ≡ logged self }
    {
        match self {
            Phase::Decided(command) => Phase::Logged(command),
            phase => phase,
        }
    }
}

/// A Decide whose log number was told.
#[derive(Clone, Copy, Debug, PartialEq, Eq)]
pub struct Told {
    /// The number of its log record.
    pub number: u64,
    pub txn: TxnId,
}

/// What is kept of an open transaction beside its name.
#[derive(Debug, Drop)]
pub(crate) struct OpenTransaction {
    /// The virtual nodes that were asked to carry out an operation, in order of joining.
    pub(crate) participants: VirtualNodes,
    /// Those of them that have voted, in order of their votes.
    pub(crate) votes: VirtualNodes,
    pub(crate) phase: Phase,
}

// Whether the virtual node is one of these.
pub(crate) fn is_among(v: u32, vs: &[u32]) -> bool
    ensures { result ≡ is_among v vs.now }
{
    vs.contains(&v)
}

impl OpenTransaction {
    /// Makes the virtual node a participant, unless it is one already.
    pub(crate) fn join(&mut self, v: u32)
        requires { length (joined v self.old.participants.items) ≤ VIRTUAL_NODES_MAX }
        ensures { (txn : TxnId) → named txn self.new ≡ with_participant v (named txn self.old) }
    {
        if !is_among(v, self.participants.as_slice()) {
            self.participants.push(v);
        }
    }

    /// Whether the log number of its Decide was told.
    pub(crate) fn is_logged(&self) -> bool
        ensures { result ≡ is_logged self.now.phase }
    {
        matches!(self.phase, Phase::Logged(_))
    }

    /// Whether it waits for the vote of the virtual node.
    pub(crate) fn awaits_vote(&self, v: u32) -> bool
        ensures { (txn : TxnId) → result ≡ awaits_vote v (named txn self.now) }
    {
        matches!(self.phase, Phase::Preparing(_))
            && is_among(v, self.participants.as_slice())
            && !is_among(v, self.votes.as_slice())
    }

    /// COMMIT, the command of this number, came. Where there is no participant, the transaction is
    /// decided.
    pub(crate) fn commit(&mut self, number: u32)
        ensures { (txn : TxnId) → named txn self.new ≡ committing number (named txn self.old) }
    {
        self.phase = if self.participants.is_empty() {
            Phase::Decided(number)
        } else {
            Phase::Preparing(number)
        };
    }

    /// The virtual node has voted. With the last vote, the transaction is decided.
    pub(crate) fn add_vote(&mut self, v: u32)
        requires { length self.old.votes.items < VIRTUAL_NODES_MAX }
        ensures { (txn : TxnId) → named txn self.new ≡ voted v (named txn self.old) }
    {
        if self.is_last_vote(v) {
            self.phase = self.phase.decided();
        }
        self.votes.push(v);
    }

    /// The log number of its Decide is told.
    pub(crate) fn set_logged(&mut self)
        ensures { (txn : TxnId) → named txn self.new ≡ numbered (named txn self.old) }
    {
        self.phase = self.phase.logged();
    }

    /// Whether each participant has voted once the virtual node has.
    pub(crate) fn is_last_vote(&self, v: u32) -> bool
        ensures { (txn : TxnId) → result ≡ is_unanimous (with_vote v (named txn self.now)) }
    {
        are_among_or(self.participants.as_slice(), self.votes.as_slice(), v)
    }
}

// Whether each of the first virtual nodes is among the second, or is this one.
fn are_among_or(us: &[u32], vs: &[u32], v: u32) -> bool
    ensures { result ≡ list_all (λ u. is_among u vs.now || nat_eq u v) us.now }
{
    us.iter().all(|u| is_among(*u, vs) || *u == v)
}
