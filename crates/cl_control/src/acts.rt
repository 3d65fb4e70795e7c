//! What a controller asks of others.
ghost use Rattle.std.specs.Prelude.{◌≡◌, ◌++◌, map, IfOk, OnOk};
ghost use Rattle.cl_types.specs.GrowingList.{items};
ghost use Rattle.cl_control.specs.Calls.{act_of};
ghost use Rattle.cl_control.specs.State.{ascending};

use crate::entry::is_among;
use cl_types::{GrowingList, Key, NoMemory, Op, Outcome, TableName, TxnId};

/// What a controller asks of others. The primary that runs it sends what an act says, or appends it
/// to the log.
#[derive(Debug, PartialEq, Eq, Drop)]
pub enum Act {
    /// To the primary of the virtual node: carry out the operation, the command of this number.
    Ask(u32, TxnId, u32, TableName, Key, Op),
    /// To the primary of the virtual node: vote on the transaction.
    Prepare(u32, TxnId),
    /// To the primary of the virtual node: the transaction has ended, committed or not.
    Finish(u32, TxnId, bool),
    /// To the log: the transaction is decided. `Control::decided_at` is told the record's number.
    Decide(TxnId),
    /// To the session: the outcome of its command of this number.
    Say(TxnId, u32, Outcome),
}

/// Acts, in the order in which they are to be done.
pub type ActList = GrowingList<Act>;

/// What each participant of a transaction is told.
#[derive(Clone, Copy, Debug)]
pub(crate) enum Notice {
    /// To vote.
    Prepare,
    /// That the transaction has ended, committed or not.
    Finish(bool),
}

impl Notice {
    // The act that tells the virtual node.
    fn act(self, v: u32, txn: TxnId) -> Act
        ensures { result ≡ act_of self txn v }
    {
        match self {
            Notice::Prepare => Act::Prepare(v, txn),
            Notice::Finish(commit) => Act::Finish(v, txn, commit),
        }
    }

    /// Appends the act that tells each participant, ascending. There are `nodes` virtual nodes.
    pub(crate) fn tell(
        self,
        acts: &mut ActList,
        nodes: u32,
        participants: &[u32],
        txn: TxnId,
    ) -> Result<(), NoMemory>
        ensures { OnOk result (items acts.new ≡ items acts.old ++ map (act_of self txn) (ascending nodes participants.now)) }
    {
        for v in 0..nodes {
            if is_among(v, participants) {
                acts.push(self.act(v, txn))?;
            }
        }
        Ok(())
    }
}
