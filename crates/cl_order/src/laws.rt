//! What holds of ledgers. Each function does nothing: its contract is a law of the definitions.
ghost use Rattle.cl_order.specs.Laws.{OperationsKeepOrder, PreparedKeepsOrder, DecideKeepsOrder, JoiningKeepsOrder, UndoKeepsOrder, EndKeepsOrder, CutKeepsOrder, StepsKeepOrder, SparedStayWhole, StepsMakeOrder, StepsGoOn, MembersStandOnce, HistoryReplays, WholeReplays, WholeOnEach, WholeWithoutOperations, MembersHoldLocks, HoldersAsked, StoreIsMap, BeginningsSettleAlike};

/// An operation that is carried out under a lock that was held or free keeps a ledger ordered.
/// Its transaction stays whole, and so does each other.
pub fn operations_keep_order()
    ensures { OperationsKeepOrder }
{}

/// A Prepared or a Decide keeps a ledger ordered, and each transaction whole.
pub fn marks_keep_order()
    ensures prepared { PreparedKeepsOrder }
    ensures decide { DecideKeepsOrder }
{}

/// A whole transaction that joins the history keeps a ledger ordered, and each other whole.
pub fn joining_keeps_order()
    ensures { JoiningKeepsOrder }
{}

/// An undo step keeps a ledger ordered, and each other transaction whole.
pub fn undo_keeps_order()
    ensures { UndoKeepsOrder }
{}

/// An End keeps a ledger ordered, and each other transaction whole.
pub fn end_keeps_order()
    ensures { EndKeepsOrder }
{}

/// A log that loses an end keeps a ledger ordered, where of members nothing is lost but Ends.
/// Each transaction that loses no record stays whole.
pub fn cut_keeps_order()
    ensures { CutKeepsOrder }
{}

/// A ledger is ordered after any steps that each have what they need. Each step keeps it so, and
/// leaves each transaction whole that it spares.
pub fn steps_make_order()
    ensures each { StepsKeepOrder }
    ensures spared { SparedStayWhole }
    ensures all { StepsMakeOrder }
    ensures more { StepsGoOn }
{}

/// The members of the history differ. Where they have done what a transcript says, the history
/// replays with its replies, and each place settles to the map that this makes.
pub fn history_replays()
    ensures once { MembersStandOnce }
    ensures replays { HistoryReplays }
{}

/// The operations of a whole transaction, done on the map of the history, give the replies that
/// were given. A transaction is whole exactly where it is whole on each virtual node, as it is
/// where it has no operation.
pub fn whole_transactions_replay()
    ensures replays { WholeReplays }
    ensures each { WholeOnEach }
    ensures elsewhere { WholeWithoutOperations }
{}

/// A member of the history holds the lock of each of its operations until its End. Whoever holds a
/// lock has an operation there that asks for it.
pub fn members_hold_locks()
    ensures members { MembersHoldLocks }
    ensures holders { HoldersAsked }
{}

/// At a place that no transaction outside the history has locked exclusively, the store has what
/// the map of the history has.
pub fn store_is_map()
    ensures { StoreIsMap }
{}

/// Each beginning of a log that has all records of members but their Ends settles to the map of the
/// history.
pub fn beginnings_settle_alike()
    ensures { BeginningsSettleAlike }
{}
