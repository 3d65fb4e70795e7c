//! What holds of every log. Each function does nothing: its contract is a law of the definitions.
ghost use Rattle.cl_log.specs.Laws.{StoreFollowsRecords, RedoLeavesLater, RedoMeetsGuard, LocksFollowRecords, UndoTakesFirst, UndoKeepsSettled, WritesUndoneOnce, RecordsKeepSettled, HistorySettlesLocks, UnendedAreOpen, UnendedByFirstNumber, OpenByStage, LowIsLeastOpen, CutKeepsLocks, FreePlacesAreSettled, AdditionsAreReversible, NextIsNotUndone, LawfulLogsHaveNoConflict, BeginningsKeepSettled, FoundFree};
ghost use Rattle.std.specs.Prelude.{◌≡◌, ◌+◌, ◌≤◌, length};
ghost use Rattle.cl_log.specs.LogEntry.{IsNumberedFrom};
ghost use Rattle.cl_log.specs.Log.{entries, first_kept, next_number};

use crate::Log;

/// The numbers of a log's records count up by one from the first that is kept, which is at least 1,
/// to the one below the next.
pub fn records_are_numbered(log: &Log)
    ensures positive { 1 ≤ first_kept log.now }
    ensures numbers { IsNumberedFrom (first_kept log.now) (entries log.now) }
    ensures next { first_kept log.now + length (entries log.now) ≡ next_number log.now }
{}

/// One more record changes the store at the place of its write alone.
pub fn store_follows_records()
    ensures { StoreFollowsRecords }
{}

/// Redo by guard, on a copy of a consistent log numbered from 1, leaves at each place the later of
/// what the copy had and what the log left.
pub fn redo_leaves_later()
    ensures { RedoLeavesLater }
{}

/// Each write that is redone by guard, on a copy of a consistent log numbered from 1, finds the
/// number that its record had before it, or at least its own number, which is above the one before.
pub fn redo_meets_guard()
    ensures { RedoMeetsGuard }
{}

/// One more record changes the locks of its own transaction alone, where a Touch, Set or Add is of a
/// transaction without End.
pub fn locks_follow_records()
    ensures { LocksFollowRecords }
{}

/// In a numbered log an undo step takes the first of a transaction's rest, and nothing of another's.
pub fn undo_takes_first()
    ensures { UndoTakesFirst }
{}

/// In a numbered log an undo step of an open transaction, where no locks of the log conflict, leaves
/// the settled map under each history without the transaction.
pub fn undo_keeps_settled()
    ensures { UndoKeepsSettled }
{}

/// In a log whose compensations each undo the first of the rest of their transaction, each write is
/// undone once at most.
pub fn writes_undone_once()
    ensures { WritesUndoneOnce }
{}

/// What leaves the settled map: a Touch, Prepared or Decide; a reversible Set or Add, not yet undone,
/// of a transaction without End that is not in the history; and the End of a member of the history,
/// or of a transaction with nothing left to undo.
pub fn records_keep_settled()
    ensures { RecordsKeepSettled }
{}

/// In a numbered log the low number is the least number of a record of an open transaction, or the
/// next number.
pub fn low_is_least_open()
    ensures { LowIsLeastOpen }
{}

/// A new member of the history changes the settled map at places that it locks exclusively alone;
/// where a member has such a lock, and no locks of the log conflict, the settled map is the store.
pub fn history_settles_locks()
    ensures { HistorySettlesLocks }
{}

/// The unended transactions are the open ones, each once, and in a numbered log they stand by their
/// first log numbers.
pub fn unended_are_open()
    ensures open { UnendedAreOpen }
    ensures order { UnendedByFirstNumber }
{}

/// A transaction is open exactly where its stage is running or prepared.
pub fn open_by_stage()
    ensures { OpenByStage }
{}

/// A numbered log keeps its locks where records below its low number are cut off, and where each
/// Touch, Set or Add is of a transaction without End.
pub fn cut_keeps_locks()
    ensures { CutKeepsLocks }
{}

/// The settled map is the store at a place that no transaction outside the history has locked
/// exclusively.
pub fn free_places_are_settled()
    ensures { FreePlacesAreSettled }
{}

/// Undoing an Add to a number, with its sum within 64 bits, gives that number back.
pub fn additions_are_reversible()
    ensures { AdditionsAreReversible }
{}

/// In a numbered log whose compensations undo in order, none names a number that is still to come.
pub fn next_is_not_undone()
    ensures { NextIsNotUndone }
{}

/// No beginning of a lawful log has two locks in conflict. And a record after which no locks
/// conflict found its lock free.
pub fn lawful_logs_have_no_conflict()
    ensures beginnings { LawfulLogsHaveNoConflict }
    ensures free { FoundFree }
{}

/// A beginning of a lawful log settles as the log does, where it has all records of members of the
/// history but their Ends.
pub fn beginnings_keep_settled()
    ensures { BeginningsKeepSettled }
{}
