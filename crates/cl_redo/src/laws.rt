//! What holds of records that are taken one after another. Each function does nothing: its contract
//! is a law.
ghost use Rattle.cl_redo.specs.Laws.{TakingGivesStoreAndLocks, TakingGivesLocks, TakingOnCopyLeavesLater, TakingOnCopyMeetsWrites, TablesHaveNoConflict};

/// Taking the records of a consistent log from the first, where each Touch, Set or Add is of a
/// transaction without End, leaves its store and its locks. The locks are left so from no locks on
/// whatever store, also where the records begin at a later number.
pub fn taking_gives_store_and_locks()
    ensures whole { TakingGivesStoreAndLocks }
    ensures locks { TakingGivesLocks }
{}

/// On a copy of a consistent log numbered from 1, taking records leaves at each place the later of
/// what the copy had and what the log gives, and each write meets what stands at its place
/// (`MeetsWrite`, the condition of `take`).
pub fn taking_on_a_copy()
    ensures later { TakingOnCopyLeavesLater }
    ensures meets { TakingOnCopyMeetsWrites }
{}

/// No two locks conflict of a log whose locks a lock table holds.
pub fn tables_have_no_conflict()
    ensures { TablesHaveNoConflict }
{}
