//! What holds of every table. Each function does nothing: its contract is a law.
ghost use Rattle.cl_locks.specs.Laws.{EveryTableIsList, EmptyIsTable, OneFirstConflict, OneModeHeld, GrantMakesTable, ReleaseMakesTable, GrantsArePlaced, GrantsAreCompatible, ModesAreCompatible, FirstConflictHolds, NoConflictIsFree, BeginningIsCompatible, FreeForStrongerIsFree};

/// Every table is one list of grants: what a call answers by the grants of a place it answers by
/// the whole list, and what it does at each place it does to the whole list.
pub fn one_table()
    ensures list { EveryTableIsList }
    ensures empty { EmptyIsTable }
    ensures conflict { OneFirstConflict }
    ensures mode { OneModeHeld }
    ensures grant { GrantMakesTable }
    ensures release { ReleaseMakesTable }
{}

/// At each place no transaction has two locks, no two locks conflict, and a request is refused
/// exactly where another transaction holds a mode that conflicts.
pub fn locks_are_sound()
    ensures placed { GrantsArePlaced }
    ensures grants { GrantsAreCompatible }
    ensures modes { ModesAreCompatible }
    ensures refused { FirstConflictHolds }
    ensures free { NoConflictIsFree }
{}

/// A beginning of compatible grants is compatible. Where a mode meets no conflict, no weaker mode
/// meets one.
pub fn grants_are_monotone()
    ensures beginning { BeginningIsCompatible }
    ensures weaker { FreeForStrongerIsFree }
{}
