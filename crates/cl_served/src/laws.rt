//! What holds of every run. Each function does nothing: its contract is a law of the definitions.
ghost use Rattle.cl_served.specs.Laws.{LedgersAreShown, FirmRunsAreSerializable};

/// What a transaction has done, a line of it asked for. Of a member of the history all operations were done, with the
/// replies that the transcript shows.
pub fn ledgers_are_shown()
    ensures { LedgersAreShown }
{}

/// After every firm run what is firm explains the transcript, one transaction after another, wherever quiet moments stand.
pub fn firm_runs_are_serializable()
    ensures { FirmRunsAreSerializable }
{}
