//! What a run of pairs is. The function does nothing: its contract is a law of the definitions.
ghost use Rattle.cl_seen.specs.Laws.{PairInputsFit, PairMessagesAreAddressed, PairRunsAreSeen};

/// Every run of pairs is a run of the firm system: a transaction is firm once its standby has its Decide, and what waits for
/// an acknowledgement is as if on its way. So what may happen next fits whom it comes to.
pub fn pair_runs_are_seen()
    ensures seen { PairRunsAreSeen }
    ensures fits { PairInputsFit }
    ensures addressed { PairMessagesAreAddressed }
{}
