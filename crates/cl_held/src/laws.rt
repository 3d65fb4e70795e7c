//! What holds of every run of pairs. The function does nothing: its contract is a law of the definitions.
ghost use Rattle.cl_held.specs.Laws.{PairsHold};

/// After every run of pairs, both members of the home of each transaction of the history have its decision. Of its locks,
/// writes and votes each standby's log has what the primary's has.
pub fn pairs_hold()
    ensures { PairsHold }
{}
