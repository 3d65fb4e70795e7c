//! What holds of every run of pairs. The function does nothing: its contract is a law of the definitions.
ghost use Rattle.cl_pairs.specs.Laws.{AllIsAcknowledged, PairsAgree, PairsAreOneLog};

/// After every run of pairs each virtual node is one log: that of its primary is that of its standby and what is on its way
/// to it, and what is acknowledged was taken. Where nothing is on its way, both replicas are equal, and all is acknowledged.
pub fn pairs_are_one_log()
    ensures log { PairsAreOneLog }
    ensures agree { PairsAgree }
    ensures acknowledged { AllIsAcknowledged }
{}
