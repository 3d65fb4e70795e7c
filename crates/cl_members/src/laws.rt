//! What a run of the cluster is. Each function does nothing: its contract is a law of the definitions.
ghost use Rattle.cl_members.specs.Laws.{EventsGoOn, MarksAreOfRuns, MembersAreOfPairs, QuietEmptiesMail, RunsAreFirmRuns, RunsAreQuiet};

/// Every run, also where quiet moments come at any time, is a run of the firm system: it has the same transcript, history
/// and logs, and was fed the same lines. So is each first part of it.
pub fn runs_are_firm_runs()
    ensures firm { RunsAreFirmRuns }
    ensures goes_on { EventsGoOn }
{}

/// A quiet moment of a run is one while nothing is on its way, and a message that comes is one that an event of the run
/// with the same mark handles.
pub fn events_are_of_runs()
    ensures quiet { RunsAreQuiet }
    ensures marks { MarksAreOfRuns }
{}

/// After every run each virtual node has a primary and a standby, and at a quiet moment nothing is on its way between them.
pub fn members_are_of_pairs()
    ensures members { MembersAreOfPairs }
    ensures quiet { QuietEmptiesMail }
{}
