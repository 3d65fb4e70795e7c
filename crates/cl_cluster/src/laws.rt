//! What holds of every run. Each function does nothing: its contract is a law of the definitions.
ghost use Rattle.cl_cluster.specs.Laws.{AlikeAtFirst, AlikeMay, EventsKeepAlike, EveryInputFits, RunsArePairRuns};

/// While no node stops, the system of cores and queues is its front, the primary and the standby of each virtual node, and
/// what is on its way between them: so it is after every run, also where quiet moments come at any time.
pub fn runs_are_pair_runs()
    ensures first { AlikeAtFirst }
    ensures keeps { EventsKeepAlike }
    ensures may { AlikeMay }
    ensures runs { RunsArePairRuns }
{}

/// In every run, also where quiet moments come at any time, what may happen meets the conditions of every call that it
/// makes.
pub fn every_input_fits()
    ensures { EveryInputFits }
{}
