//! What the transcript shows. The function does nothing: its contract is a law of the definitions.
ghost use Rattle.cl_told.specs.Laws.{ToldAtFirst, EventsKeepTold, ReorderKeepsTold, FirmRunsAreTold};

/// The first command of a session that has no answer in the transcript is the one that is outstanding, wherever it is, and
/// what was answered before it makes the session's state at the front. An outcome on its way is one of that command's kind.
/// So it is after every run.
pub fn transcripts_tell_sessions()
    ensures first { ToldAtFirst }
    ensures keeps { EventsKeepTold }
    ensures reorder { ReorderKeepsTold }
    ensures runs { FirmRunsAreTold }
{}
