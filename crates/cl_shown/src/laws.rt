//! What holds of the transcript of every run. Each function does nothing: its contract is a law of the definitions.
ghost use Rattle.cl_shown.specs.Laws.{SessionHasOutstanding, FirmRunsAreWellShown, FirmLinesAreFed, FirmRestAnswersAll};

/// In the transcript of every run each answer follows its line and fits its session's turn, and each line with a fault is
/// refused at once. The transactions of each session end as they may.
pub fn transcripts_are_well_shown()
    ensures outstanding { SessionHasOutstanding }
    ensures shown { FirmRunsAreWellShown }
{}

/// The transcript has the lines that the run was fed, in their order, and where the front is at rest, each has its answer.
pub fn lines_are_answered()
    ensures fed { FirmLinesAreFed }
    ensures rest { FirmRestAnswersAll }
{}
