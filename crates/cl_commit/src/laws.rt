//! What holds of two-phase commit. The function does nothing: its contract is a law of the definitions.
ghost use Rattle.cl_commit.specs.Laws.{WholeAtFirst, EventsKeepWhole, AbortedStayOut, ReorderKeepsWhole, FirmRunsAreWhole};

/// Between the controller of a transaction and each virtual node at most one message about it is on its way. Its stage in
/// the log there is one that this message and its life allow. Exactly a member of the history has committed. An outcome
/// COMMITTED on its way is of a member, and ABORTED of a transaction that was aborted. So it is at the start and after
/// every firm run. Each event that may happen in a sound system keeps it so, and whoever was aborted stays so and out of
/// the history. Another order of the messages keeps it so too.
pub fn commits_are_whole()
    ensures first { WholeAtFirst }
    ensures keeps { EventsKeepWhole }
    ensures aborted { AbortedStayOut }
    ensures reorder { ReorderKeepsWhole }
    ensures runs { FirmRunsAreWhole }
{}
