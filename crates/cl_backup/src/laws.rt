//! What holds of the decisions of every log. The function does nothing: its contract is a law.
ghost use Rattle.cl_backup.specs.Laws.{DecisionsAreDistinct};

/// Among the decisions of a log no transaction stands twice.
pub fn decisions_are_distinct()
    ensures { DecisionsAreDistinct }
{}
