//! What holds of a primary with a standby. Each function does nothing: its contract is a law of the definitions.
ghost use Rattle.cl_paired.specs.Laws.{FirstIsPaired, FitsBoth, StepsAreSeenAlone, AcksTell};

/// A primary with a standby takes each step that it would take without, and tells later what is not safe yet: its votes and
/// its decisions, in order of the log.
pub fn paired_steps_are_seen_alone()
    ensures first { FirstIsPaired }
    ensures fits { FitsBoth }
    ensures steps { StepsAreSeenAlone }
{}

/// An acknowledgement of the standby tells the first part of what was still to be told, and nothing else.
pub fn acknowledgements_tell()
    ensures { AcksTell }
{}
