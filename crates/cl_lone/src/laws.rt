//! What holds of a primary without a standby. The function does nothing: its contract is a law of the definitions.
ghost use Rattle.cl_lone.specs.Laws.{FirstIsCalm, CalmStepsAreLone, StepsStayCalm};

/// Between two steps nothing waits to be safe, and no open transaction is decided. A message that fits is taken in one
/// step, after which this holds again.
pub fn calm_steps_are_lone()
    ensures first { FirstIsCalm }
    ensures steps { CalmStepsAreLone }
    ensures stays { StepsStayCalm }
{}
