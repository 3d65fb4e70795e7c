//! The laws of the front. A law is the contract of a function that does nothing.
ghost use Rattle.cl_front.specs.Laws.{FrontsSendToActors, NumbersGrowByOne};

/// A step raises the numbers of commands by at most one. So each line and each outcome fits a front that had few steps.
pub fn numbers_grow_by_one()
    ensures { NumbersGrowByOne }
{}

/// What a front sends goes to actors. So each line, and each outcome from an actor, fits the front's links.
pub fn fronts_send_to_actors()
    ensures { FrontsSendToActors }
{}
