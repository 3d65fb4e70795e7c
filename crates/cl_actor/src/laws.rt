//! The laws of actors. A law is the contract of a function that does nothing.
ghost use Rattle.cl_actor.specs.Laws.{PrimariesAreActors};

/// The primary of each virtual node is an actor. So what is sent to primaries fits the links.
pub fn primaries_are_actors()
    ensures { PrimariesAreActors }
{}
