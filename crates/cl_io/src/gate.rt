/// A gate is called before and after each handling of an actor, outside its turn. No contract speaks of it.
///
/// An actor is the number of a node, or 16 for the front.
pub trait Gate {
    /// Called as an actor begins a handling.
    fn enter(&self, actor: u32);

    /// Called once the actor has ended it.
    fn leave(&self, actor: u32);
}

/// A gate that is always open.
#[derive(Clone, Copy, Debug, PartialEq, Eq)]
pub struct NoGate;

impl Gate for NoGate {
    fn enter(&self, _actor: u32) {}

    fn leave(&self, _actor: u32) {}
}
