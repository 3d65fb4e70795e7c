//! How far a run is, and what a turn takes from it.
use crate::asked::Asked;

/// How far a run is: the next line is the one of index `fed`.
#[derive(Drop)]
pub(crate) struct Progress {
    pub(crate) asked: Asked,
    pub(crate) fed: usize,
    pub(crate) turns: u64,
}

/// What a turn takes.
#[derive(Clone, Copy)]
pub(crate) enum Taken<'a> {
    /// The packet of this number, which goes to this actor.
    Packet(u64, u32),
    /// The next line.
    Line(&'a [u8]),
    /// That time passes for this actor.
    Time(u32),
}
