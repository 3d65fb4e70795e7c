//! What a schedule is asked for, and how it ends.

/// How a run is made.
#[derive(Clone, Copy, Debug, PartialEq, Eq)]
pub struct Setting {
    /// How many nodes the cluster has: 2, 4, 6 or 8.
    pub nodes: u32,
    /// How many spares: 0 to 8.
    pub spares: u32,
    /// Whether each line waits for a quiet moment.
    pub step: bool,
    /// Which order: in each turn the first candidate is taken where it is 0, and else one that is drawn.
    pub seed: u64,
    /// How many turns are made at most.
    pub turns: u64,
}

/// How the turns end.
#[derive(Clone, Copy, Debug, PartialEq, Eq)]
pub enum Finish {
    /// Each line is fed and the moment is quiet, which is the last event.
    Quiet,
    /// All turns are made, and a line is not fed or the moment is not quiet.
    TurnsMade,
}
