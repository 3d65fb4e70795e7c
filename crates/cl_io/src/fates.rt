ghost use Rattle.std.specs.Prelude.{◌≡◌, ℕ};
ghost use Rattle.cl_io.specs.declared.fates.Fate.TheVariants as fate;

/// What happens to a packet on its way when its turn comes.
#[derive(Clone, Copy, Debug, PartialEq, Eq)]
pub enum Fate {
    /// It is handled, and is no longer on its way.
    Deliver,
    /// It is no longer on its way, and is not handled.
    Lose,
    /// It is handled, and stays on its way.
    Repeat,
    /// It stays on its way, and is not handled.
    Late,
}

/// Decides what happens to packets.
pub trait Fates {
    ghost use Rattle.cl_io.specs.declared.fates.Fate.{Fate};

    // The fate of the packet of a number whose fate was asked so many times before.
    ghost fates: { Self → ℕ → ℕ → Fate };

    /// The fate of the packet of this number, whose fate was asked so many times before. Any answer is allowed.
    ///
    /// It allocates nothing.
    fn fate(&self, packet: u64, times: u32) -> Fate
        ensures { result ≡ fates self.now packet times };
}

/// Each packet is delivered, once.
#[derive(Clone, Copy, Debug, PartialEq, Eq)]
pub struct Always;

impl Fates for Always {
    ghost fates = { λ _ packet times. fate.Deliver };

    fn fate(&self, _packet: u64, _times: u32) -> Fate {
        Fate::Deliver
    }
}
