//! Draws: numbers that look random and are a function of their seed.
ghost use Rattle.std.specs.Prelude.{◌≡◌};
ghost use Rattle.cl_types.specs.Draws.{mixed};

// The golden ratio in 64 bits.
const STEP: u64 = 0x9E3779B97F4A7C15;

const FIRST_FACTOR: u64 = 0xBF58476D1CE4E5B9;

const SECOND_FACTOR: u64 = 0x94D049BB133111EB;

/// The draw of a number, which may be any of 64 bits: one step and the finalizer of SplitMix64.
#[tactic(auto, unfolding(crate::specs::Draws::mixed))]
pub fn mix(x: u64) -> u64
    ensures { result ≡ mixed x }
{
    let z = x.wrapping_add(STEP);
    let z = (z ^ (z >> 30)).wrapping_mul(FIRST_FACTOR);
    let z = (z ^ (z >> 27)).wrapping_mul(SECOND_FACTOR);
    z ^ (z >> 31)
}
