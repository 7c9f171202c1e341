//! Numbers drawn one after another from a number.

ghost use Rattle.std.specs.Prelude.{◌≡◌, ◌<◌};
ghost use Rattle.trace_gen.specs.Draws.{following, number_of};

/// A linear congruential generator modulo 2^64 (Knuth's MMIX generator), of whose states the upper 31 bits are drawn.
/// Equal numbers give equal draws.
#[derive(Drop)]
pub(crate) struct Draws {
    /// What the last draw left; before the first, the number that the draws are made from.
    pub(crate) state: u64,
}

impl Draws {
    /// The draws of a number.
    pub(crate) fn new(number: u64) -> Self
        ensures { result.state ≡ number }
    {
        Draws { state: number }
    }

    /// Draws a number below `n`.
    #[tactic(auto, unfolding(crate::specs::Draws::number_of))]
    pub(crate) fn draw(&mut self, n: u32) -> u32
        requires { 0 < n }
        ensures state { self.new.state ≡ following self.old.state }
        ensures number { result ≡ number_of n self.new.state }
        ensures below { result < n }
    {
        self.state = following(self.state);
        ((self.state >> 33) % u64::from(n)) as u32
    }
}

// The state behind a state.
#[tactic(auto, unfolding(crate::specs::Draws::following))]
fn following(state: u64) -> u64
    ensures { result ≡ following state }
{
    state
        .wrapping_mul(6_364_136_223_846_793_005)
        .wrapping_add(1_442_695_040_888_963_407)
}
