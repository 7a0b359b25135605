//! Numbers that look random.
ghost use Rattle.std.specs.Prelude.{◌≡◌, ◌<◌};

/// Numbers that look random, the same for the same seed: a linear congruence of 64 bits.
#[derive(Drop)]
pub struct Numbers {
    pub state: u64,
}

impl Numbers {
    /// Those of a seed.
    pub(crate) fn of(seed: u64) -> Numbers
        ensures { result.state ≡ seed }
    {
        Numbers { state: seed }
    }

    /// The next number below `bound`.
    pub fn below(&mut self, bound: u64) -> u64
        requires { 0 < bound }
        ensures { result < bound }
    {
        self.state = self
            .state
            .wrapping_mul(6_364_136_223_846_793_005)
            .wrapping_add(1_442_695_040_888_963_407);
        (self.state >> 33) % bound
    }
}
