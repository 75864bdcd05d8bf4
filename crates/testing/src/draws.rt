//! Numbers that are drawn.

/// Draws numbers, which are always the same after the same seed.
#[derive(Drop)]
pub struct Draws {
    state: u64,
}

impl Draws {
    /// Draws after this seed.
    pub fn new(seed: u64) -> Draws {
        let state = seed;
        Draws { state }
    }

    /// A number below 2 to the 31.
    pub fn next(&mut self) -> u32 {
        self.state = self
            .state
            .wrapping_mul(6_364_136_223_846_793_005)
            .wrapping_add(1_442_695_040_888_963_407);
        (self.state.wrapping_shr(33) & 0x7FFF_FFFF) as u32
    }

    /// A number below a bound, or 0 if the bound is 0.
    pub fn below(&mut self, bound: u32) -> u32 {
        self.next().checked_rem(bound).unwrap_or(0)
    }
}
