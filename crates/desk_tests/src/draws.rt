//! Numbers that a generator draws.

/// A generator's state.
#[derive(Drop)]
pub(crate) struct Draws(pub(crate) u64);

impl Draws {
    /// The next number, of 31 bits.
    pub(crate) fn draw(&mut self) -> u32 {
        self.0 = self
            .0
            .wrapping_mul(6_364_136_223_846_793_005)
            .wrapping_add(1_442_695_040_888_963_407);
        u32::try_from(self.0 >> 33).unwrap_or(0)
    }
}
