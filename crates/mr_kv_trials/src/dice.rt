//! Numbers by a linear congruential step.

#[derive(Drop)]
pub struct Dice {
    state: u64,
}

impl Dice {
    pub fn new(seed: u64) -> Dice {
        Dice { state: seed }
    }

    /// A number below this one, or 0.
    pub fn roll(&mut self, sides: u8) -> u8 {
        self.state = self
            .state
            .wrapping_mul(6_364_136_223_846_793_005)
            .wrapping_add(1_442_695_040_888_963_407);
        let rolled = (self.state >> 33) % sides.max(1) as u64;
        rolled.min(255) as u8
    }
}
