//! Seeded numbers.

/// A linear congruential generator of 64 bits, whose high bits are used.
#[derive(Drop)]
pub struct Numbers {
    state: u64,
}

impl Numbers {
    pub fn new(seed: u64) -> Numbers {
        Numbers { state: seed }
    }

    fn next(&mut self) -> u64 {
        self.state = self
            .state
            .wrapping_mul(6364136223846793005)
            .wrapping_add(1442695040888963407);
        self.state
    }

    /// A number below the bound, and 0 where the bound is 0.
    pub fn below(&mut self, bound: u64) -> u64 {
        (self.next() >> 32) % bound.max(1)
    }

    /// A number of 20 bits.
    pub fn item(&mut self) -> u64 {
        self.next() >> 44
    }
}
