//! Seeded numbers.

use aug_monoid::NoMemory;
use std::alloc::Global;

/// A linear congruential generator of 64 bits, whose high bits are used.
#[derive(Drop)]
pub struct Numbers {
    state: u64,
}

impl Numbers {
    pub fn new(seed: u64) -> Numbers {
        Numbers { state: seed }
    }

    fn next(&mut self) -> u64 {
        self.state = self
            .state
            .wrapping_mul(6364136223846793005)
            .wrapping_add(1442695040888963407);
        self.state
    }

    /// A number below the bound, and 0 where the bound is 0.
    pub fn below(&mut self, bound: u64) -> u64 {
        (self.next() >> 32) % bound.max(1)
    }

    /// A key below the bound, and a value of 20 bits.
    pub fn pair(&mut self, bound: u64) -> (u64, u64) {
        let key = self.below(bound);
        (key, self.next() >> 44)
    }

    pub fn pairs(
        &mut self,
        alloc: Global,
        count: u64,
        bound: u64,
    ) -> Result<Vec<(u64, u64)>, NoMemory> {
        let mut pairs = Vec::new(alloc);
        for _ in 0..count {
            pairs.push(self.pair(bound))?;
        }
        Ok(pairs)
    }

    /// Pairs with keys of 64 bits.
    pub fn wide_pairs(&mut self, alloc: Global, count: u64) -> Result<Vec<(u64, u64)>, NoMemory> {
        let mut pairs = Vec::new(alloc);
        for _ in 0..count {
            let key = self.next() ^ (self.next() >> 32);
            pairs.push((key, self.next() >> 57))?;
        }
        Ok(pairs)
    }
}
