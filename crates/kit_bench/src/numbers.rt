//! Seeded numbers, and many numbers as one.

use std::alloc::{AllocError, Global};

/// A linear congruential generator of 64 bits, whose high bits are used.
#[derive(Drop)]
pub struct Numbers {
    state: u64,
}

impl Numbers {
    pub fn new(seed: u64) -> Numbers {
        Numbers { state: seed }
    }

    fn next(&mut self) -> u64 {
        self.state = mixed(self.state, 1442695040888963407);
        self.state
    }

    /// A number below the bound, and 0 where the bound is 0.
    pub fn below(&mut self, bound: u64) -> u64 {
        (self.next() >> 32) % bound.max(1)
    }

    /// As many pairs of a key below the bound and a value of 20 bits.
    pub fn pairs(
        &mut self,
        alloc: Global,
        count: u64,
        bound: u64,
    ) -> Result<Vec<(u64, u64)>, AllocError> {
        let mut pairs = Vec::new(alloc);
        for _ in 0..count {
            let key = self.below(bound);
            pairs.push((key, self.next() >> 44))?;
        }
        Ok(pairs)
    }
}

/// Mixes numbers, in their order, into one.
#[derive(Drop)]
pub struct Checksum {
    sum: u64,
}

impl Checksum {
    pub fn new() -> Checksum {
        Checksum { sum: 0 }
    }

    pub fn add(&mut self, number: u64) {
        self.sum = mixed(self.sum.rotate_left(5), number);
    }

    pub fn sum(&self) -> u64 {
        self.sum
    }
}

fn mixed(state: u64, number: u64) -> u64 {
    state.wrapping_mul(6364136223846793005).wrapping_add(number)
}
