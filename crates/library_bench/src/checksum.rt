//! Many numbers as one.

/// Mixes numbers, in their order, into one.
#[derive(Drop)]
pub struct Checksum {
    sum: u64,
}

impl Checksum {
    pub fn new() -> Checksum {
        Checksum { sum: 0 }
    }

    pub fn add(&mut self, number: u64) {
        self.sum = self
            .sum
            .rotate_left(5)
            .wrapping_mul(6364136223846793005)
            .wrapping_add(number);
    }

    pub fn sum(&self) -> u64 {
        self.sum
    }
}
