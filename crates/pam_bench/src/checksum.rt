//! Many numbers as one.

use aug_monoid::{NoMemory, SumMax};
use ord_map::{Iter, IterRef};

/// Mixes numbers, in their order, into one.
#[derive(Drop)]
pub struct Checksum {
    sum: u64,
}

fn mixed(sum: u64, number: u64) -> u64 {
    sum.rotate_left(5)
        .wrapping_mul(6364136223846793005)
        .wrapping_add(number)
}

impl Checksum {
    pub fn new() -> Checksum {
        Checksum { sum: 0 }
    }

    pub fn add(&mut self, number: u64) {
        self.sum = mixed(self.sum, number);
    }

    /// Adds the keys and values of entries.
    pub fn add_entries(&mut self, entries: Iter<'_, SumMax<u64>>) -> Result<(), NoMemory> {
        let mut sum = self.sum; // a field would be stored at each entry
        for entry in entries {
            let (key, val) = entry?;
            sum = mixed(mixed(sum, key), val);
        }
        self.sum = sum;
        Ok(())
    }

    /// Adds the keys and values of entries that are lent.
    pub fn add_lent(&mut self, entries: IterRef<'_, SumMax<u64>>) {
        let mut sum = self.sum; // a field would be stored at each entry
        for (key, val) in entries {
            sum = mixed(mixed(sum, *key), *val);
        }
        self.sum = sum;
    }

    pub fn sum(&self) -> u64 {
        self.sum
    }

    /// The checksum of the keys and values of entries.
    pub fn of(entries: Iter<'_, SumMax<u64>>) -> Result<u64, NoMemory> {
        let mut checksum = Checksum::new();
        checksum.add_entries(entries)?;
        Ok(checksum.sum())
    }
}
