//! Walks over ranges of keys.

use crate::Sums;
use crate::checksum::Checksum;
use crate::making::random_sums;
use crate::numbers::Numbers;
use crate::timed::{Timed, since};
use anyhow::Result;
use std::alloc::Global;
use std::ops::Bound;
use std::rt::Clock;
use std::time::Instant;

/// How many keys a range spans, so that some 100 of them are there.
const WIDTH: u64 = 254;

fn add_range(map: &Sums, lo: u64, checksum: &mut Checksum) {
    let hi = lo.saturating_add(WIDTH);
    checksum.add_lent(map.range_ref(Bound::Included(&lo), Bound::Excluded(&hi)));
}

/// The checksum of ranges from random keys on, one for a hundred pairs of the map.
fn answers(map: &Sums, numbers: &mut Numbers, size: u64) -> u64 {
    let mut checksum = Checksum::new();
    for _ in 0..size / 100 {
        let lo = numbers.below(size.saturating_mul(2));
        add_range(map, lo, &mut checksum);
    }
    checksum.sum()
}

pub(crate) fn time(rt: &impl Clock, alloc: Global, size: u64, seed: u64) -> Result<Timed> {
    let mut numbers = Numbers::new(seed);
    let map = random_sums(alloc, &mut numbers, size, size.saturating_mul(2))?;
    let start = Instant::now(rt)?;
    let checksum = answers(&map, &mut numbers, size);
    since(rt, start, checksum)
}
