//! Maps of the same keys with other values.
ghost use Rattle.std.specs.Prelude.{◌-◌, ◌/◌, nat_lt};

use super::ordered::{Sums, assert_made, assert_walk, four};
use super::refusing::NotNine;
use aug_monoid::{NoMemory, Nothing};
use ord_map::{MapValue, OrdMap};
use std::alloc::Global;

/// The halves of the values; none of 7.
#[derive(Drop)]
struct Half;

impl MapValue<u64, u64> for Half {
    type Out = u64;

    ghost made_of = { λ _ _ val. val / 2 };

    fn make(&self, _alloc: Global, _key: &u64, val: &u64) -> Result<u64, NoMemory> {
        if *val == 7 {
            Err(NoMemory)
        } else {
            Ok(*val / 2)
        }
    }
}

/// Whether a value is greater than its key by more than so much.
#[derive(Drop)]
struct Exceeds {
    by: u64,
}

impl MapValue<u64, u64> for Exceeds {
    type Out = bool;

    ghost made_of = { λ how key val. nat_lt how.by (val - key) };

    fn make(&self, _alloc: Global, key: &u64, val: &u64) -> Result<bool, NoMemory> {
        Ok(self.by < val.saturating_sub(*key))
    }
}

#[test]
fn the_same_keys_have_other_values(rt: HostRuntime) {
    let alloc = rt.alloc();
    let map = four(&rt, alloc);
    let halves: Result<Sums, NoMemory> = map.map_values(alloc, &Half);
    let halves = halves.expect(&rt, "memory");
    assert_walk(&rt, alloc, &halves, &[(2, 10), (4, 20), (6, 30), (8, 40)]);
    assert_eq!(rt; halves.fold().map(|totals| totals.sum), Some(100));
    let none: Sums = OrdMap::new();
    assert_made(&rt, alloc, none.map_values(alloc, &Half), &[]);
}

const EXCEEDING: &[(u64, bool)] = &[(2, false), (4, false), (6, true), (8, true)];

#[test]
fn the_values_are_of_another_type(rt: HostRuntime) {
    let alloc = rt.alloc();
    let how = Exceeds { by: 36 };
    let map: Result<OrdMap<Nothing<u64, bool>>, NoMemory> = four(&rt, alloc).map_values(
        alloc, &how,
    );
    let entries = map.expect(&rt, "memory").to_vec(alloc);
    assert_eq!(rt; entries.expect(&rt, "memory").as_slice(), EXCEEDING);
}

/// How many entries there are: several hundred blocks of them.
const ENTRIES: u64 = 20_000;

#[test]
fn the_values_of_many_blocks(rt: HostRuntime) {
    let alloc = rt.alloc();
    let mut pairs = Vec::new(alloc);
    let mut wanted = Vec::new(alloc);
    for key in 0..ENTRIES {
        pairs
            .push((key, key.saturating_mul(4)))
            .expect(&rt, "memory");
        wanted
            .push((key, key.saturating_mul(2)))
            .expect(&rt, "memory");
    }
    let map: Sums = OrdMap::from_pairs(alloc, &pairs).expect(&rt, "memory");
    assert_made(&rt, alloc, map.map_values(alloc, &Half), &wanted);
}

// The fold of the new values refuses to be nine.
#[test]
fn what_refuses_a_value_refuses_the_map(rt: HostRuntime) {
    let alloc = rt.alloc();
    let seven: Sums = OrdMap::from_pairs(alloc, &[(1, 6), (2, 7)]).expect(&rt, "memory");
    let refused: Result<Sums, NoMemory> = seven.map_values(alloc, &Half);
    assert!(rt; refused.is_err());
    let halves: Sums = OrdMap::from_pairs(alloc, &[(1, 8), (2, 10)]).expect(&rt, "memory");
    let nine: Result<OrdMap<NotNine>, NoMemory> = halves.map_values(alloc, &Half);
    assert!(rt; nine.is_err());
}
