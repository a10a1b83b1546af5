//! How many augmented values a filter looks at, and a search for the first that passes.
ghost use Rattle.aug_monoid.specs.Fresh.{IsFresh};
ghost use Rattle.map_model.specs.Balance.{IsBlockSize};
ghost use Rattle.std.specs.Prelude.{◌≡◌, nat_le};
ghost use Rattle.work_tests.specs.Greatest.{either_passes};

use aug_map::Map;
use aug_monoid::{AugTest, Leaf, Steps, SumMax, Totals};
use leaf_blocks::PlainLeaf;
use std::alloc::Global;
use std::marker::{Brand, Model};
use std::process::Abort;
use std::sync::atomic::{AtomicU64, Ordering};
use std::sync::ledger::{Blank, Ledger};

/// The values that are at least a number. It counts the augmented values that it looks at.
#[derive(Drop)]
struct AtLeast {
    least: u64,
    looked: AtomicU64,
}

impl Model for AtLeast {
    ghost use Rattle.std.specs.Prelude.{ℕ};

    ghost Value = { ℕ };

    ghost view = { λ t. t.least };
}

impl AugTest<SumMax<u64>> for AtLeast {
    ghost admits = { λ least aug. nat_le least aug.greatest };

    ghost passes_either = { λ least. either_passes least };

    fn passes(&self, aug: &Totals) -> bool {
        self.looked.fetch_add(1, Ordering::SeqCst);
        self.least <= aug.greatest
    }
}

/// The numbers below 4096 as keys; a hundredth of them have 9 as value, and the others 1.
fn entries<R: Abort>(rt: &R, alloc: Global) -> Vec<(u64, u64)> {
    let mut pairs = Vec::new(alloc);
    for key in 0..4096u64 {
        let val = if key.is_multiple_of(100) { 9 } else { 1 };
        pairs.push((key, val)).expect(rt, "memory");
    }
    pairs
}

/// How many entries with a value of at least a number there are, and whether few were looked at to find them.
fn kept<R: Abort, L: Leaf<u64, u64>, C: Ledger, const B: usize>(
    rt: &R,
    alloc: Global,
    least: u64,
    tests: &mut Steps<C>,
) -> (u64, bool)
    requires { IsBlockSize B }
{
    let pairs = entries(rt, alloc);
    let map: Map<SumMax<u64>, L, B> = Map::build_alone(alloc, &pairs).expect(rt, "memory");
    let test = AtLeast {
        least,
        looked: AtomicU64::new(0),
    };
    let kept = map
        .aug_filter_counted(alloc, &test, tests)
        .expect(rt, "memory")
        .size();
    let looked = test.looked.load(Ordering::SeqCst);
    let beside = 3 * map.height() as u64 + 2 * B as u64;
    (
        kept,
        looked <= kept.saturating_mul(beside).saturating_add(1),
    )
}

/// The numbers below 4096 as keys; one of them has 9 as value, and the others 1.
fn entries_with_one<R: Abort>(rt: &R, alloc: Global, special: u64) -> Vec<(u64, u64)> {
    let mut pairs = Vec::new(alloc);
    for key in 0..4096u64 {
        let val = if key == special { 9 } else { 1 };
        pairs.push((key, val)).expect(rt, "memory");
    }
    pairs
}

/// The first key with a value of at least 9, and whether few were looked at to find it.
fn found<R: Abort, L: Leaf<u64, u64>, C: Ledger, const B: usize>(
    rt: &R,
    alloc: Global,
    special: u64,
    tests: &mut Steps<C>,
) -> (Option<u64>, bool)
    requires { IsBlockSize B }
{
    let pairs = entries_with_one(rt, alloc, special);
    let map: Map<SumMax<u64>, L, B> = Map::build_alone(alloc, &pairs).expect(rt, "memory");
    let test = AtLeast {
        least: 9,
        looked: AtomicU64::new(0),
    };
    let first = map
        .first_where_counted(alloc, &test, tests)
        .expect(rt, "memory");
    let looked = test.looked.load(Ordering::SeqCst);
    let path = 3 * map.height() as u64 + 2 * B as u64 + 1;
    (first.map(|entry| entry.0), looked <= path)
}

/// Asserts what `found` answers in blocks of a kind.
fn assert_found<R: Abort, L: Leaf<u64, u64>, C: Ledger>(rt: &R, alloc: Global, blank: Blank)
    requires { IsFresh C.name C.parts blank }
{
    let mut tests = Steps::<C>::start(blank);
    assert_eq!(rt;
        found::<R, L, C, 1>(rt, alloc, 3001, &mut tests),
        (Some(3001), true)
    );
    assert_eq!(rt;
        found::<R, L, C, 32>(rt, alloc, 3001, &mut tests),
        (Some(3001), true)
    );
    assert_eq!(rt;
        found::<R, L, C, 32>(rt, alloc, 5000, &mut tests),
        (None, true)
    );
}

/// Asserts it in plain blocks.
fn assert_found_in_plain<R: Abort>(rt: &R, alloc: Global) {
    assert_found::<R, PlainLeaf<u64, u64>, Brand>(rt, alloc, Blank::new(1));
}

#[test]
fn the_first_that_passes_is_found_on_one_path(rt: HostRuntime) {
    assert_found_in_plain(&rt, rt.alloc());
}

/// Asserts what `kept` answers in blocks of a kind.
fn assert_kept<R: Abort, L: Leaf<u64, u64>, C: Ledger>(rt: &R, alloc: Global, blank: Blank)
    requires { IsFresh C.name C.parts blank }
{
    let mut tests = Steps::<C>::start(blank);
    assert_eq!(rt; kept::<R, L, C, 1>(rt, alloc, 9, &mut tests), (41, true));
    assert_eq!(rt; kept::<R, L, C, 1>(rt, alloc, 10, &mut tests), (0, true));
    assert_eq!(rt; kept::<R, L, C, 32>(rt, alloc, 9, &mut tests), (41, true));
    assert_eq!(rt; kept::<R, L, C, 32>(rt, alloc, 10, &mut tests), (0, true));
}

/// Asserts it in plain blocks.
fn assert_kept_in_plain<R: Abort>(rt: &R, alloc: Global) {
    assert_kept::<R, PlainLeaf<u64, u64>, Brand>(rt, alloc, Blank::new(1));
}

#[test]
fn a_filter_by_the_fold_passes_over_what_fails(rt: HostRuntime) {
    assert_kept_in_plain(&rt, rt.alloc());
}
