//! What a filter and a reduction take beside what their clauses allow.
ghost use Rattle.aug_monoid.specs.Fresh.{IsFresh};
ghost use Rattle.std.specs.Prelude.{◌≡◌, ◌+◌, ◌-◌, ◌^◌, ◌≤◌, min, nat_lt};
ghost use Rattle.std.proofs.Common.{arith};

use aug_map::Map;
use aug_monoid::{Leaf, NoMemory, Reduce, Steps, SumMax, Test};
use leaf_blocks::PlainLeaf;
use std::alloc::Global;
use std::marker::{Brand, Model};
use std::process::Abort;
use std::sync::atomic::{AtomicU64, Ordering};
use std::sync::ledger::{Blank, Ledger};

/// The keys below a number. It counts the entries that it tests.
#[derive(Drop)]
struct Below {
    limit: u64,
    tested: AtomicU64,
}

impl Model for Below {
    ghost use Rattle.std.specs.Prelude.{ℕ};

    ghost Value = { ℕ };

    ghost view = { λ t. t.limit };
}

impl Test<u64, u64> for Below {
    ghost passes = { λ limit key _. nat_lt key limit };

    fn holds(&self, key: &u64, _val: &u64) -> bool {
        self.tested.fetch_add(1, Ordering::SeqCst);
        *key < self.limit
    }
}

/// How many entries there are. It counts what is combined.
#[derive(Drop)]
struct Entries {
    combined: AtomicU64,
}

impl Reduce<u64, u64> for Entries {
    type Out = u64;

    ghost Fits = { λ _ n. n ≤ 2 ^ 64 - 1 };

    ghost image_of = { λ _ _ _. 1 };

    ghost unit_of = { λ _. 0 };

    ghost combined = { λ _ a b. min (a + b) (2 ^ 64 - 1) };

    ghost image_fits = { λ _ _ _. omega arith };

    ghost monoid = { λ _. record { unit_fits = omega arith; combine_fits = λ a b f g. omega arith; left_unit = λ a f. omega arith; right_unit = λ a f. omega arith; assoc = λ a b c f g h. omega arith } };

    fn of(&self, _alloc: Global, _key: &u64, _val: &u64) -> Result<u64, NoMemory> {
        Ok(1)
    }

    fn unit(&self) -> u64 {
        0
    }

    fn combine(&self, _alloc: Global, a: u64, b: u64) -> Result<u64, NoMemory> {
        self.combined.fetch_add(1, Ordering::SeqCst);
        Ok(a.saturating_add(b))
    }
}

/// The map of the numbers below 4096.
fn numbers<R: Abort, L: Leaf<u64, u64>>(rt: &R, alloc: Global) -> Map<SumMax<u64>, L, 32> {
    let mut pairs = Vec::new(alloc);
    for key in 0..4096u64 {
        pairs.push((key, 1)).expect(rt, "memory");
    }
    Map::build_alone(alloc, &pairs).expect(rt, "memory")
}

/// How many entries of 4096 hold, and how many were tested.
fn filtered<R: Abort, L: Leaf<u64, u64>, C: Ledger>(
    rt: &R,
    alloc: Global,
    steps: &mut Steps<C>,
) -> (u64, u64) {
    let test = Below {
        limit: 1000,
        tested: AtomicU64::new(0),
    };
    let kept = numbers::<R, L>(rt, alloc)
        .filter_counted(alloc, &test, steps)
        .expect(rt, "memory");
    (kept.size(), test.tested.load(Ordering::SeqCst))
}

/// How many entries there are, by a reduction, and how often it combined.
fn reduced<R: Abort, L: Leaf<u64, u64>, C: Ledger>(
    rt: &R,
    alloc: Global,
    steps: &mut Steps<C>,
) -> (u64, u64) {
    let how = Entries {
        combined: AtomicU64::new(0),
    };
    let count = numbers::<R, L>(rt, alloc)
        .map_reduce_counted(alloc, &how, steps)
        .expect(rt, "memory");
    (count, how.combined.load(Ordering::SeqCst))
}

fn passes_counted<R: Abort, C: Ledger>(rt: &R, alloc: Global, blank: Blank) -> [(u64, u64); 2]
    requires { IsFresh C.name C.parts blank }
{
    let mut steps = Steps::<C>::start(blank);
    let kept = filtered::<R, PlainLeaf<u64, u64>, C>(rt, alloc, &mut steps);
    let count = reduced::<R, PlainLeaf<u64, u64>, C>(rt, alloc, &mut steps);
    [kept, count]
}

fn passes<R: Abort>(rt: &R, alloc: Global) -> [(u64, u64); 2] {
    passes_counted::<R, Brand>(rt, alloc, Blank::new(1))
}

// The clauses allow a test for each entry, and two combinations; a combination fewer than there are entries is what a reduction needs.
#[test]
fn a_filter_tests_each_entry_once_and_a_reduction_combines_each_once(rt: HostRuntime) {
    assert_eq!(rt; passes(&rt, rt.alloc()), [(1000, 4096), (4096, 4095)]);
}
