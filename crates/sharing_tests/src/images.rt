//! How many images are taken for a range.
ghost use Rattle.aug_monoid.specs.Fresh.{IsFresh};
ghost use Rattle.map_model.specs.Balance.{IsBlockSize};
ghost use Rattle.std.specs.Prelude.{max, refl};
ghost use Rattle.std.proofs.Common.{arith};

use aug_map::Map;
use aug_monoid::{Leaf, NoMemory, Project, Steps, SumMax, Totals};
use leaf_blocks::PlainLeaf;
use std::alloc::Global;
use std::marker::Brand;
use std::process::Abort;
use std::sync::atomic::{AtomicU64, Ordering};
use std::sync::ledger::{Blank, Ledger};

/// Images that are all 0. It counts how many are taken.
#[derive(Drop)]
struct Zeros {
    taken: AtomicU64,
}

impl Project<SumMax<u64>> for Zeros {
    type Out = u64;

    ghost Fits = { λ _ _. Unit {0} };

    ghost image_of = { λ _ _. 0 };

    ghost combined = { λ _ a b. max a b };

    ghost IsImageCost = { λ _ _ _. Unit {0} };

    ghost image_fits = { λ _ _ _. tt };

    ghost monoid = { λ _. record { unit_fits = tt; combine_fits = λ _ _ _ _. tt; left_unit = λ a f. omega arith; right_unit = λ a f. omega arith; assoc = λ a b c f g h. omega arith } };

    ghost projection = { λ _ _ _ _. refl };

    fn image<C: Ledger>(
        &self,
        _alloc: Global,
        _aug: &Totals,
        _steps: &mut Steps<C>,
    ) -> Result<u64, NoMemory> {
        self.taken.fetch_add(1, Ordering::SeqCst);
        Ok(0)
    }

    fn combine(&self, _alloc: Global, a: u64, b: u64) -> Result<u64, NoMemory> {
        Ok(a.max(b))
    }
}

/// The numbers below 10000 as keys and values.
fn entries<R: Abort>(rt: &R, alloc: Global) -> Vec<(u64, u64)> {
    let mut pairs = Vec::new(alloc);
    for key in 0..10_000u64 {
        pairs.push((key, key)).expect(rt, "memory");
    }
    pairs
}

/// How many images are taken for the keys from `lo` to `hi`, and how many the clause allows.
fn taken<R: Abort, L: Leaf<u64, u64>, C: Ledger, const B: usize>(
    rt: &R,
    alloc: Global,
    lo: u64,
    hi: u64,
    images: &mut Steps<C>,
) -> (u64, u64)
    requires { IsBlockSize B }
{
    let pairs = entries(rt, alloc);
    let map: Map<SumMax<u64>, L, B> = Map::build_alone(alloc, &pairs).expect(rt, "memory");
    let how = Zeros {
        taken: AtomicU64::new(0),
    };
    map.aug_project_counted(alloc, &lo, &hi, &how, images)
        .expect(rt, "memory");
    let most = 4 * map.height() as u64 + 4 * B as u64 + 1;
    (how.taken.load(Ordering::SeqCst), most)
}

/// Asserts it of a range.
fn assert_few<R: Abort, L: Leaf<u64, u64>, C: Ledger>(
    rt: &R,
    alloc: Global,
    lo: u64,
    hi: u64,
    images: &mut Steps<C>,
) {
    let (few, most) = taken::<R, L, C, 1>(rt, alloc, lo, hi, images);
    assert!(rt; few <= most, "{few} of {most}");
    let (few, most) = taken::<R, L, C, 32>(rt, alloc, lo, hi, images);
    assert!(rt; few <= most, "{few} of {most}");
}

/// Asserts it of all keys, of most, and of two halves.
fn assert_ranges<R: Abort, L: Leaf<u64, u64>, C: Ledger>(rt: &R, alloc: Global, blank: Blank)
    requires { IsFresh C.name C.parts blank }
{
    let mut images = Steps::<C>::start(blank);
    assert_few::<R, L, C>(rt, alloc, 0, 9999, &mut images);
    assert_few::<R, L, C>(rt, alloc, 1234, 8765, &mut images);
    assert_few::<R, L, C>(rt, alloc, 0, 4999, &mut images);
    assert_few::<R, L, C>(rt, alloc, 4998, 9999, &mut images);
}

/// Asserts it in plain blocks.
fn assert_ranges_in_plain<R: Abort>(rt: &R, alloc: Global) {
    assert_ranges::<R, PlainLeaf<u64, u64>, Brand>(rt, alloc, Blank::new(1));
}

#[test]
fn images_of_a_range_are_taken_on_two_paths(rt: HostRuntime) {
    assert_ranges_in_plain(&rt, rt.alloc());
}
