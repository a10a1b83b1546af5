//! The worked examples of queries.
ghost use Rattle.std.specs.Prelude.{◌-◌, ◌^◌, ◌≤◌, max, nat_le};
ghost use Rattle.std.proofs.Common.{ap, arith};
ghost use Rattle.map_model.proofs.Folds.{fold-append};
ghost use Rattle.aug_monoid.specs.Totals.{totals_monoid, totals_base_fits};
ghost use Rattle.aug_monoid.specs.Fresh.{IsFresh};

use super::sums::{Sums, assert_made, map_of};
use aug_monoid::{AugTest, Leaf, NoMemory, Project, Steps, SumMax, Totals};
use diff_leaf::DiffLeaf;
use leaf_blocks::PlainLeaf;
use std::alloc::Global;
use std::marker::Brand;
use std::process::Abort;
use std::sync::ledger::{Blank, Ledger};

/// Values of at least `bound`.
#[derive(Drop)]
pub(super) struct AtLeast {
    pub(super) bound: u64,
}

impl AugTest<SumMax<u64>> for AtLeast {
    ghost admits = { λ test aug. nat_le test.bound aug.greatest };

    ghost passes_either = { λ test a b _ _. Prim.grind arith };

    fn passes(&self, aug: &Totals) -> bool {
        self.bound <= aug.greatest
    }
}

/// The greatest value alone.
#[derive(Drop)]
struct Greatest;

impl Project<SumMax<u64>> for Greatest {
    type Out = u64;

    ghost Fits = { λ _ n. n ≤ 2 ^ 64 - 1 };

    ghost image_of = { λ _ aug. aug.greatest };

    ghost combined = { λ _ a b. max a b };

    ghost IsImageCost = { λ _ _ _. Unit {0} };

    ghost image_fits = { λ _ aug fits. fits.1 };

    ghost monoid = { λ _. record { unit_fits = omega arith; combine_fits = λ a b f g. omega arith; left_unit = λ a f. omega arith; right_unit = λ a f. omega arith; assoc = λ a b c f g h. omega arith } };

    ghost projection = { λ _ l r _. ap (λ aug. aug.greatest) (fold-append totals_monoid (λ _ val. totals_base_fits val) l r) };

    fn image<C: Ledger>(
        &self,
        _alloc: Global,
        aug: &Totals,
        _steps: &mut Steps<C>,
    ) -> Result<u64, NoMemory> {
        Ok(aug.greatest)
    }

    fn combine(&self, _alloc: Global, a: u64, b: u64) -> Result<u64, NoMemory> {
        Ok(a.max(b))
    }
}

/// Asserts what stands at places and beside keys.
fn assert_places<R: Abort, L: Leaf<u64, u64>, const B: usize, C: Ledger>(
    rt: &R,
    alloc: Global,
    map: &Sums<L, B>,
    steps: &mut Steps<C>,
) {
    assert_eq!(rt; map.rank(&4, steps), 2);
    assert_entry(rt, map.select(alloc, 3), Some((5, 50)));
    assert_entry(rt, map.select(alloc, 4), None);
    assert_entry(rt, map.next(alloc, &3, steps), Some((4, 40)));
    assert_entry(rt, map.prev(alloc, &1, steps), None);
}

type Entry = Option<(u64, u64)>;

fn assert_entry<R: Abort>(rt: &R, entry: Result<Entry, NoMemory>, wanted: Entry) {
    assert_eq!(rt; entry.expect(rt, "memory"), wanted);
}

/// Asserts what parts of a map fold to.
fn assert_folds<R: Abort, L: Leaf<u64, u64>, const B: usize, C: Ledger>(
    rt: &R,
    alloc: Global,
    map: &Sums<L, B>,
    steps: &mut Steps<C>,
) {
    assert_fold(rt, map.aug_left(alloc, &3, steps), 44, 34);
    assert_fold(rt, map.aug_right(alloc, &4, steps), 90, 50);
    assert_fold(rt, map.aug_range(alloc, &2, &4, steps), 74, 40);
    let greatest = map.aug_project(alloc, &2, &4, &Greatest);
    assert_eq!(rt; greatest.expect(rt, "memory"), 40);
}

fn assert_fold<R: Abort>(rt: &R, fold: Result<Totals, NoMemory>, sum: u64, greatest: u64) {
    assert_eq!(rt; fold.expect(rt, "memory"), Totals { sum, greatest });
}

/// Asserts what parts of a map are.
fn assert_parts<R: Abort, L: Leaf<u64, u64>, const B: usize>(
    rt: &R,
    alloc: Global,
    map: &Sums<L, B>,
) {
    let passing = map.aug_filter(alloc, &AtLeast { bound: 40 });
    assert_made(rt, alloc, passing, &[(4, 40), (5, 50)]);
    assert_entry(
        rt,
        map.first_where(alloc, &AtLeast { bound: 34 }),
        Some((3, 34)),
    );
    assert_entry(rt, map.first_where(alloc, &AtLeast { bound: 51 }), None);
    assert_made(rt, alloc, map.below(alloc, &4), &[(1, 10), (3, 34)]);
    assert_made(rt, alloc, map.above(alloc, &4), &[(5, 50)]);
    assert_made(rt, alloc, map.slice(alloc, &3, &4), &[(3, 34), (4, 40)]);
}

const ENTRIES: &[(u64, u64)] = &[(4, 40), (1, 10), (5, 50), (3, 34)];

fn assert_asked_in<R: Abort, L: Leaf<u64, u64>, const B: usize, C: Ledger>(
    rt: &R,
    alloc: Global,
    steps: &mut Steps<C>,
) {
    let map: Sums<L, B> = map_of(rt, alloc, ENTRIES, steps);
    assert_places(rt, alloc, &map, steps);
    assert_folds(rt, alloc, &map, steps);
    assert_parts(rt, alloc, &map);
}

/// The same for blocks of 1, 2 and 32 entries.
fn assert_asked_counted<R: Abort, L: Leaf<u64, u64>, C: Ledger>(rt: &R, alloc: Global, blank: Blank)
    requires { IsFresh C.name C.parts blank }
{
    let mut steps = Steps::<C>::start(blank);
    assert_asked_in::<R, L, 1, C>(rt, alloc, &mut steps);
    assert_asked_in::<R, L, 2, C>(rt, alloc, &mut steps);
    assert_asked_in::<R, L, 32, C>(rt, alloc, &mut steps);
}

fn assert_asked<R: Abort, L: Leaf<u64, u64>>(rt: &R, alloc: Global) {
    assert_asked_counted::<R, L, Brand>(rt, alloc, Blank::new(1));
}

#[test]
fn questions_to_four_entries(rt: HostRuntime) {
    assert_asked::<HostRuntime, PlainLeaf<u64, u64>>(&rt, rt.alloc());
    assert_asked::<HostRuntime, DiffLeaf<u64>>(&rt, rt.alloc());
}
