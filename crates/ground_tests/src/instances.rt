//! Each instance at work, through its trait.
ghost use Rattle.std.specs.Prelude.{◌+◌, ◌-◌, ◌^◌, ◌≤◌, min, nat_le};
ghost use Rattle.std.proofs.Common.{ap, arith};
ghost use Rattle.map_model.proofs.Folds.{fold-append};
ghost use Rattle.aug_monoid.specs.Totals.{totals_monoid, totals_base_fits};
ghost use Rattle.aug_monoid.specs.Fresh.{IsFresh};

use aug_monoid::{
    AugTest, Augment, First, Key, Larger, MaxRight, NoMemory, Nothing, Pair, Pair64, Project,
    Reduce, Resolve, SatSum, Second, Share, Steps, SumMax, SyncAugment, SyncReduce, Test, Totals,
};
use std::alloc::Global;
use std::cmp::Ordering;
use std::marker::Brand;
use std::process::Abort;
use std::sync::ledger::{Blank, Ledger};

fn shared<R: Abort, T: Share>(rt: &R, alloc: Global, value: &T) -> T {
    value.share(alloc).expect(rt, "memory")
}

fn counted_order<K: Key, C: Ledger>(a: &K, b: &K, blank: Blank) -> Ordering
    requires { IsFresh C.name C.parts blank }
{
    let mut steps = Steps::<C>::start(blank);
    a.order(b, &mut steps)
}

pub(crate) fn order_of<K: Key>(a: &K, b: &K) -> Ordering {
    counted_order::<K, Brand>(a, b, Blank::new(1))
}

fn counted_fold<R: Abort, A: Augment, C: Ledger>(
    rt: &R,
    alloc: Global,
    entries: &[(A::Key, A::Val)],
    blank: Blank,
) -> A::Aug
    requires { IsFresh C.name C.parts blank }
{
    let mut steps = Steps::<C>::start(blank);
    let mut fold = A::unit();
    for entry in entries {
        let base = A::base(alloc, &entry.0, &entry.1).expect(rt, "memory");
        fold = A::combine(alloc, &fold, &base, &mut steps).expect(rt, "memory");
    }
    fold
}

pub(crate) fn fold_of<R: Abort, A: Augment>(
    rt: &R,
    alloc: Global,
    entries: &[(A::Key, A::Val)],
) -> A::Aug {
    counted_fold::<R, A, Brand>(rt, alloc, entries, Blank::new(1))
}

fn resolved<R: Abort, W: Resolve<u64>>(rt: &R, alloc: Global, how: &W, a: u64, b: u64) -> u64 {
    how.resolve(alloc, &a, &b).expect(rt, "memory")
}

fn pair(first: u64, second: u64) -> Pair64 {
    Pair64 { first, second }
}

fn totals(sum: u64, greatest: u64) -> Totals {
    Totals { sum, greatest }
}

#[test]
fn shares_are_the_same(rt: HostRuntime) {
    let alloc = rt.alloc();
    let nested = (Some(u64::MAX), ());
    assert_eq!(rt; shared(&rt, alloc, &7u32), 7);
    assert_eq!(rt; shared(&rt, alloc, &nested), nested);
    assert_eq!(rt; shared(&rt, alloc, &pair(3, 4)), pair(3, 4));
    assert_eq!(rt; shared(&rt, alloc, &totals(5, 3)), totals(5, 3));
}

#[test]
fn pairs_are_ordered_by_their_first_number(rt: HostRuntime) {
    assert!(rt; order_of(&2u64, &10) == Ordering::Less);
    assert!(rt; order_of(&pair(1, 9), &pair(2, 0)) == Ordering::Less);
    assert!(rt; order_of(&pair(1, 9), &pair(1, 3)) == Ordering::Greater);
    assert!(rt; order_of(&pair(1, 3), &pair(1, 3)) == Ordering::Equal);
}

const NUMBERS: &[(u64, u64)] = &[(1, 10), (3, 34), (4, 40), (5, 50)];

const GREATEST: &[(u64, u64)] = &[(0, u64::MAX), (1, u64::MAX)];

#[test]
fn sums_of_entries(rt: HostRuntime) {
    let few = fold_of::<HostRuntime, SumMax<u64>>(&rt, rt.alloc(), NUMBERS);
    assert_eq!(rt; few, totals(134, 50));
    let most = fold_of::<HostRuntime, SumMax<u64>>(&rt, rt.alloc(), GREATEST);
    assert_eq!(rt; most, totals(u64::MAX, u64::MAX));
}

#[test]
fn right_ends_of_entries(rt: HostRuntime) {
    let intervals = [(pair(1, 3), ()), (pair(3, 12), ()), (pair(5, 9), ())];
    let right = fold_of::<HostRuntime, MaxRight>(&rt, rt.alloc(), &intervals);
    assert_eq!(rt; right, Some(12));
    let none = fold_of::<HostRuntime, MaxRight>(&rt, rt.alloc(), &[]);
    assert_eq!(rt; none, None);
}

type Both = Pair<SumMax<u64>, Nothing<u64, u64>>;

#[test]
fn two_folds_at_once(rt: HostRuntime) {
    let both = fold_of::<HostRuntime, Both>(&rt, rt.alloc(), NUMBERS);
    assert_eq!(rt; both, (totals(134, 50), ()));
}

/// The first of two values, the second, their sum and the larger, as each is resolved.
fn all_resolved<R: Abort>(rt: &R, alloc: Global, a: u64, b: u64) -> (u64, u64, u64, u64) {
    let first = resolved(rt, alloc, &First, a, b);
    let second = resolved(rt, alloc, &Second, a, b);
    let sum = resolved(rt, alloc, &SatSum, a, b);
    (first, second, sum, resolved(rt, alloc, &Larger, a, b))
}

#[test]
fn values_at_a_key_of_both(rt: HostRuntime) {
    let small = all_resolved(&rt, rt.alloc(), 30, 4);
    assert!(rt; small == (30, 4, 34, 30));
    let near = u64::MAX - 1;
    let great = all_resolved(&rt, rt.alloc(), 2, near);
    assert!(rt; great == (2, near, u64::MAX, near));
}

/// Values of at least `bound`.
#[derive(Drop)]
struct AtLeast {
    bound: u64,
}

impl Test<u64, u64> for AtLeast {
    ghost passes = { λ test _ val. nat_le test.bound val };

    fn holds(&self, _key: &u64, val: &u64) -> bool {
        self.bound <= *val
    }
}

impl AugTest<SumMax<u64>> for AtLeast {
    ghost admits = { λ test aug. nat_le test.bound aug.greatest };

    ghost passes_either = { λ test a b _ _. Prim.grind arith };

    fn passes(&self, aug: &Totals) -> bool {
        self.bound <= aug.greatest
    }
}

/// How many entries there are.
#[derive(Drop)]
struct Count;

impl<K, V> Reduce<K, V> for Count {
    type Out = u64;

    ghost Fits = { λ _ n. n ≤ 2 ^ 64 - 1 };

    ghost image_of = { λ _ _ _. 1 };

    ghost unit_of = { λ _. 0 };

    ghost combined = { λ _ a b. min (a + b) (2 ^ 64 - 1) };

    ghost image_fits = { λ _ _ _. omega arith };

    ghost monoid = { λ _. record { unit_fits = omega arith; combine_fits = λ a b f g. omega arith; left_unit = λ a f. omega arith; right_unit = λ a f. omega arith; assoc = λ a b c f g h. omega arith } };

    fn of(&self, _alloc: Global, _key: &K, _val: &V) -> Result<u64, NoMemory> {
        Ok(1)
    }

    fn unit(&self) -> u64 {
        0
    }

    fn combine(&self, _alloc: Global, a: u64, b: u64) -> Result<u64, NoMemory> {
        Ok(a.saturating_add(b))
    }
}

/// The sum alone.
#[derive(Drop)]
struct SumAlone;

impl Project<SumMax<u64>> for SumAlone {
    type Out = u64;

    ghost Fits = { λ _ n. n ≤ 2 ^ 64 - 1 };

    ghost image_of = { λ _ aug. aug.sum };

    ghost combined = { λ _ a b. min (a + b) (2 ^ 64 - 1) };

    ghost IsImageCost = { λ _ _ _. Unit {0} };

    ghost image_fits = { λ _ aug fits. fits.0 };

    ghost monoid = { λ _. record { unit_fits = omega arith; combine_fits = λ a b f g. omega arith; left_unit = λ a f. omega arith; right_unit = λ a f. omega arith; assoc = λ a b c f g h. omega arith } };

    ghost projection = { λ _ l r _. ap (λ aug. aug.sum) (fold-append totals_monoid (λ _ val. totals_base_fits val) l r) };

    fn image<C: Ledger>(
        &self,
        _alloc: Global,
        aug: &Totals,
        _steps: &mut Steps<C>,
    ) -> Result<u64, NoMemory> {
        Ok(aug.sum)
    }

    fn combine(&self, _alloc: Global, a: u64, b: u64) -> Result<u64, NoMemory> {
        Ok(a.saturating_add(b))
    }
}

/// The answer for two entries, as a fork makes it.
fn reduced<R: Abort, M: SyncReduce<u64, u64>>(
    rt: &R,
    alloc: Global,
    how: &M,
    left: (u64, u64),
    right: (u64, u64),
) -> M::Out {
    let first = how.of(alloc, &left.0, &left.1).expect(rt, "memory");
    let both = how.combine(alloc, how.unit(), first).expect(rt, "memory");
    let second = how.of(alloc, &right.0, &right.1).expect(rt, "memory");
    how.combine(alloc, both, second).expect(rt, "memory")
}

fn counted_projection<R: Abort, A: SyncAugment, P: Project<A>, C: Ledger>(
    rt: &R,
    alloc: Global,
    how: &P,
    parts: (&A::Aug, &A::Aug),
    blank: Blank,
) -> P::Out
    requires { IsFresh C.name C.parts blank }
{
    let mut steps = Steps::<C>::start(blank);
    let first = how.image(alloc, parts.0, &mut steps).expect(rt, "memory");
    let second = how.image(alloc, parts.1, &mut steps).expect(rt, "memory");
    how.combine(alloc, first, second).expect(rt, "memory")
}

fn projected<R: Abort, A: SyncAugment, P: Project<A>>(
    rt: &R,
    alloc: Global,
    how: &P,
    left: &A::Aug,
    right: &A::Aug,
) -> P::Out {
    counted_projection::<R, A, P, Brand>(rt, alloc, how, (left, right), Blank::new(1))
}

#[test]
fn a_user_states_tests(rt: HostRuntime) {
    let test = AtLeast { bound: 30 };
    assert!(rt; test.holds(&1, &30) && !test.holds(&40, &29));
    assert!(rt; test.passes(&totals(70, 40)) && !test.passes(&totals(12, 10)));
}

#[test]
fn a_user_states_answers(rt: HostRuntime) {
    let count = reduced(&rt, rt.alloc(), &Count, (1, 10), (3, 30));
    assert_eq!(rt; count, 2);
    let low = totals(12, 10);
    let high = totals(70, 40);
    let sum = projected::<HostRuntime, SumMax<u64>, SumAlone>(
        &rt,
        rt.alloc(),
        &SumAlone,
        &low,
        &high,
    );
    assert_eq!(rt; sum, 82);
}

#[test]
fn sums_of_numbers_never_refuse(rt: HostRuntime) {
    assert!(rt; SumMax::<u64>::is_total());
    assert!(rt; Pair::<SumMax<u64>, SumMax<u64>>::is_total());
    assert!(rt; u64::is_total());
}
