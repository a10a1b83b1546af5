//! An augmented value whose combination may refuse.
ghost use Rattle.std.specs.Prelude.{◌-◌, ◌+◌, ◌^◌, ◌≤◌, min};
ghost use Rattle.std.proofs.Common.{arith};
ghost use Rattle.aug_monoid.specs.Fresh.{IsFresh};

use aug_map::Map;
use aug_monoid::{Augment, Leaf, NoMemory, Steps};
use diff_leaf::DiffLeaf;
use leaf_blocks::PlainLeaf;
use std::alloc::Global;
use std::marker::Brand;
use std::process::Abort;
use std::sync::ledger::{Blank, Ledger};

/// The sum of the values, refused where it is 9.
#[derive(Drop)]
pub(super) struct NotNine;

impl Augment for NotNine {
    type Key = u64;

    type Val = u64;

    type Aug = u64;

    ghost Fits = { λ n. n ≤ 2 ^ 64 - 1 };

    ghost base_of = { λ _ val. min val (2 ^ 64 - 1) };

    ghost unit_of = { 0 };

    ghost combined = { λ a b. min (a + b) (2 ^ 64 - 1) };

    ghost never_refuses = { ⊥ };

    ghost base_fits = { λ _ _. omega arith };

    ghost monoid = { record { unit_fits = omega arith; combine_fits = λ a b f g. omega arith; left_unit = λ a f. omega arith; right_unit = λ a f. omega arith; assoc = λ a b c f g h. omega arith } };

    ghost augs_never_refuse = { λ refuses. absurd refuses };

    fn base(_alloc: Global, _key: &u64, val: &u64) -> Result<u64, NoMemory> {
        Ok(*val)
    }

    fn unit() -> u64 {
        0
    }

    fn combine<C: Ledger>(
        _alloc: Global,
        a: &u64,
        b: &u64,
        steps: &mut Steps<C>,
    ) -> Result<u64, NoMemory> {
        steps.tick();
        let sum = a.saturating_add(*b);
        if sum == 9 { Err(NoMemory) } else { Ok(sum) }
    }
}

type Sums<L, const B: usize> = Map<NotNine, L, B>;

type Refused = (bool, u64, bool, u64);

/// A fold that is refused and one that isn't, a put that is refused, and the size of the map thereafter.
fn refused_in<R: Abort, L: Leaf<u64, u64>, const B: usize, C: Ledger>(
    rt: &R,
    alloc: Global,
    steps: &mut Steps<C>,
) -> Refused {
    let mut map: Sums<L, B> = Map::empty();
    for (key, val) in [(1, 3), (2, 4), (4, 1), (3, 5)] {
        map = map.put(alloc, key, val, steps).expect(rt, "memory");
    }
    let nine = map.aug_range(alloc, &2, &3, steps).is_err();
    let seven = map.aug_range(alloc, &1, &2, steps).expect(rt, "seven");
    let put = map.put(alloc, 1, 5, steps).is_err();
    (nine, seven, put, map.size())
}

/// The same for blocks of 1 and of 32 entries.
fn refused_counted<R: Abort, L: Leaf<u64, u64>, C: Ledger>(
    rt: &R,
    alloc: Global,
    blank: Blank,
) -> (Refused, Refused)
    requires { IsFresh C.name C.parts blank }
{
    let mut steps = Steps::<C>::start(blank);
    let one = refused_in::<R, L, 1, C>(rt, alloc, &mut steps);
    let many = refused_in::<R, L, 32, C>(rt, alloc, &mut steps);
    (one, many)
}

fn refused<R: Abort, L: Leaf<u64, u64>>(rt: &R, alloc: Global) -> (Refused, Refused) {
    refused_counted::<R, L, Brand>(rt, alloc, Blank::new(1))
}

#[test]
fn a_refused_fold_leaves_the_map(rt: HostRuntime) {
    let wanted = (true, 7, true, 4);
    let plain = refused::<HostRuntime, PlainLeaf<u64, u64>>(&rt, rt.alloc());
    assert_eq!(rt; plain, (wanted, wanted));
    let coded = refused::<HostRuntime, DiffLeaf<u64>>(&rt, rt.alloc());
    assert_eq!(rt; coded, (wanted, wanted));
}
