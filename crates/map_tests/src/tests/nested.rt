//! Maps with maps as augmented values.
ghost use Rattle.std.specs.Prelude.{◌+◌, [], IfOk};
ghost use Rattle.map_tests.specs.Firsts.{first_filled, first_monoid};
ghost use Rattle.aug_monoid.specs.Fresh.{IsFresh};

use aug_map::PlainMap;
use aug_monoid::{Augment, NoMemory, Share, Steps, SumMax};
use std::alloc::Global;
use std::marker::{Brand, Model};
use std::process::Abort;
use std::sync::ledger::{Blank, Ledger};

/// Weights by number.
#[derive(Drop)]
struct Posting {
    weights: PlainMap<SumMax<u64>>,
}

impl Model for Posting {
    ghost use Rattle.std.specs.Prelude.{List, ℕ};

    ghost Value = { List (ℕ × ℕ) };

    ghost view = { λ p. p.weights.entries };
}

impl Share for Posting {
    ghost never_refuses = { ⊥ };

    fn share(&self, alloc: Global) -> Result<Posting, NoMemory> {
        let weights = self.weights.share(alloc)?;
        Ok(Posting { weights })
    }
}

/// The first posting that is not empty. A value of 0 has none; another has one of this weight.
#[derive(Drop)]
struct FirstPosting;

impl Augment for FirstPosting {
    type Key = u64;

    type Val = u64;

    type Aug = Posting;

    ghost use Rattle.map_tests.specs.Firsts.{posting_of};

    ghost Fits = { λ _. Unit {0} };

    ghost base_of = { posting_of };

    ghost unit_of = { [] };

    ghost combined = { first_filled };

    ghost never_refuses = { ⊥ };

    ghost base_fits = { λ _ _. tt };

    ghost monoid = { first_monoid };

    ghost augs_never_refuse = { λ refuses. absurd refuses };

    fn base(alloc: Global, key: &u64, val: &u64) -> Result<Posting, NoMemory> {
        let weights = if *val == 0 {
            PlainMap::empty()
        } else {
            PlainMap::single(alloc, *key, *val)?
        };
        Ok(Posting { weights })
    }

    fn unit() -> Posting {
        Posting {
            weights: PlainMap::empty(),
        }
    }

    fn combine<C: Ledger>(
        alloc: Global,
        a: &Posting,
        b: &Posting,
        steps: &mut Steps<C>,
    ) -> Result<Posting, NoMemory> {
        steps.tick();
        if a.weights.size() == 0 {
            b.share(alloc)
        } else {
            a.share(alloc)
        }
    }
}

/// The first weight of the entries from 2 on.
fn first_weight_counted<R: Abort, C: Ledger>(
    rt: &R,
    alloc: Global,
    blank: Blank,
) -> Option<(u64, u64)>
    requires { IsFresh C.name C.parts blank }
{
    let mut steps = Steps::<C>::start(blank);
    let mut map: PlainMap<FirstPosting> = PlainMap::empty();
    for (key, val) in [(1, 7), (2, 0), (3, 30), (4, 40)] {
        map = map.put(alloc, key, val, &mut steps).expect(rt, "memory");
    }
    let first = map.aug_right(alloc, &2, &mut steps).expect(rt, "memory");
    first.weights.select(alloc, 0).expect(rt, "memory")
}

fn first_weight<R: Abort>(rt: &R, alloc: Global) -> Option<(u64, u64)> {
    first_weight_counted::<R, Brand>(rt, alloc, Blank::new(1))
}

#[test]
fn a_map_as_augmented_value(rt: HostRuntime) {
    assert_eq!(rt; first_weight(&rt, rt.alloc()), Some((3, 30)));
}
