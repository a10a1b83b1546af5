//! The longest run of `true` in the order of the keys.
ghost use Rattle.std.specs.Prelude.{◌≡◌, ◌+◌, Bool, List, IfOk, IsOk};
ghost use Rattle.std.specs.Map.{values_of};
ghost use Rattle.map_folds.specs.RunLists.{TellsRuns, runs_of};
ghost use Rattle.map_folds.specs.Runs.{RunsFit, no_values, one_value, joined, runs_monoid, one_value_fits};

use aug_monoid::{Augment, Key, NoMemory, Share, Steps};
use std::alloc::Global;
use std::marker::PhantomData;
use std::sync::ledger::Ledger;

/// The runs of `true` in a list of values. Lengths stop at `u64::MAX`, which no map reaches.
#[derive(Clone, Copy, Debug, PartialEq, Eq)]
pub struct Runs {
    /// Whether all values are `true`.
    pub whole: bool,
    /// The length of the run that the list begins with.
    pub front: u64,
    /// The length of the run that the list ends with.
    pub back: u64,
    /// The length of the longest run.
    pub longest: u64,
}

impl Share for Runs {
    ghost never_refuses = { Unit {0} };

    fn share(&self, _alloc: Global) -> Result<Runs, NoMemory> {
        Ok(*self)
    }

    fn is_total() -> bool {
        true
    }
}

/// The longest run of `true` values of neighbouring keys.
#[derive(Drop)]
pub struct LongestRun<K> {
    keys: PhantomData<K>,
}

impl<K: Key> Augment for LongestRun<K> {
    type Key = K;

    type Val = bool;

    type Aug = Runs;

    ghost Fits = { RunsFit };

    ghost base_of = { λ _ val. one_value val };

    ghost unit_of = { no_values };

    ghost combined = { joined };

    ghost never_refuses = { Unit {0} };

    ghost base_fits = { λ _ val. one_value_fits val };

    ghost monoid = { runs_monoid };

    ghost augs_never_refuse = { λ _. tt };

    fn base(_alloc: Global, _key: &K, val: &bool) -> Result<Runs, NoMemory> {
        let length = u64::from(*val);
        Ok(Runs {
            whole: *val,
            front: length,
            back: length,
            longest: length,
        })
    }

    fn unit() -> Runs {
        Runs {
            whole: true,
            front: 0,
            back: 0,
            longest: 0,
        }
    }

    fn combine<C: Ledger>(
        _alloc: Global,
        a: &Runs,
        b: &Runs,
        steps: &mut Steps<C>,
    ) -> Result<Runs, NoMemory> {
        steps.tick();
        Ok(joined(a, b))
    }

    fn is_total() -> bool {
        true
    }
}

/// For the proof of it alone: of any entries, the fold's `longest` is the length of the longest run of their values, and `front`
/// that of the run which they begin with.
pub fn folds_longest_runs<K: Key>()
    ensures { (entries : List (K × Bool)) → TellsRuns (runs_of entries) (values_of entries) }
{}

// The runs of one list behind another.
fn joined(a: &Runs, b: &Runs) -> Runs
    ensures { result ≡ joined a.now b.now }
{
    let across = a.back.saturating_add(b.front);
    Runs {
        whole: a.whole && b.whole,
        front: if a.whole { across } else { a.front },
        back: if b.whole {
            a.back.saturating_add(b.back)
        } else {
            b.back
        },
        longest: a.longest.max(across.max(b.longest)),
    }
}
