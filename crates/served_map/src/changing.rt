//! Outcomes of few keys, done one by one in place.
ghost use Rattle.std.specs.Prelude.{[], ◌∷◌, IfOk};
ghost use Rattle.std.specs.Ordering.{nat_cmp};
ghost use Rattle.map_model.specs.Entries.{IsIncreasing};
ghost use Rattle.op_runs.specs.Runs.{IsChangedBy};
ghost use Rattle.aug_monoid.specs.Fresh.{IsFresh};

use crate::applying::ServedMap;
use aug_monoid::{NoMemory, SatSum, Steps};
use op_runs::Outcome;
use std::alloc::Global;
use std::marker::Brand;
use std::sync::ledger::{Blank, Ledger};

/// Does the outcome of a key, in O(log n) for a map of n entries.
fn change_key<C: Ledger>(
    alloc: Global,
    map: &mut ServedMap,
    key: u64,
    outcome: Outcome,
    steps: &mut Steps<C>,
) -> Result<(), NoMemory>
    ensures { IfOk result (λ _. IsChangedBy ((key, outcome) ∷ []) map.old.entries map.new.entries) }
{
    let _rises = map.size(); // for the proof alone: keys rise
    match outcome {
        Outcome::Nothing => Ok(()),
        Outcome::Set { val } => map.put_mut(alloc, key, val, steps),
        Outcome::Gone => map.del_mut(alloc, &key, steps),
        Outcome::Added { val } => map.put_with(alloc, key, val, &SatSum, steps),
    }
}

/// Does the outcomes of keys one after another.
fn change_keys<C: Ledger>(
    alloc: Global,
    map: &mut ServedMap,
    outcomes: &[(u64, Outcome)],
    blank: Blank,
) -> Result<(), NoMemory>
    requires fresh { IsFresh C.name C.parts blank }
    requires rise { IsIncreasing nat_cmp outcomes.now }
    ensures { IfOk result (λ _. IsChangedBy outcomes.now map.old.entries map.new.entries) }
{
    let _rises = map.size(); // for the proof alone: keys rise
    let mut steps = Steps::<C>::start(blank);
    for (key, outcome) in outcomes {
        change_key(alloc, map, *key, *outcome, &mut steps)?;
    }
    Ok(())
}

/// The map after the outcomes of few keys. O(k * log n) for k keys and a map of n entries.
pub(crate) fn with_few(
    alloc: Global,
    map: ServedMap,
    outcomes: &[(u64, Outcome)],
) -> Result<ServedMap, NoMemory>
    requires { IsIncreasing nat_cmp outcomes.now }
    ensures { IfOk result (λ changed. IsChangedBy outcomes.now map.entries changed.entries) }
{
    let mut changed = map;
    change_keys::<Brand>(alloc, &mut changed, outcomes, Blank::new(1))?;
    Ok(changed)
}
