//! Operations applied in runs: those between two wipes at once.
ghost use Rattle.std.specs.Prelude.{◌≡◌, ◌<◌, IfOk, fold, length};
ghost use Rattle.std.specs.List.{All, flat_map};
ghost use Rattle.op_runs.specs.Steps.{IsSingle, step};
ghost use Rattle.versions.specs.History.{after};
ghost use Rattle.aug_monoid.specs.Fresh.{IsFresh};

use crate::applying::{ServedMap, apply_all, apply_one};
use crate::dividing::with_outcomes;
use aug_monoid::{NoMemory, Steps};
use fork_join::{Gate, On};
use op_runs::{Op, outcomes_of, split_at_wipe};
use std::alloc::Global;
use std::marker::{Brand, Sync};
use std::mem;
use std::sync::ledger::{Blank, Ledger};
use std::thread::Threads;
use versions::Batch;

/// So many operations between two wipes, and so many of a few batches, are applied one by one in place. To sort them takes longer.
const FEW_OPS: usize = 64;

/// The map after operations without wipes: they are composed for each key, and what they come to is done at once.
fn at_once<R: Threads + Sync, G: Gate>(
    on: On<R, G>,
    alloc: Global,
    map: ServedMap,
    ops: &[Op],
) -> Result<ServedMap, NoMemory>
    requires singles { All IsSingle ops.now }
    ensures { IfOk result (λ changed. changed.entries ≡ fold step map.entries ops.now) }
{
    let _rises = map.size(); // for the proof alone: keys rise
    let outcomes = outcomes_of(on.rt, alloc, ops)?;
    with_outcomes(on, alloc, map, &outcomes)
}

/// Applies operations without wipes.
fn apply_run<R: Threads + Sync, G: Gate, C: Ledger>(
    on: On<R, G>,
    alloc: Global,
    map: &mut ServedMap,
    ops: &[Op],
    steps: &mut Steps<C>,
) -> Result<(), NoMemory>
    requires singles { All IsSingle ops.now }
    ensures { IfOk result (λ _. map.new.entries ≡ fold step map.old.entries ops.now) }
{
    if ops.len() <= FEW_OPS {
        return apply_all(alloc, map, ops, steps);
    }
    let whole = mem::replace(map, ServedMap::empty());
    *map = at_once(on, alloc, whole, ops)?;
    Ok(())
}

/// Applies operations up to the first wipe and with it. Answers what follows.
fn apply_part<'a, R: Threads + Sync, G: Gate, C: Ledger>(
    on: On<R, G>,
    alloc: Global,
    map: &mut ServedMap,
    ops: &'a [Op],
    steps: &mut Steps<C>,
) -> Result<&'a [Op], NoMemory>
    ensures applied { IfOk result (λ rest. fold step map.new.entries rest.now ≡ fold step map.old.entries ops.now) }
    ensures shorter { IfOk result (λ rest. 0 < length ops.now → length rest.now < length ops.now) }
{
    let (run, tail): (&[Op], &[Op]) = split_at_wipe(ops);
    apply_run(on, alloc, map, run, steps)?;
    let Some((wipe, rest)) = tail.split_first() else {
        return Ok(tail);
    };
    apply_one(alloc, map, wipe, steps)?;
    Ok(rest)
}

/// Applies operations in order, part by part.
fn apply_parts<R: Threads + Sync, G: Gate, C: Ledger>(
    on: On<R, G>,
    alloc: Global,
    map: &mut ServedMap,
    ops: &[Op],
    steps: &mut Steps<C>,
) -> Result<(), NoMemory>
    ensures { IfOk result (λ _. map.new.entries ≡ fold step map.old.entries ops.now) }
{
    let mut rest = ops;
    while !rest.is_empty() {
        rest = apply_part(on, alloc, map, rest, steps)?;
    }
    Ok(())
}

/// The operations of the batches in order.
fn ops_of(alloc: Global, batches: &[Batch<Op>]) -> Result<Vec<Op>, NoMemory>
    ensures { IfOk result (λ ops. ops.items ≡ flat_map (λ batch. batch) batches.now) }
{
    let mut ops = Vec::new(alloc);
    for batch in batches {
        ops.extend_from_slice(batch.ops())?;
    }
    Ok(ops)
}

/// Whether the batches have so few operations together that they are applied one by one. It decides of the time alone.
fn are_few(batches: &[Batch<Op>]) -> bool {
    let mut left = FEW_OPS;
    for batch in batches {
        let count = batch.ops().len();
        if left < count {
            return false;
        }
        left -= count;
    }
    true
}

/// Applies the operations of the batches in order, one by one in place.
#[tactic(auto, using(crate::proofs::Batches::after_more))]
fn apply_each<C: Ledger>(
    alloc: Global,
    map: &mut ServedMap,
    batches: &[Batch<Op>],
    steps: &mut Steps<C>,
) -> Result<(), NoMemory>
    ensures { IfOk result (λ _. map.new.entries ≡ after step map.old.entries batches.now) }
{
    for batch in batches {
        apply_all(alloc, map, batch.ops(), steps)?;
    }
    Ok(())
}

/// Applies the operations of the batches in order, part by part.
fn apply_many<R: Threads + Sync, G: Gate, C: Ledger>(
    on: On<R, G>,
    alloc: Global,
    map: &mut ServedMap,
    batches: &[Batch<Op>],
    steps: &mut Steps<C>,
) -> Result<(), NoMemory>
    ensures { IfOk result (λ _. map.new.entries ≡ after step map.old.entries batches.now) }
{
    let ops = ops_of(alloc, batches)?;
    apply_parts(on, alloc, map, &ops, steps)
}

/// The map after the operations of the batches in order, changed in place where it has no other owner.
pub(crate) fn applied<R: Threads + Sync, G: Gate>(
    on: On<R, G>,
    alloc: Global,
    map: ServedMap,
    batches: &[Batch<Op>],
) -> Result<ServedMap, NoMemory>
    ensures { IfOk result (λ changed. changed.entries ≡ after step map.entries batches.now) }
{
    applied_counted::<R, G, Brand>(on, alloc, map, batches, Blank::new(1))
}

/// As `applied`, with the steps counted.
fn applied_counted<R: Threads + Sync, G: Gate, C: Ledger>(
    on: On<R, G>,
    alloc: Global,
    map: ServedMap,
    batches: &[Batch<Op>],
    blank: Blank,
) -> Result<ServedMap, NoMemory>
    requires { IsFresh C.name C.parts blank }
    ensures { IfOk result (λ changed. changed.entries ≡ after step map.entries batches.now) }
{
    let mut steps = Steps::<C>::start(blank);
    let mut changed = map;
    if are_few(batches) {
        apply_each(alloc, &mut changed, batches, &mut steps)?;
    } else {
        apply_many(on, alloc, &mut changed, batches, &mut steps)?;
    }
    Ok(changed)
}
