//! What commands ask of a map by more than one call of the library.
ghost use Rattle.std.specs.Prelude.{◌≡◌, ◌≤◌, ◌+◌, length, IfOk};
ghost use Rattle.map_tool.specs.Bounds.{fold_steps};
ghost use Rattle.map_tool.specs.Values.{range_totals, totals_of, values_within};
ghost use Rattle.map_tool.specs.declared.effect.Effect.TheVariants as made;

use crate::effect::Effect;
use crate::registers::Register;
use crate::values::{Greatest, Within};
use aug_monoid::{NoMemory, Steps, Totals};
use fork_join::{Gate, On};
use std::alloc::Global;
use std::marker::Sync;
use std::sync::ledger::Ledger;
use std::thread::Threads;

/// The totals of a range of keys, in time linear in the height.
#[tactic(auto, unfolding(crate::specs::Values::range_totals))]
pub(crate) fn sum<C: Ledger>(
    alloc: Global,
    map: &Register,
    lo: u64,
    hi: u64,
    steps: &mut Steps<C>,
) -> Result<Effect, NoMemory>
    ensures totals { IfOk result (λ effect. effect ≡ made.Totals (range_totals map.now.entries lo hi)) }
    ensures cost { steps.new ≤ steps.old + fold_steps map.now.height }
{
    let totals = map.aug_range(alloc, &lo, &hi, steps)?;
    Ok(Effect::Totals(totals))
}

/// The totals of all entries. O(1).
#[tactic(auto, unfolding(crate::specs::Values::totals_of))]
pub(crate) fn totals_of(map: &Register) -> Totals
    ensures { result ≡ totals_of map.now.entries }
{
    match map.aug() {
        Some(fold) => *fold,
        None => Totals {
            sum: 0,
            greatest: 0,
        },
    }
}

/// The greatest value of a range of keys, in time linear in the height.
#[tactic(auto, unfolding(crate::specs::Values::range_totals))]
pub(crate) fn greatest(alloc: Global, map: &Register, lo: u64, hi: u64) -> Result<Effect, NoMemory>
    ensures { IfOk result (λ effect. effect ≡ made.Max (range_totals map.now.entries lo hi).greatest) }
{
    let greatest = map.aug_project(alloc, &lo, &hi, &Greatest)?;
    Ok(Effect::Max(greatest))
}

// How many values lie from one to another.
fn count_within<R: Threads + Sync, G: Gate>(
    on: On<R, G>,
    alloc: Global,
    map: &Register,
    lo: u64,
    hi: u64,
) -> Result<u64, NoMemory>
    ensures { IfOk result (λ n. n ≡ length (values_within map.now.entries lo hi)) }
{
    let _few = map.size(); // for the proof alone: the count fits 64 bits
    map.map_reduce(on.rt, alloc, on.gate, on.cut, &Within { lo, hi })
}

/// How many values lie from one to another, in time linear in the number of entries.
pub(crate) fn count<R: Threads + Sync, G: Gate>(
    on: On<R, G>,
    alloc: Global,
    map: &Register,
    lo: u64,
    hi: u64,
) -> Result<Effect, NoMemory>
    ensures { IfOk result (λ effect. effect ≡ made.Count (length (values_within map.now.entries lo hi))) }
{
    let within = count_within(on, alloc, map, lo, hi)?;
    Ok(Effect::Count(within))
}
