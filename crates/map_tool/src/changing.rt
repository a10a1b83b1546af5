//! Maps that commands make of maps by more than one call of the library.
ghost use Rattle.std.specs.Prelude.{◌≡◌, ◌<◌, ◌++◌, true, false, IfOk, IfSome, IfNone};
ghost use Rattle.std.specs.Ordering.{nat_cmp};
ghost use Rattle.map_model.specs.Operations.{after, build, dels, puts};
ghost use Rattle.map_model.specs.SetOperations.{difference};
ghost use Rattle.map_tool.specs.Effects.{Does, cat, changes};
ghost use Rattle.map_tool.specs.Registers.{Registers};
ghost use Rattle.map_tool.specs.Values.{entries_of, overlaps, values_from, values_within};

use crate::effect::{Effect, change};
use crate::entries::entries_of;
use crate::registers::Register;
use crate::values::{AtLeast, Within};
use aug_monoid::{NoMemory, Pair64, Steps};
use fork_join::{Gate, On};
use script::Items;
use std::alloc::Global;
use std::marker::Sync;
use std::sync::ledger::Ledger;
use std::thread::Threads;

/// The entries whose values are at least a number, in time that goes with how many there are.
pub(crate) fn at_least(alloc: Global, map: &Register, least: u64) -> Result<Register, NoMemory>
    ensures { IfOk result (λ part. part.entries ≡ values_from map.now.entries least) }
{
    map.aug_filter(alloc, &AtLeast { least })
}

/// The entries whose values lie from one number to another, in time linear in the number of entries.
pub(crate) fn filter<R: Threads + Sync, G: Gate>(
    on: On<R, G>,
    alloc: Global,
    map: &Register,
    lo: u64,
    hi: u64,
) -> Result<Register, NoMemory>
    ensures { IfOk result (λ part. part.entries ≡ values_within map.now.entries lo hi) }
{
    map.filter(on.rt, alloc, on.gate, on.cut, &Within { lo, hi })
}

/// What puts of pairs in order make of the empty map, in the time of a sort.
pub(crate) fn build<R: Threads + Sync, G: Gate>(
    on: On<R, G>,
    alloc: Global,
    pairs: &[Pair64],
) -> Result<Register, NoMemory>
    ensures { IfOk result (λ map. map.entries ≡ build nat_cmp (entries_of pairs.now)) }
{
    let entries = entries_of(alloc, pairs)?;
    Register::build(on.rt, alloc, on.gate, on.cut, &entries)
}

/// A register gets its map after puts of pairs in order, in the time of `multi_put`.
pub(crate) fn put_all<R: Threads + Sync, G: Gate>(
    on: On<R, G>,
    alloc: Global,
    d: u8,
    map: &Register,
    pairs: &Items<Pair64>,
) -> Result<Effect, NoMemory>
    requires { d < 16 }
    ensures { IfOk result (λ effect. (rs : Registers) → Does rs effect (changes d (after nat_cmp map.now.entries (puts (entries_of pairs.now))))) }
{
    let entries = entries_of(alloc, pairs.items())?;
    let map = map.multi_put(on.rt, alloc, on.gate, on.cut, &entries)?;
    change(d, map)
}

/// A register gets its map without keys, in the time of `multi_del`.
pub(crate) fn del_all<R: Threads + Sync, G: Gate>(
    on: On<R, G>,
    alloc: Global,
    d: u8,
    map: &Register,
    keys: &Items<u64>,
) -> Result<Effect, NoMemory>
    requires { d < 16 }
    ensures { IfOk result (λ effect. (rs : Registers) → Does rs effect (changes d (after nat_cmp map.now.entries (dels keys.now)))) }
{
    let map = map.multi_del(on.rt, alloc, on.gate, on.cut, keys.items())?;
    change(d, map)
}

/// A register gets the entries of `a` whose keys `b` hasn't, in the time of `difference`.
pub(crate) fn diff<R: Threads + Sync, G: Gate>(
    on: On<R, G>,
    alloc: Global,
    d: u8,
    a: &Register,
    b: &Register,
) -> Result<Effect, NoMemory>
    requires { d < 16 }
    ensures { IfOk result (λ effect. (rs : Registers) → Does rs effect (changes d (difference nat_cmp a.now.entries b.now.entries))) }
{
    let map = a.difference(on.rt, alloc, on.gate, on.cut, b)?;
    change(d, map)
}

// Whether both maps have entries, and the greatest key of `a` isn't less than the least key of `b`.
fn overlap(alloc: Global, a: &Register, b: &Register) -> Result<bool, NoMemory>
    ensures { IfOk result (λ overlap. overlap ≡ overlaps a.now.entries b.now.entries) }
{
    if a.size() == 0 {
        return Ok(false);
    }
    let last = a.select(alloc, a.size() - 1)?;
    let first = b.select(alloc, 0)?;
    Ok(match (last, first) {
        (Some((greatest, _)), Some((least, _))) => greatest >= least,
        _ => false,
    })
}

// All entries of two maps, and none where they overlap.
#[tactic(auto, using(crate::proofs::Overlaps::joins_before))]
fn joined<C: Ledger>(
    alloc: Global,
    a: &Register,
    b: &Register,
    steps: &mut Steps<C>,
) -> Result<Option<Register>, NoMemory>
    ensures joined { IfOk result (λ map. IfSome map (λ m. (overlaps a.now.entries b.now.entries ≡ false) × (m.entries ≡ a.now.entries ++ b.now.entries))) }
    ensures overlap { IfOk result (λ map. IfNone map (overlaps a.now.entries b.now.entries ≡ true)) }
{
    let _sizes = (a.size(), b.size()); // for the proof alone: keys rise
    if overlap(alloc, a, b)? {
        return Ok(None);
    }
    let map = Register::join2(alloc, a, b, steps)?;
    Ok(Some(map))
}

/// A register gets the entries of `a` followed by those of `b`, unless they overlap, in time linear in the heights.
pub(crate) fn cat<C: Ledger>(
    alloc: Global,
    d: u8,
    a: &Register,
    b: &Register,
    steps: &mut Steps<C>,
) -> Result<Effect, NoMemory>
    requires { d < 16 }
    ensures { IfOk result (λ effect. (rs : Registers) → Does rs effect (cat d a.now.entries b.now.entries)) }
{
    match joined(alloc, a, b, steps)? {
        Some(map) => change(d, map),
        None => Ok(Effect::Overlap),
    }
}
