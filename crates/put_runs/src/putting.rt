//! Many puts at once, and how many entries the map has after each.
ghost use Rattle.std.specs.Prelude.{◌≡◌, IfOk};
ghost use Rattle.std.specs.Ordering.{nat_cmp};
ghost use Rattle.map_model.specs.Operations.{after, puts};
ghost use Rattle.map_model.specs.SetOperations.{difference};
ghost use Rattle.put_runs.specs.Places.{AreFirsts};
ghost use Rattle.put_runs.specs.Sizes.{sizes_after};
ghost use Rattle.aug_monoid.specs.Fresh.{IsFresh};

use crate::groups::firsts_and_lasts;
use crate::marks::{counts, marked};
use aug_map::PlainMap;
use aug_monoid::{NoMemory, Second, Steps, SumMax};
use fork_join::{Gate, On};
use std::alloc::Global;
use std::marker::{Brand, Sync};
use std::sync::ledger::{Blank, Ledger};
use std::thread::Threads;

// A map from numbers to numbers, with the totals of its values.
type Totaled = PlainMap<SumMax<u64>>;

/// Of keys with places those whose keys a map hasn't.
fn new_keys<C: Ledger>(
    alloc: Global,
    map: &Totaled,
    places: &[(u64, u64)],
    blank: Blank,
) -> Result<Vec<(u64, u64)>, NoMemory>
    requires { IsFresh C.name C.parts blank }
    ensures { IfOk result (λ new. new.items ≡ difference nat_cmp places.now map.now.entries) }
{
    let mut steps = Steps::<C>::start(blank);
    let mut new = Vec::new(alloc);
    for (key, place) in places {
        if map.get(alloc, key, &mut steps)?.is_none() {
            new.push((*key, *place))?;
        }
    }
    Ok(new)
}

/// How many entries a map has after each of some puts in order, by the places where their keys come first.
fn sizes_of_puts(
    alloc: Global,
    map: &Totaled,
    entries: &[(u64, u64)],
    firsts: &[(u64, u64)],
) -> Result<Vec<u64>, NoMemory>
    requires { AreFirsts entries.now firsts.now }
    ensures { IfOk result (λ sizes. sizes.items ≡ sizes_after map.now.entries entries.now) }
{
    let size = map.size();
    let new = new_keys::<Brand>(alloc, map, firsts, Blank::new(1))?;
    let marks = marked(alloc, entries.len(), &new)?;
    counts(alloc, size, &marks)
}

/// The map after puts of entries in order, so that a later entry of a key wins, and how many entries it has after each of them.
///
/// For k entries and a map of n, O(k * log k + k * log n) work. The entries are sorted, on all processors where there are many, and
/// the map is changed by halves that fork where the cut allows it; what of it has one owner is moved. `NoMemory` for want of memory
/// alone, which gives the map up.
pub fn put_run<R: Threads + Sync, G: Gate>(
    on: On<R, G>,
    alloc: Global,
    map: PlainMap<SumMax<u64>>,
    entries: &[(u64, u64)],
) -> Result<(PlainMap<SumMax<u64>>, Vec<u64>), NoMemory>
    ensures entries { IfOk result (λ done. done.0.entries ≡ after nat_cmp map.entries (puts entries.now)) }
    ensures sizes { IfOk result (λ done. done.1.items ≡ sizes_after map.entries entries.now) }
{
    let _size = map.size(); // for the proof alone: its keys rise
    let (firsts, lasts) = firsts_and_lasts(on.rt, alloc, entries)?;
    let sizes = sizes_of_puts(alloc, &map, entries, &firsts)?;
    let after = map.union_into(on.rt, alloc, on.gate, on.cut, &lasts, &Second)?;
    Ok((after, sizes))
}
