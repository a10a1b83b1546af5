//! The served map.
ghost use Rattle.std.specs.Prelude.{◌≡◌, [], IfOk};
ghost use Rattle.op_runs.specs.Steps.{step};
ghost use Rattle.versions.specs.History.{after};

use crate::bulk::applied;
use aug_map::PlainMap;
use aug_monoid::{NoMemory, Share, SumMax};
use fork_join::{FreeGate, Gate, On};
use op_runs::Op;
use std::alloc::Global;
use std::marker::{Model, Sync};
use std::thread::Threads;
use versions::{Batch, State};

/// A persistent map from numbers to numbers, with the sum of its values, seen as its entries in the order of their keys.
pub struct Served {
    map: PlainMap<SumMax<u64>>,
}

impl Model for Served {
    ghost use Rattle.std.specs.Prelude.{ℕ, List};

    ghost Value = { List (ℕ × ℕ) };

    ghost view = { λ s. s.map.entries };
}

impl Drop for Served {
    fn drop(self) {
        let Served { map } = self;
        drop(map);
    }
}

impl Served {
    /// The map with no entries. It takes no memory.
    pub fn new() -> Served
        ensures { result ≡ [] }
    {
        Served {
            map: PlainMap::empty(),
        }
    }

    /// Lends the map.
    pub fn map(&self) -> &PlainMap<SumMax<u64>>
        ensures { result.now.entries ≡ self.now }
    {
        &self.map
    }
}

impl Share for Served {
    ghost never_refuses = { ⊥ };

    /// It takes no time but that of counting one more owner.
    fn share(&self, alloc: Global) -> Result<Served, NoMemory> {
        let map = self.map.share(alloc)?;
        Ok(Served { map })
    }
}

impl State for Served {
    type Op = Op;

    ghost step = { step };

    /// Operations between two wipes are sorted by their keys, on all processors where there are many, composed for each key and
    /// done in one pass over the map, by halves forked within the cut: parts with few entries for each key are merged as lists and
    /// made anew, and few keys for many entries are changed in place. For n operations on k keys and a map of m entries
    /// O(n * log n + k * log(m / k + 1)). Few operations are applied one by one, and so is each wipe, in O(log m).
    fn change<R: Threads + Sync>(
        &self,
        on: On<R, FreeGate>,
        alloc: Global,
        batches: &[Batch<Op>],
    ) -> Result<Served, NoMemory> {
        change_by(on, alloc, self, batches)
    }

    /// As `change`. Each block and node of the map that has no other owner is changed in place.
    fn changed<R: Threads + Sync>(
        self,
        on: On<R, FreeGate>,
        alloc: Global,
        batches: &[Batch<Op>],
    ) -> Result<Served, NoMemory> {
        let Served { map } = self;
        let map = applied(on, alloc, map, batches)?;
        Ok(Served { map })
    }
}

/// What `change` answers. Its forks enter the gate.
pub fn change_by<R: Threads + Sync, G: Gate>(
    on: On<R, G>,
    alloc: Global,
    served: &Served,
    batches: &[Batch<Op>],
) -> Result<Served, NoMemory>
    ensures { IfOk result (λ state. state ≡ after step served.now batches.now) }
{
    let map = served.map.share(alloc)?;
    let map = applied(on, alloc, map, batches)?;
    Ok(Served { map })
}
