//! The augmented values of a map of points: the same points by rows.
ghost use Rattle.std.specs.Prelude.{◌≡◌, [], map, IfOk};
ghost use Rattle.range_tree.specs.Listings.{swapped_entry};
ghost use Rattle.range_tree.specs.Rows.{AreRows, row_increases, row_of, rows_monoid, rows_of, rows_of_both};

use crate::places::swapped;
use aug_map::Map;
use aug_monoid::{Augment, Leaf, NoMemory, Pair64, Second, Share, Steps, SumMax};
use row_leaf::RowLeaf;
use std::alloc::Global;
use std::marker::Model;
use std::sync::ledger::Ledger;

/// A map from (y, x) to weight, with the sum of the weights, in blocks of 64 to 128 points that are stored as gaps between rows.
pub type RowMap = Map<SumMax<Pair64>, RowLeaf, 64>;

/// Points by rows: the map from (y, x) to weight, with the sum of the weights. Contracts see the list of its entries.
pub struct Rows {
    map: RowMap,
}

impl Model for Rows {
    ghost use Rattle.std.specs.Prelude.{List, ℕ};
    ghost use Rattle.aug_monoid.specs.declared.pair64.Pair64.{Pair64};

    ghost Value = { List (Pair64 × ℕ) };

    ghost view = { λ r. r.map.entries };
}

impl Drop for Rows {
    fn drop(self) {
        let Rows { map } = self;
        drop(map);
    }
}

impl Rows {
    /// Lends the map from (y, x) to weight. O(1).
    pub fn map(&self) -> &RowMap
        ensures { result.now.entries ≡ self.now }
    {
        &self.map
    }
}

impl Share for Rows {
    ghost never_refuses = { ⊥ };

    /// The same rows, in O(1) and in the memory of these.
    fn share(&self, alloc: Global) -> Result<Rows, NoMemory> {
        let map = self.map.share(alloc)?;
        Ok(Rows { map })
    }
}

/// The entries of a leaf by (y, x), in its order.
fn swapped_entries<L: Leaf<Pair64, u64>>(
    alloc: Global,
    leaf: &L,
) -> Result<Vec<(Pair64, u64)>, NoMemory>
    ensures { IfOk result (λ list. list.items ≡ map swapped_entry (L.entries leaf.now)) }
{
    let mut list = Vec::with_capacity(alloc, leaf.len() as usize)?;
    let mut walk = leaf.walk();
    for _at in 0..leaf.len() {
        let Some(entry) = leaf.walk_next(&mut walk) else {
            unreachable!()
        };
        list.push((swapped(*entry.key()), *entry.val()))?;
    }
    Ok(list)
}

/// The rows of a leaf's points: they are sorted once, where unions of the rows of single points would code each of them many times.
#[tactic(auto, using(crate::specs::Listings::rows_are))]
fn rows_of_leaf<L: Leaf<Pair64, u64>>(alloc: Global, leaf: &L) -> Result<Rows, NoMemory>
    ensures { IfOk result (λ rows. rows ≡ rows_of (L.entries leaf.now)) }
{
    let _number = leaf.len(); // for the proof alone: the keys of a leaf rise
    let list = swapped_entries(alloc, leaf)?;
    let map = Map::build_alone(alloc, &list)?;
    Ok(Rows { map })
}

/// Maps from places (x, y) to weights, augmented by the same points as rows.
#[derive(Drop)]
pub struct Places;

impl Augment for Places {
    type Key = Pair64;

    type Val = u64;

    type Aug = Rows;

    ghost Fits = { AreRows };

    ghost base_of = { row_of };

    ghost unit_of = { [] };

    ghost combined = { rows_of_both };

    ghost never_refuses = { ⊥ };

    ghost base_fits = { row_increases };

    ghost monoid = { rows_monoid };

    ghost augs_never_refuse = { λ refuses. absurd refuses };

    fn base(alloc: Global, key: &Pair64, val: &u64) -> Result<Rows, NoMemory> {
        let map = Map::single(alloc, swapped(*key), *val)?;
        Ok(Rows { map })
    }

    fn unit() -> Rows {
        Rows { map: Map::empty() }
    }

    fn combine<C: Ledger>(
        alloc: Global,
        a: &Rows,
        b: &Rows,
        steps: &mut Steps<C>,
    ) -> Result<Rows, NoMemory> {
        steps.tick();
        let map = a.map.union_alone(alloc, &b.map, &Second)?;
        Ok(Rows { map })
    }

    fn fold_at_once<L: Leaf<Pair64, u64>>(
        alloc: Global,
        leaf: &L,
    ) -> Result<Option<Rows>, NoMemory> {
        let rows = rows_of_leaf(alloc, leaf)?;
        Ok(Some(rows))
    }
}
