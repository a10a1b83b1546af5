//! A block of places as the gaps between its rows.
ghost use Rattle.std.specs.Prelude.{◌≡◌, ◌≤◌, length, map, IfOk};
ghost use Rattle.aug_monoid.specs.Exact.{pair64_cmp};
ghost use Rattle.map_model.specs.Entries.{IsIncreasing};
ghost use Rattle.row_leaf.specs.Code.{row_code, row_entry};

use crate::cell::Cell;
use crate::seek::seek_key;
use aug_monoid::{Leaf, Lent, NoMemory, Pair64, Seek, Steps, Walk};
use gap_code::Gaps;
use std::alloc::Global;
use std::marker::Model;
use std::sync::ledger::Ledger;

/// A block of places (row, column) with weights: for each entry the gap from the row before, the column and the weight, in LEB128.
/// Columns are stored whole, so that a walk keeps no more than the row before. `seek` and `get_at` walk over the bytes, `seek`
/// in at most 256 comparisons of keys where there are at most 256 entries. A cut or a change copies runs of bytes, and codes only the
/// new entry and the row after it anew.
#[derive(Drop)]
pub struct RowLeaf {
    gaps: Gaps<Cell>,
}

impl Model for RowLeaf {
    ghost use Rattle.std.specs.Prelude.{List, ℕ, map};
    ghost use Rattle.aug_monoid.specs.declared.pair64.Pair64.{Pair64};
    ghost use Rattle.aug_monoid.specs.Exact.{pair64_cmp};
    ghost use Rattle.map_model.specs.Entries.{IsIncreasing};
    ghost use Rattle.row_leaf.specs.Code.{place_entry};

    ghost Value = { List (Pair64 × ℕ) };

    ghost view = { λ l. map place_entry l.gaps };

    ghost invariant = { λ l. IsIncreasing pair64_cmp (map place_entry l.gaps) };
}

/// The key of what a row has at a place.
#[inline(always)]
fn key_at(row: u64, cell: &Cell) -> Pair64
    ensures first { result.first ≡ row }
    ensures second { result.second ≡ cell.now.column }
{
    Pair64 {
        first: row,
        second: cell.column,
    }
}

/// The code of entries whose keys rise, in one pass.
fn encode(alloc: Global, from: &[(Pair64, u64)]) -> Result<Gaps<Cell>, NoMemory>
    requires increasing { IsIncreasing pair64_cmp from.now }
    requires short { length from.now ≤ 512 }
    ensures { IfOk result (λ gaps. gaps ≡ map row_entry from.now) }
{
    let mut gaps = Gaps::with_room(alloc, from.len().saturating_mul(8))?;
    for entry in from {
        let cell = Cell {
            column: entry.0.second,
            weight: entry.1,
        };
        gaps.push(entry.0.first, &cell)?;
    }
    gaps.shrink_to_fit();
    Ok(gaps)
}

impl RowLeaf {
    /// The stored bytes, which are the code of the entries.
    pub fn code(&self) -> &[u8]
        ensures { result.now ≡ row_code self.now }
    {
        self.gaps.code()
    }
}

impl Leaf<Pair64, u64> for RowLeaf {
    ghost use Rattle.std.specs.Prelude.{map};
    ghost use Rattle.gap_code.specs.Code.{IsPlaceOf};
    ghost use Rattle.row_leaf.specs.Code.{cell_bytes, row_entry};
    ghost use Rattle.row_leaf.specs.CodeLaws.{place_within};

    const FIND: u64 = 256;

    ghost FIND = { 256 };

    ghost entries = { λ l. l };

    ghost fits_walk = { λ l walk. IsPlaceOf cell_bytes (map row_entry l) walk };

    ghost walk_within = { λ l walk fits. place_within l fits };

    fn from_entries(alloc: Global, from: &[(Pair64, u64)]) -> Result<RowLeaf, NoMemory> {
        let gaps = encode(alloc, from)?;
        Ok(RowLeaf { gaps })
    }

    fn from_owned(alloc: Global, from: Vec<(Pair64, u64)>) -> Result<RowLeaf, NoMemory>
        requires increasing { IsIncreasing pair64_cmp from.items }
        requires short { length from.items ≤ 512 }
        ensures { IfOk result (λ leaf. leaf ≡ from.items) }
    {
        let gaps = encode(alloc, &from)?;
        Ok(RowLeaf { gaps })
    }

    fn len(&self) -> u64 {
        self.gaps.len()
    }

    fn get_at(&self, at: u64) -> Option<Lent<'_, Pair64, u64>> {
        match self.gaps.get(at) {
            Some((row, cell)) => Some(Lent::Decoded(key_at(row, &cell), cell.weight)),
            None => None,
        }
    }

    fn seek<C: Ledger>(&self, key: &Pair64, steps: &mut Steps<C>) -> Seek {
        seek_key::<C>(&self.gaps, key, steps)
    }

    fn walk(&self) -> Walk {
        self.gaps.first_place()
    }

    fn walk_next(&self, walk: &mut Walk) -> Option<Lent<'_, Pair64, u64>> {
        if walk.index >= self.gaps.len() {
            return None;
        }
        let found = self.gaps.entry_at(walk);
        *walk = found.next;
        Some(Lent::Decoded(key_at(found.number, &found.val), found.val.weight))
    }

    fn front(&self, alloc: Global, at: u64) -> Result<RowLeaf, NoMemory> {
        let gaps = self.gaps.front(alloc, at)?;
        Ok(RowLeaf { gaps })
    }

    fn back(&self, alloc: Global, at: u64) -> Result<RowLeaf, NoMemory> {
        let gaps = self.gaps.back(alloc, at)?;
        Ok(RowLeaf { gaps })
    }

    fn concat3(
        &self,
        alloc: Global,
        key: Pair64,
        val: u64,
        right: &RowLeaf,
    ) -> Result<RowLeaf, NoMemory> {
        let cell = Cell {
            column: key.second,
            weight: val,
        };
        let gaps = self.gaps.concat(alloc, key.first, &cell, &right.gaps)?;
        Ok(RowLeaf { gaps })
    }

    fn splice(
        &self,
        alloc: Global,
        at: u64,
        upto: u64,
        key: Pair64,
        val: u64,
    ) -> Result<RowLeaf, NoMemory> {
        let cell = Cell {
            column: key.second,
            weight: val,
        };
        let gaps = self.gaps.splice(alloc, at, upto, key.first, &cell)?;
        Ok(RowLeaf { gaps })
    }

    fn without(&self, alloc: Global, at: u64) -> Result<RowLeaf, NoMemory> {
        let gaps = self.gaps.without(alloc, at)?;
        Ok(RowLeaf { gaps })
    }
}
