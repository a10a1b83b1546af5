//! Lists of the points of rows, by (x, y).
ghost use Rattle.std.specs.Prelude.{◌≡◌, ◌++◌, map, IfOk};
ghost use Rattle.range_tree.specs.Listings.{append_monoid, points_of, rows_points, rows_points_projection, swapped_entry};

use crate::places::{greatest_at, least_at, swapped};
use crate::rows::{Places, RowMap, Rows};
use aug_monoid::{NoMemory, Pair64, Project, Steps};
use std::alloc::Global;
use std::marker::Model;
use std::sync::ledger::Ledger;

/// Points by (x, y), with their weights.
#[derive(Drop)]
pub(crate) struct Listed {
    entries: Vec<(Pair64, u64)>,
}

impl Model for Listed {
    ghost use Rattle.std.specs.Prelude.{List, ℕ};
    ghost use Rattle.aug_monoid.specs.declared.pair64.Pair64.{Pair64};

    ghost Value = { List (Pair64 × ℕ) };

    ghost view = { λ l. l.entries.items };
}

impl Listed {
    /// Lends the list.
    pub(crate) fn entries(&self) -> &[(Pair64, u64)]
        ensures { result.now ≡ self.now }
    {
        self.entries.as_slice()
    }
}

/// The list of the points with y from `y1` to `y2`.
#[derive(Drop)]
pub(crate) struct RowPoints {
    pub(crate) y1: u64,
    pub(crate) y2: u64,
}

// No number of steps is said to be enough: what a list takes to be made and sorted is not counted.
impl Project<Places> for RowPoints {
    type Out = Listed;

    ghost Fits = { λ _ _. Unit {0} };

    ghost image_of = { λ s rows. rows_points s.y1 s.y2 rows };

    ghost combined = { λ _ a b. a ++ b };

    ghost IsImageCost = { λ _ _ _. ⊥ };

    ghost image_fits = { λ _ _ _. tt };

    ghost monoid = { λ _. append_monoid };

    ghost projection = { λ s. rows_points_projection s.y1 s.y2 };

    fn image<C: Ledger>(
        &self,
        alloc: Global,
        aug: &Rows,
        _steps: &mut Steps<C>,
    ) -> Result<Listed, NoMemory> {
        let part = aug
            .map()
            .slice(alloc, &least_at(self.y1), &greatest_at(self.y2))?;
        let entries = points_of(alloc, &part)?;
        Ok(Listed { entries })
    }

    fn combine(&self, _alloc: Global, a: Listed, b: Listed) -> Result<Listed, NoMemory> {
        let mut entries = a.entries;
        let mut rest = b.entries;
        entries.append(&mut rest)?;
        Ok(Listed { entries })
    }
}

/// The points of rows, sorted by (x, y).
fn points_of(alloc: Global, rows: &RowMap) -> Result<Vec<(Pair64, u64)>, NoMemory>
    ensures { IfOk result (λ points. points.items ≡ points_of rows.now.entries) }
{
    let _number = rows.size(); // for the proof alone: keys rise
    let entries = rows.to_vec(alloc)?;
    let mut points = exchanged(alloc, &entries)?;
    points.as_mut_slice().sort_by_key(
        alloc,
        |entry: &(Pair64, u64)| -> Pair64
            ensures { result ≡ entry.now.0 }
        { entry.0 },
    )?;
    Ok(points)
}

/// Entries of rows as entries of points.
fn exchanged(alloc: Global, entries: &[(Pair64, u64)]) -> Result<Vec<(Pair64, u64)>, NoMemory>
    ensures { IfOk result (λ points. points.items ≡ map swapped_entry entries.now) }
{
    let points = entries
        .iter()
        .map(|entry| (swapped(entry.0), entry.1))
        .collect(alloc)?;
    Ok(points)
}
