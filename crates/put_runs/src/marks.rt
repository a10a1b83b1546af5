//! Marks at places, and counts by them.
ghost use Rattle.std.specs.Prelude.{◌≡◌, ◌<◌, ◌==◌, ℕ, false, IfOk, length, slice_index_or};
ghost use Rattle.std.specs.List.{list_any};
ghost use Rattle.put_runs.specs.Places.{counted};

use aug_monoid::NoMemory;
use std::alloc::Global;

/// Marks, of which those at the places of entries are set.
pub(crate) fn marked(
    alloc: Global,
    len: usize,
    places: &[(u64, u64)],
) -> Result<Vec<bool>, NoMemory>
    ensures len { IfOk result (λ marks. length marks.items ≡ len) }
    ensures set { IfOk result (λ marks. (p : ℕ) → p < len → slice_index_or marks.items p false ≡ list_any (λ e. e.1 == p) places.now) }
{
    let mut marks = vec![in alloc; false; len]?;
    for (_, place) in places {
        let place = *place as usize;
        if place < marks.len() {
            marks[place] = true;
        }
    }
    Ok(marks)
}

/// The counts from `size` on, where each mark that is set counts one more.
pub(crate) fn counts(alloc: Global, size: u64, marks: &[bool]) -> Result<Vec<u64>, NoMemory>
    ensures { IfOk result (λ sizes. sizes.items ≡ counted size marks.now) }
{
    let mut sizes = Vec::with_capacity(alloc, marks.len())?;
    let mut size = size;
    for mark in marks {
        if *mark {
            size = size.checked_add(1).ok_or(NoMemory)?;
        }
        sizes.push(size)?;
    }
    Ok(sizes)
}
