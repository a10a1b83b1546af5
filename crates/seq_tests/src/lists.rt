//! Sequences and lists of numbers.
use aug_monoid::NoMemory;
use pac_seq::{BlockSize, Fold, SeqOver};
use std::alloc::Global;

/// The numbers from 1 on, as many as `count`.
pub(crate) fn numbers(alloc: Global, count: u64) -> Result<Vec<u64>, NoMemory> {
    let mut items = Vec::new(alloc);
    for number in 0..count {
        items.push(number + 1)?;
    }
    Ok(items)
}

/// The items that a cursor gives from a place on, and what it gives once it has given none.
pub(crate) fn listed<F: Fold<Item = u64>, S: BlockSize>(
    alloc: Global,
    seq: &SeqOver<F, S>,
    place: u64,
) -> Result<Vec<u64>, NoMemory> {
    let mut items = Vec::new(alloc);
    let mut cursor = seq.cursor(place);
    while let Some(item) = cursor.next() {
        items.push(*item)?;
    }
    if let Some(item) = cursor.next() {
        items.push(*item)?;
    }
    Ok(items)
}
