//! Batches with their rounds, in record order and in the order of a run.
ghost use Rattle.std.specs.Prelude.{◌≡◌, ◌≢◌, ◌↔◌, ◌++◌, IfOk, OnOk, IsTrue, All};
ghost use Rattle.std.specs.List.Sorted.{IsPermutation, IsNonDecreasingBy};
ghost use Rattle.std.specs.Option.{MatchOption};
ghost use Rattle.versions.specs.History.{batches_in};
ghost use Rattle.run_check.specs.Placing as placing;
ghost use Rattle.run_check.specs.Placing.{TagsRise, IsOnlyOf, tags_of, entries_in, placed_by};

use aug_monoid::{NoMemory, Share};
use serve_text::{Act, Record};
use std::alloc::Global;
use versions::{Batch, Entry};

/// A batch with its round.
#[derive(Drop)]
pub(crate) struct Placed<O: Drop> {
    pub(crate) round: u64,
    pub(crate) entry: Entry<O>,
}

/// Appends the batch of a record, shared, where it submits one.
fn push_placed<O: Share, Q: Drop>(
    alloc: Global,
    record: &Record<O, Q>,
    placed: &mut Vec<Placed<O>>,
) -> Result<(), NoMemory>
    ensures { OnOk result (placed.new.items ≡ placed.old.items ++ placed_by «record».now.round «record».now.caller «record».now.place «record».now.act) }
{
    match &record.act {
        Act::Read { query: _ } => Ok(()),
        Act::Submit { batch } => {
            let batch = batch.share(alloc)?;
            placed.push(Placed {
                round: record.round,
                entry: Entry {
                    caller: record.caller,
                    tag: record.place,
                    batch,
                },
            })?;
            Ok(())
        }
    }
}

/// The batches of the records, each shared, with their rounds.
pub(crate) fn placed_of<O: Share, Q: Drop>(
    alloc: Global,
    records: &[Record<O, Q>],
) -> Result<Vec<Placed<O>>, NoMemory>
    ensures { IfOk result (λ placed. placed.items ≡ placing.placed_of records.now) }
{
    let mut placed = Vec::new(alloc);
    for record in records {
        push_placed(alloc, record, &mut placed)?;
    }
    Ok(placed)
}

/// The batch of a record's number, by a search by halves.
fn find<O: Drop>(placed: &[Placed<O>], number: u64) -> Option<&Placed<O>>
    requires { TagsRise placed.now }
    ensures { MatchOption result (All (λ p. p.entry.tag ≢ number) placed.now) (λ p. (p.now.entry.tag ≡ number) × IsOnlyOf placed.now p.now) }
{
    let at = placed.partition_point(|p| p.entry.tag < number);
    let Some(p) = placed.get(at) else {
        return None;
    };
    if p.entry.tag == number { Some(p) } else { None }
}

/// Whether each batch's number is there exactly once, and no other.
fn is_permutation<O: Drop>(
    alloc: Global,
    placed: &[Placed<O>],
    order: &[u64],
) -> Result<bool, NoMemory>
    requires { TagsRise placed.now }
    ensures { IfOk result (λ is. IsTrue is ↔ IsPermutation (tags_of placed.now) order.now) }
{
    let mut tags = Vec::with_capacity(alloc, placed.len())?;
    for p in placed {
        tags.push(p.entry.tag)?;
    }
    let sorted = sorted(alloc, order)?;
    Ok(tags.as_slice() == sorted.as_slice())
}

fn sorted(alloc: Global, order: &[u64]) -> Result<Vec<u64>, NoMemory>
    ensures permutation { IfOk result (λ sorted. IsPermutation order.now sorted.items) }
    ensures rise { IfOk result (λ sorted. IsNonDecreasingBy (λ n. n) sorted.items) }
{
    let mut sorted = Vec::from_slice(alloc, order)?;
    sorted.sort()?;
    Ok(sorted)
}

/// The batches of these numbers, in their order; none where one of them is no batch's.
fn picked<O: Share>(
    alloc: Global,
    placed: &[Placed<O>],
    order: &[u64],
) -> Result<Option<Vec<Placed<O>>>, NoMemory>
    requires { TagsRise placed.now }
    ensures { IfOk result (λ o. MatchOption o (¬ (IsPermutation (tags_of placed.now) order.now)) (λ picked. (tags_of picked.items ≡ order.now) × All (IsOnlyOf placed.now) picked.items)) }
{
    let mut picked = Vec::with_capacity(alloc, order.len())?;
    for number in order {
        let Some(p) = find(placed, *number) else {
            return Ok(None);
        };
        picked.push(Placed {
            round: p.round,
            entry: p.entry.share(alloc)?,
        })?;
    }
    Ok(Some(picked))
}

/// The batches in this order of their numbers; none where it is not an order of them all. It takes O(n log n) for n batches and numbers.
pub(crate) fn in_order<O: Share>(
    alloc: Global,
    placed: &[Placed<O>],
    order: &[u64],
) -> Result<Option<Vec<Placed<O>>>, NoMemory>
    requires { TagsRise placed.now }
    ensures { IfOk result (λ o. MatchOption o (¬ (IsPermutation (tags_of placed.now) order.now)) (λ ordered. (tags_of ordered.items ≡ order.now) × IsPermutation placed.now ordered.items)) }
{
    if is_permutation(alloc, placed, order)? {
        picked(alloc, placed, order)
    } else {
        Ok(None)
    }
}

/// The batches without what stands beside them.
pub(crate) fn batches_of<O: Drop>(
    alloc: Global,
    placed: Vec<Placed<O>>,
) -> Result<Vec<Batch<O>>, NoMemory>
    ensures { IfOk result (λ batches. batches.items ≡ batches_in (entries_in placed.items)) }
{
    let mut batches = Vec::with_capacity(alloc, placed.len())?;
    for p in placed {
        let Placed { round: _, entry } = p;
        let Entry {
            caller: _,
            tag: _,
            batch,
        } = entry;
        batches.push(batch)?;
    }
    Ok(batches)
}
