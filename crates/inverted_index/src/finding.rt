//! Postings that are found.
ghost use Rattle.std.specs.Prelude.{◌≡◌, ◌+◌, ◌≤◌, ℕ, List, IfOk, IsPermutation, length, map, []};
ghost use Rattle.std.specs.List.Sorted.{IsNonDecreasingBy};
ghost use Rattle.std.specs.Ordering.{nat_cmp};
ghost use Rattle.map_model.specs.Entries.{IsIncreasing};
ghost use Rattle.inverted_index.specs.Merging.{common, common_of, union_all, postings_at};
ghost use Rattle.inverted_index.specs.Queries.{hits_of};
ghost use Rattle.aug_monoid.specs.Fresh.{IsFresh};

use crate::hit::Hit;
use crate::index::Lists;
use crate::postings::{Postings, Weights};
use crate::term::Term;
use aug_monoid::{NoMemory, SatSum, Share, Steps};
use fork_join::{Gate, On};
use std::alloc::Global;
use std::marker::Sync;
use std::sync::ledger::{Blank, Ledger};
use std::thread::Threads;

/// The postings of a term, empty where there is no such term.
pub(crate) fn find_list<C: Ledger>(
    alloc: Global,
    lists: &Lists,
    term: &Term,
    steps: &mut Steps<C>,
) -> Result<Postings, NoMemory>
    ensures postings { IfOk result (λ postings. postings ≡ postings_at lists.now.entries term.now) }
    ensures cost { steps.new ≤ steps.old + (lists.now.height + 9) }
{
    match lists.get(alloc, term, steps)? {
        Some(postings) => Ok(postings),
        None => Ok(Postings::empty()),
    }
}

/// The postings of each of some terms.
pub(crate) fn find_lists<C: Ledger>(
    alloc: Global,
    lists: &Lists,
    terms: &[Term],
    blank: Blank,
) -> Result<Vec<Postings>, NoMemory>
    requires { IsFresh C.name C.parts blank }
    ensures { IfOk result (λ found. found.items ≡ map (postings_at lists.now.entries) terms.now) }
{
    let mut steps = Steps::<C>::start(blank);
    let mut found = Vec::with_capacity(alloc, terms.len())?;
    for term in terms {
        found.push(find_list(alloc, lists, term, &mut steps)?)?;
    }
    Ok(found)
}

/// The same lists, by their sizes, the smallest first.
pub(crate) fn by_size(mut lists: Vec<Postings>) -> Result<Vec<Postings>, NoMemory>
    ensures same { IfOk result (λ sorted. IsPermutation lists.items sorted.items) }
    ensures rises { IfOk result (λ sorted. IsNonDecreasingBy (λ (list : List (ℕ × ℕ)). length list) sorted.items) }
{
    lists.sort_by_key(
        |list: &Postings| -> u64
            ensures { result ≡ length list.now }
        { list.map().size() },
    )?;
    Ok(lists)
}

// The documents of a map that all lists have, with the sums of their weights there and in the map.
#[tactic(auto, using(crate::proofs::Steps::common_more))]
fn common<R: Threads + Sync, G: Gate>(
    on: On<R, G>,
    alloc: Global,
    start: &Weights,
    lists: &[Postings],
) -> Result<Weights, NoMemory>
    ensures entries { IfOk result (λ found. found.entries ≡ common start.now.entries lists.now) }
    ensures rises { IfOk result (λ found. IsIncreasing nat_cmp found.entries) }
{
    let mut found = start.share(alloc)?;
    for list in lists {
        found = found.intersect(on.rt, alloc, on.gate, on.cut, list.map(), &SatSum)?;
    }
    let _size = found.size(); // for the proof alone: keys rise
    Ok(found)
}

// `common` on one thread.
#[tactic(auto, using(crate::proofs::Steps::common_more))]
fn common_alone(alloc: Global, start: &Weights, lists: &[Postings]) -> Result<Weights, NoMemory>
    ensures entries { IfOk result (λ found. found.entries ≡ common start.now.entries lists.now) }
    ensures rises { IfOk result (λ found. IsIncreasing nat_cmp found.entries) }
{
    let mut found = start.share(alloc)?;
    for list in lists {
        found = found.intersect_alone(alloc, list.map(), &SatSum)?;
    }
    let _size = found.size(); // for the proof alone: keys rise
    Ok(found)
}

/// The documents that all lists have, with the sums of their weights; the known documents where there are no lists.
pub(crate) fn common_of<R: Threads + Sync, G: Gate>(
    on: On<R, G>,
    alloc: Global,
    known: &Weights,
    lists: &[Postings],
) -> Result<Weights, NoMemory>
    ensures entries { IfOk result (λ found. found.entries ≡ common_of known.now.entries lists.now) }
    ensures rises { IfOk result (λ found. IsIncreasing nat_cmp found.entries) }
{
    match lists {
        [] => common(on, alloc, known, lists),
        [first, rest @ ..] => common(on, alloc, first.map(), rest),
    }
}

/// `common_of` on one thread.
pub(crate) fn common_of_alone(
    alloc: Global,
    known: &Weights,
    lists: &[Postings],
) -> Result<Weights, NoMemory>
    ensures entries { IfOk result (λ found. found.entries ≡ common_of known.now.entries lists.now) }
    ensures rises { IfOk result (λ found. IsIncreasing nat_cmp found.entries) }
{
    match lists {
        [] => common_alone(alloc, known, lists),
        [first, rest @ ..] => common_alone(alloc, first.map(), rest),
    }
}

/// The documents that one of the lists has, with the sums of their weights.
#[tactic(auto, using(crate::proofs::Steps::union_all_more))]
pub(crate) fn union_all<R: Threads + Sync, G: Gate>(
    on: On<R, G>,
    alloc: Global,
    lists: &[Postings],
) -> Result<Weights, NoMemory>
    ensures entries { IfOk result (λ found. found.entries ≡ union_all [] lists.now) }
    ensures rises { IfOk result (λ found. IsIncreasing nat_cmp found.entries) }
{
    let mut found = Weights::empty();
    for list in lists {
        found = found.union(on.rt, alloc, on.gate, on.cut, list.map(), &SatSum)?;
    }
    let _size = found.size(); // for the proof alone: keys rise
    Ok(found)
}

/// `union_all` on one thread.
#[tactic(auto, using(crate::proofs::Steps::union_all_more))]
pub(crate) fn union_all_alone(alloc: Global, lists: &[Postings]) -> Result<Weights, NoMemory>
    ensures entries { IfOk result (λ found. found.entries ≡ union_all [] lists.now) }
    ensures rises { IfOk result (λ found. IsIncreasing nat_cmp found.entries) }
{
    let mut found = Weights::empty();
    for list in lists {
        found = found.union_alone(alloc, list.map(), &SatSum)?;
    }
    let _size = found.size(); // for the proof alone: keys rise
    Ok(found)
}

/// Documents with their weights as hits, in their order.
pub(crate) fn as_hits(alloc: Global, entries: &[(u64, u64)]) -> Result<Vec<Hit>, NoMemory>
    ensures { IfOk result (λ hits. hits.items ≡ hits_of entries.now) }
{
    let hits = entries
        .iter()
        .map(|entry| Hit {
            doc: entry.0,
            weight: entry.1,
        })
        .collect(alloc)?;
    Ok(hits)
}

/// The documents of a map with their weights.
pub(crate) fn hits_of(alloc: Global, weights: &Weights) -> Result<Vec<Hit>, NoMemory>
    ensures { IfOk result (λ hits. hits.items ≡ hits_of weights.now.entries) }
{
    let entries = weights.to_vec(alloc)?;
    as_hits(alloc, &entries)
}
