//! Documents by falling weight, with the steps that they take counted.
ghost use Rattle.std.specs.Prelude.{ℕ, ◌≡◌, ◌+◌, ◌*◌, ◌≤◌, IfOk, MatchOption, length, take};
ghost use Rattle.std.specs.Ordering.{nat_cmp};
ghost use Rattle.map_model.specs.Balance.{IsAtMostLevels, weight};
ghost use Rattle.inverted_index.specs.Costs.{removal_cost};
ghost use Rattle.inverted_index.specs.Queries.{hits_of, ranked};
ghost use Rattle.inverted_index.specs.Ranks.{AreBelow, AreLow, IsFirst, Leads};

use crate::hit::Hit;
use crate::postings::Weights;
use crate::sorting::{first_hits, sort_by_weight};
use crate::weighing::WeightsFrom;
use aug_monoid::{NoMemory, Share, Steps};
use std::alloc::Global;
use std::sync::ledger::Ledger;

/// So many documents are taken to be sorted in the time in which one is found and removed. Of a term of 20,000 documents a removal
/// with its search took some 4 microseconds, and a sort of all 1 to 2 milliseconds: as long as 250 to 500 removals. The number
/// decides of the time alone.
const SORTED_A_REMOVAL: u64 = 50;

// The first document whose weight is at least `least`, found by going down to it.
#[tactic(auto, using(crate::proofs::Ranks::first_heavy, crate::proofs::Ranks::none_heavy))]
fn first_of<C: Ledger>(
    alloc: Global,
    weights: &Weights,
    least: u64,
    steps: &mut Steps<C>,
) -> Result<Option<u64>, NoMemory>
    requires low { AreLow weights.now.entries }
    ensures first { IfOk result (λ doc. MatchOption doc (AreBelow least weights.now.entries) (IsFirst weights.now.entries least)) }
    ensures cost { steps.new ≤ steps.old + (3 * weights.now.height + 129) }
{
    match weights.first_where_counted(alloc, &WeightsFrom { least }, steps)? {
        Some(entry) => Ok(Some(entry.0)),
        None => Ok(None),
    }
}

// The first document of the greatest weight.
#[tactic(auto, using(crate::proofs::Ranks::heaviest_leads, crate::proofs::Ranks::some_greatest))]
fn heaviest<C: Ledger>(
    alloc: Global,
    weights: &Weights,
    steps: &mut Steps<C>,
) -> Result<Option<Hit>, NoMemory>
    requires low { AreLow weights.now.entries }
    ensures leads { IfOk result (λ hit. Leads weights.now.entries hit) }
    ensures cost { steps.new ≤ steps.old + (3 * weights.now.height + 129) }
{
    let _size = weights.size(); // for the proof alone: keys rise
    let Some(totals) = weights.aug() else {
        return Ok(None);
    };
    let weight = totals.greatest;
    match first_of(alloc, weights, weight, steps)? {
        Some(doc) => Ok(Some(Hit { doc, weight })),
        None => unreachable!(),
    }
}

// The first `k` documents by falling weight, one by one: each is removed from what is left of the map, which is changed in place but
// for what others share.
#[tactic(auto, using(crate::proofs::Ranks::low_dropped, crate::proofs::Ranks::top_more, crate::proofs::Ranks::top_done, crate::proofs::Ranks::top_end))]
fn top_by_removals<C: Ledger>(
    alloc: Global,
    weights: &Weights,
    k: u64,
    steps: &mut Steps<C>,
) -> Result<Vec<Hit>, NoMemory>
    requires low { AreLow weights.now.entries }
    ensures hits { IfOk result (λ hits. hits.items ≡ hits_of (take k (ranked weights.now.entries))) }
    ensures cost { (height : ℕ) → IsAtMostLevels 64 height (weight weights.now.entries) → steps.new ≤ steps.old + k * removal_cost height }
{
    let mut hits = Vec::new(alloc);
    let mut rest = weights.share(alloc)?;
    for _place in 0..k {
        let _height = rest.height(); // for the proof alone: how high so many entries may be
        let Some(hit) = heaviest(alloc, &rest, steps)? else {
            return Ok(hits);
        };
        rest.del_mut(alloc, &hit.doc, steps)?;
        hits.push(hit)?;
    }
    Ok(hits)
}

// The first `k` documents by falling weight, of all when they are sorted.
fn top_by_sorting(alloc: Global, weights: &Weights, k: u64) -> Result<Vec<Hit>, NoMemory>
    ensures { IfOk result (λ hits. hits.items ≡ hits_of (take k (ranked weights.now.entries))) }
{
    let _number = weights.size(); // for the proof alone: keys rise
    let mut entries = weights.to_vec(alloc)?;
    sort_by_weight(alloc, entries.as_mut_slice())?;
    first_hits(alloc, &entries, k)
}

/// The first `k` documents by falling weight, and by rising number where weights are equal. Of n documents it takes time in
/// O(min(k, n) log n). The comparisons of a sort
/// are no steps.
pub(crate) fn top<C: Ledger>(
    alloc: Global,
    weights: &Weights,
    k: u64,
    steps: &mut Steps<C>,
) -> Result<Vec<Hit>, NoMemory>
    requires low { AreLow weights.now.entries }
    ensures hits { IfOk result (λ hits. hits.items ≡ hits_of (take k (ranked weights.now.entries))) }
    ensures cost { (height : ℕ) → IsAtMostLevels 64 height (weight weights.now.entries) → steps.new ≤ steps.old + k * removal_cost height }
{
    if weights.size() / SORTED_A_REMOVAL <= k {
        top_by_sorting(alloc, weights, k)
    } else {
        top_by_removals(alloc, weights, k, steps)
    }
}
