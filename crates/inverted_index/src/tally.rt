//! How often terms are among some.
ghost use Rattle.std.specs.Prelude.{◌≡◌, IfOk, [], ◌∷◌, length, ◌<◌, ◌^◌};
ghost use Rattle.aug_monoid.specs.Fresh.{IsFresh};
ghost use Rattle.map_model.specs.Entries.{IsIncreasing};
ghost use Rattle.map_model.specs.SetOperations.{union};
ghost use Rattle.inverted_index.specs.Merging.{sat};
ghost use Rattle.inverted_index.specs.Terms.{bytes_cmp, tally, terms_of, weights_of};

use crate::term::Term;
use crate::text::terms_of;
use aug_monoid::{NoMemory, SatSum, Share, Steps};
use entry_lists::union_of;
use std::alloc::Global;
use std::marker::Brand;
use std::sync::ledger::{Blank, Ledger};

/// A term that is there once.
#[tactic(auto, using(crate::proofs::Tallies::tally_one))]
fn once(alloc: Global, term: &Term) -> Result<Vec<(Term, u64)>, NoMemory>
    ensures { IfOk result (λ counts. counts.items ≡ tally (term.now ∷ [])) }
{
    let mut counts = Vec::with_capacity(alloc, 1)?;
    counts.push((term.share(alloc)?, 1))?;
    Ok(counts)
}

/// Each of some terms with how often it is among them, in the order of bytes: the counts of the two halves, united. For n terms
/// it takes about n * log n work.
#[tactic(auto, using(crate::proofs::Tallies::tally_both, crate::proofs::Tallies::tally_rises))]
fn tally(alloc: Global, terms: &[Term]) -> Result<Vec<(Term, u64)>, NoMemory>
    ensures { IfOk result (λ counts. counts.items ≡ tally terms.now) }
{
    match terms {
        [] => Ok(Vec::new(alloc)),
        [term] => once(alloc, term),
        _ => {
            let (front, back) = terms.split_at(terms.len() / 2);
            let front = tally(alloc, front)?;
            let back = tally(alloc, back)?;
            both_of(alloc, &front, &back)
        }
    }
}

/// The terms of either list, each with how often both have it.
fn both_of(
    alloc: Global,
    front: &[(Term, u64)],
    back: &[(Term, u64)],
) -> Result<Vec<(Term, u64)>, NoMemory>
    requires front { IsIncreasing bytes_cmp front.now }
    requires back { IsIncreasing bytes_cmp back.now }
    ensures { IfOk result (λ counts. counts.items ≡ union bytes_cmp sat front.now back.now) }
{
    both_counted::<Brand>(alloc, front, back, Blank::new(1))
}

fn both_counted<C: Ledger>(
    alloc: Global,
    front: &[(Term, u64)],
    back: &[(Term, u64)],
    blank: Blank,
) -> Result<Vec<(Term, u64)>, NoMemory>
    requires front { IsIncreasing bytes_cmp front.now }
    requires back { IsIncreasing bytes_cmp back.now }
    requires fresh { IsFresh C.name C.parts blank }
    ensures { IfOk result (λ counts. counts.items ≡ union bytes_cmp sat front.now back.now) }
{
    let mut steps = Steps::<C>::start(blank);
    union_of(alloc, front, back, &SatSum, &mut steps)
}

/// The terms of a text, each with how often the text has it, in the order of bytes, and how many terms the text has in all.
pub(crate) fn counts_of(alloc: Global, text: &[u8]) -> Result<(Vec<(Term, u64)>, u64), NoMemory>
    ensures counts { IfOk result (λ r. r.0.items ≡ weights_of text.now) }
    ensures rises { IfOk result (λ r. IsIncreasing bytes_cmp r.0.items) }
    ensures number { IfOk result (λ r. r.1 ≡ length (terms_of text.now)) }
{
    let terms = terms_of(alloc, text)?;
    let terms = terms.as_slice();
    let number = terms.len() as u64;
    let counts = tally(alloc, terms)?;
    Ok((counts, number))
}
