//! Questions to an index.
ghost use Rattle.std.specs.Prelude.{ℕ, ◌≡◌, ◌+◌, ◌≤◌, IfOk, is_some, length};
ghost use Rattle.std.specs.Ordering.{nat_cmp};
ghost use Rattle.map_model.specs.Balance.{IsAtMostLevels};
ghost use Rattle.map_model.specs.Entries.{IsIncreasing, lookup};
ghost use Rattle.map_model.specs.SetOperations.{difference};
ghost use Rattle.inverted_index.specs.Costs.{posting_count, top_cost};
ghost use Rattle.inverted_index.specs.Merging.{postings_at};
ghost use Rattle.inverted_index.specs.Queries.{AreTop, all_of, any_of, having, hits_of, is_known, top, without};
ghost use Rattle.aug_monoid.specs.Fresh.{IsFresh};

use crate::finding::{
    by_size, common_of, common_of_alone, find_list, find_lists, hits_of, union_all, union_all_alone,
};
use crate::hit::Hit;
use crate::index::{Index, Lists};
use crate::postings::{Postings, Weights};
use crate::ranking::top;
use crate::term::Term;
use aug_monoid::{NoMemory, Steps};
use fork_join::{Cut, Gate, On};
use std::alloc::Global;
use std::marker::{Brand, Sync};
use std::sync::ledger::{Blank, Ledger};
use std::thread::Threads;

/// The postings of one term.
pub(crate) fn find_one<C: Ledger>(
    alloc: Global,
    lists: &Lists,
    term: &Term,
    blank: Blank,
) -> Result<Postings, NoMemory>
    requires { IsFresh C.name C.parts blank }
    ensures { IfOk result (λ postings. postings ≡ postings_at lists.now.entries term.now) }
{
    let mut steps = Steps::<C>::start(blank);
    find_list(alloc, lists, term, &mut steps)
}

// Whether a document is among the known ones.
fn is_known<C: Ledger>(alloc: Global, known: &Weights, doc: u64, blank: Blank) -> bool
    requires { IsFresh C.name C.parts blank }
    ensures { result ≡ is_some (lookup nat_cmp known.now.entries doc) }
{
    let mut steps = Steps::<C>::start(blank);
    match known.get(alloc, &doc, &mut steps) {
        Ok(weight) => weight.is_some(),
        Err(NoMemory) => unreachable!(),
    }
}

impl Index {
    /// Whether a document is there. It takes no memory, and refuses nothing. O(log n) for n documents.
    pub fn has_doc(&self, alloc: Global, doc: u64) -> bool
        ensures { result ≡ is_known self.now doc }
    {
        is_known::<Brand>(alloc, &self.known, doc, Blank::new(1))
    }

    /// How many documents have a term. O(log t) for an index of t terms.
    pub fn doc_freq(&self, alloc: Global, term: &Term) -> Result<u64, NoMemory>
        ensures { IfOk result (λ count. count ≡ length (having self.now term.now)) }
    {
        let list = find_one::<Brand>(alloc, &self.lists, term, Blank::new(1))?;
        Ok(list.map().size())
    }

    /// The documents that have all terms, by rising number. The weight of a document is the saturating sum of its weights of
    /// the terms, as often as they are named. Postings are intersected smallest first. O(k * m * log(n / m + 1)) work for k
    /// terms, of which the rarest has m documents and the commonest n, beside the look-ups of the terms.
    pub fn all_of<R: Threads + Sync, G: Gate>(
        &self,
        rt: &R,
        alloc: Global,
        gate: &G,
        cut: Cut,
        terms: &[Term],
    ) -> Result<Vec<Hit>, NoMemory>
        ensures { IfOk result (λ hits. hits.items ≡ hits_of (all_of self.now terms.now)) }
    {
        let lists = find_lists::<Brand>(alloc, &self.lists, terms, Blank::new(1))?;
        let sorted = by_size(lists)?;
        let found = common_of(On { rt, gate, cut }, alloc, &self.known, &sorted)?;
        hits_of(alloc, &found)
    }

    /// `all_of` on one thread. O(k * m * log(n / m + 1)) for k terms, of which the rarest has m documents and the commonest n,
    /// beside the look-ups of the terms.
    pub fn all_of_alone(&self, alloc: Global, terms: &[Term]) -> Result<Vec<Hit>, NoMemory>
        ensures { IfOk result (λ hits. hits.items ≡ hits_of (all_of self.now terms.now)) }
    {
        let lists = find_lists::<Brand>(alloc, &self.lists, terms, Blank::new(1))?;
        let sorted = by_size(lists)?;
        let found = common_of_alone(alloc, &self.known, &sorted)?;
        hits_of(alloc, &found)
    }

    /// The documents that have one of the terms, by rising number, with weights as `all_of` has them; a term that a document
    /// hasn't weighs 0 there. O(k * n) work for k terms with n postings in all, beside the look-ups of the terms.
    pub fn any_of<R: Threads + Sync, G: Gate>(
        &self,
        rt: &R,
        alloc: Global,
        gate: &G,
        cut: Cut,
        terms: &[Term],
    ) -> Result<Vec<Hit>, NoMemory>
        ensures { IfOk result (λ hits. hits.items ≡ hits_of (any_of self.now terms.now)) }
    {
        let lists = find_lists::<Brand>(alloc, &self.lists, terms, Blank::new(1))?;
        let found = union_all(On { rt, gate, cut }, alloc, &lists)?;
        hits_of(alloc, &found)
    }

    /// `any_of` on one thread. O(k * n) for k terms with n postings in all, beside the look-ups of the terms.
    pub fn any_of_alone(&self, alloc: Global, terms: &[Term]) -> Result<Vec<Hit>, NoMemory>
        ensures { IfOk result (λ hits. hits.items ≡ hits_of (any_of self.now terms.now)) }
    {
        let lists = find_lists::<Brand>(alloc, &self.lists, terms, Blank::new(1))?;
        let found = union_all_alone(alloc, &lists)?;
        hits_of(alloc, &found)
    }

    /// The documents that have one term and not another, by rising number, with the weight of the first. O(m * log(n / m + 1))
    /// work for m and n postings, m at most n, beside the look-ups of the terms.
    pub fn without<R: Threads + Sync, G: Gate>(
        &self,
        rt: &R,
        alloc: Global,
        gate: &G,
        cut: Cut,
        has: &Term,
        not: &Term,
    ) -> Result<Vec<Hit>, NoMemory>
        ensures { IfOk result (λ hits. hits.items ≡ hits_of (without self.now has.now not.now)) }
    {
        let first = find_one::<Brand>(alloc, &self.lists, has, Blank::new(1))?;
        let second = find_one::<Brand>(alloc, &self.lists, not, Blank::new(1))?;
        let found = first.map().difference(rt, alloc, gate, cut, second.map())?;
        hits_of(alloc, &found)
    }

    /// `without` on one thread. O(m * log(n / m + 1)) for m and n postings, m at most n, beside the look-ups of the terms.
    pub fn without_alone(&self, alloc: Global, has: &Term, not: &Term) -> Result<Vec<Hit>, NoMemory>
        ensures { IfOk result (λ hits. hits.items ≡ hits_of (without self.now has.now not.now)) }
    {
        let first = find_one::<Brand>(alloc, &self.lists, has, Blank::new(1))?;
        let second = find_one::<Brand>(alloc, &self.lists, not, Blank::new(1))?;
        let found = first.map().difference_alone(alloc, second.map())?;
        hits_of(alloc, &found)
    }

    /// The first `k` documents that have a term, by falling weight, and by rising number where weights are equal. Of n documents
    /// that have the term it takes time in O(min(k, n) log n).
    pub fn top(&self, alloc: Global, k: u64, term: &Term) -> Result<Vec<Hit>, NoMemory>
        ensures hits { IfOk result (λ hits. hits.items ≡ hits_of (top self.now k term.now)) }
        ensures ranks { IfOk result (λ hits. AreTop (having self.now term.now) k hits.items) }
    {
        self.top_with_counter::<Brand>(alloc, k, term, Blank::new(1))
    }

    // The same, with a counter of its own.
    fn top_with_counter<C: Ledger>(
        &self,
        alloc: Global,
        k: u64,
        term: &Term,
        blank: Blank,
    ) -> Result<Vec<Hit>, NoMemory>
        requires { IsFresh C.name C.parts blank }
        ensures hits { IfOk result (λ hits. hits.items ≡ hits_of (top self.now k term.now)) }
        ensures ranks { IfOk result (λ hits. AreTop (having self.now term.now) k hits.items) }
    {
        let mut steps = Steps::<C>::start(blank);
        self.top_counted(alloc, k, term, &mut steps)
    }

    /// `top` with its steps counted: comparisons of terms and of documents, looks at greatest weights, and their combinations. They are
    /// at most `k * (4227 * height + 4362) + height + 9`, for each `height` that no map of so many postings in blocks of 64 to 128
    /// exceeds. The comparisons of a sort, by which many documents of few are found, are not counted.
    pub fn top_counted<C: Ledger>(
        &self,
        alloc: Global,
        k: u64,
        term: &Term,
        steps: &mut Steps<C>,
    ) -> Result<Vec<Hit>, NoMemory>
        ensures hits { IfOk result (λ hits. hits.items ≡ hits_of (top self.now k term.now)) }
        ensures ranks { IfOk result (λ hits. AreTop (having self.now term.now) k hits.items) }
        ensures cost { (height : ℕ) → IsAtMostLevels 64 height (posting_count self.now + 1) → steps.new ≤ steps.old + top_cost k height }
    {
        let _height = self.lists.height(); // for the proof alone: how high so many terms may be
        let list = find_list(alloc, &self.lists, term, steps)?;
        top(alloc, list.map(), k, steps)
    }
}
