//! Documents that are removed, and those that are put in place of others.
ghost use Rattle.std.specs.Prelude.{◌≡◌, ℕ, List, Some, cond, IfOk, OnOk};
ghost use Rattle.std.specs.Ordering.{is_eq, nat_cmp};
ghost use Rattle.map_model.specs.Entries.{IsIncreasing, drop_key, lookup};
ghost use Rattle.inverted_index.specs.Added.{IsAdded, IsAddedBy, IsNew};
ghost use Rattle.inverted_index.specs.Documents.{without_doc};
ghost use Rattle.inverted_index.specs.Queries.{if_filled};
ghost use Rattle.inverted_index.specs.Removing.{taken};
ghost use Rattle.inverted_index.specs.Terms.{bytes_cmp, weighed_by};
ghost use Rattle.aug_monoid.specs.Fresh.{IsFresh};

use crate::adding::Added;
use crate::index::{Index, Lists};
use crate::postings::{Postings, Weights};
use crate::term::Term;
use crate::weigh::Weigh;
use aug_monoid::{NoMemory, Share, Steps};
use fork_join::{Cut, Gate};
use std::alloc::Global;
use std::marker::{Brand, Sync};
use std::sync::ledger::{Blank, Ledger};
use std::thread::Threads;

// Sets the postings of a term, or removes the term where they have no document.
fn set_postings<C: Ledger>(
    alloc: Global,
    lists: &mut Lists,
    term: &Term,
    postings: Postings,
    steps: &mut Steps<C>,
) -> Result<(), NoMemory>
    ensures { OnOk result ((t : List ℕ) → lookup bytes_cmp lists.new.entries t ≡ cond (is_eq (bytes_cmp term.now t)) (if_filled postings) (lookup bytes_cmp lists.old.entries t)) }
{
    let count = postings.map().size();
    if count > 0 {
        let key = term.share(alloc)?;
        return lists.put_mut(alloc, key, postings, steps);
    }
    lists.del_mut(alloc, term, steps)
}

// Takes a document out of the postings of a term, if they have it.
fn take_out<C: Ledger>(
    alloc: Global,
    lists: &mut Lists,
    term: &Term,
    postings: &Postings,
    doc: u64,
    steps: &mut Steps<C>,
) -> Result<(), NoMemory>
    ensures { OnOk result ((t : List ℕ) → lookup bytes_cmp lists.new.entries t ≡ cond (is_eq (bytes_cmp term.now t)) (taken doc (Some postings.now) (lookup bytes_cmp lists.old.entries t)) (lookup bytes_cmp lists.old.entries t)) }
{
    let has_doc = postings.has(alloc, doc, steps)?;
    if !has_doc {
        return Ok(());
    }
    let rest = postings.del(alloc, doc, steps)?;
    set_postings(alloc, lists, term, rest, steps)
}

// Takes a document out of the postings of each of some terms.
fn take_out_each<C: Ledger>(
    alloc: Global,
    lists: &mut Lists,
    entries: &[(Term, Postings)],
    doc: u64,
    steps: &mut Steps<C>,
) -> Result<(), NoMemory>
    requires { IsIncreasing bytes_cmp entries.now }
    ensures { OnOk result ((t : List ℕ) → lookup bytes_cmp lists.new.entries t ≡ taken doc (lookup bytes_cmp entries.now t) (lookup bytes_cmp lists.old.entries t)) }
{
    for (term, postings) in entries {
        take_out(alloc, lists, term, postings, doc, steps)?;
    }
    Ok(())
}

// Postings by term without a document.
fn lists_without<C: Ledger>(
    alloc: Global,
    lists: &Lists,
    doc: u64,
    blank: Blank,
) -> Result<Lists, NoMemory>
    requires { IsFresh C.name C.parts blank }
    ensures rises { IfOk result (λ after. IsIncreasing bytes_cmp after.entries) }
    ensures lists { IfOk result (λ after. (t : List ℕ) → lookup bytes_cmp after.entries t ≡ taken doc (lookup bytes_cmp lists.now.entries t) (lookup bytes_cmp lists.now.entries t)) }
{
    let _number = lists.size(); // for the proof alone: terms rise
    let entries = lists.to_vec(alloc)?;
    let mut after = lists.share(alloc)?;
    let mut steps = Steps::<C>::start(blank);
    take_out_each(alloc, &mut after, &entries, doc, &mut steps)?;
    let _terms = after.size(); // for the proof alone: terms rise
    Ok(after)
}

// The known documents without one.
fn known_without<C: Ledger>(
    alloc: Global,
    known: &Weights,
    doc: u64,
    blank: Blank,
) -> Result<Weights, NoMemory>
    requires { IsFresh C.name C.parts blank }
    ensures { IfOk result (λ after. after.entries ≡ drop_key nat_cmp known.now.entries doc) }
{
    let mut steps = Steps::<C>::start(blank);
    known.del(alloc, &doc, &mut steps)
}

impl Index {
    /// The index without a document, which it need not have. A term that no other document has goes with it. The index keeps no list
    /// of a document's terms, so that all terms are gone over: O(t * log n) for t terms and n documents, and O(log n) where the
    /// document is not there. All that other documents alone have is shared.
    pub fn remove_doc(&self, alloc: Global, doc: u64) -> Result<Index, NoMemory>
        ensures { IfOk result (λ index. index ≡ without_doc self.now doc) }
    {
        let is_there = self.has_doc(alloc, doc);
        if !is_there {
            return self.share(alloc);
        }
        let known = known_without::<Brand>(alloc, &self.known, doc, Blank::new(1))?;
        let lists = lists_without::<Brand>(alloc, &self.lists, doc, Blank::new(1))?;
        Ok(Index { known, lists })
    }

    /// Adds a document with the terms of a text, in place of the document of that number if it is there: what `add_doc` answers
    /// after `remove_doc`, so never `Known`. The index itself stays as it is. O(log d) more than `add_doc` for an index of d
    /// documents where the document is new, and as much as `remove_doc` more where it is known.
    pub fn replace_doc<R: Threads + Sync, G: Gate>(
        &self,
        rt: &R,
        alloc: Global,
        gate: &G,
        cut: Cut,
        doc: u64,
        text: &[u8],
    ) -> Result<Added, NoMemory>
        ensures added { IfOk result (λ added. IsAdded (without_doc self.now doc) doc text.now added) }
        ensures new { IfOk result (λ added. IsNew added) }
    {
        let rest = self.remove_doc(alloc, doc)?;
        rest.add_doc(rt, alloc, gate, cut, doc, text)
    }

    /// `replace_doc` on one thread. O(log d) more than `add_doc_alone` for an index of d documents where the document is new, and
    /// O(t * log d) more where it is known, for an index of t terms.
    pub fn replace_doc_alone(&self, alloc: Global, doc: u64, text: &[u8]) -> Result<Added, NoMemory>
        ensures added { IfOk result (λ added. IsAdded (without_doc self.now doc) doc text.now added) }
        ensures new { IfOk result (λ added. IsNew added) }
    {
        let rest = self.remove_doc(alloc, doc)?;
        rest.add_doc_alone(alloc, doc, text)
    }

    /// `replace_doc_alone` with the weights of a rule, as `Index::add_docs_by` has it.
    pub fn replace_doc_by_alone<W: Weigh>(
        &self,
        alloc: Global,
        doc: u64,
        text: &[u8],
        weigh: &W,
    ) -> Result<Added, NoMemory>
        ensures added { IfOk result (λ added. IsAddedBy (weighed_by (W.weight weigh.now)) (without_doc self.now doc) doc text.now added) }
        ensures new { IfOk result (λ added. IsNew added) }
    {
        let rest = self.remove_doc(alloc, doc)?;
        rest.add_doc_by_alone(alloc, doc, text, weigh)
    }
}
