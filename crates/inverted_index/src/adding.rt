//! Documents that are added.
ghost use Rattle.std.specs.Prelude.{◌≡◌, ℕ, IfOk, List};
ghost use Rattle.map_model.specs.SetOperations.{union};
ghost use Rattle.inverted_index.specs.Added.{IsAdded, IsAddedBy, outcomes_by, outcomes_of, with_docs, with_docs_by};
ghost use Rattle.inverted_index.specs.Batches.{IsGathered, all_knowing, marked};
ghost use Rattle.inverted_index.specs.Merging.{merged};
ghost use Rattle.inverted_index.specs.Terms.{bytes_cmp, weighed_by};
ghost use Rattle.aug_monoid.specs.Fresh.{IsFresh};

use crate::batch::{Gathered, gathered_all, gathered_part};
use crate::doc::{AddedDocs, Doc, Outcome};
use crate::index::{Index, Lists};
use crate::marking::{Marked, mark_new};
use crate::postings::{Merge, Weights};
use crate::weigh::{Times, Weigh};
use aug_monoid::{NoMemory, Share};
use fork_join::{Cut, Gate, On};
use std::alloc::Global;
use std::marker::{Brand, Sync};
use std::sync::ledger::{Blank, Ledger};
use std::thread::Threads;

/// What adding a document answers.
#[derive(Drop)]
pub enum Added {
    /// The document was there already.
    Known,
    /// The index with the document, and how many different terms it has.
    New { index: Index, terms: u64 },
}

// The known documents with those of a batch, and which of these are new.
fn known_after<'a, C: Ledger>(
    alloc: Global,
    known: &Weights,
    docs: &[Doc<'a>],
    blank: Blank,
) -> Result<(Weights, Vec<Marked<'a>>), NoMemory>
    requires { IsFresh C.name C.parts blank }
    ensures after { IfOk result (λ r. r.0.entries ≡ all_knowing known.now.entries docs.now) }
    ensures marks { IfOk result (λ r. r.1.items ≡ marked known.now.entries docs.now) }
{
    let mut after = known.share(alloc)?;
    let marks = mark_new::<C>(alloc, &mut after, docs, blank)?;
    Ok((after, marks))
}

// Lists united with the postings of a batch, and what becomes of its documents.
fn lists_after<R: Threads + Sync, G: Gate, W: Weigh + Sync>(
    on: On<R, G>,
    alloc: Global,
    lists: &Lists,
    docs: &[Marked<'_>],
    weigh: &W,
) -> Result<Gathered, NoMemory>
    ensures lists { IfOk result (λ out. (batch : List (List ℕ × List (ℕ × ℕ))) × IsGathered (weighed_by (W.weight weigh.now)) docs.now batch out.outcomes.items × (out.lists.entries ≡ union bytes_cmp merged lists.now.entries batch)) }
{
    let batch = gathered_all(on, alloc, docs, weigh)?;
    let lists = lists.union(on.rt, alloc, on.gate, on.cut, &batch.lists, &Merge)?;
    Ok(Gathered {
        lists,
        outcomes: batch.outcomes,
    })
}

// `lists_after` on one thread.
fn lists_after_alone<W: Weigh>(
    alloc: Global,
    lists: &Lists,
    docs: &[Marked<'_>],
    weigh: &W,
) -> Result<Gathered, NoMemory>
    ensures lists { IfOk result (λ out. (batch : List (List ℕ × List (ℕ × ℕ))) × IsGathered (weighed_by (W.weight weigh.now)) docs.now batch out.outcomes.items × (out.lists.entries ≡ union bytes_cmp merged lists.now.entries batch)) }
{
    let batch = gathered_part(alloc, docs, weigh)?;
    let lists = lists.union_alone(alloc, &batch.lists, &Merge)?;
    Ok(Gathered {
        lists,
        outcomes: batch.outcomes,
    })
}

impl Index {
    /// Adds documents in order, each as `add_doc` adds one, in one union with the postings of them all. For n terms in all, in
    /// documents that are new, it takes about n * log n work, and as much as the union of the terms with those of the index. Texts
    /// are tallied in parts that fork where the cut allows it.
    pub fn add_docs<R: Threads + Sync, G: Gate>(
        &self,
        rt: &R,
        alloc: Global,
        gate: &G,
        cut: Cut,
        docs: &[Doc<'_>],
    ) -> Result<AddedDocs, NoMemory>
        ensures index { IfOk result (λ added. added.index ≡ with_docs self.now docs.now) }
        ensures outcomes { IfOk result (λ added. added.outcomes.items ≡ outcomes_of self.now docs.now) }
    {
        self.add_docs_by(On { rt, gate, cut }, alloc, docs, &Times)
    }

    /// `add_docs` with the weights of a rule, in place of how often a text has a term. In the time of `add_docs`, and of a rule's
    /// answer for each different term of a new document. A refusal of the rule is handed on.
    pub fn add_docs_by<R: Threads + Sync, G: Gate, W: Weigh + Sync>(
        &self,
        on: On<R, G>,
        alloc: Global,
        docs: &[Doc<'_>],
        weigh: &W,
    ) -> Result<AddedDocs, NoMemory>
        ensures index { IfOk result (λ added. added.index ≡ with_docs_by (weighed_by (W.weight weigh.now)) self.now docs.now) }
        ensures outcomes { IfOk result (λ added. added.outcomes.items ≡ outcomes_by (weighed_by (W.weight weigh.now)) self.now docs.now) }
    {
        let (known, marks) = known_after::<Brand>(alloc, &self.known, docs, Blank::new(1))?;
        let Gathered { lists, outcomes } = lists_after(on, alloc, &self.lists, &marks, weigh)?;
        Ok(AddedDocs {
            index: Index { known, lists },
            outcomes,
        })
    }

    /// `add_docs` on one thread. O(b + n * log n + m * log(t + d)) for new documents of b bytes in all with n terms, of which m
    /// differ, and an index of t terms and d documents.
    pub fn add_docs_alone(&self, alloc: Global, docs: &[Doc<'_>]) -> Result<AddedDocs, NoMemory>
        ensures index { IfOk result (λ added. added.index ≡ with_docs self.now docs.now) }
        ensures outcomes { IfOk result (λ added. added.outcomes.items ≡ outcomes_of self.now docs.now) }
    {
        self.add_docs_by_alone(alloc, docs, &Times)
    }

    /// `add_docs_by` on one thread, in the time of `add_docs_alone` and of the rule's answers.
    pub fn add_docs_by_alone<W: Weigh>(
        &self,
        alloc: Global,
        docs: &[Doc<'_>],
        weigh: &W,
    ) -> Result<AddedDocs, NoMemory>
        ensures index { IfOk result (λ added. added.index ≡ with_docs_by (weighed_by (W.weight weigh.now)) self.now docs.now) }
        ensures outcomes { IfOk result (λ added. added.outcomes.items ≡ outcomes_by (weighed_by (W.weight weigh.now)) self.now docs.now) }
    {
        let (known, marks) = known_after::<Brand>(alloc, &self.known, docs, Blank::new(1))?;
        let Gathered { lists, outcomes } = lists_after_alone(alloc, &self.lists, &marks, weigh)?;
        Ok(AddedDocs {
            index: Index { known, lists },
            outcomes,
        })
    }

    /// Adds a document with the terms of a text, which are its longest runs of ASCII letters and digits, made small; the weight
    /// of a term is how often the text has it. A known document changes nothing. O(log d) for an index of d documents where it is
    /// known, and O(b + n * log n + m * log(t + d)) where it is new, for a text of b bytes with n terms, of which m differ, and an
    /// index of t terms.
    #[tactic(auto, using(crate::proofs::OneMore::known_told, crate::proofs::OneMore::new_told))]
    pub fn add_doc<R: Threads + Sync, G: Gate>(
        &self,
        rt: &R,
        alloc: Global,
        gate: &G,
        cut: Cut,
        doc: u64,
        text: &[u8],
    ) -> Result<Added, NoMemory>
        ensures { IfOk result (λ added. IsAdded self.now doc text.now added) }
    {
        let docs = [Doc { doc, text }];
        let AddedDocs { index, outcomes } = self.add_docs(rt, alloc, gate, cut, &docs)?;
        match outcomes[0] {
            Outcome::Known => Ok(Added::Known),
            Outcome::New { terms } => Ok(Added::New { index, terms }),
        }
    }

    /// `add_doc` on one thread. O(log d) for an index of d documents where the document is known, and
    /// O(b + n * log n + m * log(t + d)) where it is new, for a text of b bytes with n terms, of which m differ, and an index of t
    /// terms.
    #[tactic(auto, using(crate::proofs::OneMore::known_told, crate::proofs::OneMore::new_told))]
    pub fn add_doc_alone(&self, alloc: Global, doc: u64, text: &[u8]) -> Result<Added, NoMemory>
        ensures { IfOk result (λ added. IsAdded self.now doc text.now added) }
    {
        let docs = [Doc { doc, text }];
        let AddedDocs { index, outcomes } = self.add_docs_alone(alloc, &docs)?;
        match outcomes[0] {
            Outcome::Known => Ok(Added::Known),
            Outcome::New { terms } => Ok(Added::New { index, terms }),
        }
    }

    /// `add_doc_alone` with the weights of a rule, as `add_docs_by` has it.
    #[tactic(auto, using(crate::proofs::OneMore::known_told, crate::proofs::OneMore::new_told))]
    pub fn add_doc_by_alone<W: Weigh>(
        &self,
        alloc: Global,
        doc: u64,
        text: &[u8],
        weigh: &W,
    ) -> Result<Added, NoMemory>
        ensures { IfOk result (λ added. IsAddedBy (weighed_by (W.weight weigh.now)) self.now doc text.now added) }
    {
        let docs = [Doc { doc, text }];
        let AddedDocs { index, outcomes } = self.add_docs_by_alone(alloc, &docs, weigh)?;
        match outcomes[0] {
            Outcome::Known => Ok(Added::Known),
            Outcome::New { terms } => Ok(Added::New { index, terms }),
        }
    }
}
