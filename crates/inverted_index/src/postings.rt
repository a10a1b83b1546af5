//! Postings: documents with weights.
ghost use Rattle.std.specs.Prelude.{◌≡◌, [], IfOk, is_some};
ghost use Rattle.std.specs.Ordering.{nat_cmp};
ghost use Rattle.map_model.specs.Entries.{drop_key, lookup};
ghost use Rattle.map_model.specs.Operations.{build};
ghost use Rattle.inverted_index.specs.Merging.{merged};

use aug_map::PlainMap;
use aug_monoid::{First, NoMemory, Resolve, Share, Steps, SumMax};
use std::alloc::Global;
use std::marker::Model;
use std::sync::ledger::Ledger;

/// Weights by document, with the greatest of them.
pub type Weights = PlainMap<SumMax<u64>>;

/// The documents that have a term, with its weights, seen as their list by rising number.
pub struct Postings {
    weights: Weights,
}

impl Model for Postings {
    ghost use Rattle.std.specs.Prelude.{List, ℕ};

    ghost Value = { List (ℕ × ℕ) };

    ghost view = { λ p. p.weights.entries };
}

impl Drop for Postings {
    fn drop(self) {
        let Postings { weights } = self;
        drop(weights);
    }
}

impl Postings {
    pub(crate) fn empty() -> Postings
        ensures { result ≡ [] }
    {
        Postings {
            weights: Weights::empty(),
        }
    }

    /// Postings of documents with weights, a later weight of a document in place of an earlier one.
    pub(crate) fn build(alloc: Global, pairs: &[(u64, u64)]) -> Result<Postings, NoMemory>
        ensures { IfOk result (λ postings. postings ≡ build nat_cmp pairs.now) }
    {
        let weights = Weights::build_alone(alloc, pairs)?;
        Ok(Postings { weights })
    }

    /// Whether they have a document.
    pub(crate) fn has<C: Ledger>(
        &self,
        alloc: Global,
        doc: u64,
        steps: &mut Steps<C>,
    ) -> Result<bool, NoMemory>
        ensures { IfOk result (λ found. found ≡ is_some (lookup nat_cmp self.now doc)) }
    {
        let weight = self.weights.get(alloc, &doc, steps)?;
        Ok(weight.is_some())
    }

    /// The postings without a document, which they need not have.
    pub(crate) fn del<C: Ledger>(
        &self,
        alloc: Global,
        doc: u64,
        steps: &mut Steps<C>,
    ) -> Result<Postings, NoMemory>
        ensures { IfOk result (λ postings. postings ≡ drop_key nat_cmp self.now doc) }
    {
        let weights = self.weights.del(alloc, &doc, steps)?;
        Ok(Postings { weights })
    }

    /// Lends the map from documents to weights. O(1).
    pub fn map(&self) -> &Weights
        ensures { result.now.entries ≡ self.now }
    {
        &self.weights
    }

    /// The map from documents to weights.
    pub(crate) fn into_map(self) -> Weights
        ensures { result.entries ≡ self }
    {
        let Postings { weights } = self;
        weights
    }
}

impl Share for Postings {
    ghost never_refuses = { ⊥ };

    /// The same postings, in O(1) and in the memory of these.
    fn share(&self, alloc: Global) -> Result<Postings, NoMemory> {
        let weights = self.weights.share(alloc)?;
        Ok(Postings { weights })
    }
}

/// The documents of either postings; those of both keep the first weight.
#[derive(Drop)]
pub(crate) struct Merge;

impl Resolve<Postings> for Merge {
    ghost resolved = { λ _ a b. merged a b };

    fn resolve(&self, alloc: Global, a: &Postings, b: &Postings) -> Result<Postings, NoMemory> {
        let weights = a.weights.union_alone(alloc, &b.weights, &First)?;
        Ok(Postings { weights })
    }
}
