//! The index, and what it lends.
ghost use Rattle.std.specs.Prelude.{◌≡◌, ℕ, List, [], IfOk, length};
ghost use Rattle.std.specs.List.{AllByRecursion};
ghost use Rattle.std.specs.Ordering.{nat_cmp};
ghost use Rattle.map_model.specs.Entries.{IsIncreasing, lookup};
ghost use Rattle.inverted_index.specs.Documents.{IsLawful};
ghost use Rattle.inverted_index.specs.Queries.{inverted};
ghost use Rattle.inverted_index.specs.Terms.{bytes_cmp};

use crate::postings::{Postings, Weights};
use crate::term::Term;
use aug_map::PlainMap;
use aug_monoid::{NoMemory, Nothing, Share};
use std::alloc::Global;
use std::marker::Model;

/// Postings by term.
pub type Lists = PlainMap<Nothing<Term, Postings>>;

/// An index, seen as its documents by rising number, each with its terms and their weights in the order of bytes. A document
/// of no terms is known too.
pub struct Index {
    // each with weight 0, so that queries can begin with them
    pub(crate) known: Weights,
    pub(crate) lists: Lists,
}

impl Model for Index {
    ghost use Rattle.std.specs.Prelude.{List, ℕ};
    ghost use Rattle.inverted_index.specs.Documents.{IsIndex, documents_of};

    ghost Value = { List (ℕ × List (List ℕ × ℕ)) };

    ghost view = { λ i. documents_of i.known.entries i.lists.entries };

    ghost invariant = { λ i. IsIndex i.known.entries i.lists.entries };
}

impl Drop for Index {
    fn drop(self) {
        let Index { known, lists } = self;
        drop(known);
        drop(lists);
    }
}

impl Index {
    /// The index of no documents. It takes no memory. O(1).
    pub fn new() -> Index
        ensures { result ≡ [] }
    {
        Index {
            known: Weights::empty(),
            lists: Lists::empty(),
        }
    }

    /// How many documents there are. O(1).
    pub fn size(&self) -> u64
        ensures value { result ≡ length self.now }
        ensures rises { IsIncreasing nat_cmp self.now }
        ensures terms { AllByRecursion IsLawful self.now }
    {
        self.known.size()
    }

    /// Lends the map from the terms that documents have to their postings. O(1).
    #[tactic(auto, using(crate::proofs::Gathering::inverted_lists))]
    pub fn map(&self) -> &Lists
        ensures rises { IsIncreasing bytes_cmp result.now.entries }
        ensures lists { (term : List ℕ) → lookup bytes_cmp result.now.entries term ≡ inverted self.now term }
    {
        &self.lists
    }
}

impl Share for Index {
    ghost never_refuses = { ⊥ };

    /// The same documents, in O(1) and in the memory of these.
    fn share(&self, alloc: Global) -> Result<Index, NoMemory> {
        let known = self.known.share(alloc)?;
        let lists = self.lists.share(alloc)?;
        Ok(Index { known, lists })
    }
}
