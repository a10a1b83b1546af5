//! The documents that match a question, and questions that are put together.
ghost use Rattle.std.specs.Prelude.{◌≡◌, ℕ, List, Option, IfOk, length};
ghost use Rattle.std.specs.Ordering.{nat_cmp};
ghost use Rattle.map_model.specs.Entries.{IsIncreasing};
ghost use Rattle.map_model.specs.SetOperations.{difference, intersect, union};
ghost use Rattle.inverted_index.specs.Matching.{both, either, matching, of_term, unless};
ghost use Rattle.inverted_index.specs.Merging.{sat};
ghost use Rattle.inverted_index.specs.Queries.{AreTop, Document, hits_of};
ghost use Rattle.aug_monoid.specs.Fresh.{IsFresh};

use crate::finding::hits_of;
use crate::hit::Hit;
use crate::index::Index;
use crate::postings::Weights;
use crate::queries::find_one;
use crate::ranking::top;
use crate::term::Term;
use aug_monoid::{NoMemory, SatSum, Share, Steps};
use std::alloc::Global;
use std::marker::{Brand, Model};
use std::sync::ledger::{Blank, Ledger};

/// The documents that match a question, with their weights for it, seen as that list by rising number. A question is a term, or two
/// questions by `and`, `or` or `without`; a document's weight for it is the saturating sum of its weights for what it matches.
///
///     let found = index.matching(alloc, &rust)?.and(alloc, &index.matching(alloc, &maps)?)?;
///     let best = found.without(alloc, &index.matching(alloc, &games)?)?.top(alloc, 10)?;
pub struct Matches {
    weights: Weights,
}

impl Model for Matches {
    ghost use Rattle.std.specs.Prelude.{List, ℕ};
    ghost use Rattle.inverted_index.specs.Ranks.{AreLow};

    ghost Value = { List (ℕ × ℕ) };

    ghost view = { λ m. m.weights.entries };

    ghost invariant = { λ m. AreLow m.weights.entries };
}

impl Drop for Matches {
    fn drop(self) {
        let Matches { weights } = self;
        drop(weights);
    }
}

impl Share for Matches {
    ghost never_refuses = { ⊥ };

    /// The same documents, in O(1) and in the memory of these.
    fn share(&self, alloc: Global) -> Result<Matches, NoMemory> {
        let weights = self.weights.share(alloc)?;
        Ok(Matches { weights })
    }
}

impl Index {
    /// The documents that have a term, each with its weight there, in the memory of the index. O(log t) for an index of t terms.
    pub fn matching(&self, alloc: Global, term: &Term) -> Result<Matches, NoMemory>
        ensures { IfOk result (λ found. found ≡ matching (of_term term.now) self.now) }
    {
        let list = find_one::<Brand>(alloc, &self.lists, term, Blank::new(1))?;
        let weights = list.into_map();
        Ok(Matches { weights })
    }
}

impl Matches {
    /// How many documents there are. O(1).
    pub fn size(&self) -> u64
        ensures value { result ≡ length self.now }
        ensures rises { IsIncreasing nat_cmp self.now }
    {
        self.weights.size()
    }

    /// The documents that match both questions, each with the saturating sum of its weights. O(m * log(n / m + 1)) for m and n
    /// documents, m at most n.
    pub fn and(&self, alloc: Global, other: &Matches) -> Result<Matches, NoMemory>
        ensures lists { IfOk result (λ found. found ≡ intersect nat_cmp sat self.now other.now) }
        ensures documents { (ds : List Document) (f g : Document → Option ℕ) → IsIncreasing nat_cmp ds → self.now ≡ matching f ds → other.now ≡ matching g ds → IfOk result (λ found. found ≡ matching (λ d. both (f d) (g d)) ds) }
    {
        let _size = self.weights.size(); // for the proof alone: numbers rise
        let weights = self
            .weights
            .intersect_alone(alloc, &other.weights, &SatSum)?;
        Ok(Matches { weights })
    }

    /// The documents that match either question, each with the saturating sum of its weights, in the time of `and`.
    pub fn or(&self, alloc: Global, other: &Matches) -> Result<Matches, NoMemory>
        ensures lists { IfOk result (λ found. found ≡ union nat_cmp sat self.now other.now) }
        ensures documents { (ds : List Document) (f g : Document → Option ℕ) → IsIncreasing nat_cmp ds → self.now ≡ matching f ds → other.now ≡ matching g ds → IfOk result (λ found. found ≡ matching (λ d. either (f d) (g d)) ds) }
    {
        let _size = self.weights.size(); // for the proof alone: numbers rise
        let _others = other.weights.size(); // for the proof alone: numbers rise
        let weights = self.weights.union_alone(alloc, &other.weights, &SatSum)?;
        Ok(Matches { weights })
    }

    /// The documents that match this question and not the other, with their weights for this one, in the time of `and`.
    pub fn without(&self, alloc: Global, other: &Matches) -> Result<Matches, NoMemory>
        ensures lists { IfOk result (λ found. found ≡ difference nat_cmp self.now other.now) }
        ensures documents { (ds : List Document) (f g : Document → Option ℕ) → IsIncreasing nat_cmp ds → self.now ≡ matching f ds → other.now ≡ matching g ds → IfOk result (λ found. found ≡ matching (λ d. unless (f d) (g d)) ds) }
    {
        let _size = self.weights.size(); // for the proof alone: numbers rise
        let weights = self.weights.difference_alone(alloc, &other.weights)?;
        Ok(Matches { weights })
    }

    /// The documents with their weights, by rising number. O(n) for n of them.
    pub fn hits(&self, alloc: Global) -> Result<Vec<Hit>, NoMemory>
        ensures { IfOk result (λ hits. hits.items ≡ hits_of self.now) }
    {
        hits_of(alloc, &self.weights)
    }

    /// The first `k` documents by falling weight, and by rising number where weights are equal. O(min(k, n) log n) for n documents.
    pub fn top(&self, alloc: Global, k: u64) -> Result<Vec<Hit>, NoMemory>
        ensures { IfOk result (λ hits. AreTop self.now k hits.items) }
    {
        self.top_with_counter::<Brand>(alloc, k, Blank::new(1))
    }

    // The same, with a counter of its own.
    fn top_with_counter<C: Ledger>(
        &self,
        alloc: Global,
        k: u64,
        blank: Blank,
    ) -> Result<Vec<Hit>, NoMemory>
        requires { IsFresh C.name C.parts blank }
        ensures { IfOk result (λ hits. AreTop self.now k hits.items) }
    {
        let _size = self.weights.size(); // for the proof alone: numbers rise
        let mut steps = Steps::<C>::start(blank);
        top(alloc, &self.weights, k, &mut steps)
    }
}
