//! The terms of an index, in the order of bytes.
ghost use Rattle.std.specs.Prelude.{◌≡◌, IfOk};
ghost use Rattle.std.specs.Map.{keys_of};
ghost use Rattle.map_model.specs.Parts.{rank};
ghost use Rattle.inverted_index.specs.Merging.{terms_with};
ghost use Rattle.inverted_index.specs.Queries.{AreTerms, AreTermsFrom};
ghost use Rattle.inverted_index.specs.Terms.{bytes_cmp, small};
ghost use Rattle.aug_monoid.specs.Fresh.{IsFresh};

use crate::index::{Index, Lists};
use crate::term::{Term, is_term};
use aug_monoid::{NoMemory, Steps};
use std::alloc::Global;
use std::marker::Brand;
use std::sync::ledger::{Blank, Ledger};

// The terms of lists.
fn terms_of_lists(alloc: Global, lists: &Lists) -> Result<Vec<Term>, NoMemory>
    ensures { IfOk result (λ terms. terms.items ≡ keys_of lists.now.entries) }
{
    let mut terms = Vec::new(alloc);
    for entry in lists.cursor(alloc) {
        let (term, _postings) = entry?;
        terms.push(term)?;
    }
    Ok(terms)
}

// How many terms of lists are less than one.
fn terms_below<C: Ledger>(lists: &Lists, term: &Term, blank: Blank) -> u64
    requires { IsFresh C.name C.parts blank }
    ensures { result ≡ rank bytes_cmp lists.now.entries term.now }
{
    let mut steps = Steps::<C>::start(blank);
    lists.rank(term, &mut steps)
}

// The terms of lists that begin with one: they stand together, and no term before them is at least this one.
#[tactic(auto, using(crate::proofs::Prefixes::walk_more, crate::proofs::Prefixes::walk_end))]
fn terms_with(alloc: Global, lists: &Lists, front: &Term) -> Result<Vec<Term>, NoMemory>
    ensures { IfOk result (λ terms. terms.items ≡ terms_with front.now lists.now.entries) }
{
    let from = terms_below::<Brand>(lists, front, Blank::new(1));
    let mut terms = Vec::new(alloc);
    for entry in lists.cursor_between(alloc, from, lists.size()) {
        let (term, _postings) = entry?;
        if !term.bytes().starts_with(front.bytes()) {
            return Ok(terms);
        }
        terms.push(term)?;
    }
    Ok(terms)
}

impl Index {
    /// The terms that documents have, each once, in the order of bytes. O(t) for t terms.
    pub fn terms(&self, alloc: Global) -> Result<Vec<Term>, NoMemory>
        ensures { IfOk result (λ terms. AreTerms self.now terms.items) }
    {
        terms_of_lists(alloc, self.map())
    }

    /// Those of the terms that begin with a prefix, of which capital letters become small; all of them where it is empty. None
    /// where the prefix has a byte that is no letter and no digit. O(log t + k) for k of t terms, and O(log t) more for each block
    /// of at least 64 terms.
    #[tactic(auto, using(crate::proofs::Prefixes::from_nothing))]
    pub fn terms_from(&self, alloc: Global, prefix: &[u8]) -> Result<Vec<Term>, NoMemory>
        ensures { IfOk result (λ terms. AreTermsFrom self.now (small prefix.now) terms.items) }
    {
        if prefix.is_empty() {
            return self.terms(alloc);
        }
        if !is_term(prefix) {
            return Ok(Vec::new(alloc));
        }
        let front = Term::small(alloc, prefix)?;
        terms_with(alloc, self.map(), &front)
    }
}
