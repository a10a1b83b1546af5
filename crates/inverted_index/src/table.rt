//! Postings that grow, by term.
ghost use Rattle.std.specs.Prelude.{◌≡◌, ◌++◌, ◌∷◌, [], Some, cond, IfOk, List, ℕ, OnOk, map};
ghost use Rattle.std.specs.Option.{option_map};
ghost use Rattle.std.specs.BTreeMap.{IsOrdered, get};
ghost use Rattle.std.specs.Ordering.{is_eq};
ghost use Rattle.map_model.specs.Entries.{IsIncreasing, lookup};
ghost use Rattle.inverted_index.specs.Batches.{first_weights, grown};
ghost use Rattle.inverted_index.specs.Documents.{AreFit};
ghost use Rattle.inverted_index.specs.Terms.{bytes_cmp, reweighed};

use crate::index::Lists;
use crate::postings::Postings;
use crate::term::Term;
use crate::weigh::Weigh;
use aug_monoid::{NoMemory, Share};
use std::alloc::Global;
use std::collections::BTreeMap;
use std::marker::Model;

/// Documents with their weights of one term, in the order in which they came.
pub(crate) struct Pairs {
    list: Vec<(u64, u64)>,
}

impl Model for Pairs {
    ghost use Rattle.std.specs.Prelude.{List, ℕ};

    ghost Value = { List (ℕ × ℕ) };

    ghost view = { λ p. p.list.items };
}

impl Drop for Pairs {
    fn drop(self) {
        let Pairs { list } = self;
        drop(list);
    }
}

impl Pairs {
    // None.
    fn new(alloc: Global) -> Pairs
        ensures { result ≡ [] }
    {
        Pairs {
            list: Vec::new(alloc),
        }
    }

    // One more.
    fn push(&mut self, doc: u64, weight: u64) -> Result<(), NoMemory>
        ensures { OnOk result (self.new ≡ self.old ++ (doc, weight) ∷ []) }
    {
        self.list.push((doc, weight))?;
        Ok(())
    }

    // Postings of them. Of a document that is there twice the first weight counts.
    fn postings(self, alloc: Global) -> Result<Postings, NoMemory>
        ensures { IfOk result (λ postings. postings ≡ first_weights self) }
    {
        let Pairs { mut list } = self;
        list.reverse();
        Postings::build(alloc, &list)
    }
}

/// Pairs by term.
pub(crate) type Table = BTreeMap<Term, Pairs>;

// Puts pairs of a term that has none.
fn put_first(alloc: Global, table: &mut Table, term: &Term, pairs: Pairs) -> Result<(), NoMemory>
    ensures { OnOk result ((t : List ℕ) → get bytes_cmp table.new t ≡ cond (is_eq (bytes_cmp term.now t)) (Some pairs) (get bytes_cmp table.old t)) }
{
    let term = term.share(alloc)?;
    match table.insert(term, pairs) {
        Ok(_) => Ok(()),
        Err(_) => Err(NoMemory),
    }
}

// One more document of a term.
fn push_pair(
    alloc: Global,
    table: &mut Table,
    term: &Term,
    doc: u64,
    weight: u64,
) -> Result<(), NoMemory>
    ensures { OnOk result ((t : List ℕ) → get bytes_cmp table.new t ≡ cond (is_eq (bytes_cmp term.now t)) (grown doc (get bytes_cmp table.old t) (Some weight)) (get bytes_cmp table.old t)) }
{
    if let Some(pairs) = table.get_mut(term) {
        pairs.push(doc, weight)?;
        return Ok(());
    }
    let mut pairs = Pairs::new(alloc);
    pairs.push(doc, weight)?;
    put_first(alloc, table, term, pairs)?;
    Ok(())
}

/// One more document with its terms, each with how often it is there among `terms`, by what a rule weighs them.
pub(crate) fn push_doc<W: Weigh>(
    alloc: Global,
    table: &mut Table,
    doc: u64,
    counts: &[(Term, u64)],
    terms: u64,
    weigh: &W,
) -> Result<(), NoMemory>
    requires { IsIncreasing bytes_cmp counts.now }
    ensures after { OnOk result ((t : List ℕ) → get bytes_cmp table.new t ≡ grown doc (get bytes_cmp table.old t) (lookup bytes_cmp (reweighed (λ times. W.weight weigh.now times terms) counts.now) t)) }
    ensures fit { OnOk result (AreFit (reweighed (λ times. W.weight weigh.now times terms) counts.now)) }
{
    for (term, times) in counts {
        let weight = weigh.weigh(alloc, *times, terms)?;
        push_pair(alloc, table, term, doc, weight)?;
    }
    Ok(())
}

// The terms with their postings, in order.
fn rows_of(alloc: Global, table: Table) -> Result<Vec<(Term, Postings)>, NoMemory>
    ensures { IfOk result (λ rows. rows.items ≡ map (λ e. (e.0, first_weights e.1)) table.entries) }
{
    let mut rows = Vec::with_capacity(alloc, table.len())?;
    for (term, pairs) in table {
        rows.push((term, pairs.postings(alloc)?))?;
    }
    Ok(rows)
}

/// The map from terms to postings that a table makes.
#[tactic(auto, using(crate::proofs::Batches::rows_rise, crate::proofs::Batches::rows_built, crate::proofs::Batches::rows_found))]
pub(crate) fn lists_of(alloc: Global, table: Table) -> Result<Lists, NoMemory>
    ensures rises { IfOk result (λ lists. IsIncreasing bytes_cmp lists.entries) }
    ensures lists { IfOk result (λ lists. (t : List ℕ) → lookup bytes_cmp lists.entries t ≡ option_map first_weights (get bytes_cmp table t)) }
{
    let _terms = table.len(); // for the proof alone: terms rise
    let rows = rows_of(alloc, table)?;
    Lists::build_alone(alloc, &rows)
}
