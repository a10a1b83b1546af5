//! The postings of a batch of documents, gathered in parts.
ghost use Rattle.std.specs.Prelude.{◌≡◌, ◌+◌, ◌≤◌, ◌++◌, ℕ, IfOk, List, length, OnOk};
ghost use Rattle.map_model.specs.Entries.{lookup};
ghost use Rattle.std.specs.BTreeMap.{get};
ghost use Rattle.fork_join.specs.Openings.{AreHalves};
ghost use Rattle.inverted_index.specs.Batches.{AreParts, IsGathered, IsGatheredOf, Part, grown, outcome_of, weighed};
ghost use Rattle.inverted_index.specs.Documents.{AreFit};
ghost use Rattle.inverted_index.specs.Terms.{bytes_cmp, weighed_by};

use crate::doc::Outcome;
use crate::index::Lists;
use crate::marking::Marked;
use crate::postings::Merge;
use crate::table::{Table, lists_of, push_doc};
use crate::tally::counts_of;
use crate::weigh::Weigh;
use aug_monoid::{NoMemory, Steps};
use fork_join::{Cut, Divide, Gate, On, Opened, divide};
use std::alloc::Global;
use std::collections::BTreeMap;
use std::marker::Sync;
use std::sync::ledger::Ledger;
use std::thread::Threads;

/// The postings of some documents, and what becomes of each.
#[derive(Drop)]
pub(crate) struct Gathered {
    pub(crate) lists: Lists,
    pub(crate) outcomes: Vec<Outcome>,
}

// Documents whose postings are gathered, at most `most` at once, with the weights of a rule.
#[derive(Drop)]
struct Gathering<'w, W: Weigh> {
    most: usize,
    weigh: &'w W,
}

impl<'a, 'w, W: Weigh> Divide<&'a [Marked<'a>], (), Gathered> for Gathering<'w, W> {
    ghost fits = { λ _ _. Unit {0} };

    ghost answers = { λ g. IsGatheredOf (weighed_by (W.weight g.weigh.now)) };

    ghost divides = { λ _. AreParts };

    ghost extent = { λ _ part. length part.now };

    ghost bound = { λ _ _. 0 };

    ghost closing = { λ _ _. 0 };

    fn size(&self, part: &&'a [Marked<'a>]) -> u64 {
        part.len() as u64
    }

    fn open<C: Ledger>(
        &self,
        alloc: Global,
        part: &'a [Marked<'a>],
        _steps: &mut Steps<C>,
    ) -> Result<Opened<&'a [Marked<'a>], (), Gathered>, NoMemory> {
        if part.len() > self.most && part.len() >= 2 {
            let (front, back) = part.split_at(part.len() / 2);
            return Ok(Opened::Split(front, (), back));
        }
        let gathered = gathered_part(alloc, part, self.weigh)?;
        Ok(Opened::Done(gathered))
    }

    fn close<C: Ledger>(
        &self,
        alloc: Global,
        left: Gathered,
        middle: (),
        right: Gathered,
        _steps: &mut Steps<C>,
    ) -> Result<Gathered, NoMemory>
        requires { AreHalves (IsGatheredOf (weighed_by (W.weight self.now.weigh.now))) AreParts left middle right }
        ensures answer { IfOk result (λ out. (part front back : Part) → AreParts part front middle back → IsGatheredOf (weighed_by (W.weight self.now.weigh.now)) front left → IsGatheredOf (weighed_by (W.weight self.now.weigh.now)) back right → IsGatheredOf (weighed_by (W.weight self.now.weigh.now)) part out) }
        ensures cost { IfOk result (λ _. (part front back : Part) → AreParts part front middle back → IsGatheredOf (weighed_by (W.weight self.now.weigh.now)) front left → IsGatheredOf (weighed_by (W.weight self.now.weigh.now)) back right → _steps.new ≤ _steps.old + 0) }
    {
        let lists = left.lists.union_alone(alloc, &right.lists, &Merge)?;
        let mut outcomes = left.outcomes;
        outcomes.extend_from_slice(&right.outcomes)?;
        Ok(Gathered { lists, outcomes })
    }
}

// Puts a document's terms into a table, if it is new.
fn gather<W: Weigh>(
    alloc: Global,
    table: &mut Table,
    doc: &Marked<'_>,
    weigh: &W,
) -> Result<Outcome, NoMemory>
    ensures outcome { IfOk result (λ outcome. outcome ≡ outcome_of (weighed_by (W.weight weigh.now)) doc.now) }
    ensures after { OnOk result ((t : List ℕ) → get bytes_cmp table.new t ≡ grown doc.now.doc (get bytes_cmp table.old t) (lookup bytes_cmp (weighed (weighed_by (W.weight weigh.now)) doc.now).1 t)) }
    ensures fit { IfOk result (λ _. AreFit (weighed (weighed_by (W.weight weigh.now)) doc.now).1) }
{
    if !doc.is_new {
        return Ok(Outcome::Known);
    }
    let (counts, number) = counts_of(alloc, doc.text)?;
    push_doc(alloc, table, doc.doc, &counts, number, weigh)?;
    Ok(Outcome::New {
        terms: counts.len() as u64,
    })
}

/// The postings of those documents that are new, at once, with the weights of a rule.
#[tactic(auto, using(crate::proofs::Batches::table_more))]
pub(crate) fn gathered_part<W: Weigh>(
    alloc: Global,
    docs: &[Marked<'_>],
    weigh: &W,
) -> Result<Gathered, NoMemory>
    ensures { IfOk result (λ out. IsGathered (weighed_by (W.weight weigh.now)) docs.now out.lists.entries out.outcomes.items) }
{
    let mut table = BTreeMap::new(alloc);
    let mut outcomes = Vec::with_capacity(alloc, docs.len())?;
    for doc in docs {
        outcomes.push(gather(alloc, &mut table, doc, weigh)?)?;
    }
    let lists = lists_of(alloc, table)?;
    Ok(Gathered { lists, outcomes })
}

// How many documents at most are done at once, so that each worker has a part.
fn most_at_once(cut: Cut, docs: usize) -> usize {
    if cut.splits(docs as u64) {
        docs.div_ceil(cut.workers as usize)
    } else {
        docs
    }
}

/// The postings of those documents that are new, gathered where the cut allows it by halves, in as many parts as there are workers
/// or up to twice as many.
pub(crate) fn gathered_all<R: Threads + Sync, G: Gate, W: Weigh + Sync>(
    on: On<R, G>,
    alloc: Global,
    docs: &[Marked<'_>],
    weigh: &W,
) -> Result<Gathered, NoMemory>
    ensures { IfOk result (λ out. IsGathered (weighed_by (W.weight weigh.now)) docs.now out.lists.entries out.outcomes.items) }
{
    let most = most_at_once(on.cut, docs.len());
    divide(on, alloc, &Gathering { most, weigh }, docs)
}
