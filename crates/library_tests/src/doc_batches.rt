//! Documents that are added in batches. What is expected was counted by hand.
use aug_monoid::NoMemory;
use fork_join::{Cut, FreeGate, Gate};
use inverted_index::{AddedDocs, Doc, Hit, Index, Outcome, Term};
use meeting::Meeting;
use std::alloc::Global;
use std::marker::Sync;
use std::process::Abort;
use std::test::Fail;
use std::thread::Threads;

/// A batch in which a document is named twice, and one has no terms.
const FIRST: [(u64, &[u8]); 4] = [
    (9, b"to be, or not to be"),
    (6, b" ,;-"),
    (9, b"again"),
    (4, b"Not yet"),
];

/// A batch after it, of which one document is new.
const SECOND: [(u64, &[u8]); 4] = [(6, b"now"), (1, b"R2d2 TO"), (9, b"to"), (1, b"be")];

fn docs<'a>(alloc: Global, rows: &[(u64, &'a [u8])]) -> Result<Vec<Doc<'a>>, NoMemory> {
    let mut list = Vec::new(alloc);
    for (doc, text) in rows {
        list.push(Doc { doc: *doc, text })?;
    }
    Ok(list)
}

/// What a batch after an index comes to.
fn added<R: Threads + Sync, G: Gate>(
    rt: &R,
    alloc: Global,
    gate: &G,
    index: &Index,
    rows: &[(u64, &[u8])],
) -> Result<AddedDocs, NoMemory> {
    let docs = docs(alloc, rows)?;
    index.add_docs(rt, alloc, gate, Cut::new(2, 1), &docs)
}

/// What the second batch comes to, after the first.
fn added_second<R: Threads + Sync>(rt: &R, alloc: Global) -> Result<AddedDocs, NoMemory> {
    let first = added(rt, alloc, &FreeGate, &Index::new(), &FIRST)?;
    added(rt, alloc, &FreeGate, &first.index, &SECOND)
}

fn first_outcomes<R: Threads + Sync>(rt: &R, alloc: Global) -> Result<Vec<Outcome>, NoMemory> {
    let first = added(rt, alloc, &FreeGate, &Index::new(), &FIRST)?;
    Ok(first.outcomes)
}

fn second_outcomes<R: Threads + Sync>(rt: &R, alloc: Global) -> Result<Vec<Outcome>, NoMemory> {
    let second = added_second(rt, alloc)?;
    Ok(second.outcomes)
}

fn new(terms: u64) -> Outcome {
    Outcome::New { terms }
}

fn term(alloc: Global, bytes: &[u8]) -> Result<Term, NoMemory> {
    match Term::of(alloc, bytes) {
        Ok(term) => Ok(term),
        Err(_) => Err(NoMemory),
    }
}

/// The documents of both batches that have a word, with its weights.
fn hits<R: Threads + Sync>(rt: &R, alloc: Global, word: &[u8]) -> Result<Vec<Hit>, NoMemory> {
    let second = added_second(rt, alloc)?;
    let term = term(alloc, word)?;
    second.index.top(alloc, 9, &term)
}

/// Whether the halves of a batch overlap.
fn overlap<R: Threads + Sync>(rt: &R, alloc: Global) -> Result<bool, NoMemory> {
    let gate = Meeting::new();
    let _first = added(rt, alloc, &gate, &Index::new(), &FIRST)?;
    Ok(gate.was_met())
}

fn assert_hits(rt: &impl Abort, hits: &[Hit], wanted: &[(u64, u64)]) {
    assert_eq!(rt; hits.len(), wanted.len());
    for (hit, (doc, weight)) in hits.iter().zip(wanted) {
        assert_eq!(rt; hit.doc, *doc);
        assert_eq!(rt; hit.weight, *weight);
    }
}

#[test]
fn a_document_is_added_once_by_batches(rt: HostRuntime) -> Result<(), Fail> {
    let first = first_outcomes(&rt, rt.alloc())?;
    let wanted = [new(4), new(0), Outcome::Known, new(2)];
    assert_eq!(rt; first.as_slice(), wanted.as_slice());
    let second = second_outcomes(&rt, rt.alloc())?;
    let wanted = [Outcome::Known, new(2), Outcome::Known, Outcome::Known];
    assert_eq!(rt; second.as_slice(), wanted.as_slice());
    Ok(())
}

/// What the second batch comes to, after the first, both on one thread.
fn added_second_alone(alloc: Global) -> Result<AddedDocs, NoMemory> {
    let first = Index::new().add_docs_alone(alloc, &docs(alloc, &FIRST)?)?;
    first.index.add_docs_alone(alloc, &docs(alloc, &SECOND)?)
}

#[test]
fn batches_on_one_thread(rt: HostRuntime) -> Result<(), Fail> {
    let alloc = rt.alloc();
    let second = added_second_alone(alloc)?;
    let wanted = [Outcome::Known, new(2), Outcome::Known, Outcome::Known];
    assert_eq!(rt; second.outcomes.as_slice(), wanted.as_slice());
    let hits = second.index.top(alloc, 9, &term(alloc, b"to")?)?;
    assert_hits(&rt, &hits, &[(9, 2), (1, 1)]);
    Ok(())
}

#[test]
fn the_first_text_of_a_document_counts(rt: HostRuntime) -> Result<(), Fail> {
    let rows: [(&[u8], &[(u64, u64)]); 5] = [
        (b"to", &[(9, 2), (1, 1)]),
        (b"not", &[(4, 1), (9, 1)]),
        (b"be", &[(9, 2)]),
        (b"again", &[]),
        (b"now", &[]),
    ];
    for (word, wanted) in rows {
        let hits = hits(&rt, rt.alloc(), word)?;
        assert_hits(&rt, &hits, wanted);
    }
    Ok(())
}

#[test]
fn texts_of_a_batch_are_tallied_side_by_side(rt: HostRuntime) -> Result<(), Fail> {
    assert!(rt; overlap(&rt, rt.alloc())?);
    Ok(())
}
