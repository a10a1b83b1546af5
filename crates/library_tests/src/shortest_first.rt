//! That `all_of` intersects the shortest postings first: then no two long ones are intersected, and nothing forks. Where memory
//! is refused, a test ends here.
use fork_join::{Cut, FreeGate, Gate};
use inverted_index::{Doc, Index, Term};
use std::alloc::Global;
use std::marker::Sync;
use std::process::Abort;
use std::sync::atomic::{AtomicU64, Ordering};
use std::thread::Threads;

/// How many documents there are.
const DOCS: u64 = 6000;

/// So many entries fork: those of two long postings, and not those of a long and a short one.
const GRAIN: u64 = 9000;

/// A gate that counts how often it is entered.
#[derive(Drop)]
struct Entered {
    times: AtomicU64,
}

impl Gate for Entered {
    fn enter(&self, _place: u64) {
        self.times.fetch_add(1, Ordering::SeqCst);
    }
}

/// The text of a document: one in a thousand has the word `few`.
fn text_of(doc: u64) -> &'static [u8] {
    if doc.is_multiple_of(1000) {
        b"all every few"
    } else {
        b"all every"
    }
}

fn docs<R: Abort>(rt: &R, alloc: Global) -> Vec<Doc<'static>> {
    let mut list = Vec::new(alloc);
    for doc in 0..DOCS {
        let text = text_of(doc);
        list.push(Doc { doc, text }).expect(rt, "memory");
    }
    list
}

/// The index of all documents.
fn indexed<R: Threads + Abort + Sync>(rt: &R, alloc: Global) -> Index {
    let docs = docs(rt, alloc);
    let added = Index::new().add_docs(rt, alloc, &FreeGate, Cut::new(1, 1), &docs);
    added.expect(rt, "memory").index
}

fn terms<R: Abort>(rt: &R, alloc: Global, words: &[&[u8]]) -> Vec<Term> {
    let mut list = Vec::new(alloc);
    for word in words {
        let term = Term::of(alloc, word).expect(rt, "a term");
        list.push(term).expect(rt, "memory");
    }
    list
}

/// How many documents have all words, and how often the gate is entered to find them.
fn found<R: Threads + Abort + Sync>(
    rt: &R,
    alloc: Global,
    index: &Index,
    words: &[&[u8]],
) -> (usize, u64) {
    let terms = terms(rt, alloc, words);
    let gate = Entered {
        times: AtomicU64::new(0),
    };
    let hits = index.all_of(rt, alloc, &gate, Cut::new(2, GRAIN), &terms);
    let count = hits.expect(rt, "memory").len();
    (count, gate.times.load(Ordering::SeqCst))
}

/// Words, how many documents have all of them, and how often the gate is entered: by both halves of a fork where two long postings
/// are intersected.
const ROWS: &[(&[&[u8]], (usize, u64))] = &[
    (&[b"all", b"every"], (6000, 2)),
    (&[b"all", b"every", b"few"], (6, 0)),
    (&[b"every", b"few", b"all"], (6, 0)),
    (&[b"few", b"all", b"every"], (6, 0)),
];

fn assert_found<R: Threads + Abort + Sync>(rt: &R, alloc: Global, index: &Index) {
    for (words, wanted) in ROWS {
        assert_eq!(rt; found(rt, alloc, index, words), *wanted);
    }
}

#[test]
fn the_shortest_postings_are_met_first(rt: HostRuntime) {
    let index = indexed(&rt, rt.alloc());
    assert_found(&rt, rt.alloc(), &index);
}
