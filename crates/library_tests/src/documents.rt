//! An index of a few texts. What is expected was counted by hand. Where memory is refused, a test ends here.
ghost use Rattle.aug_monoid.specs.Fresh.{IsFresh};

use aug_monoid::{NoMemory, Share, Steps};
use fork_join::{Cut, FreeGate};
use inverted_index::{Added, Hit, Index, Term, TermFault};
use std::alloc::Global;
use std::marker::{Brand, Sync};
use std::process::Abort;
use std::sync::ledger::{Blank, Ledger};
use std::thread::Threads;

/// Documents in the order in which they are added.
const TEXTS: [(u64, &[u8]); 4] = [
    (9, b"to be, or not to be"),
    (4, b"Not yet"),
    (1, b"R2d2 TO"),
    (6, b" ,;-"),
];

/// What is told of a document that is added.
fn added<R: Threads + Abort + Sync>(
    rt: &R,
    alloc: Global,
    index: &Index,
    doc: u64,
    text: &[u8],
) -> Added {
    let added = index.add_doc(rt, alloc, &FreeGate, Cut::new(2, 1), doc, text);
    added.expect(rt, "memory")
}

/// The index with a document more.
fn with_text<R: Threads + Abort + Sync>(
    rt: &R,
    alloc: Global,
    index: Index,
    doc: u64,
    text: &[u8],
) -> Index {
    match added(rt, alloc, &index, doc, text) {
        Added::Known => index,
        Added::New { index, terms: _ } => index,
    }
}

/// How many different terms a document more has, none where it is known.
fn count_of<R: Threads + Abort + Sync>(
    rt: &R,
    alloc: Global,
    index: &Index,
    doc: u64,
    text: &[u8],
) -> Option<u64> {
    match added(rt, alloc, index, doc, text) {
        Added::Known => None,
        Added::New { index: _, terms } => Some(terms),
    }
}

/// The index of the texts.
pub(crate) fn indexed<R: Threads + Abort + Sync>(rt: &R, alloc: Global) -> Index {
    let mut index = Index::new();
    for (doc, text) in TEXTS {
        index = with_text(rt, alloc, index, doc, text);
    }
    index
}

/// The term that bytes are.
pub(crate) fn term<R: Abort>(rt: &R, alloc: Global, bytes: &[u8]) -> Term {
    Term::of(alloc, bytes).expect(rt, "a term")
}

fn terms<R: Abort>(rt: &R, alloc: Global, words: &[&[u8]]) -> Vec<Term> {
    let mut list = Vec::new(alloc);
    for word in words {
        list.push(term(rt, alloc, word)).expect(rt, "memory");
    }
    list
}

/// Whether bytes are no term for want of letters and digits alone.
fn is_no_term(alloc: Global, bytes: &[u8]) -> bool {
    matches!(Term::of(alloc, bytes), Err(TermFault::NotTerm))
}

/// Asserts what the bytes of a term are.
fn assert_small<R: Abort>(rt: &R, alloc: Global, bytes: &[u8], small: &[u8]) {
    assert_eq!(rt; term(rt, alloc, bytes).bytes(), small);
}

/// Whether a share of a term is another term.
fn are_same<R: Abort>(rt: &R, alloc: Global, bytes: &[u8], others: &[u8]) -> bool {
    let share = term(rt, alloc, bytes).share(alloc).expect(rt, "memory");
    share == term(rt, alloc, others)
}

/// Asserts what documents were found, and their weights.
pub(crate) fn assert_hits<R: Abort>(
    rt: &R,
    hits: Result<Vec<Hit>, NoMemory>,
    wanted: &[(u64, u64)],
) {
    let hits = hits.expect(rt, "memory");
    assert_eq!(rt; hits.len(), wanted.len());
    for (hit, pair) in hits.iter().zip(wanted) {
        assert_eq!(rt; (hit.doc, hit.weight), *pair);
    }
}

#[test]
fn a_term_is_letters_and_digits(rt: HostRuntime) {
    let alloc = rt.alloc();
    assert!(rt; is_no_term(alloc, b""));
    assert!(rt; is_no_term(alloc, b"to be"));
    assert!(rt; is_no_term(alloc, b"caf\xC3\xA9"));
    assert_small(&rt, alloc, b"R2D2", b"r2d2");
    assert!(rt; are_same(&rt, alloc, b"Not", b"nOT"));
    assert!(rt; !are_same(&rt, alloc, b"not", b"note"));
}

/// Documents, and how many terms each has, where it is new.
const COUNTS: &[(u64, &[u8], Option<u64>)] = &[
    (9, b"again", None),
    (6, b"again", None),
    (0, b"a-b a,A.0", Some(3)),
    (u64::MAX, b"", Some(0)),
];

fn assert_counts<R: Threads + Abort + Sync>(rt: &R, alloc: Global, index: &Index) {
    for (doc, text, count) in COUNTS {
        assert_eq!(rt; count_of(rt, alloc, index, *doc, text), *count);
    }
}

#[test]
fn a_document_is_added_once(rt: HostRuntime) {
    let index = indexed(&rt, rt.alloc());
    assert_counts(&rt, rt.alloc(), &index);
}

/// The index with a document of a text, on one thread, and how many terms it has; none where it is known.
fn with_alone<R: Abort>(
    rt: &R,
    alloc: Global,
    index: &Index,
    doc: u64,
    text: &[u8],
) -> Option<(Index, u64)> {
    match index.add_doc_alone(alloc, doc, text).expect(rt, "memory") {
        Added::Known => None,
        Added::New { index, terms } => Some((index, terms)),
    }
}

#[test]
fn a_document_is_added_once_on_one_thread(rt: HostRuntime) {
    let alloc = rt.alloc();
    let index = Index::new();
    let (index, terms) = with_alone(&rt, alloc, &index, 9, b"to be, or not to be").expect(
        &rt, "new",
    );
    assert_eq!(rt; (index.size(), terms), (1, 4));
    assert!(rt; with_alone(&rt, alloc, &index, 9, b"again").is_none());
    let (index, terms) = with_alone(&rt, alloc, &index, 4, b"Not yet").expect(&rt, "new");
    assert_eq!(rt; (index.size(), terms), (2, 2));
    assert_hits(
        &rt,
        index.top(alloc, 9, &term(&rt, alloc, b"not")),
        &[(4, 1), (9, 1)],
    );
}

/// Asserts what the postings of the term at a place in the order of bytes are.
fn assert_postings<R: Abort>(
    rt: &R,
    alloc: Global,
    index: &Index,
    place: u64,
    wanted: &[(u64, u64)],
) {
    let found = index.map().select(alloc, place).expect(rt, "memory");
    let (_, postings) = found.expect(rt, "a term");
    let list = postings.map().to_vec(alloc).expect(rt, "memory");
    assert_eq!(rt; list.as_slice(), wanted);
}

#[test]
fn a_share_has_the_terms_and_their_postings(rt: HostRuntime) {
    let index = indexed(&rt, rt.alloc());
    let share = index.share(rt.alloc()).expect(&rt, "memory");
    assert_eq!(rt; share.map().size(), 6);
    assert_postings(&rt, rt.alloc(), &share, 1, &[(4, 1), (9, 1)]);
}

/// Terms, and the documents that have all of them, with their weights.
const ALL_OF: &[(&[&[u8]], &[(u64, u64)])] = &[
    (&[], &[(1, 0), (4, 0), (6, 0), (9, 0)]),
    (&[b"TO", b"to"], &[(1, 2), (9, 4)]),
    (&[b"not", b"to"], &[(9, 3)]),
    (&[b"to", b"absent"], &[]),
];

fn assert_all_of<R: Threads + Abort + Sync>(rt: &R, alloc: Global, index: &Index) {
    for (words, wanted) in ALL_OF {
        let terms = terms(rt, alloc, words);
        let hits = index.all_of(rt, alloc, &FreeGate, Cut::new(2, 1), &terms);
        assert_hits(rt, hits, wanted);
        assert_hits(rt, index.all_of_alone(alloc, &terms), wanted);
    }
}

#[test]
fn documents_that_have_all_terms(rt: HostRuntime) {
    let index = indexed(&rt, rt.alloc());
    assert_all_of(&rt, rt.alloc(), &index);
}

/// Terms, and the documents that have one of them, with their weights.
const ANY_OF: &[(&[&[u8]], &[(u64, u64)])] = &[
    (&[], &[]),
    (&[b"be", b"be"], &[(9, 4)]),
    (
        &[b"r2d2", b"yet", b"absent", b"to"],
        &[(1, 2), (4, 1), (9, 2)],
    ),
];

fn assert_any_of<R: Threads + Abort + Sync>(rt: &R, alloc: Global, index: &Index) {
    for (words, wanted) in ANY_OF {
        let terms = terms(rt, alloc, words);
        let hits = index.any_of(rt, alloc, &FreeGate, Cut::new(2, 1), &terms);
        assert_hits(rt, hits, wanted);
        assert_hits(rt, index.any_of_alone(alloc, &terms), wanted);
    }
}

#[test]
fn documents_that_have_one_of_the_terms(rt: HostRuntime) {
    let index = indexed(&rt, rt.alloc());
    assert_any_of(&rt, rt.alloc(), &index);
}

/// Two terms, and the documents that have the first and not the second, with their weights.
const WITHOUT: &[(&[u8], &[u8], &[(u64, u64)])] = &[
    (b"Not", b"Yet", &[(9, 1)]),
    (b"not", b"absent", &[(4, 1), (9, 1)]),
    (b"not", b"not", &[]),
];

fn assert_without<R: Threads + Abort + Sync>(rt: &R, alloc: Global, index: &Index) {
    for (has, not, wanted) in WITHOUT {
        let has = term(rt, alloc, has);
        let not = term(rt, alloc, not);
        let hits = index.without(rt, alloc, &FreeGate, Cut::new(2, 1), &has, &not);
        assert_hits(rt, hits, wanted);
        assert_hits(rt, index.without_alone(alloc, &has, &not), wanted);
    }
}

#[test]
fn documents_that_have_one_term_and_not_another(rt: HostRuntime) {
    let index = indexed(&rt, rt.alloc());
    assert_without(&rt, rt.alloc(), &index);
}

/// A term, and so many of its documents by falling weight.
const TOP: &[(u64, &[u8], &[(u64, u64)])] = &[
    (0, b"to", &[]),
    (1, b"to", &[(9, 2)]),
    (9, b"to", &[(9, 2), (1, 1)]),
    (2, b"not", &[(4, 1), (9, 1)]),
    (9, b"absent", &[]),
];

fn assert_top<R: Abort>(rt: &R, alloc: Global, index: &Index) {
    for (k, word, wanted) in TOP {
        let word = term(rt, alloc, word);
        assert_hits(rt, index.top(alloc, *k, &word), wanted);
    }
}

#[test]
fn documents_by_falling_weight(rt: HostRuntime) {
    let index = indexed(&rt, rt.alloc());
    assert_top(&rt, rt.alloc(), &index);
}

/// A text of which the n-th document has `n % 7 + 1` words.
const OWLS: &[u8] = b"owl owl owl owl owl owl owl";

/// So many documents that the heaviest are searched one by one, and not all sorted.
fn many_documents<R: Threads + Abort + Sync>(rt: &R, alloc: Global) -> Index {
    let mut index = Index::new();
    for doc in 0..200 {
        let words = (doc % 7 * 4 + 3) as usize;
        index = with_text(rt, alloc, index, doc, &OWLS[..words]);
    }
    index
}

/// Of more than 100 documents the first two, and of few all.
fn assert_top_counted<R: Abort, C: Ledger>(rt: &R, alloc: Global, index: &Index, blank: Blank)
    requires { IsFresh C.name C.parts blank }
{
    let mut steps = Steps::<C>::start(blank);
    let owl = term(rt, alloc, b"owl");
    assert_hits(
        rt,
        index.top_counted(alloc, 2, &owl, &mut steps),
        &[(6, 7), (13, 7)],
    );
    assert_hits(rt, index.top_counted(alloc, 0, &owl, &mut steps), &[]);
}

fn assert_top_counts<R: Threads + Abort + Sync>(rt: &R, alloc: Global) {
    assert_top_counted::<R, Brand>(rt, alloc, &many_documents(rt, alloc), Blank::new(1));
}

#[test]
fn the_heaviest_of_many_documents_one_by_one(rt: HostRuntime) {
    assert_top_counts(&rt, rt.alloc());
}

/// The documents that have a term, counted.
const COUNTED: &[(&[u8], u64)] = &[(b"TO", 2), (b"not", 2), (b"be", 1), (b"absent", 0)];

fn assert_counted<R: Abort>(rt: &R, alloc: Global, index: &Index) {
    for (word, count) in COUNTED {
        let found = index.doc_freq(alloc, &term(rt, alloc, word));
        assert_eq!(rt; found.expect(rt, "memory"), *count);
    }
}

#[test]
fn documents_that_have_a_term_are_counted(rt: HostRuntime) {
    let index = indexed(&rt, rt.alloc());
    assert_counted(&rt, rt.alloc(), &index);
}

/// Asserts what the bytes of terms are.
fn assert_words<R: Abort>(rt: &R, found: Result<Vec<Term>, NoMemory>, wanted: &[&[u8]]) {
    let found = found.expect(rt, "memory");
    assert_eq!(rt; found.len(), wanted.len());
    for (term, word) in found.iter().zip(wanted) {
        assert_eq!(rt; term.bytes(), *word);
    }
}

/// All terms of the texts.
const TERMS: &[&[u8]] = &[b"be", b"not", b"or", b"r2d2", b"to", b"yet"];

#[test]
fn terms_by_their_bytes(rt: HostRuntime) {
    let index = indexed(&rt, rt.alloc());
    assert_words(&rt, index.terms(rt.alloc()), TERMS);
    let none = Index::new();
    assert_words(&rt, none.terms(rt.alloc()), &[]);
}

/// Prefixes, and the terms that begin with them.
const FROM: &[(&[u8], &[&[u8]])] = &[
    (
        b"",
        &[b"an", b"and", b"ant", b"anthem", b"any", b"art", b"bee"],
    ),
    (b"an", &[b"an", b"and", b"ant", b"anthem", b"any"]),
    (b"aNT", &[b"ant", b"anthem"]),
    (b"b", &[b"bee"]),
    (b"ants", &[]),
    (b"bees", &[]),
    (b"an,", &[]),
];

fn assert_from<R: Threads + Abort + Sync>(rt: &R, alloc: Global) {
    let index = with_text(rt, alloc, Index::new(), 2, b"any ant and an anthem");
    let index = with_text(rt, alloc, index, 1, b"art: bee and ant");
    for (prefix, wanted) in FROM {
        assert_words(rt, index.terms_from(alloc, prefix), wanted);
    }
}

#[test]
fn terms_that_begin_with_a_prefix(rt: HostRuntime) {
    assert_from(&rt, rt.alloc());
}

/// Documents of one term each, of two letters: aa to hz.
fn of_two_letters<R: Threads + Abort + Sync>(rt: &R, alloc: Global) -> Index {
    let mut index = Index::new();
    for number in 0..208u8 {
        let word = [b'a' + number / 26, b'a' + number % 26];
        index = with_text(rt, alloc, index, u64::from(number), &word);
    }
    index
}

/// The last term that begins with c.
const LAST: &[&[u8]] = &[b"cz"];

#[test]
fn terms_of_many_blocks_that_begin_with_a_prefix(rt: HostRuntime) {
    let index = of_two_letters(&rt, rt.alloc());
    let found = index.terms_from(rt.alloc(), b"c").expect(&rt, "memory");
    assert_eq!(rt; found.len(), 26);
    assert_words(&rt, index.terms_from(rt.alloc(), b"cz"), LAST);
}

/// Numbers, and whether the documents are there.
const THERE: &[(u64, bool)] = &[(6, true), (9, true), (0, false), (u64::MAX, false)];

#[test]
fn a_document_without_terms_is_there_too(rt: HostRuntime) {
    let index = indexed(&rt, rt.alloc());
    for (doc, is_there) in THERE {
        assert_eq!(rt; index.has_doc(rt.alloc(), *doc), *is_there);
    }
}

/// The index without a document.
fn removed<R: Threads + Abort + Sync>(rt: &R, alloc: Global, doc: u64) -> Index {
    let rest = indexed(rt, alloc).remove_doc(alloc, doc);
    rest.expect(rt, "memory")
}

/// A document that is removed, and how many documents and terms are left.
const LEFT: &[(u64, u64, u64)] = &[(9, 3, 4), (4, 3, 5), (6, 3, 6), (5, 4, 6)];

fn assert_left<R: Threads + Abort + Sync>(rt: &R, alloc: Global, row: &(u64, u64, u64)) {
    let rest = removed(rt, alloc, row.0);
    assert_eq!(rt; (rest.size(), rest.map().size()), (row.1, row.2));
}

#[test]
fn a_term_of_one_document_goes_with_it(rt: HostRuntime) {
    for row in LEFT {
        assert_left(&rt, rt.alloc(), row);
    }
}

/// Asserts which documents have a word, with its weights, by falling weight.
fn assert_word<R: Abort>(rt: &R, alloc: Global, index: &Index, word: &[u8], wanted: &[(u64, u64)]) {
    assert_hits(rt, index.top(alloc, 9, &term(rt, alloc, word)), wanted);
}

#[test]
fn a_document_that_is_removed_is_found_no_more(rt: HostRuntime) {
    let rest = removed(&rt, rt.alloc(), 9);
    assert_word(&rt, rt.alloc(), &rest, b"to", &[(1, 1)]);
    assert_word(&rt, rt.alloc(), &rest, b"not", &[(4, 1)]);
    assert_word(&rt, rt.alloc(), &rest, b"be", &[]);
}

#[test]
fn a_document_that_is_removed_and_added_again_has_its_rank(rt: HostRuntime) {
    let rest = removed(&rt, rt.alloc(), 9);
    let again = with_text(&rt, rt.alloc(), rest, 9, b"to be, or not to be");
    assert_top(&rt, rt.alloc(), &again);
}

/// The index with a document in place of another.
fn replaced<R: Threads + Abort + Sync>(
    rt: &R,
    alloc: Global,
    index: &Index,
    doc: u64,
    text: &[u8],
) -> Option<Index> {
    let added = index.replace_doc(rt, alloc, &FreeGate, Cut::new(2, 1), doc, text);
    match added.expect(rt, "memory") {
        Added::Known => None,
        Added::New { index, terms: _ } => Some(index),
    }
}

#[test]
fn a_document_takes_the_place_of_another(rt: HostRuntime) {
    let index = indexed(&rt, rt.alloc());
    let after = replaced(&rt, rt.alloc(), &index, 9, b"Be yet").expect(&rt, "a document");
    assert_word(&rt, rt.alloc(), &after, b"yet", &[(4, 1), (9, 1)]);
    assert_word(&rt, rt.alloc(), &after, b"to", &[(1, 1)]);
    assert_top(&rt, rt.alloc(), &index);
}

/// The index with a document in place of another, on one thread.
fn replaced_alone<R: Abort>(
    rt: &R,
    alloc: Global,
    index: &Index,
    doc: u64,
    text: &[u8],
) -> Option<Index> {
    let added = index.replace_doc_alone(alloc, doc, text);
    match added.expect(rt, "memory") {
        Added::Known => None,
        Added::New { index, terms: _ } => Some(index),
    }
}

#[test]
fn a_document_takes_the_place_of_another_on_one_thread(rt: HostRuntime) {
    let index = indexed(&rt, rt.alloc());
    let after = replaced_alone(&rt, rt.alloc(), &index, 9, b"Be yet").expect(&rt, "a document");
    assert_word(&rt, rt.alloc(), &after, b"yet", &[(4, 1), (9, 1)]);
    assert_word(&rt, rt.alloc(), &after, b"to", &[(1, 1)]);
    assert_top(&rt, rt.alloc(), &index);
}

#[test]
fn a_document_that_takes_no_place_is_added(rt: HostRuntime) {
    let index = indexed(&rt, rt.alloc());
    let after = replaced(&rt, rt.alloc(), &index, 5, b"Yet YET").expect(&rt, "a document");
    assert_word(&rt, rt.alloc(), &after, b"yet", &[(5, 2), (4, 1)]);
}
