//! Questions that are put together, of the texts of `documents`. What is expected was counted by hand. Where memory is refused, a
//! test ends here.

use crate::documents::{assert_hits, indexed, term};
use aug_monoid::Share;
use inverted_index::{Index, Matches};
use std::alloc::Global;
use std::process::Abort;

/// The documents that have a word.
fn having<R: Abort>(rt: &R, alloc: Global, index: &Index, word: &[u8]) -> Matches {
    let found = index.matching(alloc, &term(rt, alloc, word));
    found.expect(rt, "memory")
}

/// Asserts what documents match, and their weights.
fn assert_matches<R: Abort>(rt: &R, alloc: Global, found: &Matches, wanted: &[(u64, u64)]) {
    assert_eq!(rt; found.size(), wanted.len() as u64);
    assert_hits(rt, found.hits(alloc), wanted);
}

#[test]
fn the_documents_of_a_term(rt: HostRuntime) {
    let alloc = rt.alloc();
    let index = indexed(&rt, alloc);
    assert_matches(
        &rt,
        alloc,
        &having(&rt, alloc, &index, b"TO"),
        &[(1, 1), (9, 2)],
    );
    assert_matches(&rt, alloc, &having(&rt, alloc, &index, b"absent"), &[]);
}

/// Both of `to` and `not`, either of them, and one alone.
fn assert_of_two<R: Abort>(rt: &R, alloc: Global, index: &Index) {
    let to = having(rt, alloc, index, b"to");
    let not = having(rt, alloc, index, b"not");
    let both = to.and(alloc, &not).expect(rt, "memory");
    assert_matches(rt, alloc, &both, &[(9, 3)]);
    let either = to.or(alloc, &not).expect(rt, "memory");
    assert_matches(rt, alloc, &either, &[(1, 1), (4, 1), (9, 3)]);
    let alone = not.without(alloc, &to).expect(rt, "memory");
    assert_matches(rt, alloc, &alone, &[(4, 1)]);
}

#[test]
fn questions_of_two_terms(rt: HostRuntime) {
    let index = indexed(&rt, rt.alloc());
    assert_of_two(&rt, rt.alloc(), &index);
}

/// `to` or `not`, and not `yet`.
fn nested<R: Abort>(rt: &R, alloc: Global, index: &Index) -> Matches {
    let to = having(rt, alloc, index, b"to");
    let either = to.or(alloc, &having(rt, alloc, index, b"not"));
    let either = either.expect(rt, "memory");
    let yet = having(rt, alloc, index, b"yet");
    either.without(alloc, &yet).expect(rt, "memory")
}

#[test]
fn a_question_of_a_question(rt: HostRuntime) {
    let alloc = rt.alloc();
    let found = nested(&rt, alloc, &indexed(&rt, alloc));
    assert_matches(&rt, alloc, &found, &[(1, 1), (9, 3)]);
    let share = found.share(alloc).expect(&rt, "memory");
    assert_matches(&rt, alloc, &share, &[(1, 1), (9, 3)]);
}

#[test]
fn the_first_documents_that_match(rt: HostRuntime) {
    let alloc = rt.alloc();
    let found = nested(&rt, alloc, &indexed(&rt, alloc));
    assert_hits(&rt, found.top(alloc, 1), &[(9, 3)]);
    assert_hits(&rt, found.top(alloc, 7), &[(9, 3), (1, 1)]);
    assert_hits(&rt, found.top(alloc, 0), &[]);
}
