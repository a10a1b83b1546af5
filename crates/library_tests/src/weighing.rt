//! Documents whose terms a rule weighs. What is expected was counted by hand. Where memory is refused, a test ends here.
ghost use Rattle.std.specs.Prelude.{◌*◌, ◌/◌, ◌-◌, ◌^◌, max, min};

use crate::documents::{assert_hits, term};
use aug_monoid::NoMemory;
use fork_join::{Cut, FreeGate, On};
use inverted_index::{Added, Doc, Index, Outcome, Weigh};
use std::alloc::Global;
use std::process::Abort;

/// A term weighs how many thousandths of its document it makes.
#[derive(Drop)]
struct Part;

impl Weigh for Part {
    ghost weight = { λ _ times terms. min (times * 1000) (2 ^ 64 - 1) / max terms 1 };

    fn weigh(&self, _alloc: Global, times: u64, terms: u64) -> Result<u64, NoMemory> {
        Ok(times.saturating_mul(1000) / terms.max(1))
    }
}

/// A rule that refuses where a term is there more than once.
#[derive(Drop)]
struct Once;

impl Weigh for Once {
    ghost weight = { λ _ times _. times };

    fn weigh(&self, _alloc: Global, times: u64, _terms: u64) -> Result<u64, NoMemory> {
        if times > 1 {
            return Err(NoMemory);
        }
        Ok(times)
    }
}

const DOCS: [Doc<'static>; 3] = [
    Doc {
        doc: 9,
        text: b"to be, or not to be",
    },
    Doc {
        doc: 4,
        text: b"Not yet",
    },
    Doc {
        doc: 9,
        text: b"to",
    },
];

/// Asserts the weights of a word's documents, by falling weight.
fn assert_weights<R: Abort>(
    rt: &R,
    alloc: Global,
    index: &Index,
    word: &[u8],
    wanted: &[(u64, u64)],
) {
    assert_hits(rt, index.top(alloc, 5, &term(rt, alloc, word)), wanted);
}

#[test]
fn a_rule_weighs_the_terms_of_each_new_document(rt: HostRuntime) {
    let alloc = rt.alloc();
    let added = Index::new().add_docs_by_alone(alloc, &DOCS, &Part);
    let added = added.expect(&rt, "memory");
    assert_weights(&rt, alloc, &added.index, b"not", &[(4, 500), (9, 166)]);
    assert_weights(&rt, alloc, &added.index, b"to", &[(9, 333)]);
    assert!(rt; added.outcomes[2] == Outcome::Known);
}

#[test]
fn a_rule_weighs_them_in_threads(rt: HostRuntime) {
    let alloc = rt.alloc();
    let on = On {
        rt: &rt,
        gate: &FreeGate,
        cut: Cut::new(2, 1),
    };
    let added = Index::new().add_docs_by(on, alloc, &DOCS, &Part);
    let index = added.expect(&rt, "memory").index;
    assert_weights(&rt, alloc, &index, b"not", &[(4, 500), (9, 166)]);
}

#[test]
fn a_rule_weighs_one_document_and_what_takes_its_place(rt: HostRuntime) {
    let alloc = rt.alloc();
    let added = Index::new().add_doc_by_alone(alloc, 1, b"R2d2 TO", &Part);
    let Added::New { index, terms: 2 } = added.expect(&rt, "memory") else {
        return assert!(rt; false);
    };
    assert_weights(&rt, alloc, &index, b"to", &[(1, 500)]);
    let replaced = index.replace_doc_by_alone(alloc, 1, b"to a to", &Part);
    let Added::New { index, terms: 2 } = replaced.expect(&rt, "memory") else {
        return assert!(rt; false);
    };
    assert_weights(&rt, alloc, &index, b"to", &[(1, 666)]);
}

#[test]
fn the_refusal_of_a_rule_is_handed_on(rt: HostRuntime) {
    let alloc = rt.alloc();
    assert!(rt; Index::new().add_docs_by_alone(alloc, &DOCS, &Once).is_err());
    assert!(rt;
        Index::new()
            .add_doc_by_alone(alloc, 4, b"Not yet", &Once)
            .is_ok()
    );
}
