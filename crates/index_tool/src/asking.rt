//! What queries answer.
ghost use Rattle.std.specs.Prelude.{◌≡◌, ◌++◌, IfOk, OnOk, codes, length, map};
ghost use Rattle.std.specs.List.{AllByRecursion};
ghost use Rattle.index_tool.specs.Effects.{hit_numbers, named};
ghost use Rattle.inverted_index.specs.Queries.{all_of, any_of, hits_of, top, without};
ghost use Rattle.inverted_index.specs.Terms.{small};
ghost use Rattle.index_tool.specs.Terms.{IsTerm};
ghost use Rattle.script.specs.Lines.{counted, line_of};

use crate::terms::{term_of, terms_of};
use aug_monoid::NoMemory;
use fork_join::{Gate, On};
use inverted_index::{Hit, Index};
use script::{Items, Numbers, counted_line};
use std::alloc::Global;
use std::marker::Sync;
use std::thread::Threads;

// The number and the weight of a document that was found.
struct HitNumbers;

impl Numbers<Hit, 2> for HitNumbers {
    ghost numbers_of = { hit_numbers };

    fn numbers(hit: &Hit) -> [u64; 2] {
        [hit.doc, hit.weight]
    }
}

/// Appends the line that counts and lists documents that were found.
pub(crate) fn docs_line(alloc: Global, text: &mut Vec<u8>, hits: &[Hit]) -> Result<(), NoMemory>
    ensures { OnOk result (text.new.items ≡ text.old.items ++ line_of (codes "docs") (counted hit_numbers hits.now)) }
{
    counted_line::<HitNumbers, _, _>(alloc, text, "docs", hits)
}

pub(crate) fn all_of<R: Threads + Sync, G: Gate>(
    on: On<R, G>,
    alloc: Global,
    index: &Index,
    named: &[Items<u8>],
) -> Result<Vec<Hit>, NoMemory>
    requires { AllByRecursion IsTerm named.now }
    ensures { IfOk result (λ hits. hits.items ≡ hits_of (all_of index.now (map small named.now))) }
{
    let terms = terms_of(alloc, named)?;
    index.all_of(on.rt, alloc, on.gate, on.cut, &terms)
}

pub(crate) fn any_of<R: Threads + Sync, G: Gate>(
    on: On<R, G>,
    alloc: Global,
    index: &Index,
    named: &[Items<u8>],
) -> Result<Vec<Hit>, NoMemory>
    requires { AllByRecursion IsTerm named.now }
    ensures { IfOk result (λ hits. hits.items ≡ hits_of (any_of index.now (map small named.now))) }
{
    let terms = terms_of(alloc, named)?;
    index.any_of(on.rt, alloc, on.gate, on.cut, &terms)
}

pub(crate) fn without<R: Threads + Sync, G: Gate>(
    on: On<R, G>,
    alloc: Global,
    index: &Index,
    terms: &[Items<u8>],
) -> Result<Vec<Hit>, NoMemory>
    requires two { length terms.now ≡ 2 }
    requires lawful { AllByRecursion IsTerm terms.now }
    ensures { IfOk result (λ hits. hits.items ≡ hits_of (without index.now (named terms.now 0) (named terms.now 1))) }
{
    let terms = terms_of(alloc, terms)?;
    index.without(on.rt, alloc, on.gate, on.cut, &terms[0], &terms[1])
}

pub(crate) fn top(alloc: Global, index: &Index, k: u64, named: &[u8]) -> Result<Vec<Hit>, NoMemory>
    requires { IsTerm named.now }
    ensures { IfOk result (λ hits. hits.items ≡ hits_of (top index.now k (small named.now))) }
{
    let term = term_of(alloc, named)?;
    index.top(alloc, k, &term)
}
