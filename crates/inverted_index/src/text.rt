//! The terms of a text.
ghost use Rattle.std.specs.Prelude.{◌≡◌, IfOk, map, filter, true};
ghost use Rattle.std.specs.Char.{is_ascii_alphanumeric};
ghost use Rattle.std.specs.List.{AllByRecursion, list_all, slice_split};
ghost use Rattle.inverted_index.specs.Terms.{is_filled, separates, small, terms_of};

use crate::term::Term;
use aug_monoid::NoMemory;
use std::alloc::{AllocError, Global};

// The parts between bytes that are no letters and no digits.
fn parts_of(alloc: Global, text: &[u8]) -> Result<Vec<&[u8]>, AllocError>
    ensures value { IfOk result (λ parts. map (λ part. part.now) parts.items ≡ slice_split separates text.now) }
    ensures lawful { IfOk result (λ parts. AllByRecursion (λ part. list_all is_ascii_alphanumeric part.now ≡ true) parts.items) }
{
    text.split(|b| !b.is_ascii_alphanumeric()).collect(alloc)
}

/// The terms of a text, in order.
#[tactic(auto, using(crate::proofs::Texts::filled_term))]
pub(crate) fn terms_of(alloc: Global, text: &[u8]) -> Result<Vec<Term>, NoMemory>
    ensures { IfOk result (λ terms. terms.items ≡ terms_of text.now) }
{
    let parts = parts_of(alloc, text)?;
    let mut terms = Vec::new(alloc);
    for part in &parts {
        if !part.is_empty() {
            terms.push(Term::small(alloc, part)?)?;
        }
    }
    Ok(terms)
}
