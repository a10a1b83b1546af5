//! Terms as commands name them.
ghost use Rattle.std.specs.Prelude.{◌≡◌, IfOk, map};
ghost use Rattle.std.specs.List.{AllByRecursion};
ghost use Rattle.inverted_index.specs.Terms.{small};
ghost use Rattle.index_tool.specs.Terms.{IsTerm};

use aug_monoid::NoMemory;
use inverted_index::{Term, TermFault};
use script::Items;
use std::alloc::Global;

/// A term, made small.
pub(crate) fn term_of(alloc: Global, bytes: &[u8]) -> Result<Term, NoMemory>
    requires { IsTerm bytes.now }
    ensures { IfOk result (λ term. term ≡ small bytes.now) }
{
    match Term::of(alloc, bytes) {
        Ok(term) => Ok(term),
        Err(TermFault::NotTerm) => unreachable!(),
        Err(TermFault::NoMemory) => Err(NoMemory),
    }
}

/// Terms, made small.
pub(crate) fn terms_of(alloc: Global, named: &[Items<u8>]) -> Result<Vec<Term>, NoMemory>
    requires { AllByRecursion IsTerm named.now }
    ensures { IfOk result (λ terms. terms.items ≡ map small named.now) }
{
    let mut terms = Vec::with_capacity(alloc, named.len())?;
    for bytes in named {
        terms.push(term_of(alloc, bytes.items())?)?;
    }
    Ok(terms)
}
