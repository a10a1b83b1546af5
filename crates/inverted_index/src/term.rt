//! Terms, which texts are made of.
ghost use Rattle.std.specs.Prelude.{◌≡◌, true, nat_eq, IfOk, MatchResult};
ghost use Rattle.std.specs.Char.{is_ascii_alphanumeric};
ghost use Rattle.std.specs.List.{list_all};
ghost use Rattle.std.proofs.Common.{rules};
ghost use Rattle.std.proofs.lemmas.Map.Lookups.{exact_bytes};
ghost use Rattle.std.specs.Cmp.{partial_order_from_own_ties};
ghost use Rattle.std.specs.Cmp.Lexicographic.{pointwise};
ghost use Rattle.std.specs.Cmp.Rules.{comparing};
ghost use Rattle.std.specs.Ordering.{as_partial_cmp};
ghost use Rattle.std.proofs.lemmas.Cmp.{nat_list_cmp_total};
ghost use Rattle.inverted_index.specs.Faults.{FaultOf};
ghost use Rattle.inverted_index.specs.Terms.{IsTerm, bytes_cmp, is_term, small};

use aug_monoid::{Key, NoMemory, Share, Steps};
use std::alloc::Global;
use std::cmp::Ordering;
use std::marker::Model;
use std::sync::Arc;
use std::sync::ledger::Ledger;
use thiserror::Error;

/// A term, seen as its bytes, which are small ASCII letters and digits, at least one. Its copies share them.
pub struct Term {
    bytes: Arc<Vec<u8>>,
}

/// Why there is no term.
#[derive(Clone, Copy, Debug, PartialEq, Eq, Error)]
pub enum TermFault {
    /// The bytes are none, or one of them is no ASCII letter and no digit.
    #[error("NotTerm")]
    NotTerm,
    /// Memory could not be had.
    #[error("NoMemory")]
    NoMemory,
}

impl Model for Term {
    ghost use Rattle.std.specs.Prelude.{List, ℕ};
    ghost use Rattle.std.specs.Arc.{arc_value};
    ghost use Rattle.inverted_index.specs.Terms.{IsTerm};

    ghost Value = { List ℕ };

    ghost view = { λ t. (arc_value t.bytes).items };

    ghost invariant = { λ t. IsTerm (arc_value t.bytes).items };
}

impl Drop for Term {
    fn drop(self) {
        let Term { bytes } = self;
        drop(bytes);
    }
}

fn are_letters_or_digits(bytes: &[u8]) -> bool
    ensures { result ≡ list_all is_ascii_alphanumeric bytes.now }
{
    bytes.iter().all(|b| b.is_ascii_alphanumeric())
}

/// Whether a term can be made of bytes: at least one, all of them ASCII letters or digits.
#[tactic(auto, using(crate::proofs::Texts::filled_all, crate::proofs::Texts::filled_none))]
pub fn is_term(bytes: &[u8]) -> bool
    ensures { result ≡ is_term bytes.now }
{
    !bytes.is_empty() && are_letters_or_digits(bytes)
}

impl Term {
    /// The term of at least one byte, all of them ASCII letters or digits; capital letters become small. Linear in the bytes.
    pub fn of(alloc: Global, bytes: &[u8]) -> Result<Term, TermFault>
        ensures { MatchResult result (λ term. (is_term bytes.now ≡ true) × (term ≡ small bytes.now)) (λ fault. FaultOf bytes.now fault) }
    {
        if !is_term(bytes) {
            return Err(TermFault::NotTerm);
        }
        match Term::small(alloc, bytes) {
            Ok(term) => Ok(term),
            Err(_) => Err(TermFault::NoMemory),
        }
    }

    /// The term of letters and digits, with capital letters made small.
    pub(crate) fn small(alloc: Global, bytes: &[u8]) -> Result<Term, NoMemory>
        requires { is_term bytes.now ≡ true }
        ensures { IfOk result (λ term. term ≡ small bytes.now) }
    {
        let bytes: Vec<u8> = bytes.iter().map(|b| b.to_ascii_lowercase()).collect(alloc)?;
        Ok(Term {
            bytes: Arc::new(alloc, bytes)?,
        })
    }

    /// Lends the bytes: small letters and digits, at least one. O(1).
    pub fn bytes(&self) -> &[u8]
        ensures value { result.now ≡ self.now }
        ensures lawful { IsTerm self.now }
    {
        self.bytes.as_slice()
    }
}

impl PartialEq for Term {
    ghost eq = { pointwise nat_eq };

    ghost laws = { Prim.search (comparing, rules) };

    fn eq(&self, other: &Term) -> bool {
        self.bytes() == other.bytes()
    }
}

impl Eq for Term {
    ghost laws = { Prim.search (comparing, rules) };
}

impl PartialOrd for Term {
    ghost partial_cmp = { as_partial_cmp bytes_cmp };

    ghost laws = { partial_order_from_own_ties (Prim.search (comparing, rules)) (Prim.search (comparing, rules)) };

    fn partial_cmp(&self, other: &Term) -> Option<Ordering> {
        Some(self.cmp(other))
    }
}

impl Ord for Term {
    ghost cmp = { bytes_cmp };

    ghost total = { nat_list_cmp_total };

    ghost matches_partial_cmp = { Prim.search (comparing, rules) };

    ghost matches_eq = { Prim.search (comparing, rules) };

    fn cmp(&self, other: &Term) -> Ordering {
        self.bytes().cmp(other.bytes())
    }
}

impl Share for Term {
    ghost never_refuses = { ⊥ };

    /// The same term, in O(1) and in the memory of this one.
    fn share(&self, _alloc: Global) -> Result<Term, NoMemory> {
        let bytes = Arc::try_clone(&self.bytes)?;
        Ok(Term { bytes })
    }
}

impl Key for Term {
    ghost exact = { exact_bytes };

    fn order<C: Ledger>(&self, other: &Term, steps: &mut Steps<C>) -> Ordering {
        steps.tick();
        self.cmp(other)
    }
}
