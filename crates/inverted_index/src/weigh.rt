//! What a term weighs in a document.
ghost use Rattle.std.specs.Prelude.{◌≡◌, ℕ, IfOk};

use aug_monoid::NoMemory;
use std::alloc::Global;

/// A rule for what a term weighs in a document, by how often it is there and how many terms the document has in all, each counted as
/// often as it is there. So a rule can be BM25 in fixed point, but for the factor of rare terms, which a question knows. A refusal of
/// it is handed on.
pub trait Weigh: Drop {
    /// The weight of a term that is there so often, among so many.
    ghost weight: { Self → ℕ → ℕ → ℕ };

    /// The weight of a term that is there `times` often, among `terms`.
    fn weigh(&self, alloc: Global, times: u64, terms: u64) -> Result<u64, NoMemory>
        ensures { IfOk result (λ w. w ≡ weight self.now times terms) };
}

/// A term weighs how often it is there.
#[derive(Clone, Copy, Debug)]
pub struct Times;

impl Weigh for Times {
    ghost weight = { λ _ times _. times };

    fn weigh(&self, _alloc: Global, times: u64, _terms: u64) -> Result<u64, NoMemory> {
        Ok(times)
    }
}
