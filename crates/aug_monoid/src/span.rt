//! Intervals as keys.
ghost use Rattle.std.specs.Prelude.{◌≡◌, IfOk, IsOk};
ghost use Rattle.aug_monoid.specs.Spans.{span, span_exact};

use crate::key::Key;
use crate::no_memory::NoMemory;
use crate::share::Share;
use std::alloc::Global;

/// An interval, by its two ends: ordered by the left one and then by the right one.
#[derive(Drop, Debug, PartialEq, Eq, PartialOrd, Ord)]
pub struct Span<E> {
    /// The end where the interval begins.
    pub left: E,
    /// The end where it ends.
    pub right: E,
}

impl<E: Share> Span<E> {
    /// The interval between two ends, of which it takes shares.
    pub fn between(alloc: Global, left: &E, right: &E) -> Result<Span<E>, NoMemory>
        ensures value { IfOk result (λ between. between ≡ span left.now right.now) }
        ensures succeeds { E.never_refuses → IsOk result }
    {
        let left = left.share(alloc)?;
        let right = right.share(alloc)?;
        Ok(Span { left, right })
    }
}

impl<E: Share> Share for Span<E> {
    ghost never_refuses = { E.never_refuses };

    fn share(&self, alloc: Global) -> Result<Span<E>, NoMemory> {
        Span::between(alloc, &self.left, &self.right)
    }

    fn is_total() -> bool {
        E::is_total()
    }
}

impl<E: Key> Key for Span<E> {
    ghost exact = { span_exact E.cmp E.exact };
}
