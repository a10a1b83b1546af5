//! A test of the greatest right end, of ends of any kind.
ghost use Rattle.std.specs.Prelude.{◌≡◌};
ghost use Rattle.interval_map.specs.RightEnds.{end_reaches, later_reaches};

use aug_monoid::{AugTest, Key, MaxRightOf, Share};

/// Whether there is a right end, and it is at least `lo`.
pub(crate) fn reaches<E: Key>(lo: &E, right: &Option<E>) -> bool
    ensures { result ≡ end_reaches E.cmp lo.now right.now }
{
    match right {
        Some(right) => lo.cmp(right).is_le(),
        None => false,
    }
}

/// The right ends that are at least an end.
#[derive(Drop)]
pub(crate) struct EndsAtLeast<'a, E: Key> {
    pub(crate) least: &'a E,
}

impl<'a, E: Key, V: Share> AugTest<MaxRightOf<E, V>> for EndsAtLeast<'a, E> {
    ghost admits = { λ s right. end_reaches E.cmp s.least.now right };

    ghost passes_either = { λ s. later_reaches E.total s.least.now };

    fn passes(&self, right: &Option<E>) -> bool {
        reaches(self.least, right)
    }
}
