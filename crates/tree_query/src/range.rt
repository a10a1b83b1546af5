//! Ranges of keys.
ghost use Rattle.std.specs.Prelude.{◌≡◌, ◌+◌, ◌≤◌};
ghost use Rattle.tree_query.specs.Within.{ends_before, begins_after, end_tests, begin_tests, is_all, left_part, right_part};

use aug_monoid::{Key, Steps};
use std::alloc::AllocError;
use std::sync::ledger::Ledger;
use tree_shape::{Shape, Tree};

/// A range of keys.
pub(crate) enum KeyRange<'a, K> {
    All,
    AtMost { hi: &'a K },
    AtLeast { lo: &'a K },
    Between { lo: &'a K, hi: &'a K },
    Below { hi: &'a K },
    Above { lo: &'a K },
}

// By hand, as keys need not be `Copy`.
impl<'a, K> Copy for KeyRange<'a, K> {}

impl<'a, K> Clone for KeyRange<'a, K> {
    ghost is_clone = { λ x y. y ≡ x };

    fn clone(&self) -> Result<Self, AllocError> {
        Ok(*self)
    }
}

impl<'a, K: Key> KeyRange<'a, K> {
    pub(crate) fn is_all(&self) -> bool
        ensures { result ≡ is_all self.now }
    {
        match self {
            KeyRange::All => true,
            KeyRange::AtMost { .. } => false,
            KeyRange::AtLeast { .. } => false,
            KeyRange::Between { .. } => false,
            KeyRange::Below { .. } => false,
            KeyRange::Above { .. } => false,
        }
    }

    /// Whether all keys of the range are less than a key.
    pub(crate) fn ends_before<C: Ledger>(&self, key: &K, steps: &mut Steps<C>) -> bool
        ensures value { result ≡ ends_before K.cmp self.now key.now }
        ensures cost { steps.new ≤ steps.old + 1 }
        ensures tests { steps.new ≤ steps.old + end_tests self.now }
    {
        match self {
            KeyRange::All => false,
            KeyRange::AtMost { hi } => key.order(hi, steps).is_gt(),
            KeyRange::AtLeast { .. } => false,
            KeyRange::Between { hi, .. } => key.order(hi, steps).is_gt(),
            KeyRange::Below { hi } => key.order(hi, steps).is_ge(),
            KeyRange::Above { .. } => false,
        }
    }

    /// Whether all keys of the range are greater than a key.
    pub(crate) fn begins_after<C: Ledger>(&self, key: &K, steps: &mut Steps<C>) -> bool
        ensures value { result ≡ begins_after K.cmp self.now key.now }
        ensures cost { steps.new ≤ steps.old + 1 }
        ensures tests { steps.new ≤ steps.old + begin_tests self.now }
    {
        match self {
            KeyRange::All => false,
            KeyRange::AtMost { .. } => false,
            KeyRange::AtLeast { lo } => key.order(lo, steps).is_lt(),
            KeyRange::Between { lo, .. } => key.order(lo, steps).is_lt(),
            KeyRange::Below { .. } => false,
            KeyRange::Above { lo } => key.order(lo, steps).is_le(),
        }
    }

    /// The range among the keys less than one that lies in it.
    pub(crate) fn left_part(&self) -> KeyRange<'a, K>
        ensures { result ≡ left_part self.now }
    {
        match *self {
            KeyRange::All => KeyRange::All,
            KeyRange::AtMost { .. } => KeyRange::All,
            KeyRange::AtLeast { lo } => KeyRange::AtLeast { lo },
            KeyRange::Between { lo, .. } => KeyRange::AtLeast { lo },
            KeyRange::Below { .. } => KeyRange::All,
            KeyRange::Above { lo } => KeyRange::Above { lo },
        }
    }

    /// The range among the keys greater than one that lies in it.
    pub(crate) fn right_part(&self) -> KeyRange<'a, K>
        ensures { result ≡ right_part self.now }
    {
        match *self {
            KeyRange::All => KeyRange::All,
            KeyRange::AtMost { hi } => KeyRange::AtMost { hi },
            KeyRange::AtLeast { .. } => KeyRange::All,
            KeyRange::Between { hi, .. } => KeyRange::AtMost { hi },
            KeyRange::Below { hi } => KeyRange::Below { hi },
            KeyRange::Above { .. } => KeyRange::All,
        }
    }
}

/// The entries of a tree with keys in a range.
#[derive(Drop)]
pub(crate) struct Span<'a, M: Shape> {
    pub(crate) tree: &'a Tree<M>,
    pub(crate) range: KeyRange<'a, M::Key>,
}
