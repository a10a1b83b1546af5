//! What follows a leaf in a tree.
ghost use Rattle.std.specs.Prelude.{◌≡◌, List, None};
ghost use Rattle.tree_walk.specs.Aheads.{behind, nearer, farther, headed_by};

use std::alloc::AllocError;
use tree_shape::{Shape, Tree};

/// An entry of a node, and the side behind it.
pub(crate) struct Following<'a, M: Shape> {
    pub(crate) key: &'a M::Key,
    pub(crate) val: &'a M::Val,
    pub(crate) side: &'a Tree<M>,
}

// By hand, as a shape need not be `Copy`.
impl<'a, M: Shape> Copy for Following<'a, M> {}

impl<'a, M: Shape> Clone for Following<'a, M> {
    ghost is_clone = { λ x y. y ≡ x };

    fn clone(&self) -> Result<Self, AllocError> {
        Ok(*self)
    }
}

/// What follows the last entry of a leaf: the nearest nodes' entries, each with the side behind it, as far as they are known. So one
/// of sixteen blocks that follow one another is looked up from the root.
pub(crate) struct Ahead<'a, M: Shape> {
    pub(crate) first: Option<Following<'a, M>>,
    pub(crate) second: Option<Following<'a, M>>,
    pub(crate) third: Option<Following<'a, M>>,
    pub(crate) fourth: Option<Following<'a, M>>,
}

// By hand, as a shape need not be `Copy`.
impl<'a, M: Shape> Copy for Ahead<'a, M> {}

impl<'a, M: Shape> Clone for Ahead<'a, M> {
    ghost is_clone = { λ x y. y ≡ x };

    fn clone(&self) -> Result<Self, AllocError> {
        Ok(*self)
    }
}

impl<'a, M: Shape> Ahead<'a, M> {
    /// With a nearer one, for which the farthest of four is forgotten.
    pub(crate) fn nearer(self, following: Following<'a, M>) -> Ahead<'a, M>
        ensures { result ≡ nearer following.entry self.entry }
    {
        Ahead {
            first: Some(following),
            second: self.first,
            third: self.second,
            fourth: self.third,
        }
    }

    /// Without the nearest.
    pub(crate) fn farther(self) -> Ahead<'a, M>
        ensures { result ≡ farther self.entry }
    {
        Ahead {
            first: self.second,
            second: self.third,
            third: self.fourth,
            fourth: None,
        }
    }

    /// The entry that comes next, if it is known.
    pub(crate) fn entry(self) -> Option<(&'a M::Key, &'a M::Val)>
        ensures { (rest : List (M.Key × M.Val)) → (more : List (M.Key × M.Val)) × (behind self.entry rest ≡ headed_by result more) }
    {
        match self.first {
            Some(next) => Some((next.key, next.val)),
            None => None,
        }
    }
}
