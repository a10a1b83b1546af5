//! What a tree is made of.
ghost use Rattle.std.specs.Prelude.{ℕ};
ghost use Rattle.map_model.specs.Balance.{IsBlockSize};

use aug_monoid::{Augment, Key, Leaf, LeafRef, Share};
use std::marker::{Send, Sync};

/// What a tree is made of: its keys, values and folds, the leaves in which its entries stand, and how many a block of them holds
/// at least. It is a marker: no value of it is ever made. `Of` is the shape of a given augment, leaf and number; a map type may
/// have one of its own. That the number is lawful is shown once, by the shape, and no call asks for it.
pub trait Shape: Drop {
    type Key: Key;

    type Val: Share;

    type Aug: Share;

    type Augment: Augment<Key = Self::Key, Val = Self::Val, Aug = Self::Aug>;

    type Leaf: Leaf<Self::Key, Self::Val>;

    const BLOCK: usize;

    ghost BLOCK: { ℕ };

    ghost lawful: { IsBlockSize BLOCK };
}

/// A `Shape` whose leaves keep their entries as they are, so that trees lend what stands in them.
pub trait ShapeRef: Shape<Leaf: LeafRef<<Self as Shape>::Key, <Self as Shape>::Val>> {}

impl<M: Shape<Leaf: LeafRef<<M as Shape>::Key, <M as Shape>::Val>>> ShapeRef for M {}

/// A `Shape` of what is sent to and shared among threads.
pub trait SyncShape: Shape<
    Key: Send + Sync,
    Val: Send + Sync,
    Aug: Send + Sync,
    Augment: Send + Sync,
    Leaf: Send + Sync,
>
    + Send
    + Sync {}

impl<
    M: Shape<
        Key: Send + Sync,
        Val: Send + Sync,
        Aug: Send + Sync,
        Augment: Send + Sync,
        Leaf: Send + Sync,
    >
        + Send
        + Sync,
> SyncShape for M {}
