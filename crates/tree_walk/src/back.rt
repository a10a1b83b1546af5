//! Cursors from the back.
ghost use Rattle.std.specs.Prelude.{◌≡◌, ◌+◌, ◌<◌, Some, length, slice_get, take, IfOk, IsOk};
ghost use Rattle.tree_walk.specs.Shares.{YieldsSharesBack, Takes};
ghost use Rattle.tree_walk.specs.Places.{IsBackPlace};

use crate::cursor::Cursor;
use crate::seat::{Seat, find_seat};
use aug_monoid::{Key, Leaf, NoMemory, Share, share_entry};
use std::alloc::Global;
use tree_shape::{Shape, Tree};

/// A leaf of which the entries before a place are left.
#[derive(Drop)]
pub(crate) struct BackPlace<'a, L> {
    leaf: &'a L,
    at: u64,
}

// The entry at a place of a leaf, by its number.
fn read_at<K: Key, V: Share, L: Leaf<K, V>>(
    alloc: Global,
    leaf: &L,
    at: u64,
) -> Result<(K, V), NoMemory>
    requires { at < length (L.entries leaf.now) }
    ensures entry { IfOk result (λ entry. slice_get (L.entries leaf.now) at ≡ Some entry) }
    ensures succeeds { K.never_refuses → V.never_refuses → IsOk result }
{
    match leaf.get_at(at) {
        Some(entry) => entry.into_entry(alloc),
        None => unreachable!(),
    }
}

// The entry behind the first `at` entries of a tree, looked up from the root, and the place before it.
fn take_from_root<'a, M: Shape>(
    alloc: Global,
    tree: &'a Tree<M>,
    at: u64,
    back: &mut Option<BackPlace<'a, M::Leaf>>,
) -> Result<(M::Key, M::Val), NoMemory>
    requires { at < length tree.now.entries }
    ensures entry { Takes tree.now.entries at result }
    ensures succeeds { M.Key.never_refuses → M.Val.never_refuses → IsOk result }
    ensures back { IsBackPlace M.Leaf.entries (take at tree.now.entries) back.new }
{
    match find_seat(tree, at) {
        Seat::Entry { entry, .. } => {
            *back = None;
            share_entry(alloc, entry.key, entry.val)
        }
        Seat::Inside { leaf, at, .. } => {
            *back = Some(BackPlace { leaf, at });
            read_at(alloc, leaf, at)
        }
    }
}

// The entry behind the first `at` entries of a tree, and the place moves before it.
fn take_last<'a, M: Shape>(
    alloc: Global,
    tree: &'a Tree<M>,
    at: u64,
    back: &mut Option<BackPlace<'a, M::Leaf>>,
) -> Result<(M::Key, M::Val), NoMemory>
    requires within { at < length tree.now.entries }
    requires back { IsBackPlace M.Leaf.entries (take (at + 1) tree.now.entries) back.old }
    ensures entry { Takes tree.now.entries at result }
    ensures succeeds { M.Key.never_refuses → M.Val.never_refuses → IsOk result }
    ensures back { IsBackPlace M.Leaf.entries (take at tree.now.entries) back.new }
{
    if let Some(inside) = back {
        if inside.at > 0 {
            inside.at -= 1;
            return read_at(alloc, inside.leaf, inside.at);
        }
    }
    take_from_root(alloc, tree, at, back)
}

impl<'a, M: Shape> DoubleEndedIterator for Cursor<'a, M> {
    ghost next_back_gives = { YieldsSharesBack (M.Key.never_refuses × M.Val.never_refuses) (λ c. c) };

    fn next_back(&mut self) -> Option<Result<(M::Key, M::Val), NoMemory>> {
        if self.at >= self.end {
            return None;
        }
        let last = self.end - 1;
        let entry = take_last(self.alloc, self.tree, last, &mut self.back);
        self.end = last;
        Some(entry)
    }
}
