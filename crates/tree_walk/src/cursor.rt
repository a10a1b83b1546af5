//! Cursors over trees.
ghost use Rattle.std.specs.Prelude.{◌≡◌, ◌+◌, ◌<◌, ◌≤◌, Some, length, drop, slice_get, slice_range, IfOk, IsOk};
ghost use Rattle.std.specs.Iterator.{item_count};
ghost use Rattle.tree_walk.specs.Shares.{YieldsShares, Takes};
ghost use Rattle.tree_walk.specs.Places.{IsBehind, IsPlace};

use crate::back::BackPlace;
use crate::seat::{Seat, find_seat};
use aug_monoid::{Key, Leaf, NoMemory, Share, Walk, share_entry};
use std::alloc::Global;
use std::marker::Model;
use tree_shape::{Shape, Tree};

/// A place in a leaf, with the entry that follows the leaf's last, if there is one.
#[derive(Drop)]
pub(crate) struct Place<'a, K, V, L> {
    leaf: &'a L,
    at: u64,
    walk: Walk,
    next: Option<(&'a K, &'a V)>,
}

/// Entries of a tree in the order of their keys, from both ends: contracts see the list of those that are left between them. An item
/// is a share of an entry, or a refusal of that share. An entry takes O(1), and the first one of a block O(log n) in a tree of n
/// entries; but those of a coded block inside which it begins take time linear in the block's size. From the back, by `next_back` or
/// `rev`, the last one of a block takes O(log n), and so does an entry between two blocks; others take O(1) where a block is a plain
/// vector, and time linear in the block's size where it is coded.
#[derive(Drop)]
pub struct Cursor<'a, M: Shape> {
    pub(crate) alloc: Global,
    pub(crate) tree: &'a Tree<M>,
    pub(crate) at: u64,
    pub(crate) end: u64,
    place: Option<Place<'a, M::Key, M::Val, M::Leaf>>,
    pub(crate) back: Option<BackPlace<'a, M::Leaf>>,
}

impl<'a, M: Shape> Model for Cursor<'a, M> {
    ghost use Rattle.std.specs.Prelude.{List, ◌≤◌, length, drop, take, slice_range};

    ghost Value = { List (M.Key × M.Val) };

    ghost use Rattle.tree_walk.specs.Places.{IsBackPlace, IsPlace};

    ghost view = { λ c. slice_range c.tree.now.entries c.at c.end };

    ghost invariant = { λ c. (c.at ≤ c.end)
        × (c.end ≤ length c.tree.now.entries)
        × IsPlace M.Leaf.entries M.Leaf.fits_walk (drop c.at c.tree.now.entries) c.place
        × IsBackPlace M.Leaf.entries (take c.end c.tree.now.entries) c.back };
}

/// Goes over the entries of a tree at the places from `from` up to but without `to`, counted from 0; over none where `from` is not
/// below `to`. Places past the last entry have none. It takes no memory, and keeps the allocator for the shares. O(1).
pub fn cursor_between<M: Shape>(alloc: Global, tree: &Tree<M>, from: u64, to: u64) -> Cursor<'_, M>
    ensures { result ≡ slice_range tree.now.entries from to }
{
    let end = tree.size().min(to);
    Cursor {
        alloc,
        tree,
        at: from.min(end),
        end,
        place: None,
        back: None,
    }
}

// The entry at a place of a leaf, by the walk where that is there, else by its number.
fn read_entry<K: Key, V: Share, L: Leaf<K, V>>(
    alloc: Global,
    leaf: &L,
    at: u64,
    walk: &mut Walk,
) -> Result<(K, V), NoMemory>
    requires within { at < length (L.entries leaf.now) }
    requires fits { L.fits_walk leaf.now walk.old }
    ensures entry { IfOk result (λ entry. slice_get (L.entries leaf.now) at ≡ Some entry) }
    ensures succeeds { K.never_refuses → V.never_refuses → IsOk result }
    ensures fits { L.fits_walk leaf.now walk.new }
{
    let entry = if walk.index == at {
        leaf.walk_next(walk)
    } else {
        leaf.get_at(at)
    };
    match entry {
        Some(entry) => entry.into_entry(alloc),
        None => unreachable!(),
    }
}

// The entry at a place of a leaf, and the place moves behind it.
fn take_inside<'a, K: Key, V: Share, L: Leaf<K, V>>(
    alloc: Global,
    place: &mut Place<'a, K, V, L>,
) -> Result<(K, V), NoMemory>
    requires within { place.old.at < length (L.entries place.old.leaf.now) }
    requires fits { L.fits_walk place.old.leaf.now place.old.walk }
    ensures entry { Takes (L.entries place.old.leaf.now) place.old.at result }
    ensures succeeds { K.never_refuses → V.never_refuses → IsOk result }
    ensures place { IsBehind L.entries L.fits_walk place.old place.new }
{
    let entry = read_entry(alloc, place.leaf, place.at, &mut place.walk);
    let _number = place.leaf.len(); // for the proof alone: the next place fits its type
    place.at += 1;
    entry
}

// The entry behind the first `at` entries of a tree, looked up from the root, and the place behind it.
fn take_from_root<'a, M: Shape>(
    alloc: Global,
    tree: &'a Tree<M>,
    at: u64,
    place: &mut Option<Place<'a, M::Key, M::Val, M::Leaf>>,
) -> Result<(M::Key, M::Val), NoMemory>
    requires { at < length tree.now.entries }
    ensures entry { Takes tree.now.entries at result }
    ensures succeeds { M.Key.never_refuses → M.Val.never_refuses → IsOk result }
    ensures place { IsPlace M.Leaf.entries M.Leaf.fits_walk (drop (at + 1) tree.now.entries) place.new }
{
    match find_seat(tree, at) {
        Seat::Entry { entry, .. } => {
            *place = None;
            share_entry(alloc, entry.key, entry.val)
        }
        Seat::Inside { leaf, at, ahead } => {
            let mut inside = Place {
                leaf,
                at,
                walk: leaf.walk(),
                next: ahead.entry(),
            };
            let entry = take_inside(alloc, &mut inside);
            *place = Some(inside);
            entry
        }
    }
}

// The entry behind the first `at` entries of a tree, and the place moves behind it.
fn take_next<'a, M: Shape>(
    alloc: Global,
    tree: &'a Tree<M>,
    at: u64,
    place: &mut Option<Place<'a, M::Key, M::Val, M::Leaf>>,
) -> Result<(M::Key, M::Val), NoMemory>
    requires within { at < length tree.now.entries }
    requires place { IsPlace M.Leaf.entries M.Leaf.fits_walk (drop at tree.now.entries) place.old }
    ensures entry { Takes tree.now.entries at result }
    ensures succeeds { M.Key.never_refuses → M.Val.never_refuses → IsOk result }
    ensures place { IsPlace M.Leaf.entries M.Leaf.fits_walk (drop (at + 1) tree.now.entries) place.new }
{
    if let Some(inside) = place {
        if inside.at < inside.leaf.len() {
            return take_inside(alloc, inside);
        }
        if let Some((key, val)) = inside.next {
            *place = None;
            return share_entry(alloc, key, val);
        }
    }
    take_from_root(alloc, tree, at, place)
}

impl<'a, M: Shape> Iterator for Cursor<'a, M> {
    type Item = Result<(M::Key, M::Val), NoMemory>;

    ghost next_gives = { YieldsShares (M.Key.never_refuses × M.Val.never_refuses) (λ c. c) };

    ghost remaining = { item_count (λ c. c) };

    fn next(&mut self) -> Option<Result<(M::Key, M::Val), NoMemory>> {
        if self.at >= self.end {
            return None;
        }
        let entry = take_next(self.alloc, self.tree, self.at, &mut self.place);
        self.at += 1;
        Some(entry)
    }
}
