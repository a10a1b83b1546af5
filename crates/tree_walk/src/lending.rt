//! Walks over trees that lend their entries.
ghost use Rattle.std.specs.Prelude.{◌≡◌, ◌<◌, ◌≤◌, ◌++◌, [], List, length, drop, slice_range};
ghost use Rattle.std.specs.Iterator.{YieldsFirstBy, item_count};
ghost use Rattle.tree_walk.specs.Aheads.{GoesOn, behind};
ghost use Rattle.tree_walk.specs.Seats.{IsSeat};
ghost use Rattle.tree_walk.specs.Ways.{IsWay, TakesFirst, entry_lent, left_on};

use crate::ahead::{Ahead, Following};
use crate::seat::{Seat, find_seat};
use aug_monoid::LeafRef;
use std::marker::Model;
use tree_shape::{Look, ShapeRef, Tree};

/// What is left of a leaf, and what follows it.
#[derive(Drop)]
pub(crate) struct Run<'a, M: ShapeRef> {
    pub(crate) entries: &'a [(M::Key, M::Val)],
    pub(crate) ahead: Ahead<'a, M>,
}

/// A way through a tree.
#[derive(Drop)]
pub(crate) struct Way<'a, M: ShapeRef> {
    pub(crate) tree: &'a Tree<M>,
    /// What is left of the block that it is in, and what follows.
    pub(crate) run: Run<'a, M>,
    /// How many entries stand before those after the run, and how many before the end.
    pub(crate) after: u64,
    pub(crate) end: u64,
}

/// Entries of a tree in the order of their keys, lent where they stand: contracts see the list of those that are left. It takes no
/// memory. An entry takes O(1), and so does in the mean the first one of a block, as four of the nodes above one are kept.
#[derive(Drop)]
pub struct IterRef<'a, M: ShapeRef> {
    way: Way<'a, M>,
}

impl<'a, M: ShapeRef> Model for IterRef<'a, M> {
    ghost use Rattle.std.specs.Prelude.{List};
    ghost use Rattle.tree_walk.specs.Ways.{IsWay, left_on};

    ghost Value = { List (M.Key × M.Val) };

    ghost view = { λ i. left_on i.way };

    ghost invariant = { λ i. IsWay i.way };
}

/// Goes over the entries of a tree at the places from `from` up to but without `to`, counted from 0, and lends them; over none where
/// `from` is not below `to`. Places past the last entry have none. It takes no memory. O(1).
pub fn iter_ref_between<M: ShapeRef>(tree: &Tree<M>, from: u64, to: u64) -> IterRef<'_, M>
    ensures { result ≡ slice_range tree.now.entries from to }
{
    let end = tree.size().min(to);
    let run = Run {
        entries: &[],
        ahead: Ahead {
            first: None,
            second: None,
            third: None,
            fourth: None,
        },
    };
    let way = Way {
        tree,
        run,
        after: from.min(end),
        end,
    };
    IterRef { way }
}

// The first leaf of a tree, which others follow.
fn first_run<'a, M: ShapeRef>(tree: &'a Tree<M>, follows: Ahead<'a, M>) -> Run<'a, M>
    ensures { (rest : List (M.Key × M.Val)) → GoesOn (tree.now.entries ++ behind follows.entry rest) result.entries.now result.ahead }
{
    let mut part = tree;
    let mut ahead = follows;
    'down: loop {
        match part.look() {
            Look::Empty => {
                return Run {
                    entries: &[],
                    ahead,
                };
            }
            Look::Block { leaf } => {
                return Run {
                    entries: leaf.as_slice(),
                    ahead,
                };
            }
            Look::Node {
                left,
                key,
                val,
                right,
            } => {
                part = left;
                ahead = ahead.nearer(Following {
                    key,
                    val,
                    side: right,
                });
            }
        }
    }
}

// Where the entry behind the first `after` entries stands: what is known to follow them, or else looked up from the root.
fn find_following<'a, M: ShapeRef>(
    tree: &'a Tree<M>,
    after: u64,
    ahead: Ahead<'a, M>,
) -> Seat<'a, M>
    requires within { after < length tree.now.entries }
    requires follows { GoesOn (drop after tree.now.entries) [] ahead }
    ensures { IsSeat M.Leaf.entries (drop after tree.now.entries) result }
{
    match ahead.first {
        Some(entry) => Seat::Entry {
            entry,
            ahead: ahead.farther(),
        },
        None => find_seat(tree, after),
    }
}

impl<'a, M: ShapeRef> Way<'a, M> {
    // The run becomes another, as far as the end lets it.
    fn take_run(&mut self, run: Run<'a, M>)
        requires within { self.old.end ≤ length self.old.tree.now.entries }
        requires before { self.old.after ≤ self.old.end }
        requires follows { GoesOn (drop self.old.after self.old.tree.now.entries) run.entries.now run.ahead }
        ensures way { IsWay self.new }
        ensures left { left_on self.new ≡ slice_range self.old.tree.now.entries self.old.after self.old.end }
        ensures some { self.old.after < self.old.end → 0 < length run.entry.entries.now → 0 < length self.new.run.entries.now }
    {
        let most = (self.end - self.after).min(run.entries.len() as u64);
        let (entries, _) = run.entries.split_at(most as usize);
        self.run = Run {
            entries,
            ahead: run.ahead,
        };
        self.after += most;
    }

    // The first of the run.
    fn take_first(&mut self) -> Option<(&'a M::Key, &'a M::Val)>
        requires { IsWay self.old }
        ensures way { IsWay self.new }
        ensures first { TakesFirst self.old result self.new }
    {
        let (first, rest) = self.run.entries.split_first()?;
        self.run.entries = rest;
        Some((&first.0, &first.1))
    }

    // The entry that follows the run. It is no part of its caller, so that a step in a block is short.
    #[inline(never)]
    fn take_following(&mut self) -> Option<(&'a M::Key, &'a M::Val)>
        requires way { IsWay self.old }
        requires past { self.old.run.entries.now ≡ [] }
        ensures way { IsWay self.new }
        ensures first { YieldsFirstBy entry_lent left_on self.old result self.new }
    {
        if self.after >= self.end {
            return None;
        }
        match find_following(self.tree, self.after, self.run.ahead) {
            Seat::Entry { entry, ahead } => {
                self.after += 1;
                self.take_run(first_run(entry.side, ahead));
                Some((entry.key, entry.val))
            }
            Seat::Inside { leaf, at, ahead } => {
                let (_, entries) = leaf.as_slice().split_at(at as usize);
                self.take_run(Run { entries, ahead });
                self.take_first()
            }
        }
    }
}

impl<'a, M: ShapeRef> Iterator for IterRef<'a, M> {
    type Item = (&'a M::Key, &'a M::Val);

    ghost next_gives = { YieldsFirstBy entry_lent (λ i. i) };

    ghost remaining = { item_count (λ i. i) };

    fn next(&mut self) -> Option<(&'a M::Key, &'a M::Val)> {
        match self.way.take_first() {
            Some(entry) => Some(entry),
            None => self.way.take_following(),
        }
    }
}
