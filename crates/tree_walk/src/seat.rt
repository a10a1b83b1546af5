//! Where an entry stands in a tree.
ghost use Rattle.std.specs.Prelude.{◌≡◌, ◌+◌, ◌<◌, ◌++◌, List, length, drop, take, slice_get, IfSome};
ghost use Rattle.std.specs.Ordering.{is_eq};
ghost use Rattle.tree_walk.specs.Seats.{IsSeat, IsSeatBehind};

use crate::ahead::{Ahead, Following};
use aug_monoid::{Key, Leaf, Steps};
use std::sync::ledger::Ledger;
use tree_shape::{Look, Shape, Tree};

/// Where an entry stands: in a node, or in a leaf behind others; with what follows.
#[derive(Drop)]
pub(crate) enum Seat<'a, M: Shape> {
    Entry {
        entry: Following<'a, M>,
        ahead: Ahead<'a, M>,
    },
    Inside {
        leaf: &'a M::Leaf,
        at: u64,
        ahead: Ahead<'a, M>,
    },
}

/// Where the entry behind the first `at` entries stands.
// It goes down in a loop, since a recursion would hand the seat up again through each level.
pub(crate) fn find_seat<'a, M: Shape>(tree: &'a Tree<M>, at: u64) -> Seat<'a, M>
    requires { at < length tree.now.entries }
    ensures ahead { (more : List (M.Key × M.Val)) → IsSeat M.Leaf.entries (drop at tree.now.entries ++ more) result }
    ensures behind { IsSeatBehind M.Leaf.entries (take at tree.now.entries) result }
{
    let mut part = tree;
    let mut at_in = at;
    let mut ahead = Ahead {
        first: None,
        second: None,
        third: None,
        fourth: None,
    };
    'down: loop {
        match part.look() {
            Look::Empty => unreachable!(),
            Look::Block { leaf } => {
                return Seat::Inside {
                    leaf,
                    at: at_in,
                    ahead,
                };
            }
            Look::Node {
                left,
                key,
                val,
                right,
            } => {
                let entry = Following {
                    key,
                    val,
                    side: right,
                };
                let before = left.size();
                if at_in < before {
                    part = left;
                    ahead = ahead.nearer(entry);
                } else if at_in == before {
                    return Seat::Entry { entry, ahead };
                } else {
                    part = right;
                    at_in -= before + 1;
                }
            }
        }
    }
}

/// Whether the entry behind the first `at` entries has a key, in one step and O(log n) time.
pub fn is_key_at<M: Shape, C: Ledger>(
    tree: &Tree<M>,
    at: u64,
    key: &M::Key,
    steps: &mut Steps<C>,
) -> bool
    requires { at < length tree.now.entries }
    ensures value { IfSome (slice_get tree.now.entries at) (λ e. result ≡ is_eq (M.Key.cmp e.0 key.now)) }
    ensures cost { steps.new ≡ steps.old + 1 }
{
    match find_seat(tree, at) {
        Seat::Entry { entry, .. } => entry.key.order(key, steps).is_eq(),
        Seat::Inside { leaf, at, .. } => match leaf.get_at(at) {
            Some(entry) => entry.key().order(key, steps).is_eq(),
            None => unreachable!(),
        },
    }
}
