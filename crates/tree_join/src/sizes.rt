//! Weights of trees.
ghost use Rattle.std.specs.Prelude.{◌≡◌, ◌+◌, ◌*◌, ◌<◌, ◌≤◌, ◌↔◌, IsTrue, length};
ghost use Rattle.balance.specs.Turns.{IsWeight};
ghost use Rattle.map_model.specs.Balance.{FillsNode, IsBalanced, weight};

use balance::balanced;
use tree_shape::{Shape, Tree};

/// The number of entries plus 1.
pub(crate) fn weight_of<M: Shape>(tree: &Tree<M>) -> u64
    ensures value { result ≡ weight tree.now.entries }
    ensures lawful { IsWeight result }
{
    tree.size() + 1
}

/// Whether two trees and an entry are few enough entries for two blocks.
pub(crate) fn are_small<M: Shape>(left: &Tree<M>, right: &Tree<M>) -> bool
    ensures { IsTrue result ↔ (length left.now.entries + length right.now.entries + 1 ≤ 4 * M.BLOCK) }
{
    left.size() + right.size() < 4 * left.block_size()
}

/// Whether a node may stand over two trees as they are: they fill one, and are balanced.
pub(crate) fn are_balanced<M: Shape>(left: &Tree<M>, right: &Tree<M>) -> bool
    ensures filled { IsTrue result → FillsNode M.BLOCK (length left.now.entries) (length right.now.entries) }
    ensures balanced { IsTrue result → IsBalanced (weight left.now.entries) (weight right.now.entries) }
{
    Tree::fill_node(left, right) && balanced(weight_of(left), weight_of(right))
}
