//! A map split at a key.
ghost use Rattle.std.specs.Prelude.{◌≡◌, ℕ, ◌+◌, ◌*◌, ◌^◌, ◌≤◌, ◌∷◌, ◌++◌, IfOk, IsSome, None, Some, drop, length, take};
ghost use Rattle.map_model.specs.Balance.{IsWithinLevels, weight};
ghost use Rattle.map_model.specs.Entries.{AllAbove, AllBelow, IsIncreasing, above, below, lookup};
ghost use Rattle.tree_shape.specs.Shape.{link_cost};

use aug_monoid::{Key, Leaf, NoMemory, Share, Steps};
use std::alloc::Global;
use std::cmp::Ordering;
use std::sync::ledger::Ledger;
use tree_join::{Part, join_lent};
use tree_shape::{Around, Look, Shape, Tree, cut_around};

/// The entries below a key, the value at it, and the entries above it.
#[derive(Drop)]
pub struct Parts<M: Shape> {
    pub below: Tree<M>,
    pub found: Option<M::Val>,
    pub above: Tree<M>,
}

/// A block split around the entry of a key, which stands at a place.
fn split_around<M: Shape, C: Ledger>(
    alloc: Global,
    leaf: &M::Leaf,
    at: u64,
    key: &M::Key,
    steps: &mut Steps<C>,
) -> Result<Parts<M>, NoMemory>
    requires increasing { IsIncreasing M.Key.cmp (M.Leaf.entries leaf.now) }
    requires short { length (M.Leaf.entries leaf.now) ≤ 2 * M.BLOCK }
    requires place { at ≡ length (below M.Key.cmp (M.Leaf.entries leaf.now) key.now) }
    requires hit { IsSome (lookup M.Key.cmp (M.Leaf.entries leaf.now) key.now) }
    ensures below { IfOk result (λ parts. parts.below.entries ≡ below M.Key.cmp (M.Leaf.entries leaf.now) key.now) }
    ensures found { IfOk result (λ parts. parts.found ≡ lookup M.Key.cmp (M.Leaf.entries leaf.now) key.now) }
    ensures above { IfOk result (λ parts. parts.above.entries ≡ above M.Key.cmp (M.Leaf.entries leaf.now) key.now) }
    ensures cost { steps.new ≤ steps.old + link_cost M.BLOCK }
{
    let around = cut_around(alloc, leaf, at)?;
    let lower = Tree::from_leaf(alloc, around.front, steps)?;
    let higher = Tree::from_leaf(alloc, around.back, steps)?;
    Ok(Parts {
        below: lower,
        found: Some(around.val),
        above: higher,
    })
}

/// A block split at a place where a key would stand.
fn split_between<M: Shape, C: Ledger>(
    alloc: Global,
    leaf: &M::Leaf,
    at: u64,
    key: &M::Key,
    steps: &mut Steps<C>,
) -> Result<Parts<M>, NoMemory>
    requires increasing { IsIncreasing M.Key.cmp (M.Leaf.entries leaf.now) }
    requires short { length (M.Leaf.entries leaf.now) ≤ 2 * M.BLOCK }
    requires place { at ≡ length (below M.Key.cmp (M.Leaf.entries leaf.now) key.now) }
    requires missed { lookup M.Key.cmp (M.Leaf.entries leaf.now) key.now ≡ None }
    ensures below { IfOk result (λ parts. parts.below.entries ≡ below M.Key.cmp (M.Leaf.entries leaf.now) key.now) }
    ensures found { IfOk result (λ parts. parts.found ≡ None) }
    ensures above { IfOk result (λ parts. parts.above.entries ≡ above M.Key.cmp (M.Leaf.entries leaf.now) key.now) }
    ensures cost { steps.new ≤ steps.old + link_cost M.BLOCK }
{
    let lower = front_tree(alloc, leaf, at, steps)?;
    let higher = back_tree(alloc, leaf, at, steps)?;
    Ok(Parts {
        below: lower,
        found: None,
        above: higher,
    })
}

/// The tree of a block's entries before a place.
fn front_tree<M: Shape, C: Ledger>(
    alloc: Global,
    leaf: &M::Leaf,
    at: u64,
    steps: &mut Steps<C>,
) -> Result<Tree<M>, NoMemory>
    requires increasing { IsIncreasing M.Key.cmp (M.Leaf.entries leaf.now) }
    requires short { length (M.Leaf.entries leaf.now) ≤ 2 * M.BLOCK }
    requires inside { at ≤ length (M.Leaf.entries leaf.now) }
    ensures entries { IfOk result (λ tree. tree.entries ≡ take at (M.Leaf.entries leaf.now)) }
    ensures cost { steps.new ≤ steps.old + (at + 1) }
{
    let front = leaf.front(alloc, at)?;
    Tree::from_leaf(alloc, front, steps)
}

/// The tree of a block's entries from a place on.
fn back_tree<M: Shape, C: Ledger>(
    alloc: Global,
    leaf: &M::Leaf,
    at: u64,
    steps: &mut Steps<C>,
) -> Result<Tree<M>, NoMemory>
    requires increasing { IsIncreasing M.Key.cmp (M.Leaf.entries leaf.now) }
    requires short { length (M.Leaf.entries leaf.now) ≤ 2 * M.BLOCK }
    requires inside { at ≤ length (M.Leaf.entries leaf.now) }
    ensures entries { IfOk result (λ tree. tree.entries ≡ drop at (M.Leaf.entries leaf.now)) }
    ensures cost { steps.new + at ≤ steps.old + (length (M.Leaf.entries leaf.now) + 1) }
{
    let back = leaf.back(alloc, at)?;
    Tree::from_leaf(alloc, back, steps)
}

/// A block split at a key.
fn split_block<M: Shape, C: Ledger>(
    alloc: Global,
    leaf: &M::Leaf,
    key: &M::Key,
    steps: &mut Steps<C>,
) -> Result<Parts<M>, NoMemory>
    requires increasing { IsIncreasing M.Key.cmp (M.Leaf.entries leaf.now) }
    requires short { length (M.Leaf.entries leaf.now) ≤ 2 * M.BLOCK }
    ensures below { IfOk result (λ parts. parts.below.entries ≡ below M.Key.cmp (M.Leaf.entries leaf.now) key.now) }
    ensures found { IfOk result (λ parts. parts.found ≡ lookup M.Key.cmp (M.Leaf.entries leaf.now) key.now) }
    ensures above { IfOk result (λ parts. parts.above.entries ≡ above M.Key.cmp (M.Leaf.entries leaf.now) key.now) }
    ensures cost { steps.new ≤ steps.old + (link_cost M.BLOCK + M.Leaf.FIND) }
{
    let place = leaf.seek(key, steps);
    if place.hit {
        split_around(alloc, leaf, place.at, key, steps)
    } else {
        split_between(alloc, leaf, place.at, key, steps)
    }
}

/// The parts of a node's left side, with the node's entry and right side above.
fn extend_above<M: Shape, C: Ledger>(
    alloc: Global,
    parts: Parts<M>,
    key: &M::Key,
    val: &M::Val,
    right: &Tree<M>,
    steps: &mut Steps<C>,
) -> Result<Parts<M>, NoMemory>
    requires lower { AllBelow M.Key.cmp parts.above.entries key.now }
    requires upper { AllAbove M.Key.cmp right.now.entries key.now }
    ensures below { IfOk result (λ new. new.below.entries ≡ parts.below.entries) }
    ensures found { IfOk result (λ new. new.found ≡ parts.found) }
    ensures above { IfOk result (λ new. new.above.entries ≡ parts.above.entries ++ (key.now, val.now) ∷ right.now.entries) }
    ensures levels { (n : ℕ) → IsWithinLevels M.BLOCK n (weight parts.above.entries) (weight right.now.entries) → IsWithinLevels M.BLOCK n (weight right.now.entries) (weight parts.above.entries) → steps.new ≤ steps.old + (3 * n + 1) * link_cost M.BLOCK }
{
    let higher = join_lent(alloc, &parts.above, key, val, right, steps)?;
    Ok(Parts {
        below: parts.below,
        found: parts.found,
        above: higher,
    })
}

/// The parts of a node's right side, with the node's left side and entry below.
fn extend_below<M: Shape, C: Ledger>(
    alloc: Global,
    left: &Tree<M>,
    key: &M::Key,
    val: &M::Val,
    parts: Parts<M>,
    steps: &mut Steps<C>,
) -> Result<Parts<M>, NoMemory>
    requires lower { AllBelow M.Key.cmp left.now.entries key.now }
    requires upper { AllAbove M.Key.cmp parts.below.entries key.now }
    ensures below { IfOk result (λ new. new.below.entries ≡ left.now.entries ++ (key.now, val.now) ∷ parts.below.entries) }
    ensures found { IfOk result (λ new. new.found ≡ parts.found) }
    ensures above { IfOk result (λ new. new.above.entries ≡ parts.above.entries) }
    ensures levels { (n : ℕ) → IsWithinLevels M.BLOCK n (weight left.now.entries) (weight parts.below.entries) → IsWithinLevels M.BLOCK n (weight parts.below.entries) (weight left.now.entries) → steps.new ≤ steps.old + (3 * n + 1) * link_cost M.BLOCK }
{
    let lower = join_lent(alloc, left, key, val, &parts.below, steps)?;
    Ok(Parts {
        below: lower,
        found: parts.found,
        above: parts.above,
    })
}

/// The sides of a node, split at the node's own key.
fn parts_of_sides<M: Shape>(
    alloc: Global,
    left: &Tree<M>,
    val: &M::Val,
    right: &Tree<M>,
) -> Result<Parts<M>, NoMemory>
    ensures below { IfOk result (λ parts. parts.below.entries ≡ left.now.entries) }
    ensures found { IfOk result (λ parts. parts.found ≡ Some val.now) }
    ensures above { IfOk result (λ parts. parts.above.entries ≡ right.now.entries) }
{
    let lower = left.share(alloc)?;
    let found = val.share(alloc)?;
    let higher = right.share(alloc)?;
    Ok(Parts {
        below: lower,
        found: Some(found),
        above: higher,
    })
}

/// The entries below a key, the value at it, and the entries above it, in time linear in the height. It shares what lies off
/// the key's path with `tree`. Where `(3/4)^n * (size + 1)` is at most `M::BLOCK`, it takes at most
/// `(2 * height + 6 * n + 1) * (4 * M::BLOCK + 4) + M::Leaf::FIND` steps.
pub fn split<M: Shape, C: Ledger>(
    alloc: Global,
    tree: &Tree<M>,
    key: &M::Key,
    steps: &mut Steps<C>,
) -> Result<Parts<M>, NoMemory>
    ensures below { IfOk result (λ parts. parts.below.entries ≡ below M.Key.cmp tree.now.entries key.now) }
    ensures found { IfOk result (λ parts. parts.found ≡ lookup M.Key.cmp tree.now.entries key.now) }
    ensures above { IfOk result (λ parts. parts.above.entries ≡ above M.Key.cmp tree.now.entries key.now) }
    ensures cost { (n : ℕ) → 3 ^ n * weight tree.now.entries ≤ 4 ^ n * M.BLOCK → steps.new ≤ steps.old + ((2 * tree.now.height + 6 * n + 1) * link_cost M.BLOCK + M.Leaf.FIND) }
{
    split_in(alloc, Part { tree }, key, steps)
}

fn split_in<M: Shape, C: Ledger>(
    alloc: Global,
    part: Part<'_, M>,
    key: &M::Key,
    steps: &mut Steps<C>,
) -> Result<Parts<M>, NoMemory>
    ensures below { IfOk result (λ parts. parts.below.entries ≡ below M.Key.cmp part.entry.tree.now.entries key.now) }
    ensures found { IfOk result (λ parts. parts.found ≡ lookup M.Key.cmp part.entry.tree.now.entries key.now) }
    ensures above { IfOk result (λ parts. parts.above.entries ≡ above M.Key.cmp part.entry.tree.now.entries key.now) }
    ensures cost { (a b : ℕ) → 3 ^ a * weight (below M.Key.cmp part.entry.tree.now.entries key.now) ≤ 4 ^ a * M.BLOCK → 3 ^ b * weight (above M.Key.cmp part.entry.tree.now.entries key.now) ≤ 4 ^ b * M.BLOCK → steps.new ≤ steps.old + ((2 * part.entry.tree.now.height + 3 * a + 3 * b + 1) * link_cost M.BLOCK + M.Leaf.FIND) }
{
    match part.tree.look() {
        Look::Empty => Ok(Parts {
            below: Tree::empty(),
            found: None,
            above: Tree::empty(),
        }),
        Look::Block { leaf } => split_block(alloc, leaf, key, steps),
        Look::Node {
            left,
            key: node_key,
            val: node_val,
            right,
        } => match key.order(node_key, steps) {
            Ordering::Less => {
                let parts = split_in(alloc, Part { tree: left }, key, steps)?;
                extend_above(alloc, parts, node_key, node_val, right, steps)
            }
            Ordering::Equal => parts_of_sides(alloc, left, node_val, right),
            Ordering::Greater => {
                let parts = split_in(alloc, Part { tree: right }, key, steps)?;
                extend_below(alloc, left, node_key, node_val, parts, steps)
            }
        },
    }
}
