//! A map taken apart.
ghost use Rattle.std.specs.Prelude.{◌≡◌, ◌+◌, ◌*◌, ◌<◌, ◌≤◌, ◌↔◌, [], ◌∷◌, ◌++◌, max, IfOk, IfSome, IsNone, length};
ghost use Rattle.map_model.specs.Balance.{IsBalanced, weight};
ghost use Rattle.map_model.specs.Entries.{IsIncreasing};
ghost use Rattle.aug_monoid.specs.Fresh.{IsFresh};

use aug_monoid::{Leaf, NoMemory, Share, Steps, share_entry};
use std::alloc::Global;
use std::marker::Brand;
use std::sync::ledger::{Blank, Ledger};
use tree_shape::{Around, Look, Shape, Tree, cut_around};

/// A map's entry with what is below it and above it.
#[derive(Drop)]
pub struct Exposed<M: Shape> {
    pub left: Tree<M>,
    pub key: M::Key,
    pub val: M::Val,
    pub right: Tree<M>,
}

/// An entry of a map with its two sides, which are balanced: those of the top node, or the halves of a block. O(M::BLOCK).
pub fn expose<M: Shape>(alloc: Global, tree: &Tree<M>) -> Result<Option<Exposed<M>>, NoMemory>
    ensures none { IfOk result (λ parts. IsNone parts ↔ (tree.now.entries ≡ [])) }
    ensures entries { IfOk result (λ parts. IfSome parts (λ p. tree.now.entries ≡ p.left.entries ++ (p.key, p.val) ∷ p.right.entries)) }
    ensures balanced { IfOk result (λ parts. IfSome parts (λ p. IsBalanced (weight p.left.entries) (weight p.right.entries))) }
    ensures height { IfOk result (λ parts. IfSome parts (λ p. 2 * M.BLOCK < length tree.now.entries → tree.now.height ≡ max p.left.height p.right.height + 1)) }
{
    match tree.look() {
        Look::Empty => Ok(None),
        Look::Block { leaf } => {
            let halves = halves_of::<M, Brand>(alloc, leaf, Blank::new(1))?;
            Ok(Some(halves))
        }
        Look::Node {
            left,
            key,
            val,
            right,
        } => {
            let sides = shared_sides(alloc, left, key, val, right)?;
            Ok(Some(sides))
        }
    }
}

// Other owners of a node's parts.
fn shared_sides<M: Shape>(
    alloc: Global,
    left: &Tree<M>,
    key: &M::Key,
    val: &M::Val,
    right: &Tree<M>,
) -> Result<Exposed<M>, NoMemory>
    ensures left { IfOk result (λ p. p.left ≡ left.now) }
    ensures key { IfOk result (λ p. p.key ≡ key.now) }
    ensures val { IfOk result (λ p. p.val ≡ val.now) }
    ensures right { IfOk result (λ p. p.right ≡ right.now) }
{
    let left = left.share(alloc)?;
    let right = right.share(alloc)?;
    let (key, val) = share_entry(alloc, key, val)?;
    Ok(Exposed {
        left,
        key,
        val,
        right,
    })
}

// The middle entry of a block and its halves, with a counter of its own.
fn halves_of<M: Shape, C: Ledger>(
    alloc: Global,
    leaf: &M::Leaf,
    blank: Blank,
) -> Result<Exposed<M>, NoMemory>
    requires fresh { IsFresh C.name C.parts blank }
    requires increasing { IsIncreasing M.Key.cmp (M.Leaf.entries leaf.now) }
    requires some { 0 < length (M.Leaf.entries leaf.now) }
    requires short { length (M.Leaf.entries leaf.now) ≤ 2 * M.BLOCK }
    ensures entries { IfOk result (λ p. M.Leaf.entries leaf.now ≡ p.left.entries ++ (p.key, p.val) ∷ p.right.entries) }
    ensures balanced { IfOk result (λ p. IsBalanced (weight p.left.entries) (weight p.right.entries)) }
{
    let mut steps = Steps::<C>::start(blank);
    let Around {
        front,
        key,
        val,
        back,
    } = cut_around(alloc, leaf, (leaf.len() - 1) / 2)?;
    let left = Tree::from_leaf(alloc, front, &mut steps)?;
    let right = Tree::from_leaf(alloc, back, &mut steps)?;
    Ok(Exposed {
        left,
        key,
        val,
        right,
    })
}
