//! Maps taken apart and put together.
ghost use Rattle.std.specs.Prelude.{◌≡◌, ℕ, ◌+◌, ◌*◌, ◌^◌, ◌<◌, ◌≤◌, ◌↔◌, [], ◌∷◌, ◌++◌, IfOk, IfSome, IsNone, length, max};
ghost use Rattle.map_model.specs.Balance.{IsBalanced, weight};
ghost use Rattle.map_model.specs.Entries.{AllAbove, AllBelow, IsBefore, above, below, lookup};

use crate::map::Map;
use aug_monoid::{NoMemory, Steps};
use std::alloc::Global;
use std::sync::ledger::Ledger;
use tree_shape::Shape;

/// An entry of a map, with the map of what is below it and that of what is above it.
#[derive(Drop)]
pub struct Exposed<M: Shape> {
    pub left: Map<M>,
    pub key: M::Key,
    pub val: M::Val,
    pub right: Map<M>,
}

/// The entries below a key, the value at it, and the entries above it.
#[derive(Drop)]
pub struct Parts<M: Shape> {
    pub below: Map<M>,
    pub found: Option<M::Val>,
    pub above: Map<M>,
}

impl<M: Shape> Map<M> {
    /// An entry of the map, with two sides whose weights are balanced; none exactly where there are no entries. Where there are
    /// more than `2 * B` entries, the height is 1 plus that of the higher side. O(B).
    pub fn expose(&self, alloc: Global) -> Result<Option<Exposed<M>>, NoMemory>
        ensures none { IfOk result (λ parts. IsNone parts ↔ (self.now.entries ≡ [])) }
        ensures entries { IfOk result (λ parts. IfSome parts (λ p. self.now.entries ≡ p.left.entries ++ (p.key, p.val) ∷ p.right.entries)) }
        ensures balanced { IfOk result (λ parts. IfSome parts (λ p. IsBalanced (weight p.left.entries) (weight p.right.entries))) }
        ensures height { IfOk result (λ parts. IfSome parts (λ p. 2 * M.BLOCK < length self.now.entries → self.now.height ≡ max p.left.height p.right.height + 1)) }
    {
        let Some(sides) = tree_cut::expose(alloc, &self.tree)? else {
            return Ok(None);
        };
        Ok(Some(Exposed {
            left: Map { tree: sides.left },
            key: sides.key,
            val: sides.val,
            right: Map { tree: sides.right },
        }))
    }

    /// The map of all entries of a left map, an entry whose key is greater than all theirs, and a right map whose keys are
    /// greater still. Its time is linear in the difference of the heights.
    pub fn join<C: Ledger>(
        alloc: Global,
        left: &Map<M>,
        key: M::Key,
        val: M::Val,
        right: &Map<M>,
        steps: &mut Steps<C>,
    ) -> Result<Map<M>, NoMemory>
        requires below { AllBelow M.Key.cmp left.now.entries key }
        requires above { AllAbove M.Key.cmp right.now.entries key }
        ensures entries { IfOk result (λ map. map.entries ≡ left.now.entries ++ (key, val) ∷ right.now.entries) }
        ensures cost { weight left.now.entries ≤ 3 * weight right.now.entries + 3 → weight right.now.entries ≤ 3 * weight left.now.entries + 3 → steps.new ≤ steps.old + 7 * (4 * M.BLOCK + 4) }
    {
        Map::from_tree(tree_join::join(alloc, &left.tree, key, val, &right.tree, steps))
    }

    /// The entries below a key, the value at it, and the entries above it. Its time is linear in the height: where
    /// `(3/4)^n * (size + 1)` is at most B, it takes at most `(2 * height + 6 * n + 1) * (4 * B + 4) + M::Leaf::FIND` steps.
    pub fn split<C: Ledger>(
        &self,
        alloc: Global,
        key: &M::Key,
        steps: &mut Steps<C>,
    ) -> Result<Parts<M>, NoMemory>
        ensures below { IfOk result (λ parts. parts.below.entries ≡ below M.Key.cmp self.now.entries key.now) }
        ensures found { IfOk result (λ parts. parts.found ≡ lookup M.Key.cmp self.now.entries key.now) }
        ensures above { IfOk result (λ parts. parts.above.entries ≡ above M.Key.cmp self.now.entries key.now) }
        ensures cost { (n : ℕ) → 3 ^ n * weight self.now.entries ≤ 4 ^ n * M.BLOCK → steps.new ≤ steps.old + ((2 * self.now.height + 6 * n + 1) * (4 * M.BLOCK + 4) + M.Leaf.FIND) }
    {
        let parts = tree_cut::split(alloc, &self.tree, key, steps)?;
        Ok(Parts {
            below: Map { tree: parts.below },
            found: parts.found,
            above: Map { tree: parts.above },
        })
    }

    /// The map of all entries of a left map and a right map whose keys are greater. Its time is linear in the heights.
    pub fn join2<C: Ledger>(
        alloc: Global,
        left: &Map<M>,
        right: &Map<M>,
        steps: &mut Steps<C>,
    ) -> Result<Map<M>, NoMemory>
        requires before { IsBefore M.Key.cmp left.now.entries right.now.entries }
        ensures entries { IfOk result (λ map. map.entries ≡ left.now.entries ++ right.now.entries) }
        ensures cost { IsBalanced (weight left.now.entries) (weight right.now.entries) → steps.new ≤ steps.old + (64 * (right.now.height + 1) * (M.BLOCK + 2) + 7 * (4 * M.BLOCK + 4)) }
    {
        Map::from_tree(tree_join::join2(alloc, &left.tree, &right.tree, steps))
    }
}
