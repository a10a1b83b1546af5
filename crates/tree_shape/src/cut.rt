//! A leaf cut at one of its entries.
ghost use Rattle.std.specs.Prelude.{◌<◌, IfOk, length};
ghost use Rattle.tree_shape.specs.Cuts.{IsCutAround};

use aug_monoid::{Key, Leaf, NoMemory, Share};
use std::alloc::Global;

/// An entry of a leaf, and what stands before and after it.
#[derive(Drop)]
pub struct Around<K, V, L> {
    pub front: L,
    pub key: K,
    pub val: V,
    pub back: L,
}

/// The parts of a leaf around the entry at a place. O(n) for a leaf of n entries.
pub fn cut_around<K: Key, V: Share, L: Leaf<K, V>>(
    alloc: Global,
    leaf: &L,
    at: u64,
) -> Result<Around<K, V, L>, NoMemory>
    requires { at < length (L.entries leaf.now) }
    ensures { IfOk result (λ parts. IsCutAround (L.entries leaf.now) at (L.entries parts.front) (parts.key, parts.val) (L.entries parts.back)) }
{
    // For the proof alone: places of a leaf fit their type.
    let _count = leaf.len();
    let Some(middle) = leaf.get_at(at) else {
        unreachable!()
    };
    let (key, val) = middle.into_entry(alloc)?;
    let front = leaf.front(alloc, at)?;
    let back = leaf.back(alloc, at + 1)?;
    Ok(Around {
        front,
        key,
        val,
        back,
    })
}

/// The same as `cut_around`, of a leaf that is taken over: where its entries move, none of them is shared.
pub(crate) fn cut_owned<K: Key, V: Share, L: Leaf<K, V>>(
    alloc: Global,
    leaf: L,
    at: u64,
) -> Result<Around<K, V, L>, NoMemory>
    requires { at < length (L.entries leaf) }
    ensures { IfOk result (λ parts. IsCutAround (L.entries leaf) at (L.entries parts.front) (parts.key, parts.val) (L.entries parts.back)) }
{
    let (front, (key, val), back) = leaf.cut(alloc, at)?;
    Ok(Around {
        front,
        key,
        val,
        back,
    })
}
