//! A key set to a value in place.
ghost use Rattle.std.specs.Prelude.{◌≡◌, ◌+◌, ◌*◌, ◌<◌, ◌≤◌, IfOk, IsTrue, OnErr, length};
ghost use Rattle.map_model.specs.Entries.{lookup, set};
ghost use Rattle.tree_change.specs.Growths.{IsAsHigh, IsLarger};
ghost use Rattle.tree_change.specs.Looks.{look_cost};

use crate::blocks::put_in_own_block;
use crate::nodes::{Growth, PartMut, Way, put_here, refresh_after_put, way_of_put};
use crate::replaced::{Replaced, share_at_place, share_in_tree};
use crate::shape_mut::ShapeMut;
use aug_monoid::{Augment, Leaf, NoMemory, Steps};
use std::alloc::Global;
use std::sync::Arc;
use std::sync::ledger::Ledger;
use tree_entry::{get, put, put_sought};
use tree_shape::{Shape, Top, Tree};

/// Sets a key to a value, in O(log n + M::BLOCK) time: in place at each node and block that has one owner and keeps its shape,
/// and from the first one on that has not, or would not, as `put` does. After a refusal the map is as it was. It takes at most
/// `64 * (height + 1) * (M::BLOCK + 2) + M::Leaf::FIND` steps.
pub fn put_mut<M: ShapeMut, C: Ledger>(
    alloc: Global,
    tree: &mut Tree<M>,
    key: M::Key,
    val: M::Val,
    steps: &mut Steps<C>,
) -> Result<(), NoMemory>
    ensures entries { IfOk result (λ _. tree.new.entries ≡ set M.Key.cmp tree.old.entries key val) }
    ensures kept { OnErr result (tree.new ≡ tree.old) }
    ensures cost { steps.new ≤ steps.old + (64 * (tree.old.height + 1) * (M.BLOCK + 2) + M.Leaf.FIND) }
{
    if <M::Augment>::is_total() {
        let Ok(base) = <M::Augment>::base(alloc, &key, &val) else {
            unreachable!()
        };
        let mut replaced = Replaced {
            is_wanted: false,
            val: None,
        };
        put_in(
            alloc,
            PartMut { tree },
            key,
            val,
            &base,
            &mut replaced,
            steps,
        )?;
        return Ok(());
    }
    *tree = put(alloc, tree, key, val, steps)?;
    Ok(())
}

/// Sets a key to a value, as `put_mut` does, and answers the value that it had. It goes down once where `put_mut` changes the map in
/// place, and from the first copy on looks for the value too: at most `65 * (height + 1) * (M::BLOCK + 2) + 2 * M::Leaf::FIND` steps.
/// Of a node that has one owner the old value is taken, of a block a share is made. After a refusal the map is as it was.
pub fn insert_mut<M: ShapeMut, C: Ledger>(
    alloc: Global,
    tree: &mut Tree<M>,
    key: M::Key,
    val: M::Val,
    steps: &mut Steps<C>,
) -> Result<Option<M::Val>, NoMemory>
    ensures value { IfOk result (λ old. old ≡ lookup M.Key.cmp tree.old.entries key) }
    ensures entries { IfOk result (λ _. tree.new.entries ≡ set M.Key.cmp tree.old.entries key val) }
    ensures kept { OnErr result (tree.new ≡ tree.old) }
    ensures cost { steps.new ≤ steps.old + (65 * (tree.old.height + 1) * (M.BLOCK + 2) + 2 * M.Leaf.FIND) }
{
    if <M::Augment>::is_total() {
        let Ok(base) = <M::Augment>::base(alloc, &key, &val) else {
            unreachable!()
        };
        let mut replaced = Replaced {
            is_wanted: true,
            val: None,
        };
        put_in(
            alloc,
            PartMut { tree },
            key,
            val,
            &base,
            &mut replaced,
            steps,
        )?;
        return Ok(replaced.val);
    }
    let old = get(alloc, tree, &key, steps)?;
    *tree = put(alloc, tree, key, val, steps)?;
    Ok(old)
}

/// Whether a node may change in place is asked before the way down, so that nothing has changed when memory is asked for. `base` is
/// the entry's base value, with which folds are made where values combine alike in either order. The answer is what each level up
/// has to know of what the put changed.
fn put_in<M: ShapeMut, C: Ledger>(
    alloc: Global,
    part: PartMut<'_, M>,
    key: M::Key,
    val: M::Val,
    base: &M::Aug,
    replaced: &mut Replaced<M::Val>,
    steps: &mut Steps<C>,
) -> Result<Growth, NoMemory>
    requires total { M.Augment.never_refuses }
    requires base { base.now ≡ M.Augment.base_of key val }
    requires unset { replaced.old.val ≡ None }
    ensures replaced { IfOk result (λ _. IsTrue replaced.old.is_wanted → replaced.new.val ≡ lookup M.Key.cmp part.entry.tree.now.entries key) }
    ensures entries { IfOk result (λ _. part.exit.0.now.entries ≡ set M.Key.cmp part.entry.tree.now.entries key val) }
    ensures larger { IfOk result (λ growth. IsLarger growth → length part.entry.tree.now.entries < length part.exit.0.now.entries) }
    ensures as_high { IfOk result (λ growth. IsAsHigh growth → part.exit.0.now.height ≡ part.entry.tree.now.height) }
    ensures kept { OnErr result (part.exit.0.now ≡ part.entry.tree.now) }
    ensures cost { steps.new ≤ steps.old + (64 * (part.entry.tree.now.height + 1) * (M.BLOCK + 2) + (M.Leaf.FIND + look_cost replaced.old.is_wanted part.entry.tree.now.height M.Leaf.FIND)) }
{
    let PartMut { tree } = part;
    if let Top::Node(owner) = &mut tree.top {
        if let Some(node) = Arc::get_mut(owner) {
            match way_of_put(node, &key, steps) {
                Way::Left => {
                    let left = PartMut {
                        tree: &mut node.left,
                    };
                    let growth = put_in(alloc, left, key, val, base, replaced, steps)?;
                    return Ok(refresh_after_put(alloc, node, growth, base, steps));
                }
                Way::Here => {
                    replaced.val = Some(put_here(alloc, node, val, steps));
                    return Ok(Growth::Same);
                }
                Way::Right => {
                    let right = PartMut {
                        tree: &mut node.right,
                    };
                    let growth = put_in(alloc, right, key, val, base, replaced, steps)?;
                    return Ok(refresh_after_put(alloc, node, growth, base, steps));
                }
                Way::Copy => {}
            }
        }
    }
    put_at_end(alloc, PartMut { tree }, key, val, base, replaced, steps)
}

/// The end of a put's way down: in place in a block that has one owner and room, and else in a copy. It is no part of `put_in`, so
/// that a level saves few registers.
#[inline(never)]
fn put_at_end<M: ShapeMut, C: Ledger>(
    alloc: Global,
    part: PartMut<'_, M>,
    key: M::Key,
    val: M::Val,
    base: &M::Aug,
    replaced: &mut Replaced<M::Val>,
    steps: &mut Steps<C>,
) -> Result<Growth, NoMemory>
    requires total { M.Augment.never_refuses }
    requires base { base.now ≡ M.Augment.base_of key val }
    requires unset { replaced.old.val ≡ None }
    ensures replaced { IfOk result (λ _. IsTrue replaced.old.is_wanted → replaced.new.val ≡ lookup M.Key.cmp part.entry.tree.now.entries key) }
    ensures entries { IfOk result (λ _. part.exit.0.now.entries ≡ set M.Key.cmp part.entry.tree.now.entries key val) }
    ensures larger { IfOk result (λ growth. IsLarger growth → length part.entry.tree.now.entries < length part.exit.0.now.entries) }
    ensures as_high { IfOk result (λ growth. IsAsHigh growth → part.exit.0.now.height ≡ part.entry.tree.now.height) }
    ensures kept { OnErr result (part.exit.0.now ≡ part.entry.tree.now) }
    ensures cost { steps.new < steps.old + (64 * (part.entry.tree.now.height + 1) * (M.BLOCK + 2) + (M.Leaf.FIND + look_cost replaced.old.is_wanted part.entry.tree.now.height M.Leaf.FIND)) }
{
    let PartMut { tree } = part;
    if let Top::Block(owner) = &mut tree.top {
        if let Some(block) = Arc::get_mut(owner) {
            let place = block.leaf.seek(&key, steps);
            if place.hit || block.leaf.len() < 2 * M::BLOCK as u64 {
                share_at_place(alloc, &block.leaf, place, replaced)?;
                return put_in_own_block(alloc, block, place, key, val, base, steps);
            }
            *tree = put_sought(alloc, &block.leaf, place, key, val, steps)?;
            return Ok(Growth::Level);
        }
    }
    share_in_tree(alloc, tree, &key, replaced, steps)?;
    let (copy, growth) = put_copy(alloc, tree, key, val, steps)?;
    *tree = copy;
    Ok(growth)
}

/// The map with a key set to a value, as `put` makes it, and what that did to its extent.
fn put_copy<M: Shape, C: Ledger>(
    alloc: Global,
    tree: &Tree<M>,
    key: M::Key,
    val: M::Val,
    steps: &mut Steps<C>,
) -> Result<(Tree<M>, Growth), NoMemory>
    ensures entries { IfOk result (λ made. made.0.entries ≡ set M.Key.cmp tree.now.entries key val) }
    ensures larger { IfOk result (λ made. IsLarger made.1 → length tree.now.entries < length made.0.entries) }
    ensures as_high { IfOk result (λ made. ¬ (IsAsHigh made.1)) }
    ensures cost { steps.new < steps.old + (64 * (tree.now.height + 1) * (M.BLOCK + 2) + M.Leaf.FIND) }
{
    let copy = put(alloc, tree, key, val, steps)?;
    let growth = if tree.size() < copy.size() {
        Growth::Level
    } else {
        Growth::Same
    };
    Ok((copy, growth))
}
