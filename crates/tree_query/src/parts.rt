//! Parts of maps.
ghost use Rattle.std.specs.Prelude.{◌≡◌, ◌*◌, ◌≤◌, IfOk, length};
ghost use Rattle.map_model.specs.Entries.{IsIncreasing, above, below};
ghost use Rattle.map_model.specs.Parts.{right_of, slice};
ghost use Rattle.tree_query.specs.Within.{within};
ghost use Rattle.aug_monoid.specs.Fresh.{IsFresh};

use crate::range::{KeyRange, Span};
use aug_monoid::{Key, Leaf, NoMemory, Share, Steps};
use std::alloc::Global;
use std::marker::Brand;
use std::sync::ledger::{Blank, Ledger};
use tree_join::join_lent;
use tree_shape::{Look, Shape, Tree};

/// The map of the entries with keys less than `key`. It shares the trees beside one path, makes at most one block anew, and
/// its time is logarithmic in the number of entries.
pub fn below<M: Shape>(alloc: Global, tree: &Tree<M>, key: &M::Key) -> Result<Tree<M>, NoMemory>
    ensures { IfOk result (λ part. part.entries ≡ below M.Key.cmp tree.now.entries key.now) }
{
    let range = KeyRange::Below { hi: key };
    keep::<M, Brand>(alloc, Span { tree, range }, Blank::new(1))
}

/// The map of the entries with keys greater than `key`. It shares the trees beside one path, makes at most one block anew, and
/// its time is logarithmic in the number of entries.
pub fn above<M: Shape>(alloc: Global, tree: &Tree<M>, key: &M::Key) -> Result<Tree<M>, NoMemory>
    ensures { IfOk result (λ part. part.entries ≡ above M.Key.cmp tree.now.entries key.now) }
{
    let range = KeyRange::Above { lo: key };
    keep::<M, Brand>(alloc, Span { tree, range }, Blank::new(1))
}

/// The map of the entries with keys at least `key`. It shares the trees beside one path, makes at most one block anew, and its
/// time is logarithmic in the number of entries.
pub fn at_least<M: Shape>(alloc: Global, tree: &Tree<M>, key: &M::Key) -> Result<Tree<M>, NoMemory>
    ensures { IfOk result (λ part. part.entries ≡ right_of M.Key.cmp tree.now.entries key.now) }
{
    let range = KeyRange::AtLeast { lo: key };
    keep::<M, Brand>(alloc, Span { tree, range }, Blank::new(1))
}

/// The map of the entries with keys from `lo` to `hi`, both included; it is empty where `lo > hi`. It shares the trees between
/// two paths, makes at most two blocks anew, and its time is logarithmic in the number of entries.
pub fn slice<M: Shape>(
    alloc: Global,
    tree: &Tree<M>,
    lo: &M::Key,
    hi: &M::Key,
) -> Result<Tree<M>, NoMemory>
    ensures { IfOk result (λ part. part.entries ≡ slice M.Key.cmp tree.now.entries lo.now hi.now) }
{
    let range = KeyRange::Between { lo, hi };
    keep::<M, Brand>(alloc, Span { tree, range }, Blank::new(1))
}

/// The map of the entries in a range, with a counter of its own.
fn keep<M: Shape, C: Ledger>(
    alloc: Global,
    span: Span<'_, M>,
    blank: Blank,
) -> Result<Tree<M>, NoMemory>
    requires { IsFresh C.name C.parts blank }
    ensures { IfOk result (λ part. part.entries ≡ within M.Key.cmp span.entry.range span.entry.tree.now.entries) }
{
    let mut steps = Steps::<C>::start(blank);
    keep_span(alloc, span, &mut steps)
}

/// The entries of a leaf in a range, in one walk that ends behind the range.
fn keep_block<K: Key, V: Share, L: Leaf<K, V>, C: Ledger>(
    alloc: Global,
    leaf: &L,
    range: &KeyRange<'_, K>,
    steps: &mut Steps<C>,
) -> Result<Vec<(K, V)>, NoMemory>
    requires { IsIncreasing K.cmp (L.entries leaf.now) }
    ensures { IfOk result (λ kept. kept.items ≡ within K.cmp range.now (L.entries leaf.now)) }
{
    let mut kept = Vec::new(alloc);
    let mut walk = leaf.walk();
    for _at in 0..leaf.len() {
        let Some(entry) = leaf.walk_next(&mut walk) else {
            unreachable!()
        };
        let key = entry.key();
        if range.ends_before(key, steps) {
            return Ok(kept);
        }
        if range.begins_after(key, steps) {
            continue;
        }
        kept.push(entry.into_entry(alloc)?)?;
    }
    Ok(kept)
}

/// The map of the entries of a leaf in a range.
fn keep_leaf<M: Shape, C: Ledger>(
    alloc: Global,
    leaf: &M::Leaf,
    range: &KeyRange<'_, M::Key>,
    steps: &mut Steps<C>,
) -> Result<Tree<M>, NoMemory>
    requires increasing { IsIncreasing M.Key.cmp (M.Leaf.entries leaf.now) }
    requires short { length (M.Leaf.entries leaf.now) ≤ 2 * M.BLOCK }
    ensures { IfOk result (λ part. part.entries ≡ within M.Key.cmp range.now (M.Leaf.entries leaf.now)) }
{
    let kept = keep_block::<M::Key, M::Val, M::Leaf, C>(alloc, leaf, range, steps)?;
    Tree::from_owned(alloc, kept, steps)
}

/// The map of the entries in a range.
fn keep_span<M: Shape, C: Ledger>(
    alloc: Global,
    span: Span<'_, M>,
    steps: &mut Steps<C>,
) -> Result<Tree<M>, NoMemory>
    ensures { IfOk result (λ part. part.entries ≡ within M.Key.cmp span.entry.range span.entry.tree.now.entries) }
{
    let Span { tree, range } = span;
    if range.is_all() {
        return tree.share(alloc);
    }
    match tree.look() {
        Look::Empty => tree.share(alloc),
        Look::Block { leaf } => keep_leaf(alloc, leaf, &range, steps),
        Look::Node {
            left,
            key,
            val,
            right,
        } => {
            if range.ends_before(key, steps) {
                return keep_span(alloc, Span { tree: left, range }, steps);
            }
            if range.begins_after(key, steps) {
                return keep_span(alloc, Span { tree: right, range }, steps);
            }
            let low = Span {
                tree: left,
                range: range.left_part(),
            };
            let high = Span {
                tree: right,
                range: range.right_part(),
            };
            let front = keep_span(alloc, low, steps)?;
            let back = keep_span(alloc, high, steps)?;
            join_lent(alloc, &front, key, val, &back, steps)
        }
    }
}
