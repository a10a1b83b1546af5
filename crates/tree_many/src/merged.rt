//! Sorted keys answered in a leaf by one walk over both.
ghost use Rattle.std.specs.Prelude.{◌≡◌, ◌≤◌, ◌++◌, true, Some, None, IfOk, if◌then◌else◌, length, map, take, drop};
ghost use Rattle.std.specs.List.Sorted.{IsSortedByKey};
ghost use Rattle.std.specs.Ordering.{is_eq, is_le};
ghost use Rattle.map_model.specs.Entries.{AllAbove, AllKeys, IsIncreasing, lookup};

use crate::answers::Answer;
use crate::sorted::push_missing;
use aug_monoid::{Key, Leaf, NoMemory, Share};
use std::alloc::Global;
use std::cmp::Ordering;

/// The answer for a key by its order to that of an entry.
fn answer_by<V, W: Answer<V>>(alloc: Global, order: Ordering, val: &V) -> Result<W::Out, NoMemory>
    ensures { IfOk result (λ out. out ≡ W.answer (if is_eq order then Some val.now else None)) }
{
    if order.is_eq() {
        W::found(alloc, val)
    } else {
        Ok(W::missing())
    }
}

/// Appends to answers those for sorted keys up to that of an entry, and tells how many these are.
fn push_upto<K: Key, V, W: Answer<V>>(
    alloc: Global,
    key: &K,
    val: &V,
    keys: &[(K, usize)],
    outs: &mut Vec<(usize, W::Out)>,
) -> Result<usize, NoMemory>
    requires { IsSortedByKey (λ e. e.0) K.cmp keys.now }
    ensures inside { IfOk result (λ count. count ≤ length keys.now) }
    ensures front { IfOk result (λ count. AllKeys (λ k. is_le (K.cmp k key.now) ≡ true) (take count keys.now)) }
    ensures back { IfOk result (λ count. AllAbove K.cmp (drop count keys.now) key.now) }
    ensures answers { IfOk result (λ count. outs.new.items ≡ outs.old.items
        ++ map (λ e. (e.1, W.answer (if is_eq (K.cmp e.0 key.now) then Some val.now else None))) (take count keys.now)) }
{
    let mut count = 0;
    for (other, place) in keys {
        let order = other.cmp(key);
        if order.is_gt() {
            return Ok(count);
        }
        outs.push((*place, answer_by::<V, W>(alloc, order, val)?))?;
        count += 1;
    }
    Ok(count)
}

/// Appends to answers those for sorted keys of a leaf, in one walk over both. O(m + n) for m keys and a leaf of n entries.
pub(crate) fn push_merged<K: Key, V: Share, L: Leaf<K, V>, W: Answer<V>>(
    alloc: Global,
    leaf: &L,
    keys: &[(K, usize)],
    outs: &mut Vec<(usize, W::Out)>,
) -> Result<(), NoMemory>
    requires increasing { IsIncreasing K.cmp (L.entries leaf.now) }
    requires sorted { IsSortedByKey (λ e. e.0) K.cmp keys.now }
    ensures { IfOk result (λ _. outs.new.items ≡ outs.old.items ++ map (λ e. (e.1, W.answer (lookup K.cmp (L.entries leaf.now) e.0))) keys.now) }
{
    let mut rest = keys;
    let mut walk = leaf.walk();
    for _at in 0..leaf.len() {
        if rest.is_empty() {
            return Ok(());
        }
        let Some(entry) = leaf.walk_next(&mut walk) else {
            unreachable!()
        };
        let count = push_upto::<K, V, W>(alloc, entry.key(), entry.val(), rest, outs)?;
        rest = rest.split_at(count).1;
    }
    push_missing::<K, V, W>(rest, outs)
}
