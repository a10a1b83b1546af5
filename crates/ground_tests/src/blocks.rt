//! A block through its trait. Where memory is refused, a test ends here.

ghost use Rattle.aug_monoid.specs.Fresh.{IsFresh};

use aug_monoid::{Key, Leaf, LeafMut, Lent, Seek, Share, Steps};
use std::alloc::Global;
use std::marker::Brand;
use std::process::Abort;
use std::sync::ledger::{Blank, Ledger};

fn counted_seek<K: Key, V: Share, L: Leaf<K, V>, C: Ledger>(leaf: &L, key: &K, blank: Blank) -> Seek
    requires { IsFresh C.name C.parts blank }
{
    let mut steps = Steps::<C>::start(blank);
    leaf.seek(key, &mut steps)
}

/// The place of a key, and whether it is there.
pub(crate) fn seek_of<K: Key, V: Share, L: Leaf<K, V>>(leaf: &L, key: &K) -> (u64, bool) {
    let seek = counted_seek::<K, V, L, Brand>(leaf, key, Blank::new(1));
    (seek.at, seek.hit)
}

/// Asserts that keys stand at their places, and whether they are there.
pub(crate) fn assert_seeks<R: Abort, K: Key, V: Share, L: Leaf<K, V>>(
    rt: &R,
    leaf: &L,
    rows: &[(K, u64, bool)],
) {
    for row in rows {
        assert_eq!(rt; seek_of(leaf, &row.0), (row.1, row.2));
    }
}

fn push_entry<R: Abort, K: Key, V: Share>(
    rt: &R,
    alloc: Global,
    entries: &mut Vec<(K, V)>,
    entry: Lent<'_, K, V>,
) {
    let entry = entry.into_entry(alloc).expect(rt, "an entry");
    entries.push(entry).expect(rt, "memory");
}

/// The entries that a walk gives, with one call more than there are entries.
pub(crate) fn walked<R: Abort, K: Key, V: Share, L: Leaf<K, V>>(
    rt: &R,
    alloc: Global,
    leaf: &L,
) -> Vec<(K, V)> {
    let mut entries = Vec::new(alloc);
    let mut walk = leaf.walk();
    for _ in 0..leaf.len().saturating_add(1) {
        if let Some(entry) = leaf.walk_next(&mut walk) {
            push_entry(rt, alloc, &mut entries, entry);
        }
    }
    entries
}

/// Asserts that a walk gives these entries.
pub(crate) fn assert_walk<R: Abort, L: Leaf<u64, u64>>(
    rt: &R,
    alloc: Global,
    leaf: &L,
    wanted: &[(u64, u64)],
) {
    assert_eq!(rt; walked(rt, alloc, leaf).as_slice(), wanted);
}

/// Asserts what a list of 1,9 has once a leaf's entries are shared into it.
pub(crate) fn assert_shares<R: Abort, L: Leaf<u64, u64>>(
    rt: &R,
    alloc: Global,
    leaf: &L,
    wanted: &[(u64, u64)],
) {
    let mut entries = Vec::new(alloc);
    entries.push((1, 9)).expect(rt, "memory");
    leaf.share_into(alloc, &mut entries).expect(rt, "memory");
    assert_eq!(rt; entries.as_slice(), wanted);
}

/// The leaf of 5,1 7,2 300,3 with 9,4 in its third place.
pub(crate) fn inserted<R: Abort, L: Leaf<u64, u64>>(rt: &R, alloc: Global) -> L {
    let leaf = L::from_entries(alloc, &[(5, 1), (7, 2), (300, 3)]).expect(rt, "memory");
    leaf.splice(alloc, 2, 2, 9, 4).expect(rt, "memory")
}

/// The leaf of 5,1 7,2 300,3 with 7,8 in the place of its second entry.
pub(crate) fn replaced<R: Abort, L: Leaf<u64, u64>>(rt: &R, alloc: Global) -> L {
    let leaf = L::from_entries(alloc, &[(5, 1), (7, 2), (300, 3)]).expect(rt, "memory");
    leaf.splice(alloc, 1, 2, 7, 8).expect(rt, "memory")
}

/// The leaf of 5,1 7,2 300,3 without its second entry.
pub(crate) fn lessened<R: Abort, L: Leaf<u64, u64>>(rt: &R, alloc: Global) -> L {
    let leaf = L::from_entries(alloc, &[(5, 1), (7, 2), (300, 3)]).expect(rt, "memory");
    leaf.without(alloc, 1).expect(rt, "memory")
}

/// The leaf of 5,1 7,2 with 6,4 between these, put there in place.
pub(crate) fn grown<R: Abort, L: LeafMut<u64, u64>>(rt: &R, alloc: Global) -> L {
    let mut leaf = L::from_entries(alloc, &[(5, 1), (7, 2)]).expect(rt, "memory");
    leaf.insert_at(alloc, 1, 6, 4).expect(rt, "memory");
    leaf
}

/// The leaf of 5,1 7,2 with 7,8 at its second place and without its first entry, in place.
pub(crate) fn shrunk<R: Abort, L: LeafMut<u64, u64>>(rt: &R, alloc: Global) -> L {
    let mut leaf = L::from_entries(alloc, &[(5, 1), (7, 2)]).expect(rt, "memory");
    leaf.set_at(alloc, 1, 7, 8).expect(rt, "memory");
    leaf.remove_at(alloc, 0).expect(rt, "memory");
    leaf
}

/// The leaf of 5,300, which is handed over.
pub(crate) fn one<R: Abort, L: Leaf<u64, u64>>(rt: &R, alloc: Global) -> L {
    let entries = vec![in alloc; (5, 300)].expect(rt, "memory");
    L::from_owned(alloc, entries).expect(rt, "memory")
}

/// The leaf of 5,1 and 7,2, put together around 6,4 of the front and the back of the leaf of both.
pub(crate) fn rejoined<R: Abort, L: Leaf<u64, u64>>(rt: &R, alloc: Global) -> L {
    let leaf = L::from_entries(alloc, &[(5, 1), (7, 2)]).expect(rt, "memory");
    let front = leaf.front(alloc, 1).expect(rt, "memory");
    let back = leaf.back(alloc, 1).expect(rt, "memory");
    front.concat3(alloc, 6, 4, &back).expect(rt, "memory")
}

/// The back of the leaf of 5,1 from behind its entry on, with 7,1 put before the same: an empty leaf on either side.
pub(crate) fn between_none<R: Abort, L: Leaf<u64, u64>>(rt: &R, alloc: Global) -> L {
    let leaf = L::from_entries(alloc, &[(5, 1)]).expect(rt, "memory");
    let none = leaf.front(alloc, 0).expect(rt, "memory");
    let back = leaf.back(alloc, 1).expect(rt, "memory");
    back.concat3(alloc, 7, 1, &none).expect(rt, "memory")
}

/// The same as `rejoined`, of parts that are taken over.
pub(crate) fn rejoined_owned<R: Abort, L: Leaf<u64, u64>>(rt: &R, alloc: Global) -> L {
    let leaf = L::from_entries(alloc, &[(5, 1), (7, 2)]).expect(rt, "memory");
    let front = leaf.front(alloc, 1).expect(rt, "memory");
    let back = leaf.back(alloc, 1).expect(rt, "memory");
    front.concat3_owned(alloc, 6, 4, back).expect(rt, "memory")
}

/// What stands before and after the second entry of the leaf of 5,1 7,2 300,3, which is cut there.
pub(crate) fn cut_apart<R: Abort, L: Leaf<u64, u64>>(rt: &R, alloc: Global) -> (L, L) {
    let leaf = L::from_entries(alloc, &[(5, 1), (7, 2), (300, 3)]).expect(rt, "memory");
    let (front, (key, val), back) = leaf.cut(alloc, 1).expect(rt, "memory");
    assert_eq!(rt; (key, val), (7, 2));
    (front, back)
}
