//! Calls that count their steps, each with a counter of its own.
ghost use Rattle.std.specs.Prelude.{◌≡◌, [], ◌∷◌, IfOk, IsOk, OnErr, is_some, length};
ghost use Rattle.std.specs.Option.{option_copied};
ghost use Rattle.map_model.specs.Entries.{drop_key, lookup, set};
ghost use Rattle.map_model.specs.Fold.{fold_of, range_fold};
ghost use Rattle.map_model.specs.Parts.{left_of, next, prev, rank, right_of};
ghost use Rattle.map_model.specs.SetOperations.{union};
ghost use Rattle.aug_monoid.specs.Fresh.{IsFresh};

use aug_map::PlainMap;
use aug_monoid::{Augment, NoMemory, Resolve, Steps};
use std::alloc::Global;
use std::sync::ledger::{Blank, Ledger};

/// The value at a key.
pub(crate) fn get<A: Augment, C: Ledger>(
    alloc: Global,
    map: &PlainMap<A>,
    key: &A::Key,
    blank: Blank,
) -> Result<Option<A::Val>, NoMemory>
    requires { IsFresh C.name C.parts blank }
    ensures value { IfOk result (λ val. val ≡ lookup A.Key.cmp map.now.entries key.now) }
    ensures succeeds { A.Key.never_refuses → A.Val.never_refuses → IsOk result }
{
    let mut steps = Steps::<C>::start(blank);
    map.get(alloc, key, &mut steps)
}

/// Lends the value at a key.
pub(crate) fn get_ref<'a, A: Augment, C: Ledger>(
    map: &'a PlainMap<A>,
    key: &A::Key,
    blank: Blank,
) -> Option<&'a A::Val>
    requires { IsFresh C.name C.parts blank }
    ensures { option_copied result ≡ lookup A.Key.cmp map.now.entries key.now }
{
    let mut steps = Steps::<C>::start(blank);
    map.get_ref(key, &mut steps)
}

/// Whether a key is there.
pub(crate) fn contains_key<A: Augment, C: Ledger>(
    map: &PlainMap<A>,
    key: &A::Key,
    blank: Blank,
) -> bool
    requires { IsFresh C.name C.parts blank }
    ensures { result ≡ is_some (lookup A.Key.cmp map.now.entries key.now) }
{
    let mut steps = Steps::<C>::start(blank);
    map.contains_key(key, &mut steps)
}

/// Sets a key to a value.
pub(crate) fn put<A: Augment, C: Ledger>(
    alloc: Global,
    map: &mut PlainMap<A>,
    key: A::Key,
    val: A::Val,
    blank: Blank,
) -> Result<(), NoMemory>
    requires { IsFresh C.name C.parts blank }
    ensures entries { IfOk result (λ _. map.new.entries ≡ set A.Key.cmp map.old.entries key val) }
    ensures kept { OnErr result (map.new ≡ map.old) }
{
    let mut steps = Steps::<C>::start(blank);
    map.put_mut(alloc, key, val, &mut steps)
}

/// Sets a key to a value, and answers the one that it had.
pub(crate) fn insert<A: Augment, C: Ledger>(
    alloc: Global,
    map: &mut PlainMap<A>,
    key: A::Key,
    val: A::Val,
    blank: Blank,
) -> Result<Option<A::Val>, NoMemory>
    requires { IsFresh C.name C.parts blank }
    ensures value { IfOk result (λ old. old ≡ lookup A.Key.cmp map.old.entries key) }
    ensures entries { IfOk result (λ _. map.new.entries ≡ set A.Key.cmp map.old.entries key val) }
    ensures kept { OnErr result (map.new ≡ map.old) }
{
    let mut steps = Steps::<C>::start(blank);
    map.insert_mut(alloc, key, val, &mut steps)
}

/// Sets a key to what `how` makes of its value and the given one.
pub(crate) fn put_with<A: Augment, H: Resolve<A::Val>, C: Ledger>(
    alloc: Global,
    map: &mut PlainMap<A>,
    key: A::Key,
    val: A::Val,
    how: &H,
    blank: Blank,
) -> Result<(), NoMemory>
    requires { IsFresh C.name C.parts blank }
    ensures entries { IfOk result (λ _. map.new.entries ≡ union A.Key.cmp (H.resolved how.now) map.old.entries ((key, val) ∷ [])) }
    ensures kept { OnErr result (map.new ≡ map.old) }
{
    let mut steps = Steps::<C>::start(blank);
    map.put_with(alloc, key, val, how, &mut steps)
}

/// Removes a key.
pub(crate) fn del<A: Augment, C: Ledger>(
    alloc: Global,
    map: &mut PlainMap<A>,
    key: &A::Key,
    blank: Blank,
) -> Result<(), NoMemory>
    requires { IsFresh C.name C.parts blank }
    ensures entries { IfOk result (λ _. map.new.entries ≡ drop_key A.Key.cmp map.old.entries key.now) }
    ensures kept { OnErr result (map.new ≡ map.old) }
{
    let mut steps = Steps::<C>::start(blank);
    map.del_mut(alloc, key, &mut steps)
}

/// The fold of the entries with keys from `lo` to `hi`.
pub(crate) fn range_fold<A: Augment, C: Ledger>(
    alloc: Global,
    map: &PlainMap<A>,
    lo: &A::Key,
    hi: &A::Key,
    blank: Blank,
) -> Result<A::Aug, NoMemory>
    requires { IsFresh C.name C.parts blank }
    ensures value { IfOk result (λ aug. aug ≡ range_fold A.Key.cmp A.base_of A.unit_of A.combined map.now.entries lo.now hi.now) }
    ensures succeeds { A.never_refuses → IsOk result }
{
    let mut steps = Steps::<C>::start(blank);
    map.aug_range(alloc, lo, hi, &mut steps)
}

/// The fold of the entries with keys at most `key`.
pub(crate) fn left_fold<A: Augment, C: Ledger>(
    alloc: Global,
    map: &PlainMap<A>,
    key: &A::Key,
    blank: Blank,
) -> Result<A::Aug, NoMemory>
    requires { IsFresh C.name C.parts blank }
    ensures value { IfOk result (λ aug. aug ≡ fold_of A.base_of A.unit_of A.combined (left_of A.Key.cmp map.now.entries key.now)) }
    ensures succeeds { A.never_refuses → IsOk result }
{
    let mut steps = Steps::<C>::start(blank);
    map.aug_left(alloc, key, &mut steps)
}

/// The fold of the entries with keys at least `key`.
pub(crate) fn right_fold<A: Augment, C: Ledger>(
    alloc: Global,
    map: &PlainMap<A>,
    key: &A::Key,
    blank: Blank,
) -> Result<A::Aug, NoMemory>
    requires { IsFresh C.name C.parts blank }
    ensures value { IfOk result (λ aug. aug ≡ fold_of A.base_of A.unit_of A.combined (right_of A.Key.cmp map.now.entries key.now)) }
    ensures succeeds { A.never_refuses → IsOk result }
{
    let mut steps = Steps::<C>::start(blank);
    map.aug_right(alloc, key, &mut steps)
}

/// How many keys are less.
pub(crate) fn rank<A: Augment, C: Ledger>(map: &PlainMap<A>, key: &A::Key, blank: Blank) -> u64
    requires { IsFresh C.name C.parts blank }
    ensures { result ≡ rank A.Key.cmp map.now.entries key.now }
{
    let mut steps = Steps::<C>::start(blank);
    map.rank(key, &mut steps)
}

/// How many keys are at most a key.
pub(crate) fn count_to<A: Augment, C: Ledger>(map: &PlainMap<A>, key: &A::Key, blank: Blank) -> u64
    requires { IsFresh C.name C.parts blank }
    ensures { result ≡ length (left_of A.Key.cmp map.now.entries key.now) }
{
    let mut steps = Steps::<C>::start(blank);
    map.count_to(key, &mut steps)
}

/// The entry with the least greater key.
pub(crate) fn next<A: Augment, C: Ledger>(
    alloc: Global,
    map: &PlainMap<A>,
    key: &A::Key,
    blank: Blank,
) -> Result<Option<(A::Key, A::Val)>, NoMemory>
    requires { IsFresh C.name C.parts blank }
    ensures value { IfOk result (λ entry. entry ≡ next A.Key.cmp map.now.entries key.now) }
    ensures succeeds { A.Key.never_refuses → A.Val.never_refuses → IsOk result }
{
    let mut steps = Steps::<C>::start(blank);
    map.next(alloc, key, &mut steps)
}

/// The entry with the greatest lesser key.
pub(crate) fn prev<A: Augment, C: Ledger>(
    alloc: Global,
    map: &PlainMap<A>,
    key: &A::Key,
    blank: Blank,
) -> Result<Option<(A::Key, A::Val)>, NoMemory>
    requires { IsFresh C.name C.parts blank }
    ensures value { IfOk result (λ entry. entry ≡ prev A.Key.cmp map.now.entries key.now) }
    ensures succeeds { A.Key.never_refuses → A.Val.never_refuses → IsOk result }
{
    let mut steps = Steps::<C>::start(blank);
    map.prev(alloc, key, &mut steps)
}
