//! The lesser of two values, and the lesser or the greater of two entries, that may be absent; the first where the values are equal.
ghost use Rattle.std.specs.Prelude.{◌≡◌, IfOk, IsOk};
ghost use Rattle.std.specs.Ordering.{flip_args};
ghost use Rattle.aug_monoid.specs.Later.{later_of};
ghost use Rattle.map_folds.specs.Later.{by_value};

use aug_monoid::{NoMemory, Share};
use std::alloc::Global;
use std::cmp::Ordering;

pub(crate) fn lesser_shared<V: Share + Ord>(
    alloc: Global,
    a: &Option<V>,
    b: &Option<V>,
) -> Result<Option<V>, NoMemory>
    ensures value { IfOk result (λ val. val ≡ later_of (flip_args V.cmp) a.now b.now) }
    ensures succeeds { V.never_refuses → IsOk result }
{
    match (a, b) {
        (None, _) => b.share(alloc),
        (_, None) => a.share(alloc),
        (Some(x), Some(y)) => match y.cmp(x) {
            Ordering::Less => b.share(alloc),
            _ => a.share(alloc),
        },
    }
}

pub(crate) fn greater_entry<K: Share, V: Share + Ord>(
    alloc: Global,
    a: &Option<(K, V)>,
    b: &Option<(K, V)>,
) -> Result<Option<(K, V)>, NoMemory>
    ensures value { IfOk result (λ entry. entry ≡ later_of (by_value V.cmp) a.now b.now) }
    ensures succeeds { K.never_refuses → V.never_refuses → IsOk result }
{
    match (a, b) {
        (None, _) => b.share(alloc),
        (_, None) => a.share(alloc),
        (Some(x), Some(y)) => match x.1.cmp(&y.1) {
            Ordering::Less => b.share(alloc),
            _ => a.share(alloc),
        },
    }
}

pub(crate) fn lesser_entry<K: Share, V: Share + Ord>(
    alloc: Global,
    a: &Option<(K, V)>,
    b: &Option<(K, V)>,
) -> Result<Option<(K, V)>, NoMemory>
    ensures value { IfOk result (λ entry. entry ≡ later_of (by_value (flip_args V.cmp)) a.now b.now) }
    ensures succeeds { K.never_refuses → V.never_refuses → IsOk result }
{
    match (a, b) {
        (None, _) => b.share(alloc),
        (_, None) => a.share(alloc),
        (Some(x), Some(y)) => match y.1.cmp(&x.1) {
            Ordering::Less => b.share(alloc),
            _ => a.share(alloc),
        },
    }
}
