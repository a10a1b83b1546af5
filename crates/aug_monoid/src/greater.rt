//! The greater of two values.
ghost use Rattle.std.specs.Prelude.{◌≡◌, IfOk, IsOk};
ghost use Rattle.aug_monoid.specs.Later.{later_of};

use crate::no_memory::NoMemory;
use crate::share::Share;
use std::alloc::Global;
use std::cmp::Ordering;

/// Another owner of the greater of two values that may be absent, of the first where they are equal.
pub fn greater_shared<V: Share + Ord>(
    alloc: Global,
    a: &Option<V>,
    b: &Option<V>,
) -> Result<Option<V>, NoMemory>
    ensures value { IfOk result (λ val. val ≡ later_of V.cmp a.now b.now) }
    ensures succeeds { V.never_refuses → IsOk result }
{
    match (a, b) {
        (None, _) => b.share(alloc),
        (_, None) => a.share(alloc),
        (Some(x), Some(y)) => match x.cmp(y) {
            Ordering::Less => b.share(alloc),
            _ => a.share(alloc),
        },
    }
}
