//! Whether two maps have the same entries.
ghost use Rattle.std.specs.Prelude.{◌≡◌, ◌&&◌, IfOk, IsOk};
ghost use Rattle.std.specs.Cmp.Lexicographic.{pointwise};

use crate::map::{Iter, OrdMap};
use aug_monoid::{Augment, NoMemory};
use std::alloc::Global;

fn same_entry<K: PartialEq, V: PartialEq>(a: &(K, V), b: &(K, V)) -> bool
    ensures { result ≡ (K.eq a.now.0 b.now.0 && V.eq a.now.1 b.now.1) }
{
    a.0 == b.0 && a.1 == b.1
}

fn same_entries<A: Augment<Val: PartialEq>>(
    left: Iter<'_, A>,
    right: Iter<'_, A>,
) -> Result<bool, NoMemory>
    ensures value { IfOk result (λ yes. yes ≡ pointwise (λ p q. A.Key.eq p.0 q.0 && A.Val.eq p.1 q.1) left.entry right.entry) }
    ensures succeeds { A.Key.never_refuses → A.Val.never_refuses → IsOk result }
{
    let mut left = left;
    let mut right = right;
    while let Some(entry) = left.next() {
        let Some(other) = right.next() else {
            return Ok(false);
        };
        if !same_entry(&entry?, &other?) {
            return Ok(false);
        }
    }
    Ok(right.next().is_none())
}

impl<A: Augment<Val: PartialEq>> OrdMap<A> {
    /// Whether another map has the same keys with equal values, as `==` tells of std's maps. It goes over both at once, in O(n), and
    /// ends at the first difference; maps of different sizes take O(1). It makes a share of each entry, and refuses where one
    /// refuses, which std's `Eq` cannot.
    ///
    ///     let map = Sums::from_pairs(alloc, &[(1, 10)])?;
    ///     let other = Sums::from_pairs(alloc, &[(1, 11)])?;
    ///     map.same(alloc, &other)?     // false
    pub fn same(&self, alloc: Global, other: &OrdMap<A>) -> Result<bool, NoMemory>
        ensures value { IfOk result (λ yes. yes ≡ pointwise (λ p q. A.Key.eq p.0 q.0 && A.Val.eq p.1 q.1) self.now other.now) }
        ensures succeeds { A.Key.never_refuses → A.Val.never_refuses → IsOk result }
    {
        if self.len() != other.len() {
            return Ok(false);
        }
        same_entries(self.iter(alloc), other.iter(alloc))
    }
}
