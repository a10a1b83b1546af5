//! Union.
ghost use Rattle.std.specs.Prelude.{◌≡◌, true, IfOk};
ghost use Rattle.map_model.specs.SetOperations.{union as union_of_entries};
ghost use Rattle.map_model.proofs.Unions.{united};
ghost use Rattle.bulk_ops.specs.Laws.{union_laws};

use crate::combination::Combination;
use aug_monoid::{Key, NoMemory, Resolve, Share, Steps};
use entry_lists::union_of;
use std::alloc::Global;
use std::sync::ledger::Ledger;

/// The union: the combination of two maps that has the entries of either. At a key of both the value is what `how` makes of the first
/// map's value and the second's.
///
/// `divide` of a `Combining` with it forks, and `divide_alone` does the same on one thread. For maps of m and n entries, m at most
/// n, O(m * log(n / m + 1)) work and a call of `how` for each key of both; where one map is empty it shares the other. It refuses only
/// for want of memory.
#[derive(Drop)]
pub struct Uniting<'a, H> {
    pub how: &'a H,
}

impl<'a, K: Key, V: Share, H: Resolve<V>> Combination<K, V> for Uniting<'a, H> {
    ghost combined = { λ work. union_of_entries K.cmp (H.resolved work.how.now) };

    ghost kept = { λ work. united (H.resolved work.how.now) };

    ghost first_stays = { λ _. true };

    ghost second_stays = { λ _. true };

    ghost laws = { λ work. union_laws K.total K.exact (H.resolved work.how.now) };

    fn keeps_first(&self) -> bool {
        true
    }

    fn keeps_second(&self) -> bool {
        true
    }

    fn keep(&self, alloc: Global, a: Option<&V>, b: Option<&V>) -> Result<Option<V>, NoMemory> {
        match (a, b) {
            (Some(first), Some(second)) => Ok(Some(self.how.resolve(alloc, first, second)?)),
            (Some(first), None) => Ok(Some(first.share(alloc)?)),
            (None, Some(second)) => Ok(Some(second.share(alloc)?)),
            (None, None) => Ok(None),
        }
    }

    fn combine_slices<C: Ledger>(
        &self,
        alloc: Global,
        a: &[(K, V)],
        b: &[(K, V)],
        steps: &mut Steps<C>,
    ) -> Result<Vec<(K, V)>, NoMemory> {
        union_of::<K, V, H, C>(alloc, a, b, self.how, steps)
    }
}
