//! Intersection.
ghost use Rattle.std.specs.Prelude.{◌≡◌, false, IfOk};
ghost use Rattle.map_model.specs.SetOperations.{intersect as intersection_of_entries};
ghost use Rattle.map_model.proofs.Intersections.{of_both};
ghost use Rattle.bulk_ops.specs.Laws.{intersection_laws};

use crate::combination::Combination;
use aug_monoid::{Key, NoMemory, Resolve, Share, Steps};
use entry_lists::intersect_of;
use std::alloc::Global;
use std::sync::ledger::Ledger;

/// The intersection: the combination of two maps that has the entries whose keys both have, with what `how` makes of the first map's
/// value and the second's.
///
/// `divide` of a `Combining` with it forks, and `divide_alone` does the same on one thread. For maps of m and n entries, m at most
/// n, O(m * log(n / m + 1)) work and a call of `how` for each key of both; where one map is empty it ends at once. It refuses only for
/// want of memory.
#[derive(Drop)]
pub struct Intersecting<'a, H> {
    pub how: &'a H,
}

impl<'a, K: Key, V: Share, H: Resolve<V>> Combination<K, V> for Intersecting<'a, H> {
    ghost combined = { λ work. intersection_of_entries K.cmp (H.resolved work.how.now) };

    ghost kept = { λ work. of_both (H.resolved work.how.now) };

    ghost first_stays = { λ _. false };

    ghost second_stays = { λ _. false };

    ghost laws = { λ work. intersection_laws K.total K.exact (H.resolved work.how.now) };

    fn keeps_first(&self) -> bool {
        false
    }

    fn keeps_second(&self) -> bool {
        false
    }

    fn keep(&self, alloc: Global, a: Option<&V>, b: Option<&V>) -> Result<Option<V>, NoMemory> {
        match (a, b) {
            (Some(first), Some(second)) => Ok(Some(self.how.resolve(alloc, first, second)?)),
            _ => Ok(None),
        }
    }

    fn combine_slices<C: Ledger>(
        &self,
        alloc: Global,
        a: &[(K, V)],
        b: &[(K, V)],
        steps: &mut Steps<C>,
    ) -> Result<Vec<(K, V)>, NoMemory> {
        intersect_of::<K, V, H, C>(alloc, a, b, self.how, steps)
    }
}
