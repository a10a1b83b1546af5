//! Difference.
ghost use Rattle.std.specs.Prelude.{◌≡◌, true, false, IfOk};
ghost use Rattle.map_model.specs.SetOperations.{difference as difference_of_entries};
ghost use Rattle.bulk_ops.specs.Combination.{unless};
ghost use Rattle.bulk_ops.specs.Laws.{difference_laws};

use crate::combination::Combination;
use aug_monoid::{Key, NoMemory, Share, Steps};
use entry_lists::difference_of;
use std::alloc::Global;
use std::sync::ledger::Ledger;

/// The difference: the combination of two maps that has the first map's entries whose keys the second hasn't.
///
/// `divide` of a `Combining` with it forks, and `divide_alone` does the same on one thread. For maps of m and n entries, m at most
/// n, O(m * log(n / m + 1)) work; where one map is empty it shares the first. It refuses only for want of memory.
#[derive(Drop)]
pub struct Differing;

impl<K: Key, V: Share> Combination<K, V> for Differing {
    ghost combined = { λ _. difference_of_entries K.cmp };

    ghost kept = { λ _. unless };

    ghost first_stays = { λ _. true };

    ghost second_stays = { λ _. false };

    ghost laws = { λ _. difference_laws K.total K.exact };

    fn keeps_first(&self) -> bool {
        true
    }

    fn keeps_second(&self) -> bool {
        false
    }

    fn keep(&self, alloc: Global, a: Option<&V>, b: Option<&V>) -> Result<Option<V>, NoMemory> {
        match (a, b) {
            (Some(first), None) => Ok(Some(first.share(alloc)?)),
            _ => Ok(None),
        }
    }

    fn combine_slices<C: Ledger>(
        &self,
        alloc: Global,
        a: &[(K, V)],
        b: &[(K, V)],
        steps: &mut Steps<C>,
    ) -> Result<Vec<(K, V)>, NoMemory> {
        difference_of::<K, V, C>(alloc, a, b, steps)
    }
}
