//! A combination of two maps in exchanged order.
ghost use Rattle.bulk_ops.specs.Laws.{exchanged_laws};

use crate::combination::Combination;
use aug_monoid::{Key, NoMemory, Share, Steps};
use std::alloc::Global;
use std::sync::ledger::Ledger;

/// What `how` makes of the second map and the first.
#[derive(Drop)]
pub(crate) struct Exchanged<'a, W> {
    pub(crate) how: &'a W,
}

impl<'a, K: Key, V: Share, W: Combination<K, V>> Combination<K, V> for Exchanged<'a, W> {
    ghost combined = { λ work a b. W.combined work.how.now b a };

    ghost kept = { λ work o p. W.kept work.how.now p o };

    ghost first_stays = { λ work. W.second_stays work.how.now };

    ghost second_stays = { λ work. W.first_stays work.how.now };

    ghost laws = { λ work. exchanged_laws (W.laws work.how.now) };

    fn keeps_first(&self) -> bool {
        self.how.keeps_second()
    }

    fn keeps_second(&self) -> bool {
        self.how.keeps_first()
    }

    fn keep(&self, alloc: Global, a: Option<&V>, b: Option<&V>) -> Result<Option<V>, NoMemory> {
        self.how.keep(alloc, b, a)
    }

    fn combine_slices<C: Ledger>(
        &self,
        alloc: Global,
        a: &[(K, V)],
        b: &[(K, V)],
        steps: &mut Steps<C>,
    ) -> Result<Vec<(K, V)>, NoMemory> {
        self.how.combine_slices(alloc, b, a, steps)
    }
}
