//! A test of the greatest weight.
ghost use Rattle.inverted_index.specs.Ranks.{weighs, weighs_either};

use aug_monoid::{AugTest, SumMax, Totals};

/// The weights that are at least a number.
#[derive(Drop)]
pub(crate) struct WeightsFrom {
    pub(crate) least: u64,
}

impl AugTest<SumMax<u64>> for WeightsFrom {
    ghost admits = { λ s totals. weighs s.least totals };

    ghost passes_either = { λ s. weighs_either s.least };

    fn passes(&self, totals: &Totals) -> bool {
        self.least <= totals.greatest
    }
}
