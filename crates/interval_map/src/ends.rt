//! A test of the greatest right end.
ghost use Rattle.std.specs.Prelude.{◌≡◌};
ghost use Rattle.interval_map.specs.Ends.{reaches, reaches_either};

use aug_monoid::{AugTest, MaxRight};

/// The right ends that are at least a number.
#[derive(Drop)]
pub(crate) struct EndsFrom {
    pub(crate) least: u64,
}

impl AugTest<MaxRight> for EndsFrom {
    ghost admits = { λ s right. reaches s.least right };

    ghost passes_either = { λ s. reaches_either s.least };

    fn passes(&self, right: &Option<u64>) -> bool {
        match right {
            Some(right) => self.least <= *right,
            None => false,
        }
    }
}
