//! Keys that may be absent, which come first, and keys the other way round.
ghost use Rattle.std.specs.Prelude.{◌≡◌};
ghost use Rattle.aug_monoid.specs.Exact.{exact_options, exact_reversed};

use crate::key::Key;
use crate::no_memory::NoMemory;
use crate::share::Share;
use std::alloc::Global;
use std::cmp::Reverse;

impl<K: Key> Key for Option<K> {
    ghost exact = { exact_options K.cmp K.exact };
}

impl<T: Share> Share for Reverse<T> {
    ghost never_refuses = { T.never_refuses };

    fn share(&self, alloc: Global) -> Result<Reverse<T>, NoMemory> {
        Ok(Reverse(self.0.share(alloc)?))
    }

    fn is_total() -> bool {
        T::is_total()
    }
}

impl<K: Key> Key for Reverse<K> {
    ghost exact = { exact_reversed K.cmp K.exact };
}
