//! Characters and truth values as keys and values, `false` first.
ghost use Rattle.std.specs.Prelude.{◌≡◌};
ghost use Rattle.map_model.proofs.NatKeys.{nat_exact};
ghost use Rattle.aug_monoid.specs.Exact.{bool_exact};

use crate::key::Key;
use crate::no_memory::NoMemory;
use crate::share::Share;
use std::alloc::Global;

impl Share for bool {
    ghost never_refuses = { Unit {0} };

    fn share(&self, _alloc: Global) -> Result<bool, NoMemory> {
        Ok(*self)
    }

    fn is_total() -> bool {
        true
    }
}

impl Key for bool {
    ghost exact = { bool_exact };
}

impl Share for char {
    ghost never_refuses = { Unit {0} };

    fn share(&self, _alloc: Global) -> Result<char, NoMemory> {
        Ok(*self)
    }

    fn is_total() -> bool {
        true
    }
}

impl Key for char {
    ghost exact = { nat_exact };
}
