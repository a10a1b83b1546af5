//! Numbers as keys and values.
ghost use Rattle.std.specs.Prelude.{◌≡◌};
ghost use Rattle.std.proofs.lemmas.Map.Lookups.{exact_signed};
ghost use Rattle.map_model.proofs.NatKeys.{nat_exact};

use crate::key::Key;
use crate::no_memory::NoMemory;
use crate::share::Share;
use std::alloc::Global;

impl Key for u32 {
    ghost exact = { nat_exact };
}

impl Share for u8 {
    ghost never_refuses = { Unit {0} };

    fn share(&self, _alloc: Global) -> Result<u8, NoMemory> {
        Ok(*self)
    }

    fn is_total() -> bool {
        true
    }
}

impl Key for u8 {
    ghost exact = { nat_exact };
}

impl Share for u16 {
    ghost never_refuses = { Unit {0} };

    fn share(&self, _alloc: Global) -> Result<u16, NoMemory> {
        Ok(*self)
    }

    fn is_total() -> bool {
        true
    }
}

impl Key for u16 {
    ghost exact = { nat_exact };
}

impl Share for u128 {
    ghost never_refuses = { Unit {0} };

    fn share(&self, _alloc: Global) -> Result<u128, NoMemory> {
        Ok(*self)
    }

    fn is_total() -> bool {
        true
    }
}

impl Key for u128 {
    ghost exact = { nat_exact };
}

impl Share for usize {
    ghost never_refuses = { Unit {0} };

    fn share(&self, _alloc: Global) -> Result<usize, NoMemory> {
        Ok(*self)
    }

    fn is_total() -> bool {
        true
    }
}

impl Key for usize {
    ghost exact = { nat_exact };
}

impl Share for i8 {
    ghost never_refuses = { Unit {0} };

    fn share(&self, _alloc: Global) -> Result<i8, NoMemory> {
        Ok(*self)
    }

    fn is_total() -> bool {
        true
    }
}

impl Key for i8 {
    ghost exact = { exact_signed };
}

impl Share for i16 {
    ghost never_refuses = { Unit {0} };

    fn share(&self, _alloc: Global) -> Result<i16, NoMemory> {
        Ok(*self)
    }

    fn is_total() -> bool {
        true
    }
}

impl Key for i16 {
    ghost exact = { exact_signed };
}

impl Share for i32 {
    ghost never_refuses = { Unit {0} };

    fn share(&self, _alloc: Global) -> Result<i32, NoMemory> {
        Ok(*self)
    }

    fn is_total() -> bool {
        true
    }
}

impl Key for i32 {
    ghost exact = { exact_signed };
}

impl Share for i64 {
    ghost never_refuses = { Unit {0} };

    fn share(&self, _alloc: Global) -> Result<i64, NoMemory> {
        Ok(*self)
    }

    fn is_total() -> bool {
        true
    }
}

impl Key for i64 {
    ghost exact = { exact_signed };
}

impl Share for i128 {
    ghost never_refuses = { Unit {0} };

    fn share(&self, _alloc: Global) -> Result<i128, NoMemory> {
        Ok(*self)
    }

    fn is_total() -> bool {
        true
    }
}

impl Key for i128 {
    ghost exact = { exact_signed };
}

impl Share for isize {
    ghost never_refuses = { Unit {0} };

    fn share(&self, _alloc: Global) -> Result<isize, NoMemory> {
        Ok(*self)
    }

    fn is_total() -> bool {
        true
    }
}

impl Key for isize {
    ghost exact = { exact_signed };
}
