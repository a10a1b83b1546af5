//! A box as its pointer, and what a handle owns that holds such a pointer without its type.
//!
//! C can be given no type that leads to a vector or a box. So a handle for C has a pointer to bytes, and says in its contract
//! what stands there: `slot_owns` of `specs/Slots.antt`. `specs/Statuses.antt` says what the statuses of its calls mean.
//! `proofs/Slots.antt` proves the functions that reach such a pointer, once for the handles of all kinds.
//!
//! Tests: `border_tests`, by the handles. Wrong bodies: none here; `pam_c` states its clauses.
#![tactic(auto)]

ghost use Rattle.std.specs.Prelude.{◌≡◌};
ghost use Rattle.std_alloc.specs.Box.Ownership.{box_owns};

use std::alloc::Allocator;
use std::marker::Model;

/// A box as its pointer.
pub struct Loose<T, A: Allocator> {
    pub at: *mut T,
    pub alloc: A,
    pub ghost value: { T },
}

impl<T, A: Allocator> Model for Loose<T, A> {
    ghost also_owns = { λ l. box_owns (A.dealloc_token l.alloc) T.row l.at l.value };
}

impl<T: Drop, A: Allocator> Loose<T, A> {
    /// Takes the box apart.
    pub fn of(value: Box<T, A>) -> Loose<T, A>
        ensures { result.value ≡ value.value }
    {
        let (at, alloc) = Box::into_raw_with_allocator(value);
        Loose { at, alloc }
    }

    /// The box again.
    pub fn into_box(self) -> Box<T, A>
        ensures { result.value ≡ self.value }
    {
        let Loose { at, alloc } = self;
        unsafe { Box::from_raw(alloc, at) }
    }
}
