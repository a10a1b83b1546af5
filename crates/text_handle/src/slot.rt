//! A box without its type, or none.
ghost use Rattle.std.specs.Prelude.{◌≡◌, None, Option, Some, IsSome, List, ℕ};

use crate::inner::Inner;
use loose::Loose;
use std::alloc::Global;
use std::marker::Model;
use std::mem::replace;
use std::ptr::null_mut;

/// A pointer to what an open handle keeps.
#[repr(C)]
#[derive(Drop)]
pub struct Slot {
    at: *mut u8,
    alloc: Global,
    pub ghost entries: { Option (List (List ℕ × ℕ)) },
}

impl Model for Slot {
    ghost use Rattle.std_heap.specs.contracts.GlobalAllocator.TheImpl.{ghosts as heap};
    ghost use Rattle.text_handle.specs.contracts.inner.Inner.{the_row as inner_row};
    ghost use Rattle.loose.specs.Slots.{slot_owns};

    ghost also_owns = { λ s. slot_owns (heap.dealloc_token s.alloc) inner_row s.at s.entries };
}

fn vacant(at: *mut u8, alloc: Global) -> Slot
    ensures { result.entries ≡ None }
{
    Slot { at, alloc }
}

fn cleared(slot: Slot) -> Loose<Inner, Global>
    requires { IsSome slot.entries }
    ensures { slot.entries ≡ Some result.value }
{
    let Slot { at, alloc } = slot;
    Loose {
        at: at as *mut Inner,
        alloc,
    }
}

fn opaque(kept: Loose<Inner, Global>) -> Slot
    ensures { result.entries ≡ Some kept.value }
{
    let Loose { at, alloc } = kept;
    Slot {
        at: at as *mut u8,
        alloc,
    }
}

/// No box.
pub(crate) fn closed(alloc: Global) -> Slot
    ensures { result.entries ≡ None }
{
    let at: *mut u8 = null_mut();
    let shut = vacant(at, alloc);
    shut
}

/// Takes the box out.
pub(crate) fn take(alloc: Global, slot: &mut Slot) -> Box<Inner>
    requires { IsSome slot.old.entries }
    ensures was { slot.old.entries ≡ Some result.value }
    ensures left { slot.new.entries ≡ None }
{
    let shut = closed(alloc);
    let opened = replace(slot, shut);
    cleared(opened).into_box()
}

/// Puts a box in.
pub(crate) fn keep(slot: &mut Slot, kept: Box<Inner>)
    requires { slot.old.entries ≡ None }
    ensures { slot.new.entries ≡ Some kept.value }
{
    *slot = opaque(Loose::of(kept));
}
