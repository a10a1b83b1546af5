//! The handle.
ghost use Rattle.std.specs.Prelude.{◌≡◌, [], None, Some, MatchOption, false, true};
ghost use Rattle.loose.specs.Statuses.{Becomes, into};

use crate::inner::{Inner, Numbers};
use crate::slot::{self, Slot};
use crate::status::{BAD_CALL, NO_MEMORY, OK};
use std::alloc::Global;
use std::marker::Model;

/// A handle, as C holds it: closed, or open with a sequence.
#[repr(C)]
#[derive(Drop)]
pub struct Handle {
    slot: Slot,
    state: u64,
}

impl Model for Handle {
    ghost use Rattle.std.specs.Prelude.{◌≡◌};
    ghost use Rattle.std.proofs.Common.{ap, sym};
    ghost use Rattle.seq_handle.specs.declared.slot.Slot.{Slot};
    ghost use Rattle.loose.specs.Slots.{state_of};

    ghost Value = { Slot };

    ghost view = { λ h. h.slot };

    ghost invariant = { λ h. h.state ≡ state_of h.slot.items };

    ghost inverse = { λ s. record { slot = s; state = state_of s.items } };

    ghost inverse_ok = { λ h t. ap (λ n. record { slot = h.slot; state = n }) (sym t) };
}

/// A closed handle, which C makes of zeros.
pub fn closed(alloc: Global) -> Handle
    ensures { result.items ≡ None }
{
    let slot = slot::closed(alloc);
    Handle { slot, state: 0 }
}

/// Whether a handle is open.
pub(crate) fn is_open(handle: &Handle) -> bool
    ensures { MatchOption handle.now.items (result ≡ false) (λ _. result ≡ true) }
{
    handle.state != 0
}

/// Takes out what an open handle keeps, and leaves the handle closed.
pub(crate) fn take(alloc: Global, handle: &mut Handle) -> Option<Box<Inner>>
    ensures kept { MatchOption result (handle.old.items ≡ None) (λ kept. handle.old.items ≡ Some kept.value) }
    ensures closed { handle.new.items ≡ None }
{
    if handle.state == 0 {
        return None;
    }
    let kept = slot::take(alloc, &mut handle.slot);
    handle.state = 0;
    Some(kept)
}

/// Opens a closed handle with what it is to keep.
pub(crate) fn keep(handle: &mut Handle, kept: Box<Inner>)
    requires { handle.old.items ≡ None }
    ensures { handle.new.items ≡ Some kept.value }
{
    slot::keep(&mut handle.slot, kept);
    handle.state = 1;
}

/// Opens a closed handle with a sequence.
pub(crate) fn open(alloc: Global, handle: &mut Handle, seq: Numbers) -> u8
    requires { handle.old.items ≡ None }
    ensures { Becomes (Some seq.items) result handle.old.items handle.new.items }
{
    match Box::new(alloc, Inner { seq }) {
        Ok(kept) => {
            keep(handle, kept);
            OK
        }
        Err(_) => NO_MEMORY,
    }
}

/// Opens a closed handle with the sequence of no items.
pub fn new(alloc: Global, seq: &mut Handle) -> u8
    ensures { Becomes (into seq.old.items (Some [])) result seq.old.items seq.new.items }
{
    if is_open(seq) {
        return BAD_CALL;
    }
    open(alloc, seq, Numbers::new())
}

/// Closes a handle, in O(n) for what no other sequence shares; one that is closed stays so.
pub fn free(alloc: Global, seq: &mut Handle) -> u8
    ensures status { result ≡ 0 }
    ensures closed { seq.new.items ≡ None }
{
    let kept = take(alloc, seq);
    drop(kept);
    OK
}
