//! The handle.
ghost use Rattle.std.specs.Prelude.{◌≡◌, [], None, Some, MatchOption, false, true};
ghost use Rattle.loose.specs.Statuses.{Becomes, into};

use crate::inner::Inner;
use crate::slot::{self, Slot};
use crate::status::{BAD_CALL, NO_MEMORY, OK};
use interval_map::Intervals;
use std::alloc::Global;
use std::marker::Model;

/// A handle, as C holds it: closed, or open with a set of intervals.
#[repr(C)]
#[derive(Drop)]
pub struct Handle {
    slot: Slot,
    state: u64,
}

impl Model for Handle {
    ghost use Rattle.std.specs.Prelude.{◌≡◌};
    ghost use Rattle.std.proofs.Common.{ap, sym};
    ghost use Rattle.interval_handle.specs.declared.slot.Slot.{Slot};
    ghost use Rattle.loose.specs.Slots.{state_of};

    ghost Value = { Slot };

    ghost view = { λ h. h.slot };

    ghost invariant = { λ h. h.state ≡ state_of h.slot.intervals };

    ghost inverse = { λ s. record { slot = s; state = state_of s.intervals } };

    ghost inverse_ok = { λ h t. ap (λ n. record { slot = h.slot; state = n }) (sym t) };
}

/// A closed handle, which C makes of zeros.
pub fn closed(alloc: Global) -> Handle
    ensures { result.intervals ≡ None }
{
    let slot = slot::closed(alloc);
    Handle { slot, state: 0 }
}

/// Whether a handle is open.
pub(crate) fn is_open(handle: &Handle) -> bool
    ensures { MatchOption handle.now.intervals (result ≡ false) (λ _. result ≡ true) }
{
    handle.state != 0
}

/// Takes out what an open handle keeps, and leaves the handle closed.
pub(crate) fn take(alloc: Global, handle: &mut Handle) -> Option<Box<Inner>>
    ensures kept { MatchOption result (handle.old.intervals ≡ None) (λ kept. handle.old.intervals ≡ Some kept.value) }
    ensures closed { handle.new.intervals ≡ None }
{
    if handle.state == 0 {
        return None;
    }
    let kept = slot::take(alloc, &mut handle.slot);
    handle.state = 0;
    Some(kept)
}

/// Opens a closed handle with what it is to keep.
pub(crate) fn keep(handle: &mut Handle, kept: Box<Inner>)
    requires { handle.old.intervals ≡ None }
    ensures { handle.new.intervals ≡ Some kept.value }
{
    slot::keep(&mut handle.slot, kept);
    handle.state = 1;
}

/// Opens a closed handle with a set.
pub(crate) fn open(alloc: Global, handle: &mut Handle, set: Intervals) -> u8
    requires { handle.old.intervals ≡ None }
    ensures { Becomes (Some set) result handle.old.intervals handle.new.intervals }
{
    match Box::new(alloc, Inner { set }) {
        Ok(kept) => {
            keep(handle, kept);
            OK
        }
        Err(_) => NO_MEMORY,
    }
}

/// Opens a closed handle with the set of no intervals.
pub fn new(alloc: Global, set: &mut Handle) -> u8
    ensures { Becomes (into set.old.intervals (Some [])) result set.old.intervals set.new.intervals }
{
    if is_open(set) {
        return BAD_CALL;
    }
    open(alloc, set, Intervals::new())
}

/// Closes a handle, in O(n) for what no other set shares; one that is closed stays so.
pub fn free(alloc: Global, set: &mut Handle) -> u8
    ensures status { result ≡ 0 }
    ensures closed { set.new.intervals ≡ None }
{
    let kept = take(alloc, set);
    drop(kept);
    OK
}
