//! The handle.
ghost use Rattle.std.specs.Prelude.{◌≡◌, [], None, Some, MatchOption, false, true};
ghost use Rattle.loose.specs.Statuses.{Becomes, into};

use crate::inner::Inner;
use crate::slot::{self, Slot};
use aug_monoid::{Bytes, SumMax};
use map_handle::status::{BAD_CALL, NO_MEMORY, OK};
use ord_map::OrdMap;
use std::alloc::Global;
use std::marker::Model;

/// A handle, as C holds it: closed, or open with a map.
#[repr(C)]
#[derive(Drop)]
pub struct Handle {
    slot: Slot,
    state: u64,
}

impl Model for Handle {
    ghost use Rattle.std.specs.Prelude.{◌≡◌};
    ghost use Rattle.std.proofs.Common.{ap, sym};
    ghost use Rattle.text_handle.specs.declared.slot.Slot.{Slot};
    ghost use Rattle.loose.specs.Slots.{state_of};

    ghost Value = { Slot };

    ghost view = { λ h. h.slot };

    ghost invariant = { λ h. h.state ≡ state_of h.slot.entries };

    ghost inverse = { λ s. record { slot = s; state = state_of s.entries } };

    ghost inverse_ok = { λ h t. ap (λ n. record { slot = h.slot; state = n }) (sym t) };
}

/// A closed handle, which C writes as {0}.
pub fn closed(alloc: Global) -> Handle
    ensures { result.entries ≡ None }
{
    Handle {
        slot: slot::closed(alloc),
        state: 0,
    }
}

/// Whether the handle is open.
pub(crate) fn is_open(handle: &Handle) -> bool
    ensures { MatchOption handle.now.entries (result ≡ false) (λ _. result ≡ true) }
{
    handle.state != 0
}

/// Takes out what an open handle keeps, and leaves the handle closed.
pub(crate) fn take(alloc: Global, handle: &mut Handle) -> Option<Box<Inner>>
    ensures kept { MatchOption result (handle.old.entries ≡ None) (λ kept. handle.old.entries ≡ Some kept.value) }
    ensures closed { handle.new.entries ≡ None }
{
    if handle.state == 0 {
        return None;
    }
    let kept = slot::take(alloc, &mut handle.slot);
    handle.state = 0;
    Some(kept)
}

/// Opens a closed handle with what it is to keep.
pub(crate) fn keep(handle: &mut Handle, kept: Box<Inner>)
    requires { handle.old.entries ≡ None }
    ensures { handle.new.entries ≡ Some kept.value }
{
    slot::keep(&mut handle.slot, kept);
    handle.state = 1;
}

/// Opens a closed handle with a map.
pub(crate) fn open(alloc: Global, out: &mut Handle, map: OrdMap<SumMax<Bytes>>) -> u8
    requires { out.old.entries ≡ None }
    ensures { Becomes (Some map) result out.old.entries out.new.entries }
{
    match Box::new(alloc, Inner { map }) {
        Ok(kept) => {
            keep(out, kept);
            OK
        }
        Err(_) => NO_MEMORY,
    }
}

/// Opens a closed handle with the empty map.
pub fn new(alloc: Global, map: &mut Handle) -> u8
    ensures { Becomes (into map.old.entries (Some [])) result map.old.entries map.new.entries }
{
    if is_open(map) {
        return BAD_CALL;
    }
    open(alloc, map, OrdMap::new())
}

/// Closes a handle, in O(n) for what no other map shares; one that is closed stays so.
pub fn free(alloc: Global, map: &mut Handle) -> u8
    ensures status { result ≡ 0 }
    ensures closed { map.new.entries ≡ None }
{
    let kept = take(alloc, map);
    drop(kept);
    OK
}
