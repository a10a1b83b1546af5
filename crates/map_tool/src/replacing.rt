//! Commands that set or remove one entry of a register, in place.
ghost use Rattle.std.specs.Prelude.{◌≡◌, ◌+◌, ◌<◌, ◌≤◌, ◌++◌, ◌∷◌, [], codes, length, vec_capacity, MatchResult, OnErr, OnOk};
ghost use Rattle.std.specs.Ordering.{nat_cmp};
ghost use Rattle.map_model.specs.Entries.{drop_key, set};
ghost use Rattle.script.specs.Lines.{line_of};
ghost use Rattle.map_tool.specs.Bounds.{change_steps, height_of};
ghost use Rattle.map_tool.specs.Registers.{maps_of, register, with_register};

use crate::registers::{Register, Registers};
use aug_monoid::{NoMemory, Steps};
use script::line;
use std::alloc::Global;
use std::sync::ledger::Ledger;

/// No line `ok` with one number has more bytes.
const OK_LINE: usize = 24;

/// Appends the line `ok` with a number to a text that has room for it.
fn push_ok(text: &mut Vec<u8>, number: u64)
    requires room { length text.old.items + 24 ≤ vec_capacity text.old }
    ensures { text.new.items ≡ text.old.items ++ line_of (codes "ok") (number ∷ []) }
{
    let Ok(()) = line(text, "ok", &[number]) else {
        unreachable!()
    };
}

/// Sets a key of a map to a value, and appends the reply. Its room is made first, since the map has changed before the reply is
/// known.
fn put_and_reply<C: Ledger>(
    alloc: Global,
    map: &mut Register,
    k: u64,
    v: u64,
    steps: &mut Steps<C>,
    text: &mut Vec<u8>,
) -> Result<(), NoMemory>
    ensures entries { OnOk result (map.new.entries ≡ set nat_cmp map.old.entries k v) }
    ensures kept { OnErr result (map.new ≡ map.old) }
    ensures reply { MatchResult result (λ _. text.new.items ≡ text.old.items ++ line_of (codes "ok") (length map.new.entries ∷ [])) (λ _. text.new.items ≡ text.old.items) }
    ensures cost { steps.new ≤ steps.old + change_steps map.old.height }
{
    text.reserve(OK_LINE)?;
    map.put_mut(alloc, k, v, steps)?;
    push_ok(text, map.size());
    Ok(())
}

/// Removes a key from a map, and appends the reply, as `put_and_reply` does.
fn del_and_reply<C: Ledger>(
    alloc: Global,
    map: &mut Register,
    k: u64,
    steps: &mut Steps<C>,
    text: &mut Vec<u8>,
) -> Result<(), NoMemory>
    ensures entries { OnOk result (map.new.entries ≡ drop_key nat_cmp map.old.entries k) }
    ensures kept { OnErr result (map.new ≡ map.old) }
    ensures reply { MatchResult result (λ _. text.new.items ≡ text.old.items ++ line_of (codes "ok") (length map.new.entries ∷ [])) (λ _. text.new.items ≡ text.old.items) }
    ensures cost { steps.new ≤ steps.old + change_steps map.old.height }
{
    text.reserve(OK_LINE)?;
    map.del_mut(alloc, &k, steps)?;
    push_ok(text, map.size());
    Ok(())
}

impl Registers {
    /// Sets a key of a register to a value in place, and appends the reply. A refusal leaves the registers and the text as they
    /// were.
    pub(crate) fn put<C: Ledger>(
        &mut self,
        alloc: Global,
        number: u8,
        k: u64,
        v: u64,
        steps: &mut Steps<C>,
        text: &mut Vec<u8>,
    ) -> Result<(), NoMemory>
        requires { number < 16 }
        ensures reply { MatchResult result (λ _. text.new.items ≡ text.old.items ++ line_of (codes "ok") (length (set nat_cmp (register (maps_of self.old) number) k v) ∷ [])) (λ _. text.new.items ≡ text.old.items) }
        ensures after { OnOk result (maps_of self.new ≡ with_register (maps_of self.old) number (set nat_cmp (register (maps_of self.old) number) k v)) }
        ensures refused { OnErr result (self.new ≡ self.old) }
        ensures cost { steps.new ≤ steps.old + change_steps (height_of self.old number) }
    {
        put_and_reply(alloc, &mut self.maps[number as usize], k, v, steps, text)
    }

    /// Removes a key from a register, as `put` sets one.
    pub(crate) fn del<C: Ledger>(
        &mut self,
        alloc: Global,
        number: u8,
        k: u64,
        steps: &mut Steps<C>,
        text: &mut Vec<u8>,
    ) -> Result<(), NoMemory>
        requires { number < 16 }
        ensures reply { MatchResult result (λ _. text.new.items ≡ text.old.items ++ line_of (codes "ok") (length (drop_key nat_cmp (register (maps_of self.old) number) k) ∷ [])) (λ _. text.new.items ≡ text.old.items) }
        ensures after { OnOk result (maps_of self.new ≡ with_register (maps_of self.old) number (drop_key nat_cmp (register (maps_of self.old) number) k)) }
        ensures refused { OnErr result (self.new ≡ self.old) }
        ensures cost { steps.new ≤ steps.old + change_steps (height_of self.old number) }
    {
        del_and_reply(alloc, &mut self.maps[number as usize], k, steps, text)
    }
}
