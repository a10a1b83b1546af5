//! Commands that change a register, each by one call on sequences.
ghost use Rattle.std.specs.Prelude.{◌≡◌, ◌<◌, ◌++◌, IfOk, length, reverse};
ghost use Rattle.seq_tool.specs.Effects.{IsEffect, set_where_there, unless_long};
ghost use Rattle.seq_tool.specs.Registers.{lists_of, register};

use crate::change::{Change, no_change};
use crate::registers::{Register, seq_at};
use aug_monoid::NoMemory;
use fork_join::{Gate, On};
use std::alloc::Global;
use std::marker::Sync;
use std::thread::Threads;

/// The most items of a sequence.
const MOST_ITEMS: u64 = 16777216;

/// Items at the end of a register; where there would be too many, the reply is appended.
pub(crate) fn push(
    alloc: Global,
    registers: &[Register],
    d: u64,
    items: &[u64],
    text: &mut Vec<u8>,
) -> Result<Option<Change>, NoMemory>
    requires count { length registers.now ≡ 16 }
    requires low { d < 16 }
    ensures { IfOk result (λ change. IsEffect (unless_long d (register (lists_of registers.now) d ++ items.now)) change text.old.items text.new.items) }
{
    let seq = seq_at(registers, d);
    if seq.size().saturating_add(items.len() as u64) > MOST_ITEMS {
        return no_change(text, "long", &[]);
    }
    let seq = seq.push(alloc, items)?;
    Ok(Some(Change { d, seq }))
}

/// Two registers, one after the other; where there would be too many items, the reply is appended.
pub(crate) fn append(
    alloc: Global,
    registers: &[Register],
    d: u64,
    a: u64,
    b: u64,
    text: &mut Vec<u8>,
) -> Result<Option<Change>, NoMemory>
    requires count { length registers.now ≡ 16 }
    requires low { (a < 16) × (b < 16) }
    ensures { IfOk result (λ change. IsEffect (unless_long d (register (lists_of registers.now) a ++ register (lists_of registers.now) b)) change text.old.items text.new.items) }
{
    let front = seq_at(registers, a);
    let back = seq_at(registers, b);
    if front.size() + back.size() > MOST_ITEMS {
        return no_change(text, "long", &[]);
    }
    let seq = front.append(alloc, back)?;
    Ok(Some(Change { d, seq }))
}

/// A register with another item at a place; where it has no such place, the reply is appended.
pub(crate) fn set(
    alloc: Global,
    registers: &[Register],
    d: u64,
    place: u64,
    item: u64,
    text: &mut Vec<u8>,
) -> Result<Option<Change>, NoMemory>
    requires count { length registers.now ≡ 16 }
    requires low { d < 16 }
    ensures { IfOk result (λ change. IsEffect (set_where_there d (register (lists_of registers.now) d) place item) change text.old.items text.new.items) }
{
    let seq = seq_at(registers, d);
    if place >= seq.size() {
        return no_change(text, "none", &[]);
    }
    let seq = seq.set(alloc, place, item)?;
    Ok(Some(Change { d, seq }))
}

/// The items of a register from the last to the first.
pub(crate) fn reverse<R: Threads + Sync, G: Gate>(
    on: On<R, G>,
    alloc: Global,
    registers: &[Register],
    m: u64,
) -> Result<Register, NoMemory>
    requires count { length registers.now ≡ 16 }
    requires low { m < 16 }
    ensures { IfOk result (λ seq. seq.items ≡ reverse (register (lists_of registers.now) m)) }
{
    seq_at(registers, m).reverse(on.rt, alloc, on.gate, on.cut)
}
