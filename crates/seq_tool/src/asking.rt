//! Commands that ask: each appends its reply.
ghost use Rattle.std.specs.Prelude.{◌≡◌, ◌<◌, ◌≤◌, ◌+◌, ◌++◌, ◌∷◌, [], OnOk, codes, decimal, length, slice_get};
ghost use Rattle.std.specs.List.{flat_map};
ghost use Rattle.script.specs.Lines.{comma, line_of};
ghost use Rattle.seq_tool.specs.Effects.{found_line, list_line, run_of, totals_line, totals_of};
ghost use Rattle.seq_tool.specs.Registers.{lists_of, register};

use crate::registers::{Register, seq_at};
use aug_monoid::{NoMemory, Steps};
use script::{line, push_part};
use std::alloc::Global;
use std::sync::ledger::Ledger;

/// Appends the reply with the item at a place.
pub(crate) fn at(
    alloc: Global,
    registers: &[Register],
    m: u64,
    place: u64,
    text: &mut Vec<u8>,
) -> Result<(), NoMemory>
    requires count { length registers.now ≡ 16 }
    requires low { m < 16 }
    ensures { OnOk result (text.new.items ≡ text.old.items ++ found_line (slice_get (register (lists_of registers.now) m) place)) }
{
    match seq_at(registers, m).at(alloc, place) {
        Some(item) => line(text, "some", &[item]),
        None => line(text, "none", &[]),
    }
}

/// Appends the reply with the sum and the greatest of a run of items.
pub(crate) fn fold<C: Ledger>(
    alloc: Global,
    registers: &[Register],
    m: u64,
    from: u64,
    count: u64,
    steps: &mut Steps<C>,
    text: &mut Vec<u8>,
) -> Result<(), NoMemory>
    requires count { length registers.now ≡ 16 }
    requires low { m < 16 }
    ensures { OnOk result (text.new.items ≡ text.old.items ++ totals_line (totals_of (run_of (register (lists_of registers.now) m) from count))) }
{
    let totals = seq_at(registers, m).reduce(alloc, from, count, steps);
    line(text, "aug", &[totals.sum, totals.greatest])
}

/// Appends a run of items, each behind a comma, or the first part of it.
fn push_run(seq: &Register, from: u64, count: u64, text: &mut Vec<u8>) -> Result<(), NoMemory>
    requires { from + count ≤ length seq.now.items }
    ensures { OnOk result (text.new.items ≡ text.old.items ++ flat_map (λ n. comma ∷ decimal n) (run_of seq.now.items from count)) }
{
    let mut cursor = seq.cursor(from);
    for _ in 0..count {
        let Some(item) = cursor.next() else {
            unreachable!()
        };
        push_part(text, *item)?;
    }
    Ok(())
}

/// Appends the line of a run of items, or the first part of it.
fn push_list(seq: &Register, from: u64, count: u64, text: &mut Vec<u8>) -> Result<(), NoMemory>
    requires { from + count ≤ length seq.now.items }
    ensures { OnOk result (text.new.items ≡ text.old.items ++ list_line (run_of seq.now.items from count)) }
{
    text.extend_from_slice(b"list")?;
    push_part(text, count)?;
    push_run(seq, from, count, text)?;
    text.push(b'\n')?;
    Ok(())
}

/// Appends the reply with a run of items.
pub(crate) fn list(
    registers: &[Register],
    m: u64,
    from: u64,
    count: u64,
    text: &mut Vec<u8>,
) -> Result<(), NoMemory>
    requires count { length registers.now ≡ 16 }
    requires low { m < 16 }
    ensures { OnOk result (text.new.items ≡ text.old.items ++ list_line (run_of (register (lists_of registers.now) m) from count)) }
{
    let seq = seq_at(registers, m);
    let from = from.min(seq.size());
    push_list(seq, from, count.min(seq.size() - from), text)
}

/// Appends the reply with the size of a register.
pub(crate) fn size(registers: &[Register], m: u64, text: &mut Vec<u8>) -> Result<(), NoMemory>
    requires count { length registers.now ≡ 16 }
    requires low { m < 16 }
    ensures { OnOk result (text.new.items ≡ text.old.items ++ line_of (codes "size") (length (register (lists_of registers.now) m) ∷ [])) }
{
    line(text, "size", &[seq_at(registers, m).size()])
}
