//! Commands of the tool seq, one and many.
ghost use Rattle.std.specs.Prelude.{◌≡◌, ◌++◌, length, IfOk, OnErr, OnOk};
ghost use Rattle.std.specs.List.{AllByRecursion};
ghost use Rattle.script.specs.Replies.{replies};
ghost use Rattle.seq_tool.specs.SeqRecords.{NamesRegisters};
ghost use Rattle.seq_tool.specs.Effects.{IsEffect, effect, seq_after, seq_reply};
ghost use Rattle.seq_tool.specs.Registers.{empty_registers, lists_of};
ghost use Rattle.aug_monoid.specs.Fresh.{IsFresh};

use crate::SeqCommand;
use crate::asking::{at, fold, list, size};
use crate::change::Change;
use crate::changing::{append, push, reverse, set};
use crate::registers::{Register, empty_registers, seq_at, store};
use aug_monoid::{NoMemory, Steps};
use fork_join::{Gate, On};
use script::line;
use std::alloc::Global;
use std::marker::{Brand, Sync};
use std::sync::ledger::{Blank, Ledger};
use std::thread::Threads;

// What a command changes; where it changes nothing, its reply is appended.
fn effect_of<R: Threads + Sync, G: Gate, C: Ledger>(
    on: On<R, G>,
    alloc: Global,
    registers: &[Register],
    command: &SeqCommand,
    steps: &mut Steps<C>,
    text: &mut Vec<u8>,
) -> Result<Option<Change>, NoMemory>
    requires count { length registers.now ≡ 16 }
    requires low { NamesRegisters command.now }
    ensures { IfOk result (λ change. IsEffect (effect (lists_of registers.now) command.now) change text.old.items text.new.items) }
{
    match command {
        SeqCommand::Push { d, items, .. } => push(alloc, registers, *d, items.items(), text),
        SeqCommand::Append { d, a, b, .. } => append(alloc, registers, *d, *a, *b, text),
        SeqCommand::Set { d, i, v, .. } => set(alloc, registers, *d, *i, *v, text),
        SeqCommand::Take { d, m, n, .. } => {
            let seq = seq_at(registers, *m).take(alloc, *n)?;
            Ok(Some(Change { d: *d, seq }))
        }
        SeqCommand::Skip { d, m, n, .. } => {
            let seq = seq_at(registers, *m).skip(alloc, *n)?;
            Ok(Some(Change { d: *d, seq }))
        }
        SeqCommand::Reverse { d, m, .. } => {
            let seq = reverse(on, alloc, registers, *m)?;
            Ok(Some(Change { d: *d, seq }))
        }
        SeqCommand::At { m, i, .. } => {
            at(alloc, registers, *m, *i, text)?;
            Ok(None)
        }
        SeqCommand::Fold { m, i, n, .. } => {
            fold(alloc, registers, *m, *i, *n, steps, text)?;
            Ok(None)
        }
        SeqCommand::List { m, i, n, .. } => {
            list(registers, *m, *i, *n, text)?;
            Ok(None)
        }
        SeqCommand::Size { m, .. } => {
            size(registers, *m, text)?;
            Ok(None)
        }
    }
}

// Runs one command, and appends its reply. A refusal leaves the registers as they were.
fn run_command<R: Threads + Sync, G: Gate, C: Ledger>(
    on: On<R, G>,
    alloc: Global,
    registers: &mut [Register],
    command: &SeqCommand,
    steps: &mut Steps<C>,
    text: &mut Vec<u8>,
) -> Result<(), NoMemory>
    requires count { length registers.old ≡ 16 }
    requires low { NamesRegisters command.now }
    ensures reply { OnOk result (text.new.items ≡ text.old.items ++ seq_reply (lists_of registers.old) command.now) }
    ensures after { OnOk result (lists_of registers.new ≡ seq_after (lists_of registers.old) command.now) }
    ensures refused { OnErr result (registers.new ≡ registers.old) }
    ensures count { length registers.new ≡ 16 }
{
    match effect_of(on, alloc, registers, command, steps, text)? {
        None => Ok(()),
        Some(Change { d, seq }) => {
            line(text, "ok", &[seq.size()])?;
            store(registers, d, seq);
            Ok(())
        }
    }
}

// Runs commands in order, and answers their replies.
fn run_all<R: Threads + Sync, G: Gate, C: Ledger>(
    on: On<R, G>,
    alloc: Global,
    registers: &mut [Register],
    commands: &[SeqCommand],
    steps: &mut Steps<C>,
) -> Result<Vec<u8>, NoMemory>
    requires count { length registers.old ≡ 16 }
    requires low { AllByRecursion NamesRegisters commands.now }
    ensures { IfOk result (λ text. text.items ≡ replies seq_reply seq_after (lists_of registers.old) commands.now) }
{
    let mut text = Vec::new(alloc);
    for command in commands {
        run_command(on, alloc, registers, command, steps, &mut text)?;
    }
    Ok(text)
}

// Runs commands on empty registers, and counts no steps.
fn run_counted<R: Threads + Sync, G: Gate, C: Ledger>(
    on: On<R, G>,
    alloc: Global,
    commands: &[SeqCommand],
    blank: Blank,
) -> Result<Vec<u8>, NoMemory>
    requires low { AllByRecursion NamesRegisters commands.now }
    requires fresh { IsFresh C.name C.parts blank }
    ensures { IfOk result (λ text. text.items ≡ replies seq_reply seq_after empty_registers commands.now) }
{
    let mut registers = empty_registers(alloc)?;
    let mut steps = Steps::<C>::start(blank);
    run_all(on, alloc, &mut registers, commands, &mut steps)
}

/// The replies to commands of the tool seq, run in order from empty registers. They depend neither on the runtime nor on the gate
/// nor on the cut, and want of memory alone refuses. A command copies paths and blocks, in time linear in the heights, a push also
/// in the number of its items, a list in that of the items that it has, and `reverse` in that of its register.
pub fn run_seq<R: Threads + Sync, G: Gate>(
    on: On<R, G>,
    alloc: Global,
    commands: &[SeqCommand],
) -> Result<Vec<u8>, NoMemory>
    requires { AllByRecursion NamesRegisters commands.now }
    ensures { IfOk result (λ text. text.items ≡ replies seq_reply seq_after empty_registers commands.now) }
{
    run_counted::<R, G, Brand>(on, alloc, commands, Blank::new(1))
}
