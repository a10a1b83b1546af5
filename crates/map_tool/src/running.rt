//! Commands of the tool map in a row.
ghost use Rattle.std.specs.Prelude.{◌≡◌, ◌<◌, ◌++◌, IfOk, IfSome, OnOk};
ghost use Rattle.std.specs.List.{AllByRecursion};
ghost use Rattle.map_records.specs.MapRecords.{HasRegisters};
ghost use Rattle.map_tool.specs.Effects.{map_after, map_reply};
ghost use Rattle.map_tool.specs.Registers.{empty_registers, maps_of};
ghost use Rattle.map_tool.specs.Runs.{after_all, gets_from, puts_into};
ghost use Rattle.script.specs.Replies.{replies};
ghost use Rattle.aug_monoid.specs.Fresh.{IsFresh};

use crate::command::map_command;
use crate::gets::keys_asked;
use crate::registers::Registers;
use crate::runs::{entries_put, run_len};
use aug_monoid::{NoMemory, Steps};
use fork_join::{Gate, On};
use map_records::MapCommand;
use std::alloc::Global;
use std::marker::{Brand, Sync};
use std::sync::ledger::{Blank, Ledger};
use std::thread::Threads;

/// The registers of a run, and the replies so far.
#[derive(Drop)]
struct Run {
    registers: Registers,
    text: Vec<u8>,
}

/// Shorter runs of puts are done one by one, and all commands of a register of fewer entries, since such a map stays in the caches.
const FEW_PUTS: usize = 4096;

/// Shorter runs of look-ups are done one by one.
const FEW_GETS: usize = 256;

// The register and the entries of a run of puts that is worth doing at once.
fn long_puts(
    alloc: Global,
    registers: &Registers,
    run: &[MapCommand],
) -> Result<Option<(u8, Vec<(u64, u64)>)>, NoMemory>
    requires { AllByRecursion HasRegisters run.now }
    ensures { IfOk result (λ found. IfSome found (λ puts. (puts.0 < 16) × (run.now ≡ puts_into puts.0 puts.1.items))) }
{
    let Some(MapCommand::Put { d, k: _, v: _ }) = run.first() else {
        return Ok(None);
    };
    if run.len() < FEW_PUTS || registers.at(*d).size() < FEW_PUTS as u64 {
        return Ok(None);
    }
    match entries_put(alloc, *d, run)? {
        Some(entries) => Ok(Some((*d, entries))),
        None => Ok(None),
    }
}

// The register and the keys of a run of look-ups that is worth doing at once.
fn long_gets(
    alloc: Global,
    registers: &Registers,
    run: &[MapCommand],
) -> Result<Option<(u8, Vec<u64>)>, NoMemory>
    requires { AllByRecursion HasRegisters run.now }
    ensures { IfOk result (λ found. IfSome found (λ gets. (gets.0 < 16) × (run.now ≡ gets_from gets.0 gets.1.items))) }
{
    let Some(MapCommand::Get { m, k: _ }) = run.first() else {
        return Ok(None);
    };
    if run.len() < FEW_GETS || registers.at(*m).size() < FEW_PUTS as u64 {
        return Ok(None);
    }
    match keys_asked(alloc, *m, run)? {
        Some(keys) => Ok(Some((*m, keys))),
        None => Ok(None),
    }
}

// Runs commands one by one.
fn run_each<R: Threads + Sync, G: Gate, C: Ledger>(
    on: On<R, G>,
    alloc: Global,
    run: &mut Run,
    commands: &[MapCommand],
    steps: &mut Steps<C>,
) -> Result<(), NoMemory>
    requires { AllByRecursion HasRegisters commands.now }
    ensures replies { OnOk result (run.new.text.items ≡ run.old.text.items ++ replies map_reply map_after (maps_of run.old.registers) commands.now) }
    ensures after { OnOk result (maps_of run.new.registers ≡ after_all (maps_of run.old.registers) commands.now) }
{
    for command in commands {
        map_command(
            on.rt,
            alloc,
            on.gate,
            on.cut,
            &mut run.registers,
            command,
            steps,
            &mut run.text,
        )?;
    }
    Ok(())
}

// Runs commands, all at once where they are a long run of puts or of look-ups.
fn run_together<R: Threads + Sync, G: Gate, C: Ledger>(
    on: On<R, G>,
    alloc: Global,
    run: &mut Run,
    commands: &[MapCommand],
    steps: &mut Steps<C>,
) -> Result<(), NoMemory>
    requires { AllByRecursion HasRegisters commands.now }
    ensures replies { OnOk result (run.new.text.items ≡ run.old.text.items ++ replies map_reply map_after (maps_of run.old.registers) commands.now) }
    ensures after { OnOk result (maps_of run.new.registers ≡ after_all (maps_of run.old.registers) commands.now) }
{
    if let Some((number, entries)) = long_puts(alloc, &run.registers, commands)? {
        return run
            .registers
            .put_many(on, alloc, number, &entries, &mut run.text);
    }
    if let Some((number, keys)) = long_gets(alloc, &run.registers, commands)? {
        return run.registers.get_many(alloc, number, &keys, &mut run.text);
    }
    run_each(on, alloc, run, commands, steps)
}

// Runs commands in order, and answers their replies.
fn run_all<R: Threads + Sync, G: Gate, C: Ledger>(
    on: On<R, G>,
    alloc: Global,
    commands: &[MapCommand],
    steps: &mut Steps<C>,
) -> Result<Vec<u8>, NoMemory>
    requires { AllByRecursion HasRegisters commands.now }
    ensures { IfOk result (λ text. text.items ≡ replies map_reply map_after empty_registers commands.now) }
{
    let mut run = Run {
        registers: Registers::empty(alloc)?,
        text: Vec::new(alloc),
    };
    let mut rest = commands;
    while !rest.is_empty() {
        let (first, later) = rest.split_at(run_len(rest));
        run_together(on, alloc, &mut run, first, steps)?;
        rest = later;
    }
    Ok(run.text)
}

// The same, with steps that begin with a blank.
fn run_counted<R: Threads + Sync, G: Gate, C: Ledger>(
    on: On<R, G>,
    alloc: Global,
    commands: &[MapCommand],
    blank: Blank,
) -> Result<Vec<u8>, NoMemory>
    requires registers { AllByRecursion HasRegisters commands.now }
    requires fresh { IsFresh C.name C.parts blank }
    ensures { IfOk result (λ text. text.items ≡ replies map_reply map_after empty_registers commands.now) }
{
    let mut steps = Steps::<C>::start(blank);
    run_all(on, alloc, commands, &mut steps)
}

/// The replies to commands of the tool map, run in order from empty registers. They depend neither on the runtime nor on the
/// gate nor on the cut.
pub fn run_map<R: Threads + Sync, G: Gate>(
    on: On<R, G>,
    alloc: Global,
    commands: &[MapCommand],
) -> Result<Vec<u8>, NoMemory>
    requires { AllByRecursion HasRegisters commands.now }
    ensures { IfOk result (λ text. text.items ≡ replies map_reply map_after empty_registers commands.now) }
{
    run_counted::<R, G, Brand>(on, alloc, commands, Blank::new(1))
}
