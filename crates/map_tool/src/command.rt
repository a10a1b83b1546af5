//! One command of the tool map.
ghost use Rattle.std.specs.Prelude.{◌≡◌, ◌≤◌, ◌+◌, ◌++◌, IfOk, IfSome, MatchResult, OnErr, OnOk};
ghost use Rattle.map_records.specs.MapRecords.{HasRegisters};
ghost use Rattle.map_tool.specs.Bounds.{most_steps, steps_left};
ghost use Rattle.map_tool.specs.Effects.{Does, effect, map_after, map_reply};
ghost use Rattle.map_tool.specs.Registers.{maps_of};

use crate::asking::{count, greatest, sum, totals_of};
use crate::changing::{at_least, build, cat, del_all, diff, filter, put_all};
use crate::effect::{Effect, change};
use crate::registers::{Register, Registers};
use aug_monoid::{NoMemory, Share, Steps};
use fork_join::{Cut, Gate, On};
use map_records::MapCommand;
use std::alloc::Global;
use std::marker::Sync;
use std::sync::ledger::Ledger;
use std::thread::Threads;

// What a command does, from the registers before it, in the time of the one call of its row.
fn effect_of<R: Threads + Sync, G: Gate, C: Ledger>(
    on: On<R, G>,
    alloc: Global,
    maps: &Registers,
    command: &MapCommand,
    steps: &mut Steps<C>,
) -> Result<Effect, NoMemory>
    requires { HasRegisters command.now }
    ensures effect { IfOk result (λ made. Does (maps_of maps.now) made (effect (maps_of maps.now) command.now)) }
    ensures cost { IfSome (most_steps maps.now command.now) (λ most. steps.new + steps_left maps.now result ≤ steps.old + most) }
{
    match command {
        MapCommand::Put { d, k, v } => Ok(Effect::Puts(*d, *k, *v)),
        MapCommand::Del { d, k } => Ok(Effect::Dels(*d, *k)),
        MapCommand::Get { m, k } => Ok(Effect::Found(maps.at(*m).get(alloc, k, steps)?)),
        MapCommand::Size { m } => Ok(Effect::Size(maps.at(*m).size())),
        MapCommand::Sum { m, lo, hi } => sum(alloc, maps.at(*m), *lo, *hi, steps),
        MapCommand::Fold { m } => Ok(Effect::Totals(totals_of(maps.at(*m)))),
        MapCommand::Max { m, lo, hi } => greatest(alloc, maps.at(*m), *lo, *hi),
        MapCommand::Rank { m, k } => Ok(Effect::Rank(maps.at(*m).rank(k, steps))),
        MapCommand::Select { m, i } => Ok(Effect::Entry(maps.at(*m).select(alloc, *i)?)),
        MapCommand::Next { m, k } => Ok(Effect::Entry(maps.at(*m).next(alloc, k, steps)?)),
        MapCommand::Prev { m, k } => Ok(Effect::Entry(maps.at(*m).prev(alloc, k, steps)?)),
        MapCommand::List { m, lo, hi } => Ok(Effect::List(maps.at(*m).slice(alloc, lo, hi)?)),
        MapCommand::Count { m, lo, hi } => count(on, alloc, maps.at(*m), *lo, *hi),
        MapCommand::Copy { d, m } => change(*d, maps.at(*m).share(alloc)?),
        MapCommand::Clear { d } => change(*d, Register::empty()),
        MapCommand::Build { d, pairs } => change(*d, build(on, alloc, pairs.items())?),
        MapCommand::Mput { d, pairs } => put_all(on, alloc, *d, maps.at(*d), pairs),
        MapCommand::Mdel { d, keys } => del_all(on, alloc, *d, maps.at(*d), keys),
        MapCommand::Union { d, a, b, how } => {
            let (a, b) = (maps.at(*a), maps.at(*b));
            change(*d, a.union(on.rt, alloc, on.gate, on.cut, b, how)?)
        }
        MapCommand::Inter { d, a, b, how } => {
            let (a, b) = (maps.at(*a), maps.at(*b));
            change(*d, a.intersect(on.rt, alloc, on.gate, on.cut, b, how)?)
        }
        MapCommand::Diff { d, a, b } => diff(on, alloc, *d, maps.at(*a), maps.at(*b)),
        MapCommand::Cat { d, a, b } => cat(alloc, *d, maps.at(*a), maps.at(*b), steps),
        MapCommand::Below { d, m, k } => change(*d, maps.at(*m).below(alloc, k)?),
        MapCommand::Above { d, m, k } => change(*d, maps.at(*m).above(alloc, k)?),
        MapCommand::Slice { d, m, lo, hi } => change(*d, maps.at(*m).slice(alloc, lo, hi)?),
        MapCommand::Atleast { d, m, t } => change(*d, at_least(alloc, maps.at(*m), *t)?),
        MapCommand::Filter { d, m, lo, hi } => {
            change(*d, filter(on, alloc, maps.at(*m), *lo, *hi)?)
        }
    }
}

/// Runs one command of the tool map, and appends its reply to a text. `get` takes at most the steps of a look-up in its
/// register, `put` and `del` those of a change of one entry, `sum` those of a range fold, and `fold` none. A refusal, which is
/// only for want of memory, leaves the registers and the text as they were.
pub fn map_command<R: Threads + Sync, G: Gate, C: Ledger>(
    rt: &R,
    alloc: Global,
    gate: &G,
    cut: Cut,
    registers: &mut Registers,
    command: &MapCommand,
    steps: &mut Steps<C>,
    text: &mut Vec<u8>,
) -> Result<(), NoMemory>
    requires { HasRegisters command.now }
    ensures reply { MatchResult result (λ _. text.new.items ≡ text.old.items ++ map_reply (maps_of registers.old) command.now) (λ _. text.new.items ≡ text.old.items) }
    ensures after { OnOk result (maps_of registers.new ≡ map_after (maps_of registers.old) command.now) }
    ensures refused { OnErr result (registers.new ≡ registers.old) }
    ensures cost { IfSome (most_steps registers.old command.now) (λ most. steps.new ≤ steps.old + most) }
{
    let effect = effect_of(On { rt, gate, cut }, alloc, registers, command, steps)?;
    registers.apply(alloc, effect, steps, text)
}
