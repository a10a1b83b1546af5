//! Commands that stand in a row and are done at once, and puts into one register among them.
ghost use Rattle.std.specs.Prelude.{◌≡◌, ◌<◌, ◌≤◌, ◌++◌, length, IfOk, IfSome, OnOk};
ghost use Rattle.map_tool.specs.Effects.{map_after, map_reply};
ghost use Rattle.map_tool.specs.Registers.{maps_of};
ghost use Rattle.map_tool.specs.Runs.{after_all, ok_lines, puts_into};
ghost use Rattle.script.specs.Replies.{replies};

use crate::registers::{Register, Registers};
use aug_monoid::NoMemory;
use fork_join::{Gate, On};
use map_records::MapCommand;
use put_runs::put_run;
use script::line;
use std::alloc::Global;
use std::marker::Sync;
use std::mem;
use std::thread::Threads;

/// No more commands stand in a run, so that what is needed beside the map to do them stays small.
const MOST_AT_ONCE: usize = 65_536;

/// Whether two commands put into one register, or look up in one.
fn are_alike(first: &MapCommand, second: &MapCommand) -> bool {
    match (first, second) {
        (
            MapCommand::Put { d, k: _, v: _ },
            MapCommand::Put {
                d: other,
                k: _,
                v: _,
            },
        ) => d == other,
        (MapCommand::Get { m, k: _ }, MapCommand::Get { m: other, k: _ }) => m == other,
        _ => false,
    }
}

/// How many commands the first run has: puts into one register or look-ups in one that stand in a row, or one other command.
pub(crate) fn run_len(commands: &[MapCommand]) -> usize
    requires { 0 < length commands.now }
    ensures some { 0 < result }
    ensures within { result ≤ length commands.now }
{
    let first = &commands[0];
    let most = commands.len().min(MOST_AT_ONCE);
    let len = commands[..most]
        .iter()
        .position(|command| !are_alike(first, command))
        .unwrap_or(most);
    len.max(1)
}

/// The entries that commands put into a register; none where one is no put into it.
pub(crate) fn entries_put(
    alloc: Global,
    number: u8,
    commands: &[MapCommand],
) -> Result<Option<Vec<(u64, u64)>>, NoMemory>
    ensures { IfOk result (λ found. IfSome found (λ entries. commands.now ≡ puts_into number entries.items)) }
{
    let mut entries = Vec::with_capacity(alloc, commands.len())?;
    for command in commands {
        match command {
            MapCommand::Put { d, k, v } if *d == number => entries.push((*k, *v))?,
            _ => return Ok(None),
        }
    }
    Ok(Some(entries))
}

/// Appends the reply of a put for each size of its register.
fn push_oks(text: &mut Vec<u8>, sizes: &[u64]) -> Result<(), NoMemory>
    ensures { OnOk result (text.new.items ≡ text.old.items ++ ok_lines sizes.now) }
{
    for size in sizes {
        line(text, "ok", &[*size])?;
    }
    Ok(())
}

impl Registers {
    /// Puts entries into a register in order, all at once, and appends the reply of each. After a refusal nothing is said of
    /// the register and of the text.
    pub(crate) fn put_many<R: Threads + Sync, G: Gate>(
        &mut self,
        on: On<R, G>,
        alloc: Global,
        number: u8,
        entries: &[(u64, u64)],
        text: &mut Vec<u8>,
    ) -> Result<(), NoMemory>
        requires { number < 16 }
        ensures replies { OnOk result (text.new.items ≡ text.old.items ++ replies map_reply map_after (maps_of self.old) (puts_into number entries.now)) }
        ensures after { OnOk result (maps_of self.new ≡ after_all (maps_of self.old) (puts_into number entries.now)) }
    {
        let map = mem::replace(&mut self.maps[number as usize], Register::empty());
        let (map, sizes) = put_run(on, alloc, map, entries)?;
        push_oks(text, &sizes)?;
        self.maps[number as usize] = map;
        Ok(())
    }
}
