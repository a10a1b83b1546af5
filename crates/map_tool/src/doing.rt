//! Effects, done and replied in one place.
ghost use Rattle.std.specs.Prelude.{◌≡◌, ◌≤◌, ◌+◌, ◌++◌, MatchResult};
ghost use Rattle.map_tool.specs.Bounds.{steps_for};
ghost use Rattle.map_tool.specs.Effects.{HasEffect, IsLow, done, entry_line, found_line, list_line};
ghost use Rattle.map_tool.specs.Registers.{maps_of};

use crate::effect::Effect;
use crate::entries::EntryNumbers;
use crate::registers::{Register, Registers};
use aug_monoid::{NoMemory, Steps};
use script::{counted_line, line};
use std::alloc::Global;
use std::sync::ledger::Ledger;

/// Appends the reply of a look-up. A refusal leaves the text as it was.
pub(crate) fn push_found(val: Option<u64>, text: &mut Vec<u8>) -> Result<(), NoMemory>
    ensures { MatchResult result (λ _. text.new.items ≡ text.old.items ++ found_line val) (λ _. text.new.items ≡ text.old.items) }
{
    match val {
        Some(val) => line(text, "some", &[val]),
        None => line(text, "none", &[]),
    }
}

fn push_entry(entry: Option<(u64, u64)>, text: &mut Vec<u8>) -> Result<(), NoMemory>
    ensures { MatchResult result (λ _. text.new.items ≡ text.old.items ++ entry_line entry) (λ _. text.new.items ≡ text.old.items) }
{
    match entry {
        Some((key, val)) => line(text, "entry", &[key, val]),
        None => line(text, "none", &[]),
    }
}

fn push_list(alloc: Global, map: &Register, text: &mut Vec<u8>) -> Result<(), NoMemory>
    ensures { MatchResult result (λ _. text.new.items ≡ text.old.items ++ list_line map.now.entries) (λ _. text.new.items ≡ text.old.items) }
{
    let entries = map.to_vec(alloc)?;
    counted_line::<EntryNumbers, _, _>(alloc, text, "list", &entries)
}

impl Registers {
    /// Does an effect, and appends its reply, in the time of the one call on maps and that of the line. A refusal leaves the
    /// registers and the text as they were.
    pub(crate) fn apply<C: Ledger>(
        &mut self,
        alloc: Global,
        effect: Effect,
        steps: &mut Steps<C>,
        text: &mut Vec<u8>,
    ) -> Result<(), NoMemory>
        requires { IsLow effect }
        ensures effect { HasEffect (done (maps_of self.old) effect) result self.old self.new text.old.items text.new.items }
        ensures cost { steps.new ≤ steps.old + steps_for self.old effect }
    {
        match effect {
            Effect::Changes(d, map) => self.store(d, map, text),
            Effect::Puts(d, k, v) => self.put(alloc, d, k, v, steps, text),
            Effect::Dels(d, k) => self.del(alloc, d, k, steps, text),
            Effect::Found(val) => push_found(val, text),
            Effect::Entry(entry) => push_entry(entry, text),
            Effect::Totals(totals) => line(text, "aug", &[totals.sum, totals.greatest]),
            Effect::List(map) => push_list(alloc, &map, text),
            Effect::Size(size) => line(text, "size", &[size]),
            Effect::Max(greatest) => line(text, "max", &[greatest]),
            Effect::Rank(rank) => line(text, "rank", &[rank]),
            Effect::Count(count) => line(text, "count", &[count]),
            Effect::Overlap => line(text, "overlap", &[]),
        }
    }
}
