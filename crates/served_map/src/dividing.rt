//! A map and the outcomes of many keys as work that is divided.
ghost use Rattle.std.specs.Prelude.{◌≡◌, ◌+◌, ◌≤◌, IfOk};
ghost use Rattle.std.specs.Option.{option_map};
ghost use Rattle.std.specs.Ordering.{nat_cmp};
ghost use Rattle.fork_join.specs.Openings.{AreHalves, IsOpened};
ghost use Rattle.map_model.specs.Entries.{IsIncreasing};
ghost use Rattle.op_runs.specs.Runs.{IsChangedBy};
ghost use Rattle.served_map.specs.Halves.{AreSides, IsDone, KeysRise, Part, key_count};

use crate::applying::ServedMap;
use crate::changing::with_few;
use crate::joining::{join_around, sides_of};
use crate::merging::made_anew;
use aug_monoid::{NoMemory, Steps};
use fork_join::{Divide, Gate, On, Opened, divide};
use op_runs::Outcome;
use std::alloc::Global;
use std::marker::Sync;
use std::sync::ledger::Ledger;
use std::thread::Threads;

/// A part of at most so many entries and so many keys is made anew from one list.
const PIECE: u64 = 4096;

/// So many keys for a part with many entries are done one by one in place.
const FEW_KEYS: u64 = 64;

/// A part with more entries than so many for each key has many entries: to make them anew takes longer than a change in place of
/// each key.
const MANY_FOR_EACH: u64 = 16;

/// Whether there are many entries for each key.
fn has_many(entries: u64, keys: u64) -> bool {
    entries / MANY_FOR_EACH > keys
}

/// Whether a part is done at once.
fn is_small(entries: u64, keys: u64) -> bool {
    if has_many(entries, keys) {
        keys <= FEW_KEYS
    } else {
        entries <= PIECE && keys <= PIECE
    }
}

/// The map of a part that is done at once.
fn done_at_once(
    alloc: Global,
    map: ServedMap,
    outcomes: &[(u64, Outcome)],
) -> Result<ServedMap, NoMemory>
    requires { IsIncreasing nat_cmp outcomes.now }
    ensures { IfOk result (λ changed. IsChangedBy outcomes.now map.entries changed.entries) }
{
    if has_many(map.size(), outcomes.len() as u64) {
        with_few(alloc, map, outcomes)
    } else {
        made_anew(alloc, &map, outcomes)
    }
}

/// A key with its value, where it has one.
fn entry_of(key: u64, value: Option<u64>) -> Option<(u64, u64)>
    ensures { result ≡ option_map (λ val. (key, val)) value }
{
    match value {
        Some(val) => Some((key, val)),
        None => None,
    }
}

/// A map and the outcomes for it cut at the middle one of them.
fn cut_in_middle<'a>(
    alloc: Global,
    map: ServedMap,
    outcomes: &'a [(u64, Outcome)],
) -> Result<Opened<(ServedMap, &'a [(u64, Outcome)]), Option<(u64, u64)>, ServedMap>, NoMemory>
    requires { IsIncreasing nat_cmp outcomes.now }
    ensures { IfOk result (IsOpened KeysRise (IsDone (map, outcomes.entry)) (AreSides (map, outcomes.entry)) key_count (key_count (map, outcomes.entry))) }
{
    let _rises = map.size(); // for the proof alone: keys rise
    let (front, rest): (&[(u64, Outcome)], &[(u64, Outcome)]) = outcomes.split_at(
        outcomes.len() / 2,
    );
    let Some((middle, back)) = rest.split_first() else {
        return Ok(Opened::Done(map)); // there are no outcomes
    };
    let (key, outcome) = *middle;
    let sides = sides_of(alloc, &map, key)?;
    let entry = entry_of(key, outcome.leaves(sides.found));
    Ok(Opened::Split((sides.below, front), entry, (sides.above, back)))
}

#[derive(Drop)]
struct Changing;

impl<'a> Divide<(ServedMap, &'a [(u64, Outcome)]), Option<(u64, u64)>, ServedMap> for Changing {
    ghost fits = { λ _. KeysRise };

    ghost answers = { λ _. IsDone };

    ghost divides = { λ _. AreSides };

    ghost extent = { λ _. key_count };

    ghost bound = { λ _ _. 0 };

    ghost closing = { λ _ _. 0 };

    // Of a part with few keys most entries stay where they are.
    fn size(&self, part: &(ServedMap, &'a [(u64, Outcome)])) -> u64 {
        let keys = part.1.len() as u64;
        let most = keys.saturating_mul(MANY_FOR_EACH);
        keys.saturating_add(part.0.size().min(most))
    }

    fn open<C: Ledger>(
        &self,
        alloc: Global,
        part: (ServedMap, &'a [(u64, Outcome)]),
        _steps: &mut Steps<C>,
    ) -> Result<
        Opened<(ServedMap, &'a [(u64, Outcome)]), Option<(u64, u64)>, ServedMap>,
        NoMemory,
    > {
        let (map, outcomes) = part;
        if is_small(map.size(), outcomes.len() as u64) {
            let changed = done_at_once(alloc, map, outcomes)?;
            return Ok(Opened::Done(changed));
        }
        cut_in_middle(alloc, map, outcomes)
    }

    fn close<C: Ledger>(
        &self,
        alloc: Global,
        left: ServedMap,
        middle: Option<(u64, u64)>,
        right: ServedMap,
        _steps: &mut Steps<C>,
    ) -> Result<ServedMap, NoMemory>
        requires { AreHalves IsDone AreSides left middle right }
        ensures answer { IfOk result (λ out. (part front back : Part) → AreSides part front middle back → IsDone front left → IsDone back right → IsDone part out) }
        ensures cost { IfOk result (λ _. (part front back : Part) → AreSides part front middle back → IsDone front left → IsDone back right → _steps.new ≤ _steps.old + 0) }
    {
        join_around(alloc, &left, middle, &right)
    }
}

/// The map after the outcomes of keys.
///
/// The outcomes are cut at the middle one and the map at its key, and the halves are done side by side where the cut allows it. A
/// part with few entries for each key, and not too many, is made anew from one list, in one pass over both; few keys for many
/// entries are done one by one in place. O(k * log(n / k + 1)) for k keys and a map of n entries.
pub(crate) fn with_outcomes<R: Threads + Sync, G: Gate>(
    on: On<R, G>,
    alloc: Global,
    map: ServedMap,
    outcomes: &[(u64, Outcome)],
) -> Result<ServedMap, NoMemory>
    requires { IsIncreasing nat_cmp outcomes.now }
    ensures { IfOk result (λ changed. IsChangedBy outcomes.now map.entries changed.entries) }
{
    divide(on, alloc, &Changing, (map, outcomes))
}
