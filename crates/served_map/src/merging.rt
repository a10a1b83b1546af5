//! Entries and outcomes of keys as two lists that are merged.
ghost use Rattle.std.specs.Prelude.{◌≡◌, [], ◌++◌, IfOk, OnOk};
ghost use Rattle.std.specs.List.{cons_option};
ghost use Rattle.std.specs.Option.{option_map};
ghost use Rattle.std.specs.Ordering.{nat_cmp};
ghost use Rattle.map_model.specs.Entries.{IsIncreasing};
ghost use Rattle.op_runs.specs.Runs.{IsChangedBy};
ghost use Rattle.served_map.specs.Halves.{new_entries};

use crate::applying::ServedMap;
use aug_monoid::NoMemory;
use op_runs::Outcome;
use std::alloc::Global;
use std::cmp::Ordering;

/// Appends a key with its value, if it has one.
fn push_value(entries: &mut Vec<(u64, u64)>, key: u64, value: Option<u64>) -> Result<(), NoMemory>
    ensures { OnOk result (entries.new.items ≡ entries.old.items ++ cons_option (option_map (λ val. (key, val)) value) []) }
{
    if let Some(val) = value {
        entries.push((key, val))?;
    }
    Ok(())
}

/// Appends what is left of keys that have no entries.
fn push_new(entries: &mut Vec<(u64, u64)>, outcomes: &[(u64, Outcome)]) -> Result<(), NoMemory>
    ensures { OnOk result (entries.new.items ≡ entries.old.items ++ new_entries outcomes.now) }
{
    for (key, outcome) in outcomes {
        push_value(entries, *key, outcome.leaves(None))?;
    }
    Ok(())
}

/// The entries after the outcomes of keys, in one pass over both lists.
fn merged(
    alloc: Global,
    entries: &[(u64, u64)],
    outcomes: &[(u64, Outcome)],
) -> Result<Vec<(u64, u64)>, NoMemory>
    requires entries { IsIncreasing nat_cmp entries.now }
    requires outcomes { IsIncreasing nat_cmp outcomes.now }
    ensures { IfOk result (λ changed. IsChangedBy outcomes.now entries.now changed.items) }
{
    let mut changed = Vec::with_capacity(alloc, entries.len().saturating_add(outcomes.len()))?;
    let (mut left, mut right) = (entries, outcomes);
    while let Some((near, others)) = left.split_first() {
        let Some((far, later)) = right.split_first() else {
            break;
        };
        match near.0.cmp(&far.0) {
            Ordering::Less => {
                changed.push(*near)?;
                left = others;
            }
            Ordering::Equal => {
                push_value(&mut changed, far.0, far.1.leaves(Some(near.1)))?;
                left = others;
                right = later;
            }
            Ordering::Greater => {
                push_value(&mut changed, far.0, far.1.leaves(None))?;
                right = later;
            }
        }
    }
    changed.extend_from_slice(left)?;
    push_new(&mut changed, right)?;
    Ok(changed)
}

/// The map after the outcomes of keys, made anew from one list. O(n + k) for a map of n entries and k keys.
pub(crate) fn made_anew(
    alloc: Global,
    map: &ServedMap,
    outcomes: &[(u64, Outcome)],
) -> Result<ServedMap, NoMemory>
    requires { IsIncreasing nat_cmp outcomes.now }
    ensures { IfOk result (λ changed. IsChangedBy outcomes.now map.now.entries changed.entries) }
{
    let _rises = map.size(); // for the proof alone: keys rise
    let entries = map.to_vec(alloc)?;
    let changed = merged(alloc, &entries, outcomes)?;
    ServedMap::build_alone(alloc, &changed)
}
