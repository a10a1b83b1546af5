//! Operations applied one after another.
ghost use Rattle.std.specs.Prelude.{◌≡◌, IfOk, fold};
ghost use Rattle.op_runs.specs.Steps.{step, wiped};

use aug_map::PlainMap;
use aug_monoid::{NoMemory, SatSum, Share, Steps, SumMax};
use op_runs::Op;
use std::alloc::Global;
use std::sync::ledger::Ledger;

pub(crate) type ServedMap = PlainMap<SumMax<u64>>;

/// The entries below `lo` and those above `hi`, in time linear in the height.
#[tactic(auto, using(crate::proofs::Wipes::parts_apart))]
pub(crate) fn without_range<C: Ledger>(
    alloc: Global,
    map: &ServedMap,
    lo: u64,
    hi: u64,
    steps: &mut Steps<C>,
) -> Result<ServedMap, NoMemory>
    ensures { IfOk result (λ less. less.entries ≡ wiped map.now.entries lo hi) }
{
    let _rises = map.size(); // for the proof alone: keys rise
    if hi < lo {
        return map.share(alloc);
    }
    let below = map.below(alloc, &lo)?;
    let above = map.above(alloc, &hi)?;
    ServedMap::join2(alloc, &below, &above, steps)
}

/// Applies an operation.
pub(crate) fn apply_one<C: Ledger>(
    alloc: Global,
    map: &mut ServedMap,
    op: &Op,
    steps: &mut Steps<C>,
) -> Result<(), NoMemory>
    ensures { IfOk result (λ _. map.new.entries ≡ step map.old.entries op.now) }
{
    match *op {
        Op::Put { key, val } => map.put_mut(alloc, key, val, steps),
        Op::Del { key } => map.del_mut(alloc, &key, steps),
        Op::Add { key, val } => map.put_with(alloc, key, val, &SatSum, steps),
        Op::Wipe { lo, hi } => {
            let less = without_range(alloc, map, lo, hi, steps)?;
            *map = less;
            Ok(())
        }
    }
}

/// Applies operations in order, one by one in place.
pub(crate) fn apply_all<C: Ledger>(
    alloc: Global,
    map: &mut ServedMap,
    ops: &[Op],
    steps: &mut Steps<C>,
) -> Result<(), NoMemory>
    ensures { IfOk result (λ _. map.new.entries ≡ fold step map.old.entries ops.now) }
{
    for op in ops {
        apply_one(alloc, map, op, steps)?;
    }
    Ok(())
}
