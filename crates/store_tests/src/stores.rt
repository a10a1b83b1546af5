//! Stores of digits, batches, and what versions tell.
ghost use Rattle.std.specs.Prelude.{◌≡◌, ◌≤◌, IfOk, IfErr};
ghost use Rattle.batch_store.specs.Calling.{SameCaller};
ghost use Rattle.batch_store.specs.Keeping.{SameStore};
ghost use Rattle.batch_store.specs.Round.{AreCallersOf};

use crate::digits::{Digits, Door};
use aug_monoid::NoMemory;
use batch_store::{Batch, Caller, Refused, Store, Unfinished, Version};
use fork_join::{Cut, FreeGate};
use std::alloc::Global;
use std::marker::Sync;
use std::sync::{Arc, Wait};
use std::thread::Threads;

/// A store of the number 0, with so many callers.
pub(crate) fn begin(
    alloc: Global,
    door: &Arc<Door>,
    count: u32,
) -> Result<(Store<Digits>, Vec<Caller<Digits>>), NoMemory>
    requires { (1 ≤ count) × (count ≤ 64) }
    ensures { IfOk result (λ made. AreCallersOf made.0 made.1.items) }
{
    Store::start(alloc, Digits::new(Arc::try_clone(door)?, 0), count)
}

/// A store of the number 0, with one caller.
pub(crate) fn with_one_caller(
    alloc: Global,
    door: &Arc<Door>,
) -> Result<(Store<Digits>, Caller<Digits>), NoMemory> {
    let (store, mut callers) = Store::start(alloc, Digits::new(Arc::try_clone(door)?, 0), 1)?;
    Ok((store, callers.pop().ok_or(NoMemory)?))
}

/// The caller sends a batch of these digits.
pub(crate) fn send(
    alloc: Global,
    caller: &mut Caller<Digits>,
    tag: u64,
    digits: &[u64],
) -> Result<(), NoMemory>
    ensures { SameCaller caller.old caller.new }
{
    let batch = Batch::new(alloc, Vec::from_slice(alloc, digits)?)?;
    match caller.submit(tag, batch) {
        Ok(()) => Ok(()),
        Err(Refused { value: _, cause }) => Err(cause),
    }
}

/// A turn with a gate that does nothing.
pub(crate) fn turn<R: Threads + Wait + Sync>(
    rt: &R,
    alloc: Global,
    store: &mut Store<Digits>,
) -> Result<u64, NoMemory>
    ensures { SameStore store.old store.new }
{
    store.turn(rt, alloc, &FreeGate, Cut::new(1, 1024))
}

/// The end of a round with such a gate: the number, or none where it was refused.
pub(crate) fn end<R: Threads + Wait + Sync>(
    rt: &R,
    alloc: Global,
    store: &mut Store<Digits>,
    callers: &mut Vec<Caller<Digits>>,
) -> Option<u64>
    requires { AreCallersOf store.old callers.old.items }
    ensures { AreCallersOf store.new callers.new.items }
{
    match store.end_round(rt, alloc, &FreeGate, Cut::new(1, 1024), callers) {
        Ok(number) => Some(number),
        Err(NoMemory) => None,
    }
}

/// The last version, made with such a gate.
pub(crate) fn finish<R: Threads + Wait + Sync>(
    rt: &R,
    alloc: Global,
    store: Store<Digits>,
    callers: Vec<Caller<Digits>>,
) -> Result<Version<Digits>, Unfinished<Digits>>
    requires { AreCallersOf store callers.items }
    ensures { IfErr result (λ left. AreCallersOf left.store left.callers.items) }
{
    store.finish(rt, alloc, &FreeGate, Cut::new(1, 1024), callers)
}

/// The number of a version, and its state.
pub(crate) fn told(version: &Version<Digits>) -> (u64, u64) {
    (version.number(), version.state().number)
}

/// The callers and the tags of a version's journal.
pub(crate) fn entries(
    alloc: Global,
    version: &Version<Digits>,
) -> Result<Vec<(u32, u64)>, NoMemory> {
    let mut all = Vec::new(alloc);
    for at in 0..version.number() {
        if let Some(entry) = version.journal().get(at) {
            all.push((entry.caller, entry.tag))?;
        }
    }
    Ok(all)
}
