//! 64 callers in threads of their own beside one combiner.
ghost use Rattle.std.specs.Prelude.{◌≡◌, IfOk};
ghost use Rattle.batch_store.specs.Calling.{SameCaller};
ghost use Rattle.batch_store.specs.Keeping.{SameStore};
ghost use Rattle.batch_store.specs.Round.{AreCallersOf, AreSame};

use crate::digits::{Digits, Door};
use crate::stores::{begin, end, entries, finish, send, turn};
use aug_monoid::NoMemory;
use batch_store::{Caller, Store};
use std::alloc::Global;
use std::marker::Sync;
use std::sync::Wait;
use std::sync::atomic::{AtomicU64, Ordering};
use std::test::Fail;
use std::thread;
use std::thread::Threads;

/// How many callers there are.
const CALLERS: u32 = 64;

/// How many batches each sends.
const BATCHES: u64 = 20;

/// Sends ten batches without digits, with rising tags, and answers whether none was refused.
fn send_ten(alloc: Global, caller: &mut Caller<Digits>, first: u64) -> bool
    ensures { SameCaller caller.old caller.new }
{
    for place in 0..BATCHES / 2 {
        if send(alloc, caller, first.saturating_add(place), &[]).is_err() {
            return false;
        }
    }
    true
}

/// Whether the caller reads a version with a batch in it. It looks again for a while.
fn reads_one(alloc: Global, caller: &mut Caller<Digits>) -> bool
    ensures { SameCaller caller.old caller.new }
{
    for _ in 0..10_000_000u64 {
        if let Ok(version) = caller.try_snapshot(alloc) {
            if version.number() > 0 {
                return true;
            }
        }
        thread::yield_now();
    }
    false
}

/// A caller sends half of its batches, reads what the combiner published meanwhile, and sends the other half.
fn send_and_read(alloc: Global, caller: &mut Caller<Digits>, done: &AtomicU64)
    ensures { SameCaller caller.old caller.new }
{
    let first = send_ten(alloc, caller, 0);
    let read = reads_one(alloc, caller);
    let second = send_ten(alloc, caller, BATCHES / 2);
    if first && read && second {
        done.fetch_add(1, Ordering::SeqCst);
    }
}

/// All callers, each in a thread of its own. At the end the flag is raised.
fn run_callers<R: Threads + Sync>(
    rt: &R,
    alloc: Global,
    callers: Vec<Caller<Digits>>,
    done: &AtomicU64,
    flag: &AtomicU64,
) -> Vec<Caller<Digits>>
    ensures { AreSame callers.items result.items }
{
    let mut callers = callers;
    thread::for_each_mut(
        rt,
        &mut callers,
        CALLERS as usize,
        &|_place, caller| { send_and_read(alloc, caller, done) },
    );
    flag.store(1, Ordering::SeqCst);
    callers
}

/// Takes turns until the flag is raised.
fn combine<R: Threads + Wait + Sync>(
    rt: &R,
    alloc: Global,
    store: Store<Digits>,
    flag: &AtomicU64,
) -> Store<Digits>
    ensures { SameStore store result }
{
    let mut store = store;
    for _ in rt.forever() {
        if flag.load(Ordering::SeqCst) == 1 {
            return store;
        }
        drop(turn(rt, alloc, &mut store));
        thread::yield_now();
    }
    unreachable!()
}

/// The callers in threads of their own, and the combiner beside them.
fn round<R: Threads + Wait + Sync>(
    rt: &R,
    alloc: Global,
    store: Store<Digits>,
    callers: Vec<Caller<Digits>>,
    done: &AtomicU64,
) -> (Store<Digits>, Vec<Caller<Digits>>)
    requires { AreCallersOf store callers.items }
    ensures { AreCallersOf result.0 result.1.items }
{
    let word = AtomicU64::new(0);
    let flag = &word;
    let (callers, store) = thread::join(
        rt,
        move || -> Vec<Caller<Digits>>
            ensures { AreSame callers.items result.items }
        { run_callers(rt, alloc, callers, done, flag) },
        move || -> Store<Digits>
            ensures { SameStore store result }
        { combine(rt, alloc, store, flag) },
    );
    (store, callers)
}

/// Whether the entries are, of each caller, its batches in order.
fn are_all_in_order(alloc: Global, journal: &[(u32, u64)]) -> Result<bool, NoMemory> {
    let mut next = vec![in alloc; 0u64; CALLERS as usize]?;
    for (caller, tag) in journal {
        match next.get_mut(*caller as usize) {
            Some(place) if *place == *tag => *place = tag.saturating_add(1),
            _ => return Ok(false),
        }
    }
    Ok(next.iter().all(|place| *place == BATCHES))
}

/// How many callers read a batch between their own ones and had none refused, what the end of the round answers,
/// and whether the journal has all batches, each caller's in order.
fn run<R: Threads + Wait + Sync>(
    rt: &R,
    alloc: Global,
) -> Result<(u64, Option<u64>, bool), NoMemory> {
    let (store, callers) = begin(alloc, &Door::new(alloc, 0)?, CALLERS)?;
    let done = AtomicU64::new(0);
    let (mut store, mut callers) = round(rt, alloc, store, callers, &done);
    let number = end(rt, alloc, &mut store, &mut callers);
    match finish(rt, alloc, store, callers) {
        Ok(version) => {
            let journal = entries(alloc, &version)?;
            let in_order = are_all_in_order(alloc, &journal)?;
            Ok((done.load(Ordering::SeqCst), number, in_order))
        }
        Err(_) => Err(NoMemory),
    }
}

#[test]
fn each_batch_of_64_callers_comes_once_and_in_order(rt: HostRuntime) -> Result<(), Fail> {
    assert_eq!(rt; run(&rt, rt.alloc())?, (64, Some(1280), true));
    Ok(())
}
