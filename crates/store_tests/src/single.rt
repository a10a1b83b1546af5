//! A store of one caller: the worked one, a lane that overflows, and snapshots while a turn is held up.

use crate::digits::{Digits, Door, HELD, OPEN, TRAP};
use crate::stores::{entries, send, told, turn, with_one_caller};
use aug_monoid::NoMemory;
use batch_store::{Caller, Store};
use fork_join::{Cut, Gate};
use std::alloc::Global;
use std::marker::Sync;
use std::sync::Wait;
use std::sync::atomic::{AtomicU64, Ordering};
use std::test::Fail;
use std::thread;
use std::thread::Threads;

/// A gate that counts who enters it at 200 and at 201.
#[derive(Drop)]
struct Visits {
    before: AtomicU64,
    after: AtomicU64,
}

impl Gate for Visits {
    fn enter(&self, place: u64) {
        match place {
            200 => {
                self.before.fetch_add(1, Ordering::SeqCst);
            }
            201 => {
                self.after.fetch_add(1, Ordering::SeqCst);
            }
            _ => {}
        }
    }
}

/// The number and the state of the version that a caller takes.
fn taken<R: Wait>(
    rt: &R,
    alloc: Global,
    caller: &mut Caller<Digits>,
) -> Result<(u64, u64), NoMemory> {
    let version = caller.snapshot(rt, alloc)?;
    Ok(told(&version))
}

/// The same without waiting.
fn tried(alloc: Global, caller: &mut Caller<Digits>) -> Option<(u64, u64)> {
    match caller.try_snapshot(alloc) {
        Ok(version) => Some(told(&version)),
        Err(_) => None,
    }
}

/// What a caller reads before it sends a batch, and after the first and the second turn that follow it.
fn read_in_turn<R: Threads + Wait + Sync>(
    rt: &R,
    alloc: Global,
    gate: &Visits,
) -> Result<[(u64, u64); 3], NoMemory> {
    let cut = Cut::new(1, 1024);
    let (mut store, mut caller) = with_one_caller(alloc, &Door::new(alloc, 0)?)?;
    let first = taken(rt, alloc, &mut caller)?;
    send(alloc, &mut caller, 7, &[4, 2])?;
    store.turn(rt, alloc, gate, cut)?;
    let second = taken(rt, alloc, &mut caller)?;
    store.turn(rt, alloc, gate, cut)?;
    Ok([first, second, taken(rt, alloc, &mut caller)?])
}

#[test]
fn a_turn_publishes_what_was_sent(rt: HostRuntime) -> Result<(), Fail> {
    let gate = Visits {
        before: AtomicU64::new(0),
        after: AtomicU64::new(0),
    };
    assert_eq!(rt;
        read_in_turn(&rt, rt.alloc(), &gate)?,
        [(0, 0), (1, 42), (1, 42)]
    );
    assert_eq!(rt; gate.before.load(Ordering::SeqCst), 2);
    assert_eq!(rt; gate.after.load(Ordering::SeqCst), 1);
    Ok(())
}

/// Sends so many batches without digits, with rising tags.
fn send_many(
    alloc: Global,
    caller: &mut Caller<Digits>,
    first: u64,
    count: u64,
) -> Result<(), NoMemory> {
    for place in 0..count {
        send(alloc, caller, first.saturating_add(place), &[])?;
    }
    Ok(())
}

/// How many batches are published after a turn with 1500 batches sent, and after a turn with one more; and whether all came in order.
fn overflown<R: Threads + Wait + Sync>(
    rt: &R,
    alloc: Global,
) -> Result<(u64, u64, bool), NoMemory> {
    let (mut store, mut caller) = with_one_caller(alloc, &Door::new(alloc, 0)?)?;
    send_many(alloc, &mut caller, 0, 1500)?;
    let first = turn(rt, alloc, &mut store)?;
    send(alloc, &mut caller, 1500, &[])?;
    let second = turn(rt, alloc, &mut store)?;
    let journal = entries(alloc, &caller.snapshot(rt, alloc)?)?;
    let in_order = journal
        .iter()
        .enumerate()
        .all(|(place, entry)| entry.1 == place as u64);
    Ok((first, second, in_order))
}

#[test]
fn a_lane_that_overflowed_comes_back_to_life(rt: HostRuntime) -> Result<(), Fail> {
    assert_eq!(rt; overflown(&rt, rt.alloc())?, (1024, 1501, true));
    Ok(())
}

/// Waits until a change is held up at the door.
fn wait_until_held<R: Wait>(rt: &R, door: &Door) {
    for _ in rt.forever() {
        if door.word.load(Ordering::SeqCst) == HELD {
            break;
        }
        thread::yield_now();
    }
}

/// What a caller reads without waiting while a turn is held up, after which the turn goes on.
fn read_while_held<R: Wait>(
    rt: &R,
    alloc: Global,
    door: &Door,
    caller: &mut Caller<Digits>,
) -> Option<(u64, u64)> {
    wait_until_held(rt, door);
    let read = tried(alloc, caller);
    door.word.store(OPEN, Ordering::SeqCst);
    read
}

/// What a caller reads while a turn is held up, what the turn answers, and what the caller reads after it.
fn read_beside<R: Threads + Wait + Sync>(
    rt: &R,
    alloc: Global,
) -> Result<(Option<(u64, u64)>, u64, (u64, u64)), NoMemory> {
    let door = Door::new(alloc, 0)?;
    let (mut store, mut caller) = with_one_caller(alloc, &door)?;
    send(alloc, &mut caller, 0, &[5])?;
    door.word.store(TRAP, Ordering::SeqCst);
    let (number, read) = thread::join(
        rt,
        move || turn(rt, alloc, &mut store),
        || read_while_held(rt, alloc, &door, &mut caller),
    );
    let number = number?;
    Ok((read, number, taken(rt, alloc, &mut caller)?))
}

#[test]
fn a_caller_reads_while_a_turn_publishes(rt: HostRuntime) -> Result<(), Fail> {
    assert_eq!(rt; read_beside(&rt, rt.alloc())?, (Some((0, 0)), 1, (1, 5)));
    Ok(())
}
