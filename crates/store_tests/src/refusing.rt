//! Changes that are refused, and calls that are made again.
ghost use Rattle.std.specs.Prelude.{IfOk};
ghost use Rattle.batch_store.specs.Round.{AreCallersOf, AreSame};

use crate::digits::{Digits, Door};
use crate::stores::{begin, end, entries, finish, send, told, turn, with_one_caller};
use aug_monoid::NoMemory;
use batch_store::{Caller, Store, Unfinished};
use std::alloc::Global;
use std::marker::Sync;
use std::sync::Wait;
use std::test::Fail;
use std::thread::Threads;

/// Each caller sends one digit, from 1 on, with a tag from 5 on.
fn send_all(alloc: Global, callers: Vec<Caller<Digits>>) -> Result<Vec<Caller<Digits>>, NoMemory>
    ensures { IfOk result (λ after. AreSame callers.items after.items) }
{
    let mut callers = callers;
    for at in 0..callers.len() {
        let digit = (at as u64).saturating_add(1);
        send(alloc, &mut callers[at], digit.saturating_add(4), &[digit])?;
    }
    Ok(callers)
}

/// A store with two callers, each of which has sent one digit.
fn with_two_batches(
    alloc: Global,
    refusals: u64,
) -> Result<(Store<Digits>, Vec<Caller<Digits>>), NoMemory>
    ensures { IfOk result (λ made. AreCallersOf made.0 made.1.items) }
{
    let (store, callers) = begin(alloc, &Door::new(alloc, refusals)?, 2)?;
    let callers = send_all(alloc, callers)?;
    Ok((store, callers))
}

/// What three ends of a round answer while two changes are refused, and the entries, the number and the state of the last version.
fn ended<R: Threads + Wait + Sync>(
    rt: &R,
    alloc: Global,
) -> Result<([Option<u64>; 3], Vec<(u32, u64)>, (u64, u64)), NoMemory> {
    let (mut store, mut callers) = with_two_batches(alloc, 2)?;
    let first = end(rt, alloc, &mut store, &mut callers);
    let second = end(rt, alloc, &mut store, &mut callers);
    let third = end(rt, alloc, &mut store, &mut callers);
    match finish(rt, alloc, store, callers) {
        Ok(version) => Ok((
            [first, second, third],
            entries(alloc, &version)?,
            told(&version),
        )),
        Err(_) => Err(NoMemory),
    }
}

#[test]
fn a_refused_round_ends_when_it_is_called_again(rt: HostRuntime) -> Result<(), Fail> {
    let (answers, journal, last) = ended(&rt, rt.alloc())?;
    assert_eq!(rt; answers, [None, None, Some(2)]);
    assert_eq!(rt; journal.as_slice(), [(0, 5), (1, 6)].as_slice());
    assert_eq!(rt; last, (2, 12));
    Ok(())
}

/// Whether the last call is refused first, and the entries of the version that it answers when it is made again.
fn finished<R: Threads + Wait + Sync>(
    rt: &R,
    alloc: Global,
) -> Result<(bool, Vec<(u32, u64)>), NoMemory> {
    let (store, callers) = with_two_batches(alloc, 1)?;
    match finish(rt, alloc, store, callers) {
        Ok(version) => Ok((false, entries(alloc, &version)?)),
        Err(Unfinished { store, callers }) => match finish(rt, alloc, store, callers) {
            Ok(version) => Ok((true, entries(alloc, &version)?)),
            Err(_) => Err(NoMemory),
        },
    }
}

#[test]
fn what_a_refused_finish_hands_back_can_be_finished(rt: HostRuntime) -> Result<(), Fail> {
    let (refused, journal) = finished(&rt, rt.alloc())?;
    assert!(rt; refused);
    assert_eq!(rt; journal.as_slice(), [(0, 5), (1, 6)].as_slice());
    Ok(())
}

/// Whether two turns are refused while a batch is pending, what the third one answers after one more batch, and the last version.
fn turned<R: Threads + Wait + Sync>(
    rt: &R,
    alloc: Global,
) -> Result<(bool, u64, (u64, u64)), NoMemory> {
    let (mut store, mut caller) = with_one_caller(alloc, &Door::new(alloc, 2)?)?;
    send(alloc, &mut caller, 0, &[3])?;
    let first = turn(rt, alloc, &mut store).is_err();
    let second = turn(rt, alloc, &mut store).is_err();
    send(alloc, &mut caller, 1, &[4])?;
    let number = turn(rt, alloc, &mut store)?;
    let version = caller.snapshot(rt, alloc)?;
    Ok((first && second, number, told(&version)))
}

#[test]
fn a_refused_turn_leaves_what_it_took_for_the_next(rt: HostRuntime) -> Result<(), Fail> {
    assert_eq!(rt; turned(&rt, rt.alloc())?, (true, 2, (2, 34)));
    Ok(())
}
