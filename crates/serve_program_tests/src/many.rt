//! Many callers, many batches and many rounds.

use crate::order::{is_order_of, order_in};
use crate::runs::{serve, sound_edge};
use aug_monoid::NoMemory;
use fork_join::FreeGate;
use pam_top::Status;
use script::line;
use std::alloc::Global;
use std::marker::Sync;
use std::sync::Wait;
use std::test::Fail;
use std::thread::Threads;

/// How many callers there are.
const CALLERS: u64 = 64;

/// The room of a sink: more than the greatest text here takes.
const ROOM: usize = 1 << 21;

/// Appends a batch of a caller, which adds 1 to the value of the caller's own key.
fn push_batch(alloc: Global, caller: u64, input: &mut Vec<u8>) -> Result<(), NoMemory> {
    let record = format!(in alloc; "b,{caller},add,{caller},1\n")?;
    input.extend_from_slice(record.as_bytes())?;
    Ok(())
}

/// So many batches in one round, of the callers in turn.
fn batches(alloc: Global, count: u64) -> Result<Vec<u8>, NoMemory> {
    let mut input = Vec::new(alloc);
    line(&mut input, "serve", &[CALLERS])?;
    for place in 0..count {
        push_batch(alloc, place % CALLERS, &mut input)?;
    }
    Ok(input)
}

/// Whether so many batches in one round, on so many workers, end in this line, with each batch once and each caller's in order.
fn ends_in<R: Threads + Wait + Sync>(
    rt: &R,
    alloc: Global,
    workers: &str,
    count: u64,
    last: &[u8],
) -> Result<bool, Fail> {
    let input = batches(alloc, count)?;
    let (status, text) = serve(
        rt,
        alloc,
        workers,
        &input,
        &sound_edge(65536, ROOM),
        &FreeGate,
    )?;
    let order = order_in(alloc, &text)?;
    let is_order = is_order_of(alloc, CALLERS as usize, count, &order)?;
    Ok(status == Status::Ok && text.ends_with(last) && is_order)
}

#[test]
fn each_batch_of_64_callers_comes_once_and_in_order(rt: HostRuntime) -> Result<(), Fail> {
    for workers in ["1", "4", "64"] {
        assert!(rt; ends_in(&rt, rt.alloc(), workers, 1280, b"final,64,1280,20\n")?);
    }
    Ok(())
}

#[test]
fn a_hundred_thousand_batches_in_one_round(rt: HostRuntime) -> Result<(), Fail> {
    assert!(rt; ends_in(&rt, rt.alloc(), "4", 100_000, b"final,64,100000,1563\n")?);
    Ok(())
}

/// So many rounds without records, and one of a batch.
fn rounds(alloc: Global, count: u64) -> Result<Vec<u8>, NoMemory> {
    let mut input = Vec::new(alloc);
    line(&mut input, "serve", &[1])?;
    for _ in 0..count {
        line(&mut input, "round", &[])?;
    }
    push_batch(alloc, 0, &mut input)?;
    Ok(input)
}

#[test]
fn a_hundred_thousand_rounds(rt: HostRuntime) -> Result<(), Fail> {
    let input = rounds(rt.alloc(), 100_000)?;
    let edge = sound_edge(65536, 1000);
    let (status, text) = serve(&rt, rt.alloc(), "4", &input, &edge, &FreeGate)?;
    assert_eq!(rt; status, Status::Ok);
    assert_eq!(rt; text.as_slice(), b"j,1,100002\nfinal,1,1,1\n".as_slice());
    Ok(())
}
