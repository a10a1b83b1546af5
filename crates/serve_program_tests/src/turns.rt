//! How often the combiner takes a turn.

use crate::runs::{serve, sound_edge};
use fork_join::Gate;
use pam_top::Status;
use std::alloc::Global;
use std::marker::Sync;
use std::sync::Wait;
use std::sync::atomic::{AtomicU64, Ordering};
use std::test::Fail;
use std::thread::Threads;

/// The gate's place before a turn takes.
const TAKING: u64 = 200;

/// A gate that counts turns.
#[derive(Drop)]
struct Counter {
    turns: AtomicU64,
}

impl Gate for Counter {
    fn enter(&self, place: u64) {
        if place == TAKING {
            self.turns.fetch_add(1, Ordering::SeqCst);
        }
    }
}

/// How many turns an input takes.
fn turns_of<R: Threads + Wait + Sync>(rt: &R, alloc: Global, input: &[u8]) -> Result<u64, Fail> {
    let gate = Counter {
        turns: AtomicU64::new(0),
    };
    let (status, _) = serve(rt, alloc, "1", input, &sound_edge(1000, 1000), &gate)?;
    if status != Status::Ok {
        return Ok(0);
    }
    Ok(gate.turns.load(Ordering::SeqCst))
}

#[test]
fn a_round_takes_as_many_turns_as_it_has_batches_and_one_at_least(
    rt: HostRuntime,
) -> Result<(), Fail> {
    let batches = b"serve,2\nb,0,put,1,1\nb,1,put,2,2\nb,0,put,3,3\nr,1,size\n";
    assert_eq!(rt; turns_of(&rt, rt.alloc(), batches)?, 3);
    let reads = b"serve,2\nr,0,size\nr,1,size\n";
    assert_eq!(rt; turns_of(&rt, rt.alloc(), reads)?, 1);
    let rounds = b"serve,2\nb,0,put,1,1\nround\nb,1,put,2,2\nr,0,size\nround\nr,1,size\n";
    assert_eq!(rt; turns_of(&rt, rt.alloc(), rounds)?, 3);
    Ok(())
}

#[test]
fn a_round_without_records_takes_no_turn(rt: HostRuntime) -> Result<(), Fail> {
    assert_eq!(rt; turns_of(&rt, rt.alloc(), b"serve,2\nround\nround\n")?, 0);
    Ok(())
}
