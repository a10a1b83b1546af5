//! The settings of the tools that serve, and of the one that checks what they write. Their forks enter no gate.

use crate::runs::{Asked, written};
use crate::watch::{await_one_thread, sees_a_fork};
use fork_join::FreeGate;
use script::push_part;
use std::alloc::Global;
use std::marker::Sync;
use std::process::Abort;
use std::rt::Files;
use std::sync::Wait;
use std::sync::atomic::{AtomicBool, Ordering};
use std::thread;
use std::thread::Threads;

/// How many batches there are, and how many operations each has. So few are sorted on one thread.
const BATCHES: u64 = 24;

const OPS: u64 = 1000;

fn push<R: Abort>(rt: &R, text: &mut Vec<u8>, bytes: &[u8]) {
    text.extend_from_slice(bytes).expect(rt, "memory");
}

/// Appends the record of a batch, whose operations have their keys all over those of the other batches.
fn push_batch<R: Abort>(rt: &R, text: &mut Vec<u8>, op: &[u8], batch: u64) {
    push(rt, text, b"b,0");
    for place in 0..OPS {
        push(rt, text, op);
        let key = place.saturating_mul(BATCHES).saturating_add(batch);
        push_part(text, key).expect(rt, "memory");
        push_part(text, place).expect(rt, "memory");
    }
    push(rt, text, b"\n");
}

/// Batches of one caller, each with a read behind it, and each record in a round of its own, which takes no thread but one.
fn input_of<R: Abort>(rt: &R, alloc: Global, op: &[u8]) -> Vec<u8> {
    let mut text = Vec::new(alloc);
    push(rt, &mut text, b"serve,1\n");
    for batch in 0..BATCHES {
        push_batch(rt, &mut text, op, batch);
        push(rt, &mut text, b"round\nr,0,size\nround\n");
    }
    text
}

/// The tool's run, and then the sign that it is done.
fn run_watched<R: Threads + Wait + Abort + Sync>(
    rt: &R,
    alloc: Global,
    asked: Asked,
    input: &[u8],
    done: &AtomicBool,
) -> usize {
    let text = written(rt, alloc, asked, input, &FreeGate);
    done.store(true, Ordering::SeqCst);
    text.len()
}

/// Whether a run is seen to fork.
fn forks<R: Threads + Wait + Abort + Sync + Files + AllocGlobal>(
    rt: &R,
    alloc: Global,
    asked: Asked,
    input: &[u8],
) -> bool {
    await_one_thread(rt);
    let done = AtomicBool::new(false);
    let (_bytes, seen) = thread::join(
        rt,
        || run_watched(rt, alloc, asked, input, &done),
        || sees_a_fork(rt, &done),
    );
    seen
}

/// How often a run that is to fork is watched: a busy machine may not show the threads of one.
const RUNS: u64 = 100;

/// How often a run that is not to fork is watched.
const FEW_RUNS: u64 = 3;

/// Whether one of many runs is seen to fork where it is wanted, or one of few where it is not.
fn is_seen_to_fork<R: Threads + Wait + Abort + Sync + Files + AllocGlobal>(
    rt: &R,
    alloc: Global,
    asked: Asked,
    input: &[u8],
    wanted: bool,
) -> bool {
    let runs = if wanted { RUNS } else { FEW_RUNS };
    for _ in 0..runs {
        if forks(rt, alloc, asked, input) {
            return true;
        }
    }
    false
}

/// Workers and a grain, and whether batches fork with them.
const ROWS: [(&str, &str, bool); 3] = [
    ("1", "1", false),
    ("2", "4294967296", false),
    ("2", "1", true),
];

/// Asserts that a tool forks as its settings say.
fn assert_settings<R: Threads + Wait + Abort + Sync + Files + AllocGlobal>(
    rt: &R,
    alloc: Global,
    tool: &'static str,
    input: &[u8],
) {
    for (workers, grain, wanted) in ROWS {
        let asked = Asked {
            tool,
            workers,
            grain,
        };
        let found = is_seen_to_fork(rt, alloc, asked, input, wanted);
        assert_eq!(rt; found, wanted, "{tool} with {workers} and {grain}");
    }
}

/// A record that makes a map of many pairs, which are not in order.
fn many_pairs<R: Abort>(rt: &R, alloc: Global) -> Vec<u8> {
    let mut text = Vec::new(alloc);
    push(rt, &mut text, b"build,0");
    for place in 0..100_000u64 {
        push_part(&mut text, place.wrapping_mul(7_777_777) % 1_000_003).expect(rt, "memory");
        push_part(&mut text, place).expect(rt, "memory");
    }
    push(rt, &mut text, b"\n");
    text
}

/// Whether there is more than one processor.
fn has_processors<R: Threads>(rt: &R) -> bool {
    match thread::available_parallelism(rt) {
        Ok(count) => count.get() > 1,
        Err(_) => false,
    }
}

#[test]
fn a_long_list_is_sorted_on_all_processors_by_one_worker(rt: HostRuntime) {
    let pairs = many_pairs(&rt, rt.alloc());
    let asked = Asked {
        tool: "map",
        workers: "1",
        grain: "1",
    };
    let wanted = has_processors(&rt);
    let found = is_seen_to_fork(&rt, rt.alloc(), asked, &pairs, wanted);
    assert_eq!(rt; found, wanted);
}

#[test]
fn batches_of_a_served_map_fork_as_they_are_set(rt: HostRuntime) {
    let input = input_of(&rt, rt.alloc(), b",put");
    assert_settings(&rt, rt.alloc(), "serve", &input);
}

#[test]
fn batches_of_a_served_graph_fork_as_they_are_set(rt: HostRuntime) {
    let input = input_of(&rt, rt.alloc(), b",add");
    assert_settings(&rt, rt.alloc(), "gserve", &input);
}

#[test]
fn batches_that_are_checked_fork_as_they_are_set(rt: HostRuntime) {
    let mut input = input_of(&rt, rt.alloc(), b",put");
    let asked = Asked {
        tool: "serve",
        workers: "1",
        grain: "1",
    };
    let text = written(&rt, rt.alloc(), asked, &input, &FreeGate);
    push(&rt, &mut input, b"run\n");
    push(&rt, &mut input, &text);
    assert_settings(&rt, rt.alloc(), "check", &input);
}
