//! The settings of the tools whose forks enter the gate.

use crate::runs::{Asked, written};
use fork_join::Gate;
use script::line;
use std::alloc::Global;
use std::marker::Sync;
use std::process::Abort;
use std::sync::Wait;
use std::sync::atomic::{AtomicU64, Ordering};
use std::thread::Threads;

/// A gate that counts the halves that enter it, and the halves of halves.
#[derive(Drop)]
pub(crate) struct Forks {
    halves: AtomicU64,
    quarters: AtomicU64,
}

impl Forks {
    pub(crate) fn new() -> Forks {
        Forks {
            halves: AtomicU64::new(0),
            quarters: AtomicU64::new(0),
        }
    }

    /// Whether anything has forked, and whether a half has.
    pub(crate) fn seen(&self) -> (bool, bool) {
        (
            self.halves.load(Ordering::SeqCst) > 0,
            self.quarters.load(Ordering::SeqCst) > 0,
        )
    }
}

impl Gate for Forks {
    fn enter(&self, place: u64) {
        if place < 4 {
            self.halves.fetch_add(1, Ordering::SeqCst);
        } else {
            self.quarters.fetch_add(1, Ordering::SeqCst);
        }
    }
}

/// Whether anything forks in a run, and whether a half does.
fn forked<R: Threads + Wait + Abort + Sync>(
    rt: &R,
    alloc: Global,
    tool: &'static str,
    settings: (&'static str, &'static str),
    input: &[u8],
) -> (bool, bool) {
    let (workers, grain) = settings;
    let asked = Asked {
        tool,
        workers,
        grain,
    };
    let gate = Forks::new();
    written(rt, alloc, asked, input, &gate);
    gate.seen()
}

/// Workers and a grain, and whether anything forks with them, and whether a half does.
const ROWS: [((&str, &str), (bool, bool)); 4] = [
    (("1", "1"), (false, false)),
    (("2", "1"), (true, false)),
    (("4", "1"), (true, true)),
    (("64", "4294967296"), (false, false)),
];

/// Asserts that a tool forks as its settings say.
fn assert_settings<R: Threads + Wait + Abort + Sync>(
    rt: &R,
    alloc: Global,
    tool: &'static str,
    input: &[u8],
) {
    for (settings, wanted) in ROWS {
        let found = forked(rt, alloc, tool, settings, input);
        assert_eq!(rt; found, wanted, "{tool} with {settings:?}");
    }
}

/// A record of a word, these numbers, and then the numbers below `count`.
fn record<R: Abort>(rt: &R, alloc: Global, word: &str, first: &[u64], count: u64) -> Vec<u8> {
    let mut numbers = Vec::from_slice(alloc, first).expect(rt, "memory");
    for number in 0..count {
        numbers.push(number).expect(rt, "memory");
    }
    let mut text = Vec::new(alloc);
    line(&mut text, word, &numbers).expect(rt, "memory");
    text
}

/// Records that add documents of one word.
fn documents<R: Abort>(rt: &R, alloc: Global, count: u64) -> Vec<u8> {
    let mut text = Vec::new(alloc);
    for number in 0..count {
        line(&mut text, "doc", &[number, number]).expect(rt, "memory");
    }
    text
}

#[test]
fn a_sample_forks_as_it_is_set(rt: HostRuntime) {
    assert_settings(&rt, rt.alloc(), "sample", b"");
}

#[test]
fn a_map_forks_as_it_is_set(rt: HostRuntime) {
    let pairs = record(&rt, rt.alloc(), "build", &[0], 10_000);
    assert_settings(&rt, rt.alloc(), "map", &pairs);
}

#[test]
fn a_sequence_forks_as_it_is_set(rt: HostRuntime) {
    let mut text = record(&rt, rt.alloc(), "push", &[0], 10_000);
    text.extend_from_slice(b"reverse,1,0\n")
        .expect(&rt, "memory");
    assert_settings(&rt, rt.alloc(), "seq", &text);
}

#[test]
fn points_fork_as_they_are_set(rt: HostRuntime) {
    let points = record(&rt, rt.alloc(), "add", &[], 15_000);
    assert_settings(&rt, rt.alloc(), "points", &points);
}

#[test]
fn an_index_forks_as_it_is_set(rt: HostRuntime) {
    let docs = documents(&rt, rt.alloc(), 1000);
    assert_settings(&rt, rt.alloc(), "index", &docs);
}

#[test]
fn a_graph_forks_as_it_is_set(rt: HostRuntime) {
    let edges = record(&rt, rt.alloc(), "add", &[], 10_000);
    assert_settings(&rt, rt.alloc(), "graph", &edges);
}
