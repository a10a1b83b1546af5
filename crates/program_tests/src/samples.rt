//! Samples on one worker and on many.

use fork_join::{FreeGate, Gate};
use io_edge::{MemSink, MemSource};
use meeting::Meeting;
use pam_top::{Status, pam};
use std::alloc::Global;
use std::marker::Sync;
use std::process::Abort;
use std::sync::Wait;
use std::thread::Threads;

fn words_of<R: Abort>(rt: &R, alloc: Global, words: &[&str]) -> Vec<String> {
    let mut list = Vec::new(alloc);
    for word in words {
        let word = String::from_str(alloc, word).expect(rt, "memory");
        list.push(word).expect(rt, "memory");
    }
    list
}

/// Asserts what the program writes to these words.
fn assert_sampled<R: Threads + Wait + Abort + Sync, G: Gate>(
    rt: &R,
    alloc: Global,
    words: &[&str],
    gate: &G,
    wanted: &[u8],
) {
    let list = words_of(rt, alloc, words);
    let mut source = MemSource::new(Vec::new(alloc), 1, Vec::new(alloc));
    let mut sink = MemSink::new(alloc, 1000, 1000, Vec::new(alloc)).expect(rt, "memory");
    let status = pam(rt, alloc, &list, &mut source, &mut sink, gate);
    assert_eq!(rt; status, Status::Ok);
    assert_eq!(rt; sink.written(), wanted);
}

const OF_4096: &[u8] =
    b"ok,3217\nok,3200\nok,5149\nok,1268\nok,1949\naug,3356289705,2046650\naug,885780048,1047938\naug,1023296155,1048205\n";

#[test]
fn halves_of_a_sample_meet(rt: HostRuntime) {
    let gate = Meeting::new();
    let words = ["--workers", "2", "--grain", "1", "--size", "4096", "sample"];
    assert_sampled(&rt, rt.alloc(), &words, &gate, OF_4096);
    assert!(rt; gate.was_met());
}

const OF_ALL: &[u8] =
    b"ok,78971\nok,78725\nok,126529\nok,31167\nok,47804\naug,82662321516,2086858\naug,21800457439,1048554\naug,24939136647,1048559\n";

fn assert_workers<R: Threads + Wait + Abort + Sync>(rt: &R, alloc: Global, workers: &'static str) {
    let words = ["--workers", workers, "--grain", "1", "sample"];
    assert_sampled(rt, alloc, &words, &FreeGate, OF_ALL);
}

#[test]
fn any_workers_write_the_same_sample(rt: HostRuntime) {
    assert_workers(&rt, rt.alloc(), "1");
    assert_workers(&rt, rt.alloc(), "64");
}
