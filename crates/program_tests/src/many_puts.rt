//! Long runs of puts of the tool map.

use crate::programs::words_of;
use fork_join::{FreeGate, Gate};
use io_edge::{MemSink, MemSource};
use meeting::Meeting;
use pam_top::plain_map::SortedMap;
use pam_top::{Status, pam};
use script::line;
use std::alloc::Global;
use std::marker::Sync;
use std::process::Abort;
use std::sync::Wait;
use std::thread::Threads;

/// So many puts stand in each run.
const PUTS: usize = 5000;

/// The entries of two runs of puts. The keys of the first are all new, and of the second some are new, some old, and some come again.
/// Those of the second lie all over those of the first, since halves fork only where each has its share.
fn entries<R: Abort>(rt: &R, alloc: Global) -> Vec<(u64, u64)> {
    let mut entries = Vec::new(alloc);
    for i in 0..PUTS as u64 {
        entries.push((i.wrapping_mul(2), i)).expect(rt, "memory");
    }
    for i in 0..PUTS as u64 {
        let key = i.wrapping_mul(i) % 10_000;
        entries.push((key, i)).expect(rt, "memory");
    }
    entries
}

pub(crate) fn push<R: Abort>(rt: &R, text: &mut Vec<u8>, word: &str, numbers: &[u64]) {
    line(text, word, numbers).expect(rt, "memory");
}

/// Both runs, with a question between them, and one about all entries behind them.
fn script_of<R: Abort>(rt: &R, alloc: Global, entries: &[(u64, u64)]) -> Vec<u8> {
    let mut text = Vec::new(alloc);
    for (place, (key, val)) in entries.iter().enumerate() {
        if place == PUTS {
            push(rt, &mut text, "size", &[2]);
        }
        push(rt, &mut text, "put", &[2, *key, *val]);
    }
    push(rt, &mut text, "fold", &[2]);
    text
}

/// What is replied to it, by a sorted vector.
fn replies_to<R: Abort>(rt: &R, alloc: Global, entries: &[(u64, u64)]) -> Vec<u8> {
    let mut map = SortedMap::empty(alloc);
    let mut text = Vec::new(alloc);
    for (place, (key, val)) in entries.iter().enumerate() {
        if place == PUTS {
            push(rt, &mut text, "size", &[map.size()]);
        }
        map.put(*key, *val).expect(rt, "memory");
        push(rt, &mut text, "ok", &[map.size()]);
    }
    let totals = map.aug_range(0, u64::MAX);
    push(rt, &mut text, "aug", &[totals.sum, totals.greatest]);
    text
}

/// What the program writes on two workers, which share whatever has more than one part.
pub(crate) fn written<R: Abort + Threads + Wait + Sync, G: Gate>(
    rt: &R,
    alloc: Global,
    input: Vec<u8>,
    gate: &G,
) -> Vec<u8> {
    let words = words_of(rt, alloc, &["--workers", "2", "--grain", "1", "map"]);
    let mut source = MemSource::new(input, 1000, Vec::new(alloc));
    let mut sink = MemSink::new(alloc, 100_000, 1000, Vec::new(alloc)).expect(rt, "memory");
    let status = pam(rt, alloc, &words, &mut source, &mut sink, gate);
    assert_eq!(rt; status, Status::Ok);
    Vec::from_slice(alloc, sink.written()).expect(rt, "memory")
}

#[test]
fn a_long_run_of_puts_replies_as_single_ones(rt: HostRuntime) {
    let alloc = rt.alloc();
    let entries = entries(&rt, alloc);
    let input = script_of(&rt, alloc, &entries);
    let wanted = replies_to(&rt, alloc, &entries);
    assert_eq!(rt; written(&rt, alloc, input, &FreeGate), wanted);
}

/// Whether halves meet in the run of a script of these entries.
fn halves_meet<R: Abort + Threads + Wait + Sync>(
    rt: &R,
    alloc: Global,
    entries: &[(u64, u64)],
) -> bool {
    let gate = Meeting::new();
    let input = script_of(rt, alloc, entries);
    written(rt, alloc, input, &gate);
    gate.was_met()
}

// The first run is put into an empty register one by one, the second into the entries of the first at once.
#[test]
fn the_halves_of_a_long_run_of_puts_into_a_big_register_meet(rt: HostRuntime) {
    let alloc = rt.alloc();
    let mut entries = entries(&rt, alloc);
    assert!(rt; halves_meet(&rt, alloc, &entries));
    entries.truncate(PUTS);
    assert!(rt; !halves_meet(&rt, alloc, &entries));
}
