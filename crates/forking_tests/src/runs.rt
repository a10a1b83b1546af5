//! Runs of the program in memory. Where memory is refused, a test ends here.

use fork_join::Gate;
use io_edge::{MemSink, MemSource};
use pam_top::{Status, pam};
use std::alloc::Global;
use std::marker::Sync;
use std::process::Abort;
use std::sync::Wait;
use std::thread::Threads;

/// A tool, and how many workers it has and from which size on they fork.
#[derive(Clone, Copy)]
pub(crate) struct Asked {
    pub(crate) tool: &'static str,
    pub(crate) workers: &'static str,
    pub(crate) grain: &'static str,
}

fn words_of<R: Abort>(rt: &R, alloc: Global, asked: Asked) -> Vec<String> {
    let mut list = Vec::new(alloc);
    for word in [
        "--workers",
        asked.workers,
        "--grain",
        asked.grain,
        "--size",
        "4096",
        asked.tool,
    ] {
        let word = String::from_str(alloc, word).expect(rt, "memory");
        list.push(word).expect(rt, "memory");
    }
    list
}

/// What the program writes.
pub(crate) fn written<R: Threads + Wait + Abort + Sync, G: Gate>(
    rt: &R,
    alloc: Global,
    asked: Asked,
    input: &[u8],
    gate: &G,
) -> Vec<u8> {
    let words = words_of(rt, alloc, asked);
    let input = Vec::from_slice(alloc, input).expect(rt, "memory");
    let mut source = MemSource::new(input, 65536, Vec::new(alloc));
    let mut sink = MemSink::new(alloc, 1_000_000, 65536, Vec::new(alloc)).expect(rt, "memory");
    let status = pam(rt, alloc, &words, &mut source, &mut sink, gate);
    assert_eq!(rt; status, Status::Ok);
    Vec::from_slice(alloc, sink.written()).expect(rt, "memory")
}
