//! Each read and each write of a run of each tool failing in turn, and an input that is too large.
ghost use Rattle.std.specs.Prelude.{◌≤◌};

use crate::programs::{Edge, run};
use fork_join::FreeGate;
use io_edge::{MemSink, MemSource};
use pam_top::{Status, pam};
use std::alloc::Global;
use std::marker::Sync;
use std::process::Abort;
use std::sync::Wait;
use std::thread::Threads;

/// A tool, its script, and the text that it must give.
type Script = (&'static str, &'static [u8], &'static [u8]);

const SCRIPTS: &[Script] = &[
    ("map", b"put,0,5,10\nget,0,5\n", b"ok,1\nsome,10\n"),
    ("seq", b"push,0,1,2,3\nappend,1,0,0\n", b"ok,3\nok,6\n"),
    ("interval", b"add,1,3\nadd,5,9\n", b"ok,1\nok,2\n"),
    (
        "points",
        b"add,1,1,5,1,2,7\nsum,1,1,1,2\n",
        b"ok\nsum,12,2\n",
    ),
    ("index", b"doc,0,to be\nand,to\n", b"ok,2\ndocs,1,0,1\n"),
    (
        "graph",
        b"add,1,2,2,3\nnow,1\n",
        b"ok,2\nbfs,3,1,0,2,1,3,2\n",
    ),
];

/// In how many pieces so many bytes are given.
fn pieces(bytes: usize, piece: usize) -> u64
    requires { 1 ≤ piece }
{
    let whole = (bytes / piece) as u64;
    if bytes % piece == 0 {
        whole
    } else {
        whole.saturating_add(1)
    }
}

/// Runs a script where one read fails: nothing is written.
fn check_read(
    rt: &(impl Abort + Threads + Wait + Sync),
    alloc: Global,
    script: &Script,
    piece: usize,
    call: u64,
)
    requires { 1 ≤ piece }
{
    let edge = Edge {
        piece,
        reads: &[call],
        writes: &[],
    };
    let (end, text) = run(rt, alloc, &[script.0], script.1, &edge);
    assert_eq!(rt; end, Status::ReadFault);
    assert!(rt; text.is_empty());
}

/// Runs a script where one write fails: the pieces before it were written.
fn check_write(
    rt: &(impl Abort + Threads + Wait + Sync),
    alloc: Global,
    script: &Script,
    piece: usize,
    call: u64,
)
    requires { 1 ≤ piece }
{
    let edge = Edge {
        piece,
        reads: &[],
        writes: &[call],
    };
    let (end, text) = run(rt, alloc, &[script.0], script.1, &edge);
    assert_eq!(rt; end, Status::WriteFault);
    assert!(rt; pieces(text.len(), piece).saturating_add(1) == call);
    assert!(rt; script.2.starts_with(&text));
}

/// Every read of a script fails in turn, also the one that would find the end, and every write.
fn check_script(
    rt: &(impl Abort + Threads + Wait + Sync),
    alloc: Global,
    script: &Script,
    piece: usize,
)
    requires { 1 ≤ piece }
{
    for call in 0..pieces(script.1.len(), piece).saturating_add(1) {
        check_read(rt, alloc, script, piece, call.saturating_add(1));
    }
    for call in 0..pieces(script.2.len(), piece) {
        check_write(rt, alloc, script, piece, call.saturating_add(1));
    }
}

#[test]
fn each_read_and_write_of_each_tool_fails_in_turn(rt: HostRuntime) {
    for script in SCRIPTS {
        check_script(&rt, rt.alloc(), script, 1);
        check_script(&rt, rt.alloc(), script, 7);
    }
}

/// So many line feeds, which are no records.
fn empty_lines<R: Abort>(rt: &R, alloc: Global, count: usize) -> MemSource {
    let bytes = Vec::from_elem(alloc, b'\n', count).expect(rt, "memory");
    MemSource::new(bytes, 65536, Vec::new(alloc))
}

/// The one word `map`.
fn map_word<R: Abort>(rt: &R, alloc: Global) -> Vec<String> {
    let word = String::from_str(alloc, "map").expect(rt, "memory");
    let mut words = Vec::new(alloc);
    words.push(word).expect(rt, "memory");
    words
}

/// How the tool map ends on so many empty lines, and how many bytes it writes.
fn end_of(
    rt: &(impl Abort + Threads + Wait + Sync),
    alloc: Global,
    count: usize,
) -> (Status, usize) {
    let words = map_word(rt, alloc);
    let mut source = empty_lines(rt, alloc, count);
    let mut sink = MemSink::new(alloc, 1000, 1000, Vec::new(alloc)).expect(rt, "memory");
    let status = pam(rt, alloc, &words, &mut source, &mut sink, &FreeGate);
    (status, sink.written().len())
}

#[test]
fn an_input_of_one_byte_more_than_the_limit_is_too_large(rt: HostRuntime) {
    assert_eq!(rt; end_of(&rt, rt.alloc(), 67108864), (Status::Ok, 0));
    assert_eq!(rt; end_of(&rt, rt.alloc(), 67108865), (Status::TooLarge, 0));
}
