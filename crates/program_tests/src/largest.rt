//! The largest input of the tool map, one byte more, and how it is asked for.
ghost use Rattle.std.specs.Prelude.{None};

use fork_join::FreeGate;
use io_edge::{Failed, MemSink, MemSource, Source};
use pam_top::{Status, pam};
use std::alloc::Global;
use std::marker::Sync;
use std::process::Abort;
use std::sync::Wait;
use std::thread::Threads;

/// So many puts and one question have as many bytes as the program takes.
const PUTS: usize = 6_100_805;

const PUT: &[u8] = b"put,0,5,10\n";

const QUESTION: &[u8] = b"get,0,50\n";

const OK: &[u8] = b"ok,1\n";

fn push<R: Abort>(rt: &R, text: &mut Vec<u8>, bytes: &[u8]) {
    text.extend_from_slice(bytes).expect(rt, "memory");
}

/// The puts, the question, and then these bytes.
fn input_before<R: Abort>(rt: &R, alloc: Global, more: &[u8]) -> Vec<u8> {
    let mut text = Vec::new(alloc);
    for _put in 0..PUTS {
        push(rt, &mut text, PUT);
    }
    push(rt, &mut text, QUESTION);
    push(rt, &mut text, more);
    text
}

/// The one word `map`.
fn map_word<R: Abort>(rt: &R, alloc: Global) -> Vec<String> {
    let word = String::from_str(alloc, "map").expect(rt, "memory");
    let mut words = Vec::new(alloc);
    words.push(word).expect(rt, "memory");
    words
}

/// How the tool ends on an input, and what it writes.
fn end_of<R: Threads + Wait + Abort + Sync, S: Source>(
    rt: &R,
    alloc: Global,
    source: &mut S,
) -> (Status, Vec<u8>) {
    let words = map_word(rt, alloc);
    let mut sink = MemSink::new(alloc, 31_000_000, 65536, Vec::new(alloc)).expect(rt, "memory");
    let status = pam(rt, alloc, &words, source, &mut sink, &FreeGate);
    let text = Vec::from_slice(alloc, sink.written()).expect(rt, "memory");
    (status, text)
}

/// The same on the puts, the question, and then these bytes.
fn end_before<R: Threads + Wait + Abort + Sync>(
    rt: &R,
    alloc: Global,
    more: &[u8],
) -> (Status, Vec<u8>) {
    let input = input_before(rt, alloc, more);
    let mut source = MemSource::new(input, 65536, Vec::new(alloc));
    end_of(rt, alloc, &mut source)
}

/// How many lines a text has that say so of a put, and what follows them.
fn lines_in(text: &[u8]) -> (usize, &[u8]) {
    let mut count: usize = 0;
    let mut rest = text;
    for _line in 0..PUTS {
        let Some(behind) = rest.strip_prefix(OK) else {
            break;
        };
        rest = behind;
        count = count.saturating_add(1);
    }
    (count, rest)
}

#[test]
fn the_largest_input_is_answered(rt: HostRuntime) {
    let (status, text) = end_before(&rt, rt.alloc(), b"");
    let (lines, rest) = lines_in(&text);
    assert_eq!(rt; status, Status::Ok);
    assert_eq!(rt; lines, PUTS);
    assert_eq!(rt; rest, b"none\n".as_slice());
}

#[test]
fn one_byte_more_is_too_large(rt: HostRuntime) {
    let (status, text) = end_before(&rt, rt.alloc(), b"\n");
    assert_eq!(rt; status, Status::TooLarge);
    assert!(rt; text.is_empty());
}

/// Line feeds, with a note of the most bytes that were asked for at a time.
#[derive(Drop)]
struct Asked {
    left: usize,
    most: usize,
    ended: bool,
}

impl Source for Asked {
    ghost left = { λ _. None };

    ghost ended = { λ s. s.ended };

    ghost faults = { λ _. 0 };

    fn read(&mut self, buf: &mut [u8]) -> Result<usize, Failed> {
        self.most = self.most.max(buf.len());
        let count = self.left.min(buf.len());
        buf[..count].fill(b'\n');
        self.left -= count;
        if !buf.is_empty() {
            self.ended = count == 0;
        }
        Ok(count)
    }
}

#[test]
fn an_input_is_asked_for_in_pieces_of_65536_bytes(rt: HostRuntime) {
    let mut source = Asked {
        left: 1_000_000,
        most: 0,
        ended: false,
    };
    let (status, text) = end_of(&rt, rt.alloc(), &mut source);
    assert_eq!(rt; (status, text.len()), (Status::Ok, 0));
    assert_eq!(rt; (source.left, source.most), (0, 65536));
}
