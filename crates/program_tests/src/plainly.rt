//! The program without the tools that wait.

use fork_join::FreeGate;
use io_edge::{MemSink, MemSource};
use pam_top::{Status, asks_plainly, pam_plain};
use std::alloc::Global;
use std::marker::Sync;
use std::test::Fail;
use std::thread::Threads;

fn words_of(alloc: Global, word: &str) -> Result<Vec<String>, Fail> {
    let mut words = Vec::new(alloc);
    words.push(String::from_str(alloc, word)?)?;
    Ok(words)
}

/// The status and the text of an input of the tool map.
fn run<R: Threads + Sync>(rt: &R, alloc: Global, input: &[u8]) -> Result<(Status, Vec<u8>), Fail> {
    let words = words_of(alloc, "map")?;
    if !asks_plainly(alloc, &words)? {
        return Err(Fail::new("the tool map waits"));
    }
    let mut source = MemSource::new(Vec::from_slice(alloc, input)?, 7, Vec::new(alloc));
    let mut sink = MemSink::new(alloc, 100, 7, Vec::new(alloc))?;
    let status = pam_plain(rt, alloc, &words, &mut source, &mut sink, &FreeGate);
    Ok((status, Vec::from_slice(alloc, sink.written())?))
}

#[test]
fn replies_without_waiting(rt: HostRuntime) -> Result<(), Fail> {
    let (status, text) = run(&rt, rt.alloc(), b"put,0,5,10\nget,0,5\n")?;
    assert_eq!(rt; status, Status::Ok);
    assert_eq!(rt; text.as_slice(), b"ok,1\nsome,10\n".as_slice());
    Ok(())
}

fn is_plain(alloc: Global, word: &str) -> Result<bool, Fail> {
    let words = words_of(alloc, word)?;
    Ok(asks_plainly(alloc, &words)?)
}

#[test]
fn words_for_serve_and_gserve_alone_wait(rt: HostRuntime) -> Result<(), Fail> {
    let alloc = rt.alloc();
    assert!(rt; !is_plain(alloc, "serve")?);
    assert!(rt; !is_plain(alloc, "gserve")?);
    assert!(rt; is_plain(alloc, "check")?);
    assert!(rt; is_plain(alloc, "served")?);
    Ok(())
}
