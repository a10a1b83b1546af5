//! Runs of the program over a source and a sink in memory.
ghost use Rattle.std.specs.Prelude.{◌≡◌, ◌≤◌};

use fork_join::Gate;
use io_edge::{MemSink, MemSource};
use pam_top::{Status, pam};
use std::alloc::Global;
use std::marker::Sync;
use std::sync::Wait;
use std::test::Fail;
use std::thread::Threads;

/// How a source and a sink give and take: the bytes of a piece, the sink's room, and the calls that fail.
#[derive(Clone, Copy)]
pub(crate) struct Edge<'a> {
    pub(crate) piece: usize,
    pub(crate) room: usize,
    pub(crate) reads: &'a [u64],
    pub(crate) writes: &'a [u64],
}

/// Pieces of so many bytes, room for so many, and no call that fails.
pub(crate) fn sound_edge<'a>(piece: usize, room: usize) -> Edge<'a>
    ensures { result.piece ≡ piece }
{
    Edge {
        piece,
        room,
        reads: &[],
        writes: &[],
    }
}

fn words_of(alloc: Global, words: &[&str]) -> Result<Vec<String>, Fail> {
    let mut list = Vec::new(alloc);
    for word in words {
        list.push(String::from_str(alloc, word)?)?;
    }
    Ok(list)
}

/// What a tool that serves callers writes to an input with so many workers, and its status.
pub(crate) fn run<R: Threads + Wait + Sync, G: Gate>(
    rt: &R,
    alloc: Global,
    tool: &str,
    workers: &str,
    input: &[u8],
    edge: &Edge,
    gate: &G,
) -> Result<(Status, Vec<u8>), Fail>
    requires { 1 ≤ edge.now.piece }
{
    let words = words_of(alloc, &["--workers", workers, "--grain", "1", tool])?;
    let bytes = Vec::from_slice(alloc, input)?;
    let mut source = MemSource::new(bytes, edge.piece, Vec::from_slice(alloc, edge.reads)?);
    let mut sink = MemSink::new(
        alloc,
        edge.room,
        edge.piece,
        Vec::from_slice(alloc, edge.writes)?,
    )?;
    let status = pam(rt, alloc, &words, &mut source, &mut sink, gate);
    Ok((status, Vec::from_slice(alloc, sink.written())?))
}

/// What the tool serve writes to an input with so many workers, and its status.
pub(crate) fn serve<R: Threads + Wait + Sync, G: Gate>(
    rt: &R,
    alloc: Global,
    workers: &str,
    input: &[u8],
    edge: &Edge,
    gate: &G,
) -> Result<(Status, Vec<u8>), Fail>
    requires { 1 ≤ edge.now.piece }
{
    run(rt, alloc, "serve", workers, input, edge, gate)
}
