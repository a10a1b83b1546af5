//! Each read and each write of an example of serve and of gserve failing in turn.
ghost use Rattle.std.specs.Prelude.{◌≤◌};

use crate::runs::{Edge, run};
use fork_join::FreeGate;
use pam_top::Status;
use std::alloc::Global;
use std::marker::Sync;
use std::process::Abort;
use std::sync::Wait;
use std::test::Fail;
use std::thread::Threads;

/// A tool, an input, and its two texts, which have one length.
type Example = (&'static str, &'static [u8], [&'static [u8]; 2]);

const EXAMPLES: &[Example] = &[
    (
        "serve",
        b"serve,2\nb,0,put,1,10\nb,1,put,2,20\nround\nr,0,sum,0,9\nr,1,get,2\n",
        [
            b"r,5,2,aug,30,20\nr,6,2,some,20\nj,1,2\nj,2,3\nfinal,2,30,20\n",
            b"r,5,2,aug,30,20\nr,6,2,some,20\nj,1,3\nj,2,2\nfinal,2,30,20\n",
        ],
    ),
    (
        "gserve",
        b"serve,2\nb,0,add,1,2\nb,1,add,2,3\nround\nr,0,bfs,1\nr,1,degree,2\n",
        [
            b"r,5,2,bfs,3,1,0,2,1,3,2\nr,6,2,degree,1\nj,1,2\nj,2,3\nfinal,2,2\n",
            b"r,5,2,bfs,3,1,0,2,1,3,2\nr,6,2,degree,1\nj,1,3\nj,2,2\nfinal,2,2\n",
        ],
    ),
];

/// In how many pieces so many bytes are given.
fn pieces(bytes: usize, piece: usize) -> usize
    requires { 1 ≤ piece }
{
    bytes.div_ceil(piece)
}

/// Runs an example in pieces of so many bytes, where these calls fail: so many bytes of one of its texts are written.
fn check(
    rt: &(impl Abort + Threads + Wait + Sync),
    alloc: Global,
    example: &Example,
    piece: usize,
    reads: &[u64],
    writes: &[u64],
    status: Status,
    taken: usize,
) -> Result<(), Fail>
    requires { 1 ≤ piece }
{
    let edge = Edge {
        piece,
        room: 1000,
        reads,
        writes,
    };
    let (end, text) = run(rt, alloc, example.0, "4", example.1, &edge, &FreeGate)?;
    assert_eq!(rt; end, status);
    assert_eq!(rt; text.len(), taken);
    assert!(rt; example.2.iter().any(|whole| whole.starts_with(&text)));
    Ok(())
}

/// Every read fails in turn, also the one that would find the end: nothing is written.
fn check_reads(
    rt: &(impl Abort + Threads + Wait + Sync),
    alloc: Global,
    example: &Example,
    piece: usize,
) -> Result<(), Fail>
    requires { 1 ≤ piece }
{
    let reads = pieces(example.1.len(), piece) as u64;
    let beyond = reads.saturating_add(2);
    for call in 1..beyond {
        check(
            rt,
            alloc,
            example,
            piece,
            &[call],
            &[],
            Status::ReadFault,
            0,
        )?;
    }
    let whole = example.2[0].len();
    check(rt, alloc, example, piece, &[beyond], &[], Status::Ok, whole)
}

/// Every write fails in turn: the pieces before it are written.
fn check_writes(
    rt: &(impl Abort + Threads + Wait + Sync),
    alloc: Global,
    example: &Example,
    piece: usize,
) -> Result<(), Fail>
    requires { 1 ≤ piece }
{
    let whole = example.2[0].len();
    let writes = pieces(whole, piece);
    for done in 0..writes {
        let call = (done as u64).saturating_add(1);
        let taken = done.saturating_mul(piece);
        check(
            rt,
            alloc,
            example,
            piece,
            &[],
            &[call],
            Status::WriteFault,
            taken,
        )?;
    }
    let beyond = (writes as u64).saturating_add(1);
    check(rt, alloc, example, piece, &[], &[beyond], Status::Ok, whole)
}

#[test]
fn each_read_fails_in_turn(rt: HostRuntime) -> Result<(), Fail> {
    for example in EXAMPLES {
        check_reads(&rt, rt.alloc(), example, 1)?;
        check_reads(&rt, rt.alloc(), example, 7)?;
    }
    Ok(())
}

#[test]
fn each_write_fails_in_turn(rt: HostRuntime) -> Result<(), Fail> {
    for example in EXAMPLES {
        check_writes(&rt, rt.alloc(), example, 1)?;
        check_writes(&rt, rt.alloc(), example, 7)?;
    }
    Ok(())
}
