//! Inputs of the tools serve and gserve, each with the texts that it may have.
ghost use Rattle.std.specs.Prelude.{◌≤◌};

use crate::runs::{run, sound_edge};
use fork_join::FreeGate;
use pam_top::Status;
use std::alloc::Global;
use std::marker::Sync;
use std::process::Abort;
use std::sync::Wait;
use std::test::Fail;
use std::thread::Threads;

/// An input, and its lawful texts.
pub(crate) type Row = (&'static [u8], &'static [&'static [u8]]);

/// Inputs of serve without a bad record.
const LAWFUL: &[Row] = &[
    // nothing, callers that do nothing, and a round without records
    (b"", &[b"final,0,0,0\n"]),
    (b"serve,64", &[b"final,0,0,0\n"]),
    (b"serve,1\nround\n", &[b"final,0,0,0\n"]),
    // the batches of one round stand in either order, and the reads of the next one see both
    (
        b"serve,2\nb,0,put,1,10\nb,1,put,2,20\nround\nr,0,sum,0,9\nr,1,get,2\n",
        &[
            b"r,5,2,aug,30,20\nr,6,2,some,20\nj,1,2\nj,2,3\nfinal,2,30,20\n",
            b"r,5,2,aug,30,20\nr,6,2,some,20\nj,1,3\nj,2,2\nfinal,2,30,20\n",
        ],
    ),
    // a read sees the batch of its round or does not
    (
        b"serve,1\nb,0,put,1,10\nr,0,get,1\n",
        &[
            b"r,3,0,none\nj,1,2\nfinal,1,10,10\n",
            b"r,3,1,some,10\nj,1,2\nfinal,1,10,10\n",
        ],
    ),
    // the last of two batches wins, whichever that is
    (
        b"serve,2\nb,0,put,1,10\nb,1,put,1,20\n",
        &[
            b"j,1,2\nj,2,3\nfinal,1,20,20\n",
            b"j,1,3\nj,2,2\nfinal,1,10,10\n",
        ],
    ),
    // values are added to, or set where there is none
    (
        b"serve,1\nb,0,put,1,10,add,1,5,add,2,7\nround\nr,0,get,1\nr,0,get,2\n",
        &[b"r,4,1,some,15\nr,5,1,some,7\nj,1,2\nfinal,2,22,15\n"],
    ),
    // a sum that saturates, and a wipe between additions
    (
        b"serve,1\nb,0,add,1,18446744073709551615,add,1,1,del,2,add,2,3,wipe,0,1,add,1,4\n",
        &[b"j,1,2\nfinal,2,7,4\n"],
    ),
    // a range that ends before it begins
    (
        b"serve,1\nb,0,wipe,5,1,put,3,9\n",
        &[b"j,1,2\nfinal,1,9,9\n"],
    ),
    // an addition before a put is lost, and one behind it is not
    (
        b"serve,2\nb,0,put,1,10\nb,1,add,1,20\n",
        &[
            b"j,1,2\nj,2,3\nfinal,1,30,30\n",
            b"j,1,3\nj,2,2\nfinal,1,10,10\n",
        ],
    ),
    // a caller's batches stand in record order, round by round
    (
        b"serve,1\nb,0,put,1,1\nb,0,put,1,2\nround\nround\nb,0,del,1\nround\nr,0,rank,9\nr,0,size",
        &[b"r,8,3,rank,0\nr,9,3,size,0\nj,1,2\nj,2,3\nj,3,6\nfinal,0,0,0\n"],
    ),
];

/// Inputs of serve with a bad record, and the line that names the first one.
const FAULTS: &[Row] = &[
    (b"round\n", &[b"error,1,verb\n"]),
    (b"serve\n", &[b"error,1,fields\n"]),
    (b"serve,0\n", &[b"error,1,callers\n"]),
    (b"serve,65\n", &[b"error,1,callers\n"]),
    (b"serve,2\nb,2,put,1,1\n", &[b"error,2,caller\n"]),
    (b"serve,1\nb,0,wipe,1\n", &[b"error,2,fields\n"]),
    (b"serve,1\nb,0,drop,1,2\n", &[b"error,2,op\n"]),
    (b"serve,1\nr,0,max\n", &[b"error,2,op\n"]),
    (b"serve,1\nr,0,get,01\n", &[b"error,2,number\n"]),
    (b"serve,1\nround\nserve,1\n", &[b"error,3,verb\n"]),
    (b"b,0,put,1,1\n", &[b"error,1,verb\n"]),
    (b"serve,1\nserve,1\n", &[b"error,2,verb\n"]),
    (b"serve,1\nb,1,frob\n", &[b"error,2,caller\n"]),
    (b"serve,1\nb,0,put,01\n", &[b"error,2,fields\n"]),
    (b"serve,1\nb,0,put,01,1\n", &[b"error,2,number\n"]),
    (b"serve,1\nr,0,frob\n", &[b"error,2,op\n"]),
    (b"serve,1\nr,0,get\n", &[b"error,2,fields\n"]),
    (b"serve,1\nround,1\n", &[b"error,2,fields\n"]),
];

/// Inputs of gserve without a bad record.
pub(crate) const LAWFUL_GRAPHS: &[Row] = &[
    (b"", &[b"final,0,0\n"]),
    // the reads of a round see the batches of the round before
    (
        b"serve,1\nb,0,add,1,2,add,2,3\nround\nr,0,bfs,1\nr,0,degree,1\n",
        &[b"r,4,1,bfs,3,1,0,2,1,3,2\nr,5,1,degree,1\nj,1,2\nfinal,2,2\n"],
    ),
    // an edge is added and cut, in either order
    (
        b"serve,2\nb,0,add,1,2\nb,1,cut,1,2\n",
        &[b"j,1,2\nj,2,3\nfinal,0,0\n", b"j,1,3\nj,2,2\nfinal,1,1\n"],
    ),
    // a read sees the batch of its round or does not; a vertex reaches itself in any graph
    (
        b"serve,1\nb,0,add,5,5,add,5,6,cut,5,5\nr,0,size\n",
        &[
            b"r,3,0,graph,0,0\nj,1,2\nfinal,1,1\n",
            b"r,3,1,graph,1,1\nj,1,2\nfinal,1,1\n",
        ],
    ),
    (
        b"serve,1\nr,0,bfs,7\nround\nb,0,add,1,2\nb,0,add,2,1,cut,1,2\nround\nr,0,bfs,2\nr,0,degree,1",
        &[b"r,2,0,bfs,1,7,0\nr,7,2,bfs,2,1,1,2,0\nr,8,2,degree,0\nj,1,4\nj,2,5\nfinal,1,1\n"],
    ),
];

/// Inputs of gserve with a bad record, and the line that names the first one.
const FAULTY_GRAPHS: &[Row] = &[
    (b"add,1,2\n", &[b"error,1,verb\n"]),
    (b"serve,65\n", &[b"error,1,callers\n"]),
    (b"serve,1\nb,0,put,1,2\n", &[b"error,2,op\n"]),
    (b"serve,1\nb,0,add,1\n", &[b"error,2,fields\n"]),
    (b"serve,1\nb,1,add,1,2\n", &[b"error,2,caller\n"]),
    (b"serve,1\nb,0,add,1,2,cut,x,2\n", &[b"error,2,number\n"]),
    (b"serve,1\nr,0,get,1\n", &[b"error,2,op\n"]),
    (b"serve,1\nr,0,size,1\n", &[b"error,2,fields\n"]),
    (b"serve,1\nr,0,bfs\n", &[b"error,2,fields\n"]),
];

/// Runs an input in pieces of so many bytes on so many workers.
fn check(
    rt: &(impl Abort + Threads + Wait + Sync),
    alloc: Global,
    tool: &'static str,
    row: Row,
    status: Status,
    piece: usize,
    workers: &'static str,
) -> Result<(), Fail>
    requires { 1 ≤ piece }
{
    let (input, texts) = row;
    let (end, text) = run(
        rt,
        alloc,
        tool,
        workers,
        input,
        &sound_edge(piece, 1000),
        &FreeGate,
    )?;
    assert_eq!(rt; end, status);
    assert!(rt; texts.contains(&text.as_slice()));
    Ok(())
}

/// Runs each input in pieces of 1 byte, of 7 and of many, on 1 worker, on 4 and on 64.
fn check_all(
    rt: &(impl Abort + Threads + Wait + Sync),
    alloc: Global,
    tool: &'static str,
    rows: &[Row],
    status: Status,
) -> Result<(), Fail> {
    for row in rows {
        check(rt, alloc, tool, *row, status, 1, "1")?;
        check(rt, alloc, tool, *row, status, 7, "4")?;
        check(rt, alloc, tool, *row, status, 1000, "64")?;
    }
    Ok(())
}

#[test]
fn texts_of_lawful_inputs(rt: HostRuntime) -> Result<(), Fail> {
    check_all(&rt, rt.alloc(), "serve", LAWFUL, Status::Ok)
}

#[test]
fn the_line_of_the_first_bad_record(rt: HostRuntime) -> Result<(), Fail> {
    check_all(&rt, rt.alloc(), "serve", FAULTS, Status::BadRecord)
}

#[test]
fn texts_of_lawful_inputs_of_gserve(rt: HostRuntime) -> Result<(), Fail> {
    check_all(&rt, rt.alloc(), "gserve", LAWFUL_GRAPHS, Status::Ok)
}

#[test]
fn the_line_of_the_first_bad_record_of_gserve(rt: HostRuntime) -> Result<(), Fail> {
    check_all(&rt, rt.alloc(), "gserve", FAULTY_GRAPHS, Status::BadRecord)
}

/// The input, with its last line ended.
fn ended(alloc: Global, input: &[u8]) -> Result<Vec<u8>, Fail> {
    let mut text = Vec::from_slice(alloc, input)?;
    if !input.is_empty() && !input.ends_with(b"\n") {
        text.push(b'\n')?;
    }
    Ok(text)
}

/// What the tool check says of the text that serve writes on so many workers.
fn verdict(
    rt: &(impl Abort + Threads + Wait + Sync),
    alloc: Global,
    input: &[u8],
    workers: &'static str,
) -> Result<Vec<u8>, Fail> {
    let edge = sound_edge(1000, 1000);
    let (_status, text) = run(rt, alloc, "serve", workers, input, &edge, &FreeGate)?;
    let mut told = ended(alloc, input)?;
    told.extend_from_slice(b"run\n")?;
    told.extend_from_slice(&text)?;
    let (_status, verdict) = run(rt, alloc, "check", workers, &told, &edge, &FreeGate)?;
    Ok(verdict)
}

#[test]
fn what_serve_writes_is_checked(rt: HostRuntime) -> Result<(), Fail> {
    for (input, _texts) in LAWFUL {
        for workers in ["1", "4", "64"] {
            let verdict = verdict(&rt, rt.alloc(), input, workers)?;
            assert_eq!(rt; verdict.as_slice(), b"yes\n".as_slice());
        }
    }
    Ok(())
}
