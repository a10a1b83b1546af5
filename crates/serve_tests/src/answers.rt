//! What a served map answers to queries, and its last line.

use aug_monoid::NoMemory;
use fork_join::{Cut, FreeGate};
use serve_answers::MapAnswers;
use serve_script::ServeQuery;
use serve_text::Answers;
use served_map::{Op, Served};
use std::alloc::Global;
use std::marker::Sync;
use std::test::Fail;
use std::thread::Threads;
use versions::{Batch, State};

/// The map after these operations on none.
fn after<R: Threads + Sync>(rt: &R, alloc: Global, ops: &[Op]) -> Result<Served, NoMemory> {
    let mut batches = Vec::new(alloc);
    batches.push(Batch::new(alloc, Vec::from_slice(alloc, ops)?)?)?;
    Served::new().apply(rt, alloc, &FreeGate, Cut::new(1, 1024), batches.as_slice())
}

/// The answers to the queries, each behind a line feed, and the last line.
fn answers(alloc: Global, map: &Served, queries: &[ServeQuery]) -> Result<Vec<u8>, NoMemory> {
    let mut text = Vec::new(alloc);
    for query in queries {
        text.push(b'\n')?;
        MapAnswers::answer(alloc, map, query, &mut text)?;
    }
    text.push(b'\n')?;
    MapAnswers::write_last(alloc, map, &mut text)?;
    Ok(text)
}

const QUERIES: &[ServeQuery] = &[
    ServeQuery::Get { k: 2 },
    ServeQuery::Get { k: 3 },
    ServeQuery::Sum { lo: 2, hi: 4 },
    ServeQuery::Sum { lo: 4, hi: 2 },
    ServeQuery::Rank { k: 4 },
    ServeQuery::Size,
];

const THREE: &[Op] = &[
    Op::Put { key: 2, val: 20 },
    Op::Put { key: 4, val: 10 },
    Op::Put {
        key: 9,
        val: u64::MAX,
    },
];

#[test]
fn answers_of_three_entries(rt: HostRuntime) -> Result<(), Fail> {
    let map = after(&rt, rt.alloc(), THREE)?;
    assert_eq!(rt;
        answers(rt.alloc(), &map, QUERIES)?.as_slice(),
        b"\nsome,20\nnone\naug,30,20\naug,0,0\nrank,1\nsize,3\nfinal,3,18446744073709551615,18446744073709551615\n".as_slice()
    );
    Ok(())
}

#[test]
fn answers_of_no_entries(rt: HostRuntime) -> Result<(), Fail> {
    assert_eq!(rt;
        answers(rt.alloc(), &Served::new(), QUERIES)?.as_slice(),
        b"\nnone\nnone\naug,0,0\naug,0,0\nrank,0\nsize,0\nfinal,0,0,0\n".as_slice()
    );
    Ok(())
}
