//! Many callers of the tool gserve.

use crate::order::{is_order_of, order_in};
use crate::runs::{run, sound_edge};
use aug_monoid::NoMemory;
use fork_join::FreeGate;
use pam_top::Status;
use script::line;
use std::alloc::Global;
use std::test::Fail;

/// How many callers there are.
const CALLERS: u64 = 64;

/// Appends a batch of a caller, which adds an edge from the caller's own vertex.
fn push_edge(alloc: Global, caller: u64, to: u64, input: &mut Vec<u8>) -> Result<(), NoMemory> {
    let record = format!(in alloc; "b,{caller},add,{caller},{to}\n")?;
    input.extend_from_slice(record.as_bytes())?;
    Ok(())
}

/// So many batches in one round, of the callers in turn.
fn edges(alloc: Global, count: u64) -> Result<Vec<u8>, NoMemory> {
    let mut input = Vec::new(alloc);
    line(&mut input, "serve", &[CALLERS])?;
    for place in 0..count {
        push_edge(alloc, place % CALLERS, place, &mut input)?;
    }
    Ok(input)
}

#[test]
fn each_edge_of_64_callers_comes_once_and_in_order(rt: HostRuntime) -> Result<(), Fail> {
    let input = edges(rt.alloc(), 1280)?;
    let edge = sound_edge(65536, 1 << 18);
    let (status, text) = run(&rt, rt.alloc(), "gserve", "4", &input, &edge, &FreeGate)?;
    let order = order_in(rt.alloc(), &text)?;
    assert_eq!(rt; status, Status::Ok);
    assert!(rt; is_order_of(rt.alloc(), CALLERS as usize, 1280, &order)?);
    assert!(rt; text.ends_with(b"final,64,1280\n"));
    Ok(())
}
