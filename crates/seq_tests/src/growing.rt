//! Long sequences, and halves that overlap.
use crate::lists::numbers;
use aug_monoid::{NoMemory, Totals};
use fork_join::Cut;
use meeting::Meeting;
use pac_seq::{Ends, Seq, SeqOver, SumTop};
use std::alloc::Global;
use std::marker::Sync;
use std::test::Fail;
use std::thread::Threads;

/// What 2^24 ones sum up to, put together by 24 appends of a sequence to itself.
fn doubled_often(alloc: Global) -> Result<(u64, Totals), NoMemory> {
    let one: Seq<SumTop, 32> = SeqOver::new();
    let mut seq = one.push(alloc, &[1])?;
    for _ in 0..24 {
        seq = seq.append(alloc, &seq)?;
    }
    Ok((seq.size(), seq.sum(alloc)))
}

#[test]
fn a_sequence_appended_to_itself(rt: HostRuntime) -> Result<(), Fail> {
    let (size, sum) = doubled_often(rt.alloc())?;
    assert_eq!(rt; (size, sum.sum, sum.greatest), (16_777_216, 16_777_216, 1));
    Ok(())
}

/// The first number of many that are turned round in two threads, and whether the halves met.
fn turned_halves<R: Threads + Sync>(
    rt: &R,
    alloc: Global,
) -> Result<(Option<u64>, bool), NoMemory> {
    let seq: Seq<Ends, 2> = SeqOver::from_items(alloc, &numbers(alloc, 1000)?)?;
    let gate = Meeting::new();
    let turned = seq.reverse(rt, alloc, &gate, Cut::new(2, 1))?;
    Ok((turned.at(alloc, 0), gate.was_met()))
}

#[test]
fn halves_of_a_reverse_meet(rt: HostRuntime) -> Result<(), Fail> {
    assert_eq!(rt; turned_halves(&rt, rt.alloc())?, (Some(1000), true));
    Ok(())
}
