//! Each call once, with answers that are known from outside.

ghost use Rattle.aug_monoid.specs.Fresh.{IsFresh};

use crate::lists::listed;
use aug_monoid::{NoMemory, Pair64, Share, Steps, Totals};
use fork_join::{Cut, FreeGate};
use pac_seq::{Ends, Seq, SeqOver, SumTop, seq_crosses};
use std::alloc::Global;
use std::marker::{Brand, Sync};
use std::sync::ledger::{Blank, Ledger};
use std::test::Fail;
use std::thread::Threads;

type Numbers = Seq<SumTop, 32>;

/// Three numbers twice.
fn doubled(alloc: Global) -> Result<Numbers, NoMemory> {
    let three: Numbers = SeqOver::new();
    let three = three.push(alloc, &[1, 2, 3])?;
    three.append(alloc, &three)
}

/// What all items sum up to, the first three after the first one, and all after the first four.
fn sums_counted<C: Ledger>(alloc: Global, seq: &Numbers, blank: Blank) -> (Totals, Totals, Totals)
    requires { IsFresh C.name C.parts blank }
{
    let mut steps = Steps::<C>::start(blank);
    let inner = seq.reduce(alloc, 1, 3, &mut steps);
    let last = seq.reduce(alloc, 4, u64::MAX, &mut steps);
    (seq.sum(alloc), inner, last)
}

fn sums(alloc: Global) -> Result<(Totals, Totals, Totals), NoMemory> {
    let six = doubled(alloc)?;
    Ok(sums_counted::<Brand>(alloc, &six, Blank::new(1)))
}

#[test]
fn the_sums_of_runs(rt: HostRuntime) -> Result<(), Fail> {
    let (all, inner, last) = sums(rt.alloc())?;
    assert_eq!(rt; (all.sum, all.greatest), (12, 3));
    assert_eq!(rt; (inner.sum, inner.greatest), (6, 3));
    assert_eq!(rt; (last.sum, last.greatest), (5, 3));
    Ok(())
}

/// Six numbers turned round: all, the first two, and those after the fifth.
fn turned(alloc: Global) -> Result<(Vec<u64>, Vec<u64>, Vec<u64>), NoMemory> {
    let turned = doubled(alloc)?.reverse_alone(alloc)?;
    let front = turned.take(alloc, 2)?;
    let back = turned.skip(alloc, 5)?;
    let all = listed(alloc, &turned, 0)?;
    Ok((all, listed(alloc, &front, 0)?, listed(alloc, &back, 0)?))
}

#[test]
fn a_list_turned_round_and_cut(rt: HostRuntime) -> Result<(), Fail> {
    let (all, front, back) = turned(rt.alloc())?;
    assert_eq!(rt; all.as_slice(), [3, 2, 1, 3, 2, 1].as_slice());
    assert_eq!(rt; front.as_slice(), [3, 2].as_slice());
    assert_eq!(rt; back.as_slice(), [1].as_slice());
    Ok(())
}

/// The size and the height of six numbers, the fifth of them, and the one that is not there.
fn told(alloc: Global) -> Result<(u64, u32, Option<u64>, Option<u64>), NoMemory> {
    let six = doubled(alloc)?;
    Ok((six.size(), six.height(), six.at(alloc, 4), six.at(alloc, 6)))
}

/// Three numbers with another at the last place, and a share of the three from the second on.
fn changed(alloc: Global) -> Result<(Vec<u64>, Vec<u64>), NoMemory> {
    let three: Numbers = SeqOver::from_items(alloc, &[1, 2, 3])?;
    let other = three.set(alloc, 2, 9)?;
    let share = three.share(alloc)?;
    Ok((listed(alloc, &other, 0)?, listed(alloc, &share, 1)?))
}

#[test]
fn single_items(rt: HostRuntime) -> Result<(), Fail> {
    assert_eq!(rt; told(rt.alloc())?, (6, 0, Some(2), None));
    let (other, share) = changed(rt.alloc())?;
    assert_eq!(rt; other.as_slice(), [1, 2, 9].as_slice());
    assert_eq!(rt; share.as_slice(), [2, 3].as_slice());
    Ok(())
}

/// The first and the last of six numbers, the first from the second place on, and the last before the fourth.
fn lent(alloc: Global) -> Result<[Option<u64>; 4], NoMemory> {
    let six = doubled(alloc)?;
    let mut all = six.iter();
    let ends = (all.next().copied(), all.next_back().copied());
    let from = six.range_iter(1, 4).next().copied();
    let before = six.range_iter(0, 3).rev().next().copied();
    Ok([ends.0, ends.1, from, before])
}

#[test]
fn items_are_lent_at_both_ends(rt: HostRuntime) -> Result<(), Fail> {
    assert_eq!(rt; lent(rt.alloc())?, [Some(1), Some(3), Some(2), Some(3)]);
    Ok(())
}

/// The first and the last of nine numbers, by a share of their sequence.
fn ends_of_nine(alloc: Global) -> Result<Option<Pair64>, NoMemory> {
    let nine: Seq<Ends, 2> = SeqOver::from_items(alloc, &[1, 2, 3, 4, 5, 6, 7, 8, 9])?;
    let share = nine.share(alloc)?;
    Ok(share.sum(alloc))
}

/// The same of the numbers turned round.
fn ends_turned<R: Threads + Sync>(rt: &R, alloc: Global) -> Result<Option<Pair64>, NoMemory> {
    let nine: Seq<Ends, 2> = SeqOver::from_items(alloc, &[1, 2, 3, 4, 5, 6, 7, 8, 9])?;
    let turned = nine.reverse(rt, alloc, &FreeGate, Cut::new(4, 1))?;
    let share = turned.share(alloc)?;
    Ok(share.sum(alloc))
}

/// The same of the numbers with another at the first place.
fn ends_changed(alloc: Global) -> Result<Option<Pair64>, NoMemory> {
    let nine: Seq<Ends, 2> = SeqOver::from_items(alloc, &[1, 2, 3, 4, 5, 6, 7, 8, 9])?;
    let other = nine.set(alloc, 0, 7)?;
    let share = other.share(alloc)?;
    Ok(share.sum(alloc))
}

const fn pair(first: u64, second: u64) -> Option<Pair64> {
    Some(Pair64 { first, second })
}

#[test]
fn the_ends_of_nine_numbers(rt: HostRuntime) -> Result<(), Fail> {
    assert_eq!(rt; ends_of_nine(rt.alloc())?, pair(1, 9));
    assert_eq!(rt; ends_turned(&rt, rt.alloc())?, pair(9, 1));
    assert_eq!(rt; ends_changed(rt.alloc())?, pair(7, 9));
    Ok(())
}

#[test]
fn sequences_cross_threads(_rt: HostRuntime) {
    let seq: Numbers = SeqOver::new();
    seq_crosses(&seq, &seq.cursor(0));
}
