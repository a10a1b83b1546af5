//! Sizes at the borders of one block, of two blocks and of a node over nodes.
ghost use Rattle.map_model.specs.Balance.{IsBlockSize};

use crate::lists::{listed, numbers};
use aug_monoid::NoMemory;
use pac_seq::{Ends, Seq, SeqOver};
use std::alloc::Global;
use std::test::Fail;

/// The numbers from 1 on, cut in two and put together the other way round.
fn exchanged<const B: usize>(alloc: Global, count: u64, place: u64) -> Result<Vec<u64>, NoMemory>
    requires { IsBlockSize B }
{
    let seq: Seq<Ends, B> = SeqOver::from_items(alloc, &numbers(alloc, count)?)?;
    let front = seq.take(alloc, place)?;
    let back = seq.skip(alloc, place)?;
    listed(alloc, &back.append(alloc, &front)?, 0)
}

/// The numbers before a place turned round, those from it on pushed to them, and all turned round.
fn turned<const B: usize>(alloc: Global, count: u64, place: u64) -> Result<Vec<u64>, NoMemory>
    requires { IsBlockSize B }
{
    let numbers = numbers(alloc, count)?;
    let (front, back) = numbers.split_at((place as usize).min(numbers.len()));
    let seq: Seq<Ends, B> = SeqOver::from_items(alloc, front)?;
    let seq = seq.reverse_alone(alloc)?.push(alloc, back)?;
    listed(alloc, &seq.reverse_alone(alloc)?, 0)
}

/// How many numbers, a place among them, and the two lists that they make.
#[derive(Clone, Copy)]
struct Row {
    count: u64,
    place: u64,
    exchanged: &'static [u64],
    turned: &'static [u64],
}

const ROWS: &[Row] = &[
    Row {
        count: 0,
        place: 0,
        exchanged: &[],
        turned: &[],
    },
    Row {
        count: 2,
        place: 1,
        exchanged: &[2, 1],
        turned: &[2, 1],
    },
    Row {
        count: 3,
        place: 1,
        exchanged: &[2, 3, 1],
        turned: &[3, 2, 1],
    },
    Row {
        count: 4,
        place: 2,
        exchanged: &[3, 4, 1, 2],
        turned: &[4, 3, 1, 2],
    },
    Row {
        count: 5,
        place: 4,
        exchanged: &[5, 1, 2, 3, 4],
        turned: &[5, 1, 2, 3, 4],
    },
    Row {
        count: 9,
        place: 2,
        exchanged: &[3, 4, 5, 6, 7, 8, 9, 1, 2],
        turned: &[9, 8, 7, 6, 5, 4, 3, 1, 2],
    },
];

/// Whether blocks of at least `B` numbers make the two lists.
fn is_made<const B: usize>(alloc: Global, row: Row) -> Result<bool, NoMemory>
    requires { IsBlockSize B }
{
    let one = exchanged::<B>(alloc, row.count, row.place)?;
    let other = turned::<B>(alloc, row.count, row.place)?;
    Ok(one.as_slice() == row.exchanged && other.as_slice() == row.turned)
}

#[test]
fn small_lists(rt: HostRuntime) -> Result<(), Fail> {
    for row in ROWS {
        assert!(rt; is_made::<1>(rt.alloc(), *row)?);
        assert!(rt; is_made::<2>(rt.alloc(), *row)?);
        assert!(rt; is_made::<32>(rt.alloc(), *row)?);
    }
    Ok(())
}

/// Whether a list has so many items, and begins and ends with these.
fn is_between(list: &[u64], count: u64, first: u64, last: u64) -> bool {
    list.len() as u64 == count && list.first() == Some(&first) && list.last() == Some(&last)
}

/// Whether each cut puts the right numbers at both ends.
fn are_cut_right<const B: usize>(alloc: Global, count: u64) -> Result<bool, NoMemory>
    requires { IsBlockSize B }
{
    for place in 1..count {
        let list = exchanged::<B>(alloc, count, place)?;
        if !is_between(&list, count, place + 1, place) {
            return Ok(false);
        }
    }
    Ok(true)
}

#[test]
fn each_cut_of_lists_of_few_blocks(rt: HostRuntime) -> Result<(), Fail> {
    for count in [64, 65, 128, 129, 300] {
        assert!(rt; are_cut_right::<1>(rt.alloc(), count)?);
        assert!(rt; are_cut_right::<2>(rt.alloc(), count)?);
        assert!(rt; are_cut_right::<32>(rt.alloc(), count)?);
    }
    Ok(())
}
