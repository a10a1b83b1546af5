//! Cursors that are asked at both ends.
ghost use Rattle.map_model.specs.Balance.{IsBlockSize};

use crate::lists::numbers;
use aug_monoid::NoMemory;
use pac_seq::{Cursor, Seq, SeqOver, SumTop};
use std::alloc::Global;
use std::test::Fail;

/// The numbers from 1 on, as many as `count`.
fn numbered<const B: usize>(alloc: Global, count: u64) -> Result<Seq<SumTop, B>, NoMemory>
    requires { IsBlockSize B }
{
    SeqOver::from_items(alloc, &numbers(alloc, count)?)
}

/// Those of them at a range of places, from the first to the last.
fn forwards<const B: usize>(
    alloc: Global,
    count: u64,
    from: u64,
    to: u64,
) -> Result<Vec<u64>, NoMemory>
    requires { IsBlockSize B }
{
    let seq = numbered::<B>(alloc, count)?;
    let mut items = Vec::new(alloc);
    for item in seq.range_iter(from, to) {
        items.push(*item)?;
    }
    Ok(items)
}

/// What a cursor has left, from the last to the first.
fn left_backwards<const B: usize>(
    alloc: Global,
    cursor: Cursor<'_, SumTop, B>,
) -> Result<Vec<u64>, NoMemory> {
    let mut items = Vec::new(alloc);
    for item in cursor.rev() {
        items.push(*item)?;
    }
    Ok(items)
}

/// The same from the last to the first.
fn backwards<const B: usize>(
    alloc: Global,
    count: u64,
    from: u64,
    to: u64,
) -> Result<Vec<u64>, NoMemory>
    requires { IsBlockSize B }
{
    let seq = numbered::<B>(alloc, count)?;
    left_backwards(alloc, seq.range_iter(from, to))
}

/// The same from the front and the back in turn, and what the cursor gives once it has given none.
fn in_turn<const B: usize>(
    alloc: Global,
    count: u64,
    from: u64,
    to: u64,
) -> Result<Vec<u64>, NoMemory>
    requires { IsBlockSize B }
{
    let seq = numbered::<B>(alloc, count)?;
    let mut items = Vec::new(alloc);
    let mut cursor = seq.range_iter(from, to);
    while let Some(item) = cursor.next() {
        items.push(*item)?;
        if let Some(item) = cursor.next_back() {
            items.push(*item)?;
        }
    }
    if let Some(item) = cursor.next_back() {
        items.push(*item)?;
    }
    Ok(items)
}

/// How many numbers, a range of places, and what stands there.
#[derive(Clone, Copy)]
struct Row {
    count: u64,
    from: u64,
    to: u64,
    forwards: &'static [u64],
    backwards: &'static [u64],
    in_turn: &'static [u64],
}

const ROWS: &[Row] = &[
    Row {
        count: 9,
        from: 0,
        to: 9,
        forwards: &[1, 2, 3, 4, 5, 6, 7, 8, 9],
        backwards: &[9, 8, 7, 6, 5, 4, 3, 2, 1],
        in_turn: &[1, 9, 2, 8, 3, 7, 4, 6, 5],
    },
    Row {
        count: 9,
        from: 2,
        to: 8,
        forwards: &[3, 4, 5, 6, 7, 8],
        backwards: &[8, 7, 6, 5, 4, 3],
        in_turn: &[3, 8, 4, 7, 5, 6],
    },
    Row {
        count: 9,
        from: 5,
        to: u64::MAX,
        forwards: &[6, 7, 8, 9],
        backwards: &[9, 8, 7, 6],
        in_turn: &[6, 9, 7, 8],
    },
    Row {
        count: 9,
        from: 4,
        to: 5,
        forwards: &[5],
        backwards: &[5],
        in_turn: &[5],
    },
    NONE,
    Row {
        from: 7,
        to: 2,
        ..NONE
    },
    Row {
        from: 9,
        to: 12,
        ..NONE
    },
    Row {
        from: u64::MAX,
        to: u64::MAX,
        ..NONE
    },
    Row {
        count: 0,
        from: 0,
        to: 1,
        ..NONE
    },
];

const NONE: Row = Row {
    count: 9,
    from: 4,
    to: 4,
    forwards: &[],
    backwards: &[],
    in_turn: &[],
};

/// Whether blocks of at least `B` numbers give what stands there.
fn is_given<const B: usize>(alloc: Global, row: Row) -> Result<bool, NoMemory>
    requires { IsBlockSize B }
{
    let Row {
        count,
        from,
        to,
        ..
    } = row;
    Ok(
        forwards::<B>(alloc, count, from, to)?.as_slice() == row.forwards
            && backwards::<B>(alloc, count, from, to)?.as_slice() == row.backwards
            && in_turn::<B>(alloc, count, from, to)?.as_slice() == row.in_turn,
    )
}

#[test]
fn ranges_of_places(rt: HostRuntime) -> Result<(), Fail> {
    for row in ROWS {
        assert!(rt; is_given::<1>(rt.alloc(), *row)?);
        assert!(rt; is_given::<2>(rt.alloc(), *row)?);
        assert!(rt; is_given::<32>(rt.alloc(), *row)?);
    }
    Ok(())
}

/// A thousand numbers, the first so many of them from the front and the others from the back; then all in order.
fn met_at<const B: usize>(alloc: Global, place: u64) -> Result<Vec<u64>, NoMemory>
    requires { IsBlockSize B }
{
    let seq = numbered::<B>(alloc, 1000)?;
    let mut cursor = seq.iter();
    let mut front = Vec::new(alloc);
    for _ in 0..place {
        if let Some(item) = cursor.next() {
            front.push(*item)?;
        }
    }
    let mut back = left_backwards(alloc, cursor)?;
    back.reverse();
    front.extend_from_slice(&back)?;
    Ok(front)
}

#[test]
fn the_ends_meet_at_a_place(rt: HostRuntime) -> Result<(), Fail> {
    let all = numbers(rt.alloc(), 1000)?;
    for place in [0, 1, 63, 64, 65, 500, 999, 1000, 1001] {
        assert_eq!(rt; met_at::<1>(rt.alloc(), place)?.as_slice(), all.as_slice());
        assert_eq!(rt; met_at::<2>(rt.alloc(), place)?.as_slice(), all.as_slice());
        assert_eq!(rt; met_at::<32>(rt.alloc(), place)?.as_slice(), all.as_slice());
    }
    Ok(())
}
