//! Sequences that are changed in place.
ghost use Rattle.map_model.specs.Balance.{IsBlockSize};

use crate::lists::{listed, numbers};
use aug_monoid::{NoMemory, Share, Totals};
use pac_seq::{Seq, SeqOver, SumTop};
use std::alloc::Global;
use std::test::Fail;

/// The numbers from 1 on, pushed one by one.
fn pushed<const B: usize>(alloc: Global, count: u64) -> Result<Seq<SumTop, B>, NoMemory>
    requires { IsBlockSize B }
{
    let mut seq = SeqOver::new();
    for number in numbers(alloc, count)? {
        seq.push_mut(alloc, number)?;
    }
    Ok(seq)
}

/// Whether numbers pushed one by one are those of a list, with its sum and its greatest.
fn is_pushed<const B: usize>(alloc: Global, count: u64) -> Result<bool, NoMemory>
    requires { IsBlockSize B }
{
    let seq = pushed::<B>(alloc, count)?;
    let totals = seq.sum(alloc);
    let wanted: Seq<SumTop, B> = SeqOver::from_items(alloc, &numbers(alloc, count)?)?;
    let is_list = listed(alloc, &seq, 0)?.as_slice() == numbers(alloc, count)?.as_slice();
    Ok(is_list && totals == wanted.sum(alloc))
}

#[test]
fn numbers_pushed_one_by_one(rt: HostRuntime) -> Result<(), Fail> {
    for count in [1, 2, 5, 64, 65, 129, 1000] {
        assert!(rt; is_pushed::<1>(rt.alloc(), count)?);
        assert!(rt; is_pushed::<2>(rt.alloc(), count)?);
        assert!(rt; is_pushed::<32>(rt.alloc(), count)?);
    }
    Ok(())
}

/// Ten numbers of which each is set to ten times as much, and what they sum up to.
fn tenfold<const B: usize>(alloc: Global) -> Result<(Vec<u64>, Totals), NoMemory>
    requires { IsBlockSize B }
{
    let mut seq = pushed::<B>(alloc, 10)?;
    for place in 0..10 {
        if place < seq.size() {
            seq.set_mut(alloc, place, place * 10 + 10)?;
        }
    }
    Ok((listed(alloc, &seq, 0)?, seq.sum(alloc)))
}

#[test]
fn each_of_ten_numbers_is_set(rt: HostRuntime) -> Result<(), Fail> {
    for (items, totals) in [
        tenfold::<1>(rt.alloc())?,
        tenfold::<2>(rt.alloc())?,
        tenfold::<32>(rt.alloc())?,
    ] {
        assert_eq!(rt;
            items.as_slice(),
            [10, 20, 30, 40, 50, 60, 70, 80, 90, 100].as_slice()
        );
        assert_eq!(rt; (totals.sum, totals.greatest), (550, 100));
    }
    Ok(())
}

/// A hundred numbers, and a share of them that a number is pushed to and of which the first and the last are set.
fn shared(alloc: Global) -> Result<(Seq<SumTop, 2>, Seq<SumTop, 2>), NoMemory> {
    let old = pushed::<2>(alloc, 100)?;
    let mut new = old.share(alloc)?;
    new.push_mut(alloc, 1000)?;
    let last = new.size().saturating_sub(1);
    if last < new.size() {
        new.set_mut(alloc, last, 2000)?;
        new.set_mut(alloc, 0, 500)?;
    }
    Ok((old, new))
}

#[test]
fn a_share_of_a_changed_sequence_stays_as_it_was(rt: HostRuntime) -> Result<(), Fail> {
    let alloc = rt.alloc();
    let (old, new) = shared(alloc)?;
    assert_eq!(rt;
        listed(alloc, &old, 0)?.as_slice(),
        numbers(alloc, 100)?.as_slice()
    );
    assert_eq!(rt; (old.sum(alloc).sum, old.sum(alloc).greatest), (5050, 100));
    assert_eq!(rt;
        (new.first(alloc), new.last(alloc), new.size()),
        (Some(500), Some(2000), 101)
    );
    assert_eq!(rt; (new.sum(alloc).sum, new.sum(alloc).greatest), (7549, 2000));
    Ok(())
}

/// As many ones as a sequence may have.
fn fullest(alloc: Global) -> Result<Seq<SumTop, 32>, NoMemory> {
    let mut seq: Seq<SumTop, 32> = SeqOver::new();
    for _ in 0..60 {
        seq = seq.append(alloc, &seq)?;
        seq.push_mut(alloc, 1)?;
    }
    Ok(seq)
}

#[test]
fn a_refused_push_leaves_the_sequence_as_it_was(rt: HostRuntime) -> Result<(), Fail> {
    let alloc = rt.alloc();
    let mut seq = fullest(alloc)?;
    assert!(rt; seq.push_mut(alloc, 2).is_err());
    assert_eq!(rt;
        (seq.size(), seq.last(alloc)),
        (0xfff_ffff_ffff_ffff, Some(1))
    );
    assert_eq!(rt;
        (seq.sum(alloc).sum, seq.sum(alloc).greatest),
        (0xfff_ffff_ffff_ffff, 1)
    );
    Ok(())
}
