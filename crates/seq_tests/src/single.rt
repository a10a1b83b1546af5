//! Changes that share an item which refuses to be shared: they are refused, and leave the sequence as it was.
ghost use Rattle.std.specs.Prelude.{◌≡◌};

use crate::counts::Count;
use aug_monoid::{NoMemory, Share};
use pac_seq::{Seq, SeqOver};
use std::alloc::Global;
use std::process::Abort;

/// An item that can have one owner only.
#[derive(Drop)]
struct Single {
    number: u64,
}

impl Share for Single {
    ghost never_refuses = { ⊥ };

    fn share(&self, _alloc: Global) -> Result<Single, NoMemory> {
        Err(NoMemory)
    }
}

type Singles = Seq<Count<Single>, 1>;

/// The items 10 and 20, which fill one block.
fn two<R: Abort>(rt: &R, alloc: Global) -> Singles {
    let mut seq = SeqOver::new();
    seq.push_mut(alloc, Single { number: 10 })
        .expect(rt, "memory");
    seq.push_mut(alloc, Single { number: 20 })
        .expect(rt, "memory");
    seq
}

/// The numbers at the first three places, which are lent.
fn numbers(seq: &Singles) -> (Option<u64>, Option<u64>, Option<u64>) {
    (number(seq, 0), number(seq, 1), number(seq, 2))
}

fn number(seq: &Singles, place: u64) -> Option<u64> {
    let item = seq.get(place)?;
    Some(item.number)
}

#[test]
fn a_push_to_a_full_block_is_refused(rt: HostRuntime) {
    let alloc = rt.alloc();
    let mut seq = two(&rt, alloc);
    assert!(rt; seq.push_mut(alloc, Single { number: 30 }).is_err());
    assert_eq!(rt; numbers(&seq), (Some(10), Some(20), None));
    assert_eq!(rt; (seq.size(), seq.sum(alloc)), (2, 2));
}

#[test]
fn a_change_of_what_has_another_owner_is_refused(rt: HostRuntime) {
    let alloc = rt.alloc();
    let mut seq = two(&rt, alloc);
    let other = seq.share(alloc).expect(&rt, "memory");
    assert!(rt; 0 < seq.size());
    assert!(rt; seq.set_mut(alloc, 0, Single { number: 30 }).is_err());
    assert_eq!(rt; numbers(&seq), (Some(10), Some(20), None));
    assert_eq!(rt; numbers(&other), (Some(10), Some(20), None));
}

#[test]
fn a_change_of_what_has_one_owner_shares_nothing(rt: HostRuntime) {
    let alloc = rt.alloc();
    let mut seq = two(&rt, alloc);
    assert!(rt; 0 < seq.size());
    seq.set_mut(alloc, 0, Single { number: 30 })
        .expect(&rt, "memory");
    assert_eq!(rt; numbers(&seq), (Some(30), Some(20), None));
}

#[test]
fn a_list_and_an_end_are_refused(rt: HostRuntime) {
    let alloc = rt.alloc();
    let seq = two(&rt, alloc);
    assert!(rt; seq.to_vec(alloc).is_err());
    assert!(rt; seq.split_first(alloc).is_err());
    assert!(rt; seq.split_last(alloc).is_err());
}
