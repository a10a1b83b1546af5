//! Sets that the items of lists give.
ghost use Rattle.std.specs.Prelude.{◌/◌, [], ◌∷◌};

use aug_monoid::NoMemory;
use fork_join::{Cut, On};
use gathering::{Gives, set_of, set_of_alone};
use meeting::Meeting;
use std::alloc::Global;
use std::marker::Sync;
use std::process::Abort;
use std::thread::Threads;

/// A number gives itself and a tenth of itself.
#[derive(Drop)]
struct WithTenth;

impl Gives<u64, u64> for WithTenth {
    ghost given = { λ _ n. (n, tt) ∷ (n / 10, tt) ∷ [] };

    fn push_given(
        &self,
        _alloc: Global,
        item: &u64,
        into: &mut Vec<(u64, ())>,
    ) -> Result<(), NoMemory> {
        into.push((*item, ()))?;
        into.push((*item / 10, ()))?;
        Ok(())
    }
}

/// The set of numbers with their tenths in two threads, and whether the halves met.
fn with_tenths<R: Threads + Abort + Sync>(
    rt: &R,
    alloc: Global,
    numbers: &[u64],
) -> (Vec<(u64, ())>, bool) {
    let gate = Meeting::new();
    let on = On {
        rt,
        gate: &gate,
        cut: Cut::new(2, 1),
    };
    let set = set_of(on, alloc, &WithTenth, numbers);
    (set.expect(rt, "memory"), gate.was_met())
}

#[test]
fn halves_of_a_list_meet_and_give_each_key_once(rt: HostRuntime) {
    let (keys, met) = with_tenths(&rt, rt.alloc(), &[90, 25, 9, 25, 2]);
    let wanted = [(0, ()), (2, ()), (9, ()), (25, ()), (90, ())];
    assert_eq!(rt; keys.as_slice(), wanted.as_slice());
    assert!(rt; met);
}

#[test]
fn one_thread_gives_each_key_once(rt: HostRuntime) {
    let keys = set_of_alone(rt.alloc(), &WithTenth, &[90, 25, 9, 25, 2]).expect(&rt, "memory");
    let wanted = [(0, ()), (2, ()), (9, ()), (25, ()), (90, ())];
    assert_eq!(rt; keys.as_slice(), wanted.as_slice());
}
