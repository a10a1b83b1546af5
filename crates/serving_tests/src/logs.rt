//! The worked log, a long one, and an item whose share is refused.
ghost use Rattle.std.specs.Prelude.{◌≡◌};

use aug_monoid::{NoMemory, Share};
use shared_log::SharedLog;
use std::alloc::Global;
use std::process::Abort;

/// An item that can have one owner only.
#[derive(Debug, Drop)]
struct Single {
    number: u64,
}

impl Share for Single {
    ghost never_refuses = { ⊥ };

    fn share(&self, _alloc: Global) -> Result<Single, NoMemory> {
        Err(NoMemory)
    }
}

/// The log with one item more. Where memory is refused, the test ends here.
fn longer<R: Abort, T: Share + Drop>(
    rt: &R,
    alloc: Global,
    log: &SharedLog<T>,
    item: T,
) -> SharedLog<T> {
    log.push(alloc, item).expect(rt, "memory")
}

#[test]
fn the_earlier_log_stays(rt: HostRuntime) {
    let empty = SharedLog::new();
    let one = longer(&rt, rt.alloc(), &empty, 10u64);
    let two = longer(&rt, rt.alloc(), &one, 20);
    assert_eq!(rt; two.get(0), Some(&10));
    assert_eq!(rt; two.get(1), Some(&20));
    assert_eq!(rt; two.get(2), None);
    assert_eq!(rt; (empty.len(), one.len(), two.len()), (0, 1, 2));
}

/// The log of the numbers below one.
fn numbers<R: Abort>(rt: &R, alloc: Global, end: u64) -> SharedLog<u64> {
    let mut log = SharedLog::new();
    for item in 0..end {
        log = longer(rt, alloc, &log, item);
    }
    log
}

#[test]
fn all_pages_are_read(rt: HostRuntime) {
    let log = numbers(&rt, rt.alloc(), 2100);
    let copy = log.share(rt.alloc()).expect(&rt, "memory");
    for item in 0..2100u64 {
        assert_eq!(rt; copy.get(item), Some(&item));
    }
    assert_eq!(rt; copy.get(2100), None);
}

fn first_number(log: &SharedLog<Single>) -> Option<u64> {
    let item = log.get(0)?;
    Some(item.number)
}

#[test]
fn a_refused_share_refuses_the_push(rt: HostRuntime) {
    let one = longer(&rt, rt.alloc(), &SharedLog::new(), Single { number: 10 });
    assert!(rt; one.push(rt.alloc(), Single { number: 20 }).is_err());
    assert_eq!(rt; one.len(), 1);
    assert_eq!(rt; first_number(&one), Some(10));
}
