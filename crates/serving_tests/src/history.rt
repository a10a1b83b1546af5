//! Versions, their shares and their copies. Where memory is refused, a test ends here.

use crate::guarded::{Guarded, OPEN};
use crate::journals::{made_longer, told};
use aug_monoid::{NoMemory, Share};
use std::alloc::Global;
use std::process::Abort;
use std::sync::Arc;
use std::sync::atomic::AtomicU64;
use versions::{Entry, Version};

/// The version of 0 with an empty journal.
fn first<R: Abort>(rt: &R, alloc: Global) -> Version<Guarded> {
    let door = Arc::new(alloc, AtomicU64::new(OPEN)).expect(rt, "memory");
    Version::first(Guarded::new(door, 0))
}

/// Asserts what a version that was made tells.
fn assert_made<R: Abort>(rt: &R, version: Result<Version<Guarded>, NoMemory>, wanted: (u64, u64)) {
    assert_eq!(rt; told(&version.expect(rt, "memory")), wanted);
}

/// Asserts what a version tells by itself, by a share of it and by a copy apart from it.
fn assert_told<R: Abort>(rt: &R, alloc: Global, version: &Version<Guarded>, wanted: (u64, u64)) {
    assert_eq!(rt; told(version), wanted);
    assert_made(rt, version.share(alloc), wanted);
    assert_made(rt, version.apart(alloc), wanted);
}

#[test]
fn an_earlier_version_stays(rt: HostRuntime) {
    let first = first(&rt, rt.alloc());
    let second = made_longer(&rt, rt.alloc(), &first, 7, &[10, 20]);
    assert_told(&rt, rt.alloc(), &second, (1, 30));
    assert_told(&rt, rt.alloc(), &first, (0, 0));
}

/// How often the state of a version that was made was copied.
fn copies<R: Abort>(rt: &R, version: Result<Version<Guarded>, NoMemory>) -> u64 {
    version.expect(rt, "memory").state().copies
}

#[test]
fn a_copy_apart_has_a_state_of_its_own_and_a_share_has_not(rt: HostRuntime) {
    let first = first(&rt, rt.alloc());
    let version = made_longer(&rt, rt.alloc(), &first, 7, &[10, 20]);
    assert_eq!(rt; copies(&rt, version.share(rt.alloc())), 0);
    assert_eq!(rt; copies(&rt, version.apart(rt.alloc())), 1);
}

/// The caller, the tag and the number of operations of an entry, and of a share of its batch.
fn told_of<R: Abort>(rt: &R, alloc: Global, entry: &Entry<u64>) -> (u32, u64, usize, usize) {
    let batch = entry.batch.share(alloc).expect(rt, "memory");
    (
        entry.caller,
        entry.tag,
        entry.batch.ops().len(),
        batch.ops().len(),
    )
}

#[test]
fn an_entry_and_a_share_of_it_have_their_caller_and_their_tag(rt: HostRuntime) {
    let first = first(&rt, rt.alloc());
    let version = made_longer(&rt, rt.alloc(), &first, 7, &[10, 20]);
    let entry = version.journal().get(0).expect(&rt, "an entry");
    let share = entry.share(rt.alloc()).expect(&rt, "memory");
    assert_eq!(rt; told_of(&rt, rt.alloc(), entry), (3, 7, 2, 2));
    assert_eq!(rt; told_of(&rt, rt.alloc(), &share), (3, 7, 2, 2));
}
