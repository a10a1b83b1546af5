//! How many threads the process has, as the system tells.

use std::fs;
use std::process::Abort;
use std::rt::Files;
use std::sync::atomic::{AtomicBool, Ordering};

/// How often one looks before one gives up.
const LOOKS: u64 = 1_000_000;

/// Whether the process has more than two threads: the one that looks, and the one that it looks at.
fn are_more<R: Files + AllocGlobal + Abort>(rt: &R) -> bool {
    let status = fs::read_to_string(rt, "/proc/self/status").expect(rt, "the process's status");
    !status.contains("\nThreads:\t1\n") && !status.contains("\nThreads:\t2\n")
}

/// How often one looks for threads that have ended to be gone.
const FEW_LOOKS: u64 = 1000;

/// Waits for a while until the process has one thread: the system counts one that has ended for a moment more.
pub(crate) fn await_one_thread<R: Files + AllocGlobal + Abort>(rt: &R) {
    for _ in 0..FEW_LOOKS {
        let status = fs::read_to_string(rt, "/proc/self/status").expect(rt, "the process's status");
        if status.contains("\nThreads:\t1\n") {
            return;
        }
    }
}

/// Looks at another thread until it has forked, or is done. Whether it was seen to have forked.
pub(crate) fn sees_a_fork<R: Files + AllocGlobal + Abort>(rt: &R, done: &AtomicBool) -> bool {
    for _ in 0..LOOKS {
        if are_more(rt) {
            return true;
        }
        if done.load(Ordering::SeqCst) {
            return false;
        }
    }
    false
}
