//! A gate at which the halves of a first fork wait for one another: for tests that show that they overlap.
//!
//! A test hands it to a call that forks. Each half waits at the gate until the other one comes, or until it has looked for it
//! often enough in vain, and the gate remembers whether they met: halves that run one after the other never do.
//!
//! Tests: `bulk_tests`, `program_tests`. Wrong bodies: none; it is for tests.
#![tactic(auto)]

use fork_join::Gate;
use std::sync::atomic::{AtomicU64, Ordering};
use std::thread::yield_now;

/// How often a half looks for the other before it gives up.
const TURN_LIMIT: u64 = 10_000_000;

/// A gate that holds the half at place 2 until the half at place 3 has come, and the other way round.
#[derive(Drop)]
pub struct Meeting {
    left_came: AtomicU64,
    right_came: AtomicU64,
    gave_up: AtomicU64,
}

impl Meeting {
    /// A gate at which no half has come yet.
    pub fn new() -> Meeting {
        Meeting {
            left_came: AtomicU64::new(0),
            right_came: AtomicU64::new(0),
            gave_up: AtomicU64::new(0),
        }
    }

    /// Whether both halves came, and neither gave the other up.
    pub fn was_met(&self) -> bool {
        self.left_came.load(Ordering::SeqCst) == 1
            && self.right_came.load(Ordering::SeqCst) == 1
            && self.gave_up.load(Ordering::SeqCst) == 0
    }

    fn hold_until(&self, other_came: &AtomicU64) {
        for _ in 0..TURN_LIMIT {
            if other_came.load(Ordering::SeqCst) != 0 {
                return;
            }
            yield_now();
        }
        self.gave_up.store(1, Ordering::SeqCst);
    }
}

impl Gate for Meeting {
    fn enter(&self, place: u64) {
        match place {
            2 => {
                self.left_came.store(1, Ordering::SeqCst);
                self.hold_until(&self.right_came);
            }
            3 => {
                self.right_came.store(1, Ordering::SeqCst);
                self.hold_until(&self.left_came);
            }
            _ => {}
        }
    }
}
