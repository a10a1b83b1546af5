//! A state of which copies can be refused or held up.
ghost use Rattle.std.specs.Prelude.{◌≡◌, IfOk, fold};
ghost use Rattle.serving_tests.specs.Sums.{sum_up};

use aug_monoid::{NoMemory, Share};
use fork_join::{FreeGate, On};
use std::alloc::Global;
use std::marker::{Model, Sync};
use std::sync::Arc;
use std::sync::atomic::{AtomicU64, Ordering};
use std::thread::Threads;
use versions::{Batch, State};

/// Copies are made.
pub(crate) const OPEN: u64 = 0;

/// Copies are refused.
pub(crate) const SHUT: u64 = 1;

/// The next copy is held up.
pub(crate) const TRAP: u64 = 2;

/// A copy waits until the door is open.
pub(crate) const HELD: u64 = 3;

/// A total, seen as the number. Its copies go through a door.
#[derive(Drop)]
pub(crate) struct Guarded {
    pub(crate) total: u64,
    /// How many copies lie between it and the one that was made first.
    pub(crate) copies: u64,
    door: Arc<AtomicU64>,
}

impl Model for Guarded {
    ghost use Rattle.std.specs.Prelude.{ℕ};

    ghost Value = { ℕ };

    ghost view = { λ a. a.total };
}

impl Guarded {
    pub(crate) fn new(door: Arc<AtomicU64>, total: u64) -> Guarded
        ensures { result ≡ total }
    {
        Guarded {
            total,
            copies: 0,
            door,
        }
    }
}

/// Waits at the door, but not for ever.
fn wait_at(door: &AtomicU64) {
    door.store(HELD, Ordering::SeqCst);
    for _ in 0..1_000_000_000u64 {
        if door.load(Ordering::SeqCst) == OPEN {
            return;
        }
    }
}

impl Share for Guarded {
    ghost never_refuses = { ⊥ };

    fn share(&self, _alloc: Global) -> Result<Guarded, NoMemory> {
        match self.door.load(Ordering::SeqCst) {
            SHUT => return Err(NoMemory),
            TRAP => wait_at(&self.door),
            _ => {}
        }
        Ok(Guarded {
            total: self.total,
            copies: self.copies.saturating_add(1),
            door: Arc::try_clone(&self.door)?,
        })
    }
}

impl State for Guarded {
    type Op = u64;

    ghost step = { sum_up };

    fn change<R: Threads + Sync>(
        &self,
        _on: On<R, FreeGate>,
        _alloc: Global,
        batches: &[Batch<u64>],
    ) -> Result<Guarded, NoMemory> {
        let mut total = self.total;
        for batch in batches {
            total = with_all(total, batch.ops());
        }
        Ok(Guarded::new(Arc::try_clone(&self.door)?, total))
    }
}

fn with_all(start: u64, ops: &[u64]) -> u64
    ensures { result ≡ fold sum_up start ops.now }
{
    let mut total = start;
    for op in ops {
        total = total.saturating_add(*op);
    }
    total
}
