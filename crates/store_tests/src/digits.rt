//! A number to which digits are written on the right, so that the order of operations shows. Its changes can be refused or held up.
ghost use Rattle.std.specs.Prelude.{◌≡◌, IfOk, fold};
ghost use Rattle.store_tests.specs.Digits.{written};

use aug_monoid::{NoMemory, Share};
use batch_store::{Batch, State};
use fork_join::{FreeGate, On};
use std::alloc::Global;
use std::marker::{Model, Sync};
use std::sync::Arc;
use std::sync::atomic::{AtomicU64, Ordering};
use std::thread::{Threads, yield_now};

/// Changes are made.
pub(crate) const OPEN: u64 = 0;

/// The next change is held up.
pub(crate) const TRAP: u64 = 1;

/// A change waits until the door is open.
pub(crate) const HELD: u64 = 2;

/// What happens to changes.
#[derive(Drop)]
pub(crate) struct Door {
    /// How many of the next changes are refused.
    pub(crate) refusals: AtomicU64,
    pub(crate) word: AtomicU64,
}

/// Seen as the number.
#[derive(Drop)]
pub(crate) struct Digits {
    pub(crate) number: u64,
    door: Arc<Door>,
}

impl Model for Digits {
    ghost use Rattle.std.specs.Prelude.{ℕ};

    ghost Value = { ℕ };

    ghost view = { λ a. a.number };
}

impl Digits {
    pub(crate) fn new(door: Arc<Door>, number: u64) -> Digits
        ensures { result ≡ number }
    {
        Digits { number, door }
    }
}

impl Door {
    /// A door through which all changes go but so many.
    pub(crate) fn new(alloc: Global, refusals: u64) -> Result<Arc<Door>, NoMemory> {
        Ok(Arc::new(
            alloc,
            Door {
                refusals: AtomicU64::new(refusals),
                word: AtomicU64::new(OPEN),
            },
        )?)
    }

    fn refuses(&self) -> bool {
        let left = self.refusals.load(Ordering::SeqCst);
        if left > 0 {
            self.refusals.store(left - 1, Ordering::SeqCst);
        }
        left > 0
    }

    /// Waits at a trap until it is opened, but not for ever.
    fn pass(&self) {
        if self.word.load(Ordering::SeqCst) != TRAP {
            return;
        }
        self.word.store(HELD, Ordering::SeqCst);
        for _ in 0..10_000_000u64 {
            if self.word.load(Ordering::SeqCst) == OPEN {
                return;
            }
            yield_now();
        }
    }
}

impl Share for Digits {
    ghost never_refuses = { ⊥ };

    fn share(&self, _alloc: Global) -> Result<Digits, NoMemory> {
        Ok(Digits::new(Arc::try_clone(&self.door)?, self.number))
    }
}

impl State for Digits {
    type Op = u64;

    ghost step = { written };

    fn change<R: Threads + Sync>(
        &self,
        _on: On<R, FreeGate>,
        _alloc: Global,
        batches: &[Batch<u64>],
    ) -> Result<Digits, NoMemory> {
        if self.door.refuses() {
            return Err(NoMemory);
        }
        self.door.pass();
        let mut number = self.number;
        for batch in batches {
            number = with_all(number, batch.ops());
        }
        Ok(Digits::new(Arc::try_clone(&self.door)?, number))
    }
}

fn with_all(start: u64, digits: &[u64]) -> u64
    ensures { result ≡ fold written start digits.now }
{
    let mut number = start;
    for digit in digits {
        number = number.saturating_mul(10).saturating_add(*digit);
    }
    number
}
