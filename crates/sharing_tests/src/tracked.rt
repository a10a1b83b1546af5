//! Numbers as values that count how often they are shared, and can be made to refuse to be shared.
ghost use Rattle.std.specs.Prelude.{◌≡◌};

use aug_monoid::{NoMemory, Share};
use std::alloc::Global;
use std::marker::Model;
use std::process::Abort;
use std::sync::atomic::{AtomicBool, AtomicU64, Ordering};

/// How often values were shared, and whether they refuse to be shared.
#[derive(Drop)]
pub(crate) struct Shares {
    count: AtomicU64,
    are_refused: AtomicBool,
}

impl Shares {
    pub(crate) fn new() -> Shares {
        Shares {
            count: AtomicU64::new(0),
            are_refused: AtomicBool::new(false),
        }
    }

    /// From now on values refuse to be shared.
    pub(crate) fn refuse(&self) {
        self.are_refused.store(true, Ordering::SeqCst);
    }

    /// How often values were shared, or refused to be, since it was asked last.
    pub(crate) fn take(&self) -> u64 {
        self.count.swap(0, Ordering::SeqCst)
    }
}

/// A number that counts how often it is shared.
#[derive(Drop)]
pub(crate) struct Tracked<'a> {
    number: u64,
    shares: &'a Shares,
}

impl<'a> Tracked<'a> {
    pub(crate) fn new(number: u64, shares: &'a Shares) -> Tracked<'a> {
        Tracked { number, shares }
    }
}

impl<'a> Model for Tracked<'a> {
    ghost use Rattle.std.specs.Prelude.{ℕ};

    ghost Value = { ℕ };

    ghost view = { λ t. t.number };
}

impl<'a> Share for Tracked<'a> {
    ghost never_refuses = { ⊥ };

    fn share(&self, _alloc: Global) -> Result<Tracked<'a>, NoMemory> {
        self.shares.count.fetch_add(1, Ordering::SeqCst);
        if self.shares.are_refused.load(Ordering::SeqCst) {
            return Err(NoMemory);
        }
        Ok(Tracked {
            number: self.number,
            shares: self.shares,
        })
    }
}

/// Even keys from 0 on, each with its half as value.
pub(crate) fn tracked_evens<'a, R: Abort>(
    rt: &R,
    alloc: Global,
    count: u64,
    shares: &'a Shares,
) -> Vec<(u64, Tracked<'a>)> {
    let mut entries = Vec::new(alloc);
    for half in 0..count {
        entries
            .push((half.saturating_mul(2), Tracked::new(half, shares)))
            .expect(rt, "memory");
    }
    entries
}
