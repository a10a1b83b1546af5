//! The state of the root that is timed.
ghost use Rattle.std.specs.Prelude.{◌≡◌, fold};
ghost use Rattle.root_bench.specs.Sums.{sum_up};

use aug_monoid::{NoMemory, Share};
use fork_join::{Cut, FreeGate, On, fork2};
use std::alloc::Global;
use std::marker::{Model, Sync};
use std::thread::Threads;
use version_root::{Batch, State};

/// A number to which numbers are added.
#[derive(Drop)]
pub struct Total {
    total: u64,
}

impl Model for Total {
    ghost use Rattle.std.specs.Prelude.{ℕ};

    ghost Value = { ℕ };

    ghost view = { λ a. a.total };
}

impl Total {
    pub fn new(total: u64) -> Total
        ensures { result ≡ total }
    {
        Total { total }
    }
}

impl Share for Total {
    ghost never_refuses = { Unit {0} };

    fn share(&self, _alloc: Global) -> Result<Total, NoMemory> {
        Ok(Total::new(self.total))
    }
}

impl State for Total {
    type Op = u64;

    ghost step = { sum_up };

    fn change<R: Threads + Sync>(
        &self,
        on: On<R, FreeGate>,
        _alloc: Global,
        batches: &[Batch<u64>],
    ) -> Result<Total, NoMemory> {
        let mut total = self.total;
        for batch in batches {
            total = with_all(on, total, batch.ops());
        }
        Ok(Total::new(total))
    }
}

/// The total with all numbers added, which are taken in two halves where the cut allows it.
fn with_all<R: Threads + Sync>(on: On<R, FreeGate>, total: u64, numbers: &[u64]) -> u64
    ensures { result ≡ fold sum_up total numbers.now }
{
    let (front, back) = numbers.split_at(numbers.len() / 2);
    let left = move |_cut: Cut| -> u64
        ensures { result ≡ fold sum_up total front.entry.now }
    { added(total, front) };
    let right = move |_cut: Cut| -> u64
        ensures { result ≡ fold sum_up 0 back.entry.now }
    { added(0, back) };
    let size = numbers.len() as u64;
    let (first, second) = fork2(on.rt, on.gate, on.cut, size, left, right);
    first.saturating_add(second)
}

fn added(start: u64, numbers: &[u64]) -> u64
    ensures { result ≡ fold sum_up start numbers.now }
{
    let mut total = start;
    for number in numbers {
        total = total.saturating_add(*number);
    }
    total
}
