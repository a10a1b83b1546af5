//! Versions of a total with longer and longer journals.
ghost use Rattle.std.specs.Prelude.{◌≡◌, IfOk};
ghost use Rattle.versions.specs.Prefix.{IsPrefix};

use crate::guarded::Guarded;
use aug_monoid::NoMemory;
use fork_join::{Cut, FreeGate};
use std::alloc::Global;
use std::marker::Sync;
use std::process::Abort;
use std::thread::Threads;
use versions::{Batch, Entry, Version};

/// A batch of these numbers.
fn batch_of(alloc: Global, numbers: &[u64]) -> Result<Batch<u64>, NoMemory> {
    Batch::new(alloc, Vec::from_slice(alloc, numbers)?)
}

/// The version with one more entry, which adds these numbers.
pub(crate) fn longer<R: Threads + Sync>(
    rt: &R,
    alloc: Global,
    version: &Version<Guarded>,
    tag: u64,
    numbers: &[u64],
) -> Result<Version<Guarded>, NoMemory>
    ensures { IfOk result (λ longer. (longer.base ≡ version.now.base) × IsPrefix version.now.journal longer.journal) }
{
    let batch = batch_of(alloc, numbers)?;
    let entry = Entry {
        caller: 3,
        tag,
        batch,
    };
    version.extend(rt, alloc, &FreeGate, Cut::new(1, 1024), &[entry])
}

/// The same. Where it is refused, the test ends here.
pub(crate) fn made_longer<R: Threads + Abort + Sync>(
    rt: &R,
    alloc: Global,
    version: &Version<Guarded>,
    tag: u64,
    numbers: &[u64],
) -> Version<Guarded>
    ensures base { result.base ≡ version.now.base }
    ensures grows { IsPrefix version.now.journal result.journal }
{
    longer(rt, alloc, version, tag, numbers).expect(rt, "memory")
}

/// The number and the total of a version.
pub(crate) fn told(version: &Version<Guarded>) -> (u64, u64) {
    (version.number(), version.state().total)
}
