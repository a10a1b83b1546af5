//! Pairs in the order of their keys.
ghost use Rattle.std.specs.Prelude.{◌≡◌, IfOk, length};
ghost use Rattle.std.specs.List.Sorted.{IsSortedByKey, IsStableByKey};

use aug_monoid::{Key, NoMemory};
use rayon::prelude::*;
use std::alloc::Global;
use std::cmp::Ordering;
use std::marker::{Send, Sync};
use std::thread::Threads;

/// So many pairs are sorted on the caller's thread. To ask the system how many processors there are takes longer than that.
const FEW_PAIRS: usize = 1024;

/// Pairs sorted stably by their keys on all processors.
fn sorted_on_all<R: Threads + Sync, K: Key + Send, V: Send + Drop>(
    rt: &R,
    alloc: Global,
    pairs: Vec<(K, V)>,
) -> Result<Vec<(K, V)>, NoMemory>
    ensures sorted { IfOk result (λ v. IsSortedByKey (λ e. e.0) K.cmp v.items) }
    ensures stable { IfOk result (λ v. IsStableByKey (λ e. e.0) K.cmp pairs.items v.items) }
{
    let mut pairs = pairs;
    par_sort_by(
        rt,
        alloc,
        pairs.as_mut_slice(),
        |x: &(K, V), y: &(K, V)| -> Ordering
            ensures { result ≡ K.cmp x.now.0 y.now.0 }
        { x.0.cmp(&y.0) },
    )?;
    Ok(pairs)
}

/// Pairs sorted stably by their keys, on all processors where there are many. O(n * log n) for n pairs. `NoMemory` for want of memory
/// alone, and then the pairs are lost.
pub fn sorted_pairs<R: Threads + Sync, K: Key + Send, V: Send + Drop>(
    rt: &R,
    alloc: Global,
    pairs: Vec<(K, V)>,
) -> Result<Vec<(K, V)>, NoMemory>
    ensures sorted { IfOk result (λ v. IsSortedByKey (λ e. e.0) K.cmp v.items) }
    ensures stable { IfOk result (λ v. IsStableByKey (λ e. e.0) K.cmp pairs.items v.items) }
{
    if pairs.len() <= FEW_PAIRS {
        sorted_pairs_alone(alloc, pairs)
    } else {
        sorted_on_all(rt, alloc, pairs)
    }
}

/// `sorted_pairs` on one thread, which asks of pairs nothing about threads. O(n * log n) for n pairs. `NoMemory` for want of memory
/// alone, and then the pairs are lost.
pub fn sorted_pairs_alone<K: Key, V: Drop>(
    alloc: Global,
    pairs: Vec<(K, V)>,
) -> Result<Vec<(K, V)>, NoMemory>
    ensures sorted { IfOk result (λ v. IsSortedByKey (λ e. e.0) K.cmp v.items) }
    ensures stable { IfOk result (λ v. IsStableByKey (λ e. e.0) K.cmp pairs.items v.items) }
    ensures len { IfOk result (λ v. length v.items ≡ length pairs.items) }
{
    let mut pairs = pairs;
    pairs.as_mut_slice().sort_by(
        alloc,
        |x: &(K, V), y: &(K, V)| -> Ordering
            ensures { result ≡ K.cmp x.now.0 y.now.0 }
        { x.0.cmp(&y.0) },
    )?;
    Ok(pairs)
}
