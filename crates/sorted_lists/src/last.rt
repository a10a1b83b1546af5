//! Of each key the last pair.
ghost use Rattle.std.specs.Prelude.{◌≡◌, ◌+◌, ◌≤◌, IfOk, length, reverse};
ghost use Rattle.map_model.specs.Entries.{IsIncreasing};
ghost use Rattle.map_model.specs.Operations.{build};
ghost use Rattle.aug_monoid.specs.Fresh.{IsFresh};

use crate::firsts::{keep_first_of_each, keep_first_of_each_counted};
use crate::pairs::{sorted_pairs, sorted_pairs_alone};
use aug_monoid::{Key, NoMemory, Share, Steps};
use entry_lists::push_all_shared;
use std::alloc::Global;
use std::marker::{Brand, Send, Sync};
use std::sync::ledger::{Blank, Ledger};
use std::thread::Threads;

/// The pairs from last to first.
fn newest_first<K: Share, V: Share>(
    alloc: Global,
    pairs: &[(K, V)],
) -> Result<Vec<(K, V)>, NoMemory>
    ensures { IfOk result (λ v. v.items ≡ reverse pairs.now) }
{
    let mut batch = Vec::with_capacity(alloc, pairs.len())?;
    push_all_shared(alloc, &mut batch, pairs)?;
    batch.as_mut_slice().reverse();
    Ok(batch)
}

/// For each key its last pair, by rising keys. The sort uses all processors where there are many pairs. O(n * log n) for n pairs.
/// `NoMemory` for want of memory alone.
pub fn last_of_each_key<R: Threads + Sync, K: Key + Send, V: Share + Send>(
    rt: &R,
    alloc: Global,
    pairs: &[(K, V)],
) -> Result<Vec<(K, V)>, NoMemory>
    ensures value { IfOk result (λ v. v.items ≡ build K.cmp pairs.now) }
    ensures increasing { IfOk result (λ v. IsIncreasing K.cmp v.items) }
{
    let newest = newest_first(alloc, pairs)?;
    let mut batch = sorted_pairs(rt, alloc, newest)?;
    keep_first_of_each(&mut batch);
    Ok(batch)
}

/// `last_of_each_key` on one thread, which asks of pairs nothing about threads. O(n * log n) for n pairs. `NoMemory` for want of
/// memory alone.
pub fn last_of_each_key_alone<K: Key, V: Share>(
    alloc: Global,
    pairs: &[(K, V)],
) -> Result<Vec<(K, V)>, NoMemory>
    ensures value { IfOk result (λ v. v.items ≡ build K.cmp pairs.now) }
    ensures increasing { IfOk result (λ v. IsIncreasing K.cmp v.items) }
{
    last_of_each_key_uncounted::<K, V, Brand>(alloc, pairs, Blank::new(1))
}

fn last_of_each_key_uncounted<K: Key, V: Share, C: Ledger>(
    alloc: Global,
    pairs: &[(K, V)],
    blank: Blank,
) -> Result<Vec<(K, V)>, NoMemory>
    requires { IsFresh C.name C.parts blank }
    ensures value { IfOk result (λ v. v.items ≡ build K.cmp pairs.now) }
    ensures increasing { IfOk result (λ v. IsIncreasing K.cmp v.items) }
{
    let mut steps = Steps::<C>::start(blank);
    last_of_each_key_counted(alloc, pairs, &mut steps)
}

/// `last_of_each_key_alone` with its comparisons counted but for those of its sort, of which nothing is known. For n pairs it takes
/// at most n steps.
pub fn last_of_each_key_counted<K: Key, V: Share, C: Ledger>(
    alloc: Global,
    pairs: &[(K, V)],
    steps: &mut Steps<C>,
) -> Result<Vec<(K, V)>, NoMemory>
    ensures value { IfOk result (λ v. v.items ≡ build K.cmp pairs.now) }
    ensures increasing { IfOk result (λ v. IsIncreasing K.cmp v.items) }
    ensures cost { steps.new ≤ steps.old + length pairs.now }
{
    let newest = newest_first(alloc, pairs)?;
    let mut batch = sorted_pairs_alone(alloc, newest)?;
    keep_first_of_each_counted(&mut batch, steps);
    Ok(batch)
}
