//! A list as work that is divided.
ghost use Rattle.std.specs.Prelude.{◌≡◌, ◌++◌, length, IfOk};
ghost use Rattle.std.specs.List.{flat_map};
ghost use Rattle.aug_monoid.specs.Fresh.{IsFresh};
ghost use Rattle.map_model.specs.Entries.{IsIncreasing};
ghost use Rattle.map_model.specs.Operations.{build};
ghost use Rattle.map_model.specs.SetOperations.{union};

use crate::gives::Gives;
use aug_monoid::{Key, NoMemory, Second, Steps};
use entry_lists::union_of;
use fork_join::{Cut, Divide, Gate, On, Opened, divide};
use sorted_lists::put_in_order;
use std::alloc::Global;
use std::marker::{Brand, Send, Sync};
use std::sync::ledger::{Blank, Ledger};
use std::thread::Threads;

// The keys of a list's items, each part of at most `most` items at once.
#[derive(Drop)]
struct Gathering<'a, W> {
    how: &'a W,
    most: usize,
}

impl<'a, T, K: Key, W: Gives<T, K>> Divide<&'a [T], (), Vec<(K, ())>> for Gathering<'a, W> {
    ghost fits = { λ _ _. Unit {0} };

    ghost answers = { λ work part out. out.items ≡ build K.cmp (flat_map (W.given work.how.now) part.now) };

    ghost divides = { λ _ part front _ back. part.now ≡ front.now ++ back.now };

    ghost extent = { λ _ part. length part.now };

    ghost bound = { λ _ _. 0 };

    ghost closing = { λ _ _. 0 };

    fn size(&self, part: &&'a [T]) -> u64 {
        part.len() as u64
    }

    fn open<C: Ledger>(
        &self,
        alloc: Global,
        part: &'a [T],
        _steps: &mut Steps<C>,
    ) -> Result<Opened<&'a [T], (), Vec<(K, ())>>, NoMemory> {
        if part.len() > self.most && part.len() >= 2 {
            let (front, back) = part.split_at(part.len() / 2);
            return Ok(Opened::Split(front, (), back));
        }
        let keys = set_of_alone::<T, K, W>(alloc, self.how, part)?;
        Ok(Opened::Done(keys))
    }

    fn close<C: Ledger>(
        &self,
        alloc: Global,
        left: Vec<(K, ())>,
        _middle: (),
        right: Vec<(K, ())>,
        _steps: &mut Steps<C>,
    ) -> Result<Vec<(K, ())>, NoMemory> {
        both_of::<K, Brand>(alloc, &left, &right, Blank::new(1))
    }
}

// The keys of either of two sets.
fn both_of<K: Key, C: Ledger>(
    alloc: Global,
    left: &[(K, ())],
    right: &[(K, ())],
    blank: Blank,
) -> Result<Vec<(K, ())>, NoMemory>
    requires left { IsIncreasing K.cmp left.now }
    requires right { IsIncreasing K.cmp right.now }
    requires fresh { IsFresh C.name C.parts blank }
    ensures { IfOk result (λ keys. keys.items ≡ union K.cmp (λ v w. w) left.now right.now) }
{
    let mut steps = Steps::<C>::start(blank);
    union_of(alloc, left, right, &Second, &mut steps)
}

// The keys of a list's items as they come.
fn pushed<T, K: Key, W: Gives<T, K>>(
    alloc: Global,
    how: &W,
    items: &[T],
) -> Result<Vec<(K, ())>, NoMemory>
    ensures { IfOk result (λ keys. keys.items ≡ flat_map (W.given how.now) items.now) }
{
    let mut keys = Vec::with_capacity(alloc, items.len())?;
    for item in items {
        how.push_given(alloc, item, &mut keys)?;
    }
    Ok(keys)
}

/// `set_of` on one thread, which asks of items and keys nothing about threads. For n keys it makes about n * log n comparisons.
/// `NoMemory` for want of memory alone.
pub fn set_of_alone<T, K: Key, W: Gives<T, K>>(
    alloc: Global,
    how: &W,
    items: &[T],
) -> Result<Vec<(K, ())>, NoMemory>
    ensures { IfOk result (λ keys. keys.items ≡ build K.cmp (flat_map (W.given how.now) items.now)) }
{
    let mut keys = pushed::<T, K, W>(alloc, how, items)?;
    put_in_order(&mut keys);
    Ok(keys)
}

// How many items at most are done at once, so that each worker has a part.
fn most_at_once(cut: Cut, items: usize) -> usize {
    if cut.splits(items as u64) {
        items.div_ceil(cut.workers as usize)
    } else {
        items
    }
}

/// The keys that a list's items give, in order and each once. The list is halved, where the cut allows it, until there is a part for
/// each worker; the keys of a part are sorted, and parts are merged. For n keys it makes about n * log n comparisons. `NoMemory` for
/// want of memory alone.
pub fn set_of<R: Threads + Sync, G: Gate, T: Sync, K: Key + Send, W: Gives<T, K> + Send + Sync>(
    on: On<R, G>,
    alloc: Global,
    how: &W,
    items: &[T],
) -> Result<Vec<(K, ())>, NoMemory>
    ensures { IfOk result (λ keys. keys.items ≡ build K.cmp (flat_map (W.given how.now) items.now)) }
{
    let most = most_at_once(on.cut, items.len());
    divide(on, alloc, &Gathering { how, most }, items)
}
