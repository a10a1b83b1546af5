//! Many keys answered at once.
ghost use Rattle.std.specs.Prelude.{◌≡◌, ◌++◌, IfOk, is_some, map};
ghost use Rattle.std.specs.List.Sorted.{IsSorted, IsSortedByKey};
ghost use Rattle.map_model.specs.Entries.{lookup};
ghost use Rattle.aug_monoid.specs.Fresh.{IsFresh};

use crate::answers::{Answer, Value, Whether};
use crate::one::answer_each;
use crate::places::{all_missing, places_of, push_values, put_back, sorted_places};
use crate::sorted::push_sorted;
use aug_monoid::{NoMemory, Steps};
use std::alloc::Global;
use std::marker::Brand;
use std::sync::ledger::{Blank, Ledger};
use tree_join::Part;
use tree_shape::{Shape, Tree};

/// Fewer keys than this are looked up one after another.
const FEW_KEYS: usize = 8;

/// So many sorted keys are answered at a time, so that what is made beside their answers stays in the processor's cache.
const PIECE: usize = 1024;

/// The answers for keys, each with its key's place, in the order of the keys.
fn answers_of<M: Shape, W: Answer<M::Val>, C: Ledger>(
    alloc: Global,
    tree: &Tree<M>,
    keys: &[(M::Key, usize)],
    steps: &mut Steps<C>,
) -> Result<Vec<(usize, W::Out)>, NoMemory>
    requires { IsSortedByKey (λ e. e.0) M.Key.cmp keys.now }
    ensures { IfOk result (λ outs. outs.items ≡ map (λ e. (e.1, W.answer (lookup M.Key.cmp tree.now.entries e.0))) keys.now) }
{
    let mut outs = Vec::with_capacity(alloc, keys.len())?;
    push_sorted::<M, W, C>(alloc, Part { tree }, keys, &mut outs, steps)?;
    Ok(outs)
}

/// The answers for keys in any order, by a sort of them.
fn answer_by_sort<M: Shape, W: Answer<M::Val>, C: Ledger>(
    alloc: Global,
    tree: &Tree<M>,
    keys: &[M::Key],
    steps: &mut Steps<C>,
) -> Result<Vec<W::Out>, NoMemory>
    ensures { IfOk result (λ outs. outs.items ≡ map (λ k. W.answer (lookup M.Key.cmp tree.now.entries k)) keys.now) }
{
    let sorted = sorted_places(alloc, keys)?;
    let answers = answers_of::<M, W, C>(alloc, tree, &sorted, steps)?;
    let blanks = all_missing::<M::Key, M::Val, W>(alloc, keys)?;
    Ok(put_back(blanks, answers))
}

/// Appends to answers those for a piece of sorted keys, in the order of the keys.
fn push_piece<M: Shape, W: Answer<M::Val>, C: Ledger>(
    alloc: Global,
    tree: &Tree<M>,
    keys: &[M::Key],
    outs: &mut Vec<W::Out>,
    steps: &mut Steps<C>,
) -> Result<(), NoMemory>
    requires { IsSorted M.Key.cmp keys.now }
    ensures { IfOk result (λ _. outs.new.items ≡ outs.old.items ++ map (λ k. W.answer (lookup M.Key.cmp tree.now.entries k)) keys.now) }
{
    let places = places_of(alloc, keys)?;
    let answers = answers_of::<M, W, C>(alloc, tree, &places, steps)?;
    push_values(outs, answers)
}

/// The answers for sorted keys, one piece of them after another. They lose nothing by it: hardly a block has keys of two pieces.
fn answer_in_pieces<M: Shape, W: Answer<M::Val>, C: Ledger>(
    alloc: Global,
    tree: &Tree<M>,
    keys: &[M::Key],
    steps: &mut Steps<C>,
) -> Result<Vec<W::Out>, NoMemory>
    requires { IsSorted M.Key.cmp keys.now }
    ensures { IfOk result (λ outs. outs.items ≡ map (λ k. W.answer (lookup M.Key.cmp tree.now.entries k)) keys.now) }
{
    let mut outs = Vec::with_capacity(alloc, keys.len())?;
    let mut rest = keys;
    while !rest.is_empty() {
        let (piece, others) = rest.split_at(rest.len().min(PIECE));
        push_piece::<M, W, C>(alloc, tree, piece, &mut outs, steps)?;
        rest = others;
    }
    Ok(outs)
}

/// The answers for keys in any order, with a counter of its own.
fn answer_all<M: Shape, W: Answer<M::Val>, C: Ledger>(
    alloc: Global,
    tree: &Tree<M>,
    keys: &[M::Key],
    blank: Blank,
) -> Result<Vec<W::Out>, NoMemory>
    requires { IsFresh C.name C.parts blank }
    ensures { IfOk result (λ outs. outs.items ≡ map (λ k. W.answer (lookup M.Key.cmp tree.now.entries k)) keys.now) }
{
    let mut steps = Steps::<C>::start(blank);
    if keys.len() < FEW_KEYS || tree.height() == 0 {
        answer_each::<M, W, C>(alloc, tree, keys, &mut steps)
    } else if keys.is_sorted() {
        answer_in_pieces::<M, W, C>(alloc, tree, keys, &mut steps)
    } else {
        answer_by_sort::<M, W, C>(alloc, tree, keys, &mut steps)
    }
}

/// The values at keys, in the order in which the keys are given, each if it is there. Keys may be in any order, and more than once.
/// O(k log k + k log(n / k + 1)) for k keys and a tree of n entries. `NoMemory` for want of memory alone, and where the share of a
/// key or a value refuses.
pub fn get_many<M: Shape>(
    alloc: Global,
    tree: &Tree<M>,
    keys: &[M::Key],
) -> Result<Vec<Option<M::Val>>, NoMemory>
    ensures { IfOk result (λ vals. vals.items ≡ map (λ k. lookup M.Key.cmp tree.now.entries k) keys.now) }
{
    answer_all::<M, Value<M::Val>, Brand>(alloc, tree, keys, Blank::new(1))
}

/// Whether each of the keys is there, in the order in which they are given and in the time of `get_many`. It shares no value.
pub fn contains_many<M: Shape>(
    alloc: Global,
    tree: &Tree<M>,
    keys: &[M::Key],
) -> Result<Vec<bool>, NoMemory>
    ensures { IfOk result (λ found. found.items ≡ map (λ k. is_some (lookup M.Key.cmp tree.now.entries k)) keys.now) }
{
    answer_all::<M, Whether, Brand>(alloc, tree, keys, Blank::new(1))
}
