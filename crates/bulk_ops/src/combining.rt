//! The combination of two trees as work that is divided.
ghost use Rattle.std.specs.Prelude.{ℕ, ◌≡◌, ◌+◌, ◌*◌, ◌<◌, ◌≤◌, ◌^◌, Some, length, min, IfOk, IsTrue};
ghost use Rattle.std.specs.Option.{option_map};
ghost use Rattle.map_model.specs.Entries.{lookup, below, above, IsIncreasing};
ghost use Rattle.map_model.specs.Balance.{IsAtMostLevels, IsBlockSize, weight};
ghost use Rattle.tree_shape.specs.Shape.{link_cost};
ghost use Rattle.bulk_passes.specs.Answers.{IsAnswer, IsPutTogether};
ghost use Rattle.bulk_ops.specs.Combination.{IsPairOpened, combined_entries, entry_at, entry_count};
ghost use Rattle.bulk_ops.specs.Costs.{IsOpenedWithin, pair_bound, pair_closing, step_cost};

use crate::combination::Combination;
use crate::exchanged::Exchanged;
use crate::few::{FEW_BLOCKS, combine_few, combine_lists, kept_or_none};
use aug_monoid::{Key, NoMemory, Share, Steps};
use bulk_passes::SLICED_BLOCKS;
use fork_join::{Divide, Opened};
use std::alloc::Global;
use std::sync::ledger::Ledger;
use tree_cut::{Parts, split};
use tree_join::Part;
use tree_make::{entries_of, join_around_counted};
use tree_shape::{Look, Shape, Tree};

/// The combination of two maps: its answer for two trees is the tree of what `how` makes of them. Where the trees are only lent,
/// `shared_sides` gives it owners of its own.
///
/// The greater map's root splits the lesser map, and what is made of the two halves is joined around what stays at the root's key; a
/// side that is empty ends it at once, with the other or with nothing. Two small maps of like sizes are combined as slices, and of a
/// map beside few entries only the paths to these are copied. `divide` combines the halves side by side where the cut allows it, and
/// `divide_alone` does all on one thread, asking of values and of `how` nothing about threads. PAM gives O(m * log(n / m + 1)) work for
/// maps of m and n entries, m at most n; what is proved is the bound of `combine_counted`. It refuses only for want of memory.
#[derive(Drop)]
pub struct Combining<'a, W> {
    pub how: &'a W,
}

impl<'a, M: Shape, W: Combination<M::Key, M::Val>> Divide<
    (Tree<M>, Tree<M>),
    Option<(M::Key, M::Val)>,
    Tree<M>,
> for Combining<'a, W> {
    ghost fits = { λ _ _. Unit {0} };

    ghost answers = { λ work. IsAnswer (combined_entries (W.combined work.how.now)) };

    ghost divides = { λ work. IsPutTogether M.Key.cmp (combined_entries (W.combined work.how.now)) };

    ghost extent = { λ _. entry_count };

    ghost bound = { λ _. pair_bound M.BLOCK M.Leaf.FIND };

    ghost closing = { λ _. pair_closing M.BLOCK };

    // One side of an empty map is no work.
    fn size(&self, part: &(Tree<M>, Tree<M>)) -> u64 {
        let first = part.0.size();
        let second = part.1.size();
        if first == 0 || second == 0 {
            return 0;
        }
        first + second
    }

    fn open<C: Ledger>(
        &self,
        alloc: Global,
        part: (Tree<M>, Tree<M>),
        steps: &mut Steps<C>,
    ) -> Result<Opened<(Tree<M>, Tree<M>), Option<(M::Key, M::Val)>, Tree<M>>, NoMemory> {
        let (a, b) = part;
        open_sides::<M, W, C>(alloc, self.how, a, b, steps)
    }

    fn close<C: Ledger>(
        &self,
        alloc: Global,
        left: Tree<M>,
        middle: Option<(M::Key, M::Val)>,
        right: Tree<M>,
        steps: &mut Steps<C>,
    ) -> Result<Tree<M>, NoMemory> {
        join_around_counted::<M, C>(alloc, left, middle, right, steps)
    }
}

/// Two trees of which one is empty, or which both have entries.
fn open_sides<M: Shape, W: Combination<M::Key, M::Val>, C: Ledger>(
    alloc: Global,
    how: &W,
    a: Tree<M>,
    b: Tree<M>,
    steps: &mut Steps<C>,
) -> Result<Opened<(Tree<M>, Tree<M>), Option<(M::Key, M::Val)>, Tree<M>>, NoMemory>
    ensures opened { IfOk result (IsPairOpened M.Key.cmp (W.combined how.now) (a, b)) }
    ensures cost { IfOk result (IsOpenedWithin M.BLOCK M.Leaf.FIND (a, b) steps.old steps.new) }
{
    let first = a.size();
    let second = b.size();
    if first == 0 {
        return Ok(Opened::Done(kept_or_none(b, how.keeps_second())));
    }
    if second == 0 {
        return Ok(Opened::Done(kept_or_none(a, how.keeps_first())));
    }
    open_both(alloc, how, &a, &b, steps)
}

/// Two trees which are small and of like sizes, of which one has few entries, or which are cut at the root of the greater one.
fn open_both<M: Shape, W: Combination<M::Key, M::Val>, C: Ledger>(
    alloc: Global,
    how: &W,
    a: &Tree<M>,
    b: &Tree<M>,
    steps: &mut Steps<C>,
) -> Result<Opened<(Tree<M>, Tree<M>), Option<(M::Key, M::Val)>, Tree<M>>, NoMemory>
    requires first { 0 < length a.now.entries }
    requires second { 0 < length b.now.entries }
    ensures opened { IfOk result (IsPairOpened M.Key.cmp (W.combined how.now) (a.now, b.now)) }
    ensures cost { IfOk result (IsOpenedWithin M.BLOCK M.Leaf.FIND (a.now, b.now) steps.old steps.new) }
{
    let first = a.size();
    let second = b.size();
    let block = a.block_size();
    if are_small(first, second, block) {
        return Ok(Opened::Done(combine_small(alloc, how, a, b, steps)?));
    }
    if first.min(second) <= FEW_BLOCKS * block {
        return Ok(Opened::Done(combine_unlike(alloc, how, a, b, steps)?));
    }
    if first >= second {
        cut_first(alloc, how, a, b, steps)
    } else {
        cut_second(alloc, how, a, b, steps)
    }
}

/// Whether two trees of so many entries are combined as slices.
fn are_small(first: u64, second: u64, block: u64) -> bool
    requires first { first < 2 ^ 60 }
    requires second { second < 2 ^ 60 }
    requires block { IsBlockSize block }
    ensures small { IsTrue result → 0 < first → 0 < second → first + second ≤ (4 * block + 15) * min first second }
    ensures large { ¬ IsTrue result → 4 * block < first + second }
{
    let both = first + second;
    let few = both <= 4 * block;
    let alike = both / 8 <= first.min(second);
    few || (alike && both <= SLICED_BLOCKS * block)
}

/// Two trees combined as slices.
fn combine_small<M: Shape, W: Combination<M::Key, M::Val>, C: Ledger>(
    alloc: Global,
    how: &W,
    a: &Tree<M>,
    b: &Tree<M>,
    steps: &mut Steps<C>,
) -> Result<Tree<M>, NoMemory>
    requires first { IsIncreasing M.Key.cmp a.now.entries }
    requires second { IsIncreasing M.Key.cmp b.now.entries }
    ensures value { IfOk result (IsAnswer (combined_entries (W.combined how.now)) (a.now, b.now)) }
    ensures cost { steps.new ≤ steps.old + 3 * (length a.now.entries + length b.now.entries) }
{
    let second = entries_of(alloc, b)?;
    combine_lists(alloc, how, a, &second, steps)
}

/// Two trees of which the lesser has few entries, which are taken as a slice.
fn combine_unlike<M: Shape, W: Combination<M::Key, M::Val>, C: Ledger>(
    alloc: Global,
    how: &W,
    a: &Tree<M>,
    b: &Tree<M>,
    steps: &mut Steps<C>,
) -> Result<Tree<M>, NoMemory>
    requires first { IsIncreasing M.Key.cmp a.now.entries }
    requires second { IsIncreasing M.Key.cmp b.now.entries }
    requires few { min (length a.now.entries) (length b.now.entries) ≤ 4 * M.BLOCK }
    ensures value { IfOk result (IsAnswer (combined_entries (W.combined how.now)) (a.now, b.now)) }
    ensures cost { (n : ℕ) → IsAtMostLevels M.BLOCK n (weight a.now.entries + weight b.now.entries) → steps.new ≤ steps.old + min (length a.now.entries) (length b.now.entries) * ((n + 1) * step_cost M.BLOCK M.Leaf.FIND n) }
{
    if a.size() >= b.size() {
        let _height = a.height(); // for the proof alone: its law
        let few = entries_of(alloc, b)?;
        combine_few(alloc, how, Part { tree: a }, &few, steps)
    } else {
        let _height = b.height(); // for the proof alone: its law
        let few = entries_of(alloc, a)?;
        combine_few(alloc, &Exchanged { how }, Part { tree: b }, &few, steps)
    }
}

/// What stays of a key and what two maps have there.
pub(crate) fn keep_entry<K: Key, V: Share, W: Combination<K, V>>(
    alloc: Global,
    how: &W,
    key: &K,
    a: Option<&V>,
    b: Option<&V>,
) -> Result<Option<(K, V)>, NoMemory>
    ensures { IfOk result (λ middle. middle ≡ option_map (λ val. (key.now, val)) (W.kept how.now (option_map (λ v. v.now) a.entry) (option_map (λ v. v.now) b.entry))) }
{
    match how.keep(alloc, a, b)? {
        Some(val) => Ok(Some((key.share(alloc)?, val))),
        None => Ok(None),
    }
}

/// A tree cut at a key of another one, and what stays of that key.
fn cut_at<M: Shape, W: Combination<M::Key, M::Val>, C: Ledger>(
    alloc: Global,
    how: &W,
    key: &M::Key,
    val: &M::Val,
    tree: &Tree<M>,
    steps: &mut Steps<C>,
) -> Result<(Tree<M>, Option<(M::Key, M::Val)>, Tree<M>), NoMemory>
    ensures below { IfOk result (λ cut. cut.0.entries ≡ below M.Key.cmp tree.now.entries key.now) }
    ensures middle { IfOk result (λ cut. cut.1 ≡ entry_at key.now (W.kept how.now (Some val.now) (lookup M.Key.cmp tree.now.entries key.now))) }
    ensures above { IfOk result (λ cut. cut.2.entries ≡ above M.Key.cmp tree.now.entries key.now) }
    ensures cost { (n : ℕ) → IsAtMostLevels M.BLOCK n (weight tree.now.entries) → steps.new ≤ steps.old + ((2 * tree.now.height + 6 * n + 1) * link_cost M.BLOCK + M.Leaf.FIND) }
{
    let Parts {
        below,
        found,
        above,
    } = split(alloc, tree, key, steps)?;
    let middle = keep_entry(alloc, how, key, Some(val), found.as_ref())?;
    Ok((below, middle, above))
}

/// Other owners of two trees, which a `Combining` takes. O(1). `NoMemory` for want of memory alone.
pub fn shared_sides<M: Shape>(
    alloc: Global,
    left: &Tree<M>,
    right: &Tree<M>,
) -> Result<(Tree<M>, Tree<M>), NoMemory>
    ensures near { IfOk result (λ sides. sides.0.entries ≡ left.now.entries) }
    ensures far { IfOk result (λ sides. sides.1.entries ≡ right.now.entries) }
{
    let near = left.share(alloc)?;
    let far = right.share(alloc)?;
    Ok((near, far))
}

/// Two trees cut at the root of the first.
fn cut_first<M: Shape, W: Combination<M::Key, M::Val>, C: Ledger>(
    alloc: Global,
    how: &W,
    a: &Tree<M>,
    b: &Tree<M>,
    steps: &mut Steps<C>,
) -> Result<Opened<(Tree<M>, Tree<M>), Option<(M::Key, M::Val)>, Tree<M>>, NoMemory>
    requires first { IsIncreasing M.Key.cmp a.now.entries }
    requires second { IsIncreasing M.Key.cmp b.now.entries }
    requires some { 0 < length b.now.entries }
    requires greater { length b.now.entries ≤ length a.now.entries }
    requires many { 2 * M.BLOCK < length a.now.entries }
    ensures opened { IfOk result (IsPairOpened M.Key.cmp (W.combined how.now) (a.now, b.now)) }
    ensures cost { IfOk result (IsOpenedWithin M.BLOCK M.Leaf.FIND (a.now, b.now) steps.old steps.new) }
{
    let _height = b.height(); // for the proof alone: its law
    match a.look() {
        Look::Node {
            left,
            key,
            val,
            right,
        } => {
            let (near, far) = shared_sides(alloc, left, right)?;
            let (below, middle, above) = cut_at(alloc, how, key, val, b, steps)?;
            Ok(Opened::Split((near, below), middle, (far, above)))
        }
        _ => Ok(Opened::Done(combine_small(alloc, how, a, b, steps)?)),
    }
}

/// Two trees cut at the root of the second.
fn cut_second<M: Shape, W: Combination<M::Key, M::Val>, C: Ledger>(
    alloc: Global,
    how: &W,
    a: &Tree<M>,
    b: &Tree<M>,
    steps: &mut Steps<C>,
) -> Result<Opened<(Tree<M>, Tree<M>), Option<(M::Key, M::Val)>, Tree<M>>, NoMemory>
    requires first { IsIncreasing M.Key.cmp a.now.entries }
    requires second { IsIncreasing M.Key.cmp b.now.entries }
    requires some { 0 < length a.now.entries }
    requires greater { length a.now.entries ≤ length b.now.entries }
    requires many { 2 * M.BLOCK < length b.now.entries }
    ensures opened { IfOk result (IsPairOpened M.Key.cmp (W.combined how.now) (a.now, b.now)) }
    ensures cost { IfOk result (IsOpenedWithin M.BLOCK M.Leaf.FIND (a.now, b.now) steps.old steps.new) }
{
    match cut_first(alloc, &Exchanged { how }, b, a, steps)? {
        Opened::Done(tree) => Ok(Opened::Done(tree)),
        Opened::Split(front, middle, back) => {
            let (near, below) = front;
            let (far, above) = back;
            Ok(Opened::Split((below, near), middle, (above, far)))
        }
    }
}
