//! Images of the folds of ranges.
ghost use Rattle.std.specs.Prelude.{◌≡◌, ℕ, ◌+◌, ◌*◌, ◌≤◌, length, IfOk};
ghost use Rattle.map_model.specs.Entries.{IsIncreasing};
ghost use Rattle.map_model.specs.Fold.{fold_of, project};
ghost use Rattle.tree_query.specs.Within.{within, begin_tests, end_tests, image_cost, span_cost};
ghost use Rattle.aug_monoid.specs.Fresh.{IsFresh};
ghost use Rattle.aug_monoid.specs.Images.{AreImageCosts, project_cost};

use crate::range::{KeyRange, Span};
use aug_monoid::{Augment, Leaf, NoMemory, Project, Steps};
use std::alloc::Global;
use std::marker::Brand;
use std::sync::ledger::{Blank, Ledger};
use tree_shape::{Look, Shape, Tree};

/// `aug_project_counted` with a counter that is thrown away.
pub fn aug_project<M: Shape, P: Project<M::Augment>>(
    alloc: Global,
    tree: &Tree<M>,
    lo: &M::Key,
    hi: &M::Key,
    how: &P,
) -> Result<P::Out, NoMemory>
    ensures { IfOk result (λ out. out ≡ project M.Key.cmp M.Augment.base_of M.Augment.unit_of M.Augment.combined (P.image_of how.now) tree.now.entries lo.now hi.now) }
{
    project_with_counter::<M, P, Brand>(alloc, tree, lo, hi, how, Blank::new(1))
}

// The same, with a counter of its own.
fn project_with_counter<M: Shape, P: Project<M::Augment>, C: Ledger>(
    alloc: Global,
    tree: &Tree<M>,
    lo: &M::Key,
    hi: &M::Key,
    how: &P,
    blank: Blank,
) -> Result<P::Out, NoMemory>
    requires { IsFresh C.name C.parts blank }
    ensures { IfOk result (λ out. out ≡ project M.Key.cmp M.Augment.base_of M.Augment.unit_of M.Augment.combined (P.image_of how.now) tree.now.entries lo.now hi.now) }
{
    let mut images = Steps::<C>::start(blank);
    aug_project_counted(alloc, tree, lo, hi, how, &mut images)
}

/// The image of the fold of the entries with keys from `lo` to `hi`, both included. It is combined from images of stored folds and
/// of single entries, beside two paths and of at most two blocks; no two augmented values are combined. Each image is a step, and
/// no other is counted: at most `4 * height + 4 * M::BLOCK + 1`.
pub fn aug_project_counted<M: Shape, P: Project<M::Augment>, C: Ledger>(
    alloc: Global,
    tree: &Tree<M>,
    lo: &M::Key,
    hi: &M::Key,
    how: &P,
    images: &mut Steps<C>,
) -> Result<P::Out, NoMemory>
    ensures value { IfOk result (λ out. out ≡ project M.Key.cmp M.Augment.base_of M.Augment.unit_of M.Augment.combined (P.image_of how.now) tree.now.entries lo.now hi.now) }
    ensures cost { images.new ≤ images.old + (4 * tree.now.height + 4 * M.BLOCK + 1) }
{
    project_comparing::<M, P, C, Brand>(alloc, tree, lo, hi, how, images, Blank::new(1))
}

// The same, with a counter of its own for what is compared.
fn project_comparing<M: Shape, P: Project<M::Augment>, C: Ledger, D: Ledger>(
    alloc: Global,
    tree: &Tree<M>,
    lo: &M::Key,
    hi: &M::Key,
    how: &P,
    images: &mut Steps<C>,
    blank: Blank,
) -> Result<P::Out, NoMemory>
    requires { IsFresh D.name D.parts blank }
    ensures value { IfOk result (λ out. out ≡ project M.Key.cmp M.Augment.base_of M.Augment.unit_of M.Augment.combined (P.image_of how.now) tree.now.entries lo.now hi.now) }
    ensures cost { images.new ≤ images.old + (4 * tree.now.height + 4 * M.BLOCK + 1) }
{
    let mut steps = Steps::<D>::start(blank);
    let range = KeyRange::Between { lo, hi };
    project_span(alloc, Span { tree, range }, how, images, &mut steps)
}

/// `aug_project` with its steps counted, and those of its images: where `most` are enough for an image, at most
/// `(4 * height + 4 * M::BLOCK + 1) * most + (2 * height + 4 * M::BLOCK)`.
pub fn aug_project_in_steps<M: Shape, P: Project<M::Augment>, C: Ledger>(
    alloc: Global,
    tree: &Tree<M>,
    lo: &M::Key,
    hi: &M::Key,
    how: &P,
    steps: &mut Steps<C>,
) -> Result<P::Out, NoMemory>
    ensures value { IfOk result (λ out. out ≡ project M.Key.cmp M.Augment.base_of M.Augment.unit_of M.Augment.combined (P.image_of how.now) tree.now.entries lo.now hi.now) }
    ensures cost { (most : ℕ) → AreImageCosts M.Augment.base_of M.Augment.unit_of M.Augment.combined (P.IsImageCost how.now) (length tree.now.entries) most → steps.new ≤ steps.old + project_cost M.BLOCK tree.now.height most }
{
    project_imaging::<M, P, C, Brand>(alloc, tree, lo, hi, how, steps, Blank::new(1))
}

// The same, with a counter of its own for the images.
fn project_imaging<M: Shape, P: Project<M::Augment>, C: Ledger, D: Ledger>(
    alloc: Global,
    tree: &Tree<M>,
    lo: &M::Key,
    hi: &M::Key,
    how: &P,
    steps: &mut Steps<C>,
    blank: Blank,
) -> Result<P::Out, NoMemory>
    requires { IsFresh D.name D.parts blank }
    ensures value { IfOk result (λ out. out ≡ project M.Key.cmp M.Augment.base_of M.Augment.unit_of M.Augment.combined (P.image_of how.now) tree.now.entries lo.now hi.now) }
    ensures cost { (most : ℕ) → AreImageCosts M.Augment.base_of M.Augment.unit_of M.Augment.combined (P.IsImageCost how.now) (length tree.now.entries) most → steps.new ≤ steps.old + project_cost M.BLOCK tree.now.height most }
{
    let mut images = Steps::<D>::start(blank);
    let range = KeyRange::Between { lo, hi };
    project_span(alloc, Span { tree, range }, how, &mut images, steps)
}

/// The image of an augmented value, in one step of `images`. A projection takes images here alone.
#[inline(always)]
fn imaged<A: Augment, P: Project<A>, C: Ledger, D: Ledger>(
    alloc: Global,
    aug: &A::Aug,
    how: &P,
    images: &mut Steps<C>,
    steps: &mut Steps<D>,
) -> Result<P::Out, NoMemory>
    ensures value { IfOk result (λ out. out ≡ P.image_of how.now aug.now) }
    ensures one_step { images.new ≡ images.old + 1 }
    ensures work { (most : ℕ) → P.IsImageCost how.now aug.now most → steps.new ≤ steps.old + most }
{
    images.tick();
    how.image(alloc, aug, steps)
}

/// The image of the stored fold of all entries.
fn project_whole<M: Shape, P: Project<M::Augment>, C: Ledger, D: Ledger>(
    alloc: Global,
    tree: &Tree<M>,
    how: &P,
    images: &mut Steps<C>,
    steps: &mut Steps<D>,
) -> Result<P::Out, NoMemory>
    ensures value { IfOk result (λ out. out ≡ P.image_of how.now (fold_of M.Augment.base_of M.Augment.unit_of M.Augment.combined tree.now.entries)) }
    ensures one_step { images.new ≡ images.old + 1 }
    ensures work { (most : ℕ) → P.IsImageCost how.now (fold_of M.Augment.base_of M.Augment.unit_of M.Augment.combined tree.now.entries) most → steps.new ≤ steps.old + most }
{
    match tree.aug() {
        Some(fold) => imaged::<M::Augment, P, C, D>(alloc, fold, how, images, steps),
        None => imaged::<M::Augment, P, C, D>(alloc, &<M::Augment>::unit(), how, images, steps),
    }
}

/// The image of one entry's augmented value.
fn project_entry<A: Augment, P: Project<A>, C: Ledger, D: Ledger>(
    alloc: Global,
    key: &A::Key,
    val: &A::Val,
    how: &P,
    images: &mut Steps<C>,
    steps: &mut Steps<D>,
) -> Result<P::Out, NoMemory>
    ensures value { IfOk result (λ out. out ≡ P.image_of how.now (A.base_of key.now val.now)) }
    ensures cost { images.new ≤ images.old + 1 }
    ensures work { (most : ℕ) → P.IsImageCost how.now (A.base_of key.now val.now) most → steps.new ≤ steps.old + most }
{
    let base = A::base(alloc, key, val)?;
    imaged::<A, P, C, D>(alloc, &base, how, images, steps)
}

/// The image for the entries of a leaf in a range, in one walk that ends behind the range.
fn project_block<A: Augment, L: Leaf<A::Key, A::Val>, P: Project<A>, C: Ledger, D: Ledger>(
    alloc: Global,
    leaf: &L,
    range: &KeyRange<'_, A::Key>,
    how: &P,
    images: &mut Steps<C>,
    steps: &mut Steps<D>,
) -> Result<P::Out, NoMemory>
    requires { IsIncreasing A.Key.cmp (L.entries leaf.now) }
    ensures value { IfOk result (λ out. out ≡ P.image_of how.now (fold_of A.base_of A.unit_of A.combined (within A.Key.cmp range.now (L.entries leaf.now)))) }
    ensures cost { images.new ≤ images.old + (length (L.entries leaf.now) + 1) }
    ensures work { (most : ℕ) → AreImageCosts A.base_of A.unit_of A.combined (P.IsImageCost how.now) (length (L.entries leaf.now)) most → steps.new ≤ steps.old + ((length (L.entries leaf.now) + 1) * most + length (L.entries leaf.now) * (end_tests range.now + begin_tests range.now)) }
{
    let mut out = imaged::<A, P, C, D>(alloc, &A::unit(), how, images, steps)?;
    let mut walk = leaf.walk();
    for _at in 0..leaf.len() {
        let Some(entry) = leaf.walk_next(&mut walk) else {
            unreachable!()
        };
        let key = entry.key();
        if range.ends_before(key, steps) {
            return Ok(out);
        }
        if range.begins_after(key, steps) {
            continue;
        }
        let image = project_entry::<A, P, C, D>(alloc, key, entry.val(), how, images, steps)?;
        out = how.combine(alloc, out, image)?;
    }
    Ok(out)
}

/// The image for what stands before an entry, the entry, and what stands behind it.
fn image_around<A: Augment, P: Project<A>, C: Ledger, D: Ledger>(
    alloc: Global,
    front: P::Out,
    pair: (&A::Key, &A::Val),
    back: P::Out,
    how: &P,
    images: &mut Steps<C>,
    steps: &mut Steps<D>,
) -> Result<P::Out, NoMemory>
    ensures value { IfOk result (λ out. out ≡ P.combined how.now front (P.combined how.now (P.image_of how.now (A.base_of pair.entry.0.now pair.entry.1.now)) back)) }
    ensures cost { images.new ≤ images.old + 1 }
    ensures work { (most : ℕ) → P.IsImageCost how.now (A.base_of pair.entry.0.now pair.entry.1.now) most → steps.new ≤ steps.old + most }
{
    let middle = project_entry::<A, P, C, D>(alloc, pair.0, pair.1, how, images, steps)?;
    let behind = how.combine(alloc, middle, back)?;
    how.combine(alloc, front, behind)
}

/// The image for the entries in a range.
fn project_span<M: Shape, P: Project<M::Augment>, C: Ledger, D: Ledger>(
    alloc: Global,
    span: Span<'_, M>,
    how: &P,
    images: &mut Steps<C>,
    steps: &mut Steps<D>,
) -> Result<P::Out, NoMemory>
    ensures value { IfOk result (λ out. out ≡ P.image_of how.now (fold_of M.Augment.base_of M.Augment.unit_of M.Augment.combined (within M.Key.cmp span.entry.range span.entry.tree.now.entries))) }
    ensures cost { images.new ≤ images.old + image_cost span.entry.range span.entry.tree.now.height M.BLOCK }
    ensures work { (most : ℕ) → AreImageCosts M.Augment.base_of M.Augment.unit_of M.Augment.combined (P.IsImageCost how.now) (length span.entry.tree.now.entries) most → steps.new ≤ steps.old + span_cost span.entry.range span.entry.tree.now.height M.BLOCK most }
{
    let Span { tree, range } = span;
    if range.is_all() {
        return project_whole(alloc, tree, how, images, steps);
    }
    match tree.look() {
        Look::Empty => project_whole(alloc, tree, how, images, steps),
        Look::Block { leaf } => project_block::<M::Augment, M::Leaf, P, C, D>(
            alloc, leaf, &range, how, images, steps,
        ),
        Look::Node {
            left,
            key,
            val,
            right,
        } => {
            if range.ends_before(key, steps) {
                return project_span(alloc, Span { tree: left, range }, how, images, steps);
            }
            if range.begins_after(key, steps) {
                return project_span(alloc, Span { tree: right, range }, how, images, steps);
            }
            let low = Span {
                tree: left,
                range: range.left_part(),
            };
            let high = Span {
                tree: right,
                range: range.right_part(),
            };
            let front = project_span(alloc, low, how, images, steps)?;
            let back = project_span(alloc, high, how, images, steps)?;
            image_around::<M::Augment, P, C, D>(alloc, front, (key, val), back, how, images, steps)
        }
    }
}
