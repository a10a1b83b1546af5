//! What a sequence asks of its items.
ghost use Rattle.std.specs.Prelude.{◌≡◌, ◌+◌};
ghost use Rattle.map_model.specs.Fold.{IsMonoidOver};

use aug_monoid::{Share, Steps};
use std::marker::{Send, Sync};
use std::sync::ledger::Ledger;

/// Items, and sums of them: a sum of each item, and how the sums of two lists that follow one another are combined. No call takes
/// memory.
pub trait Fold: Drop {
    type Item: Share;

    type Sum: Share;

    /// The sums that the laws speak of.
    ghost Fits: { Self.Sum → Type 0 };

    ghost image_of: { Self.Item → Self.Sum };

    ghost unit_of: { Self.Sum };

    ghost combined: { Self.Sum → Self.Sum → Self.Sum };

    /// The sum of one item.
    fn of(item: &Self::Item) -> Self::Sum
        ensures { result ≡ image_of item.now };

    /// The sum of no items.
    fn unit() -> Self::Sum
        ensures { result ≡ unit_of };

    /// The sum of the items of both, those of `a` first. One step.
    fn combine<C: Ledger>(a: &Self::Sum, b: &Self::Sum, steps: &mut Steps<C>) -> Self::Sum
        ensures value { result ≡ combined a.now b.now }
        ensures one_step { steps.new ≡ steps.old + 1 };

    ghost image_fits: { (item : Self.Item) → Fits (image_of item) };

    ghost monoid: { IsMonoidOver Fits unit_of combined };

    ghost sums_never_refuse: { Self.Sum.never_refuses };
}

/// A `Fold` of items whose shares never refuse.
pub trait SureFold: Fold {
    ghost items_never_refuse: { Self.Item.never_refuses };
}

/// A `Fold` whose items and sums are sent to and shared among threads.
pub trait SyncFold: Fold<Item: Send + Sync, Sum: Send + Sync> + Send + Sync {}

impl<F: Fold<Item: Send + Sync, Sum: Send + Sync> + Send + Sync> SyncFold for F {}
