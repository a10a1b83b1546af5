//! A weighted choice, by a sequence of weights with their sums.

ghost use Rattle.std.specs.Prelude.{length};
ghost use Rattle.aug_monoid.specs.Fresh.{IsFresh};

use anyhow::Result;
use aug_monoid::Steps;
use pac_seq::{Seq, SeqOver, SumFrom, SumTop};
use std::alloc::Global;
use std::marker::Brand;
use std::sync::ledger::{Blank, Ledger};

/// Weights, with the sum of any run of them.
type Weights = Seq<SumTop, 64>;

// The place that a number from 1 to the sum of all weights falls on.
fn drawn_counted<C: Ledger>(
    alloc: Global,
    weights: &Weights,
    number: u64,
    blank: Blank,
) -> Option<u64>
    requires { IsFresh C.name C.parts blank }
{
    let mut steps = Steps::<C>::start(blank);
    weights.first_where(alloc, &SumFrom { least: number }, &mut steps)
}

// The same, with a counter of its own.
fn drawn(alloc: Global, weights: &Weights, number: u64) -> Option<u64> {
    drawn_counted::<Brand>(alloc, weights, number, Blank::new(1))
}

/// Where four numbers fall among weights, before and after one weight is changed.
pub(crate) fn page(alloc: Global) -> Result<String> {
    let weights: Weights = SeqOver::from_items(alloc, &[5, 1, 3, 1])?;
    let heavier = weights.set(alloc, 1, 11)?;
    let text = format!(in alloc;
        "of 5, 1, 3, 1 the number 7 falls on {:?}\nof 5, 11, 3, 1 on {:?}; their sum is {}\n",
        drawn(alloc, &weights, 7),
        drawn(alloc, &heavier, 7),
        heavier.sum(alloc).sum
    )?;
    Ok(text)
}
