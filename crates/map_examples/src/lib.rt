//! An example of each call of `OrdMap`, proved to answer what it says.
//!
//! A function is named after the call that it shows, in the file of that name in `ord_map`. Its body is the example, and its
//! contract says what comes out. `bench/doc_examples` writes both into the call's documentation, so that each example there is
//! compiled and proved here.
//!
//! Tests: none. Wrong bodies: none; each contract is an equation of the whole answer.
#![tactic(auto)]

ghost use Rattle.std.specs.Prelude.{◌≡◌, IfOk};

mod asked;
pub mod bridge;
pub mod changes;
pub mod common;
pub mod diff;
pub mod ends;
pub mod entries;
pub mod forked;
pub mod lists;
pub mod many;
pub mod map;
pub mod nearest;
pub mod parts;
pub mod passes;
pub mod ranges;
pub mod same;
pub mod updates;
pub mod valued;
pub mod wholes;

pub use asked::{AtLeast, Largest};
use aug_monoid::{NoMemory, SumMax};
use ord_map::OrdMap;
use std::alloc::Global;

/// Numbers by numbers, with the sum and the greatest of the values in any range of keys.
pub type Sums = OrdMap<SumMax<u64>>;

/// The example at the head of `ord_map`.
pub fn first_steps(alloc: Global) -> Result<u64, NoMemory>
    ensures { IfOk result (λ sum. sum ≡ 50) }
{
    let mut map: OrdMap<SumMax<u64>> = OrdMap::from_pairs(alloc, &[(2, 20), (1, 10)])?;
    map.put(alloc, 3, 30)?;
    Ok(map.fold_range(alloc, &2, &3)?.sum)
}
