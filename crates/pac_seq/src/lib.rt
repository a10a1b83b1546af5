//! Persistent sequences by place, each with the sum of its items.
//!
//! A `Seq` is a list of items. Appends, cuts and changes of one item copy one path and at most two blocks of the tree that a
//! sequence is kept as, so that old sequences stay as they are, and what old and new ones have in common is kept once. `set_mut` and
//! `push_mut` change the sequence that they are called on, in place what it alone owns. What the items of any run sum up to is found
//! from stored sums. What a sum is, a `Fold` says: `SumTop` is at hand, and docs/AUGMENTS.md shows how to write one.
//!
//! Tests: `seq_tests`. Wrong bodies: here, in `wrong-bodies/`.
#![tactic(auto)]

mod back;
mod cross;
mod cursor;
mod editing;
mod finding;
mod parts;
mod places;
mod planting;
mod reducing;
mod reversing;
mod seq;

pub use cross::seq_crosses;
pub use cursor::{Cursor, CursorOver};
pub use finding::{SumFrom, SumTest};
pub use seq::{Seq, SeqOver};
pub use seq_core::{BlockSize, Ends, Fold, SumTop, SureFold, SyncFold, Width};
