//! Many keys looked up in one tree at once.
//!
//! A look-up waits for each node that it goes down. Where many keys are asked for, they are sorted with their places, divided at
//! each node by halves, and answered in the blocks, so that a node is waited for once for all keys that go through it; the answers
//! go back to the places. Few keys, and those of a tree of one block, are looked up one after another.
//!
//! It stands on `tree_join`, `tree_shape` and `sorted_lists`.
//!
//! Tests: `map_tests`, `work_tests`. Wrong bodies: none here; `aug_map` states these clauses again.
#![tactic(auto)]

mod answers;
mod cuts;
mod many;
mod merged;
mod one;
mod places;
mod sorted;

pub use many::{contains_many, get_many};
