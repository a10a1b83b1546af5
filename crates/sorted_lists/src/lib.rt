//! Lists of pairs in the order of their keys, and what of them stays where each key is to be there once.
//!
//! `sorted_pairs` sorts pairs stably, on all processors where there are many, and `sorted_pairs_alone` on one thread.
//! `keep_first_of_each` leaves of pairs in a row that have one key the first, and `last_of_each_key` with its twin
//! `last_of_each_key_alone` sorts pairs in any order and leaves the last of each key: what they build, put in order into the empty
//! map. `last_of_each_key_counted` counts the comparisons that come after the sort, at most n for n pairs. `put_in_order` makes keys
//! without values a set, in place. For n pairs each makes about n * log n comparisons. The only refusal is want of memory.
//!
//! It stands on `entry_lists`, `aug_monoid`, `map_model` and `rayon`.
//!
//! Tests: `ground_tests`. Wrong bodies: none here; the crates above state what they make of these clauses.
#![tactic(auto)]

mod firsts;
mod keys;
mod last;
mod pairs;

pub use firsts::keep_first_of_each;
pub use keys::put_in_order;
pub use last::{last_of_each_key, last_of_each_key_alone, last_of_each_key_counted};
pub use pairs::{sorted_pairs, sorted_pairs_alone};
