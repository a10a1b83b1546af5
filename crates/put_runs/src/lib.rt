//! Runs of puts into a map at once, with what each put would have told of the map's size.
//!
//! `put_run` sorts the keys of a run once with their places, puts the last entry of each key into the map by one union, and
//! tells from the first places of new keys how many entries the map would have had after each single put. O(k * log k + k * log
//! n) work for k puts into a map of n entries. It refuses only for want of memory, and gives the map up.
//!
//! Tests: `program_tests`. Wrong bodies: none here; `map_tool` states these clauses of its registers.
#![tactic(auto)]

mod groups;
mod marks;
mod putting;
mod sorting;

pub use putting::put_run;
