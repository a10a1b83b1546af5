//! Sets of intervals and maps from intervals, which answer which of them have a point without going over the others.
//!
//! `Intervals` is a map from intervals, by their left and then their right ends, whose fold is the greatest right end. So `any`
//! goes down one path, and `stab` and `overlap` leave out each part that ends before what is asked for; `contained_in` goes over
//! the intervals that begin in its range, and `merged` once over all. `add` and `del` answer a new set and leave the old one as it
//! was; `add_mut` and `del_mut` change a set in place where no other has part in it. `union`, `difference` and `intersection`
//! compare sets interval by interval, not number by number. A call refuses only for want of memory, and then the set is as it was.
//!
//! A call whose name ends in `_counted` is the one without that ending with a counter, and says how many steps it takes at most.
//!
//! `IntervalMap<E, V>` is a map from such intervals to values, whose ends are keys of any type. An end may have no greatest value, so
//! the intervals that begin at most at `hi` are found as those up to the one from `hi` to the greatest right end, which is stored.
//!
//! Tests: `library_tests`. Wrong bodies: here, of that bound, of `contained_in`, `merged`, `difference` and `intersection`, and of
//! `overlapping` and `contained_in` of `IntervalMap`; `interval_tool` states the other clauses of `Intervals` again.
#![tactic(auto)]

mod asking;
mod changing;
mod ends;
mod intervals;
mod making;
mod merging;
mod right_ends;
mod sorting;
mod valued;
mod valued_asking;
mod valued_changing;
mod valued_making;

pub use intervals::Intervals;
pub use valued::IntervalMap;
