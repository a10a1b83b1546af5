//! Ordered maps whose calls are named after those of the standard library's maps and sets.
//!
//! An `OrdMap` is a map of `aug_map` in plain blocks of 64 to 128 entries. Contracts see it as its entries in the order of their
//! keys. Its calls count no steps, run on one thread and want nothing but the allocator. Those whose names end in `_on` fork: they
//! are handed an `On` of `fork_join`, which says on which runtime, through which gate and on how many threads, and answer what the
//! calls without the ending do. A share of a map costs no more than a pointer, and no change of one is seen in the other.
//! `NoMemory` is the one refusal, also where the `Augment` refuses, and a refused change leaves the map as it was. Who wants bounds
//! on steps or coded blocks takes `aug_map`: `as_map` and `from_map` lead there and back.
//!
//!     let mut map: OrdMap<SumMax<u64>> = OrdMap::from_pairs(alloc, &[(2, 20), (1, 10)])?;
//!     map.put(alloc, 3, 30)?;
//!     map.fold_range(alloc, &2, &3)?.sum     // 50
//!
//! Tests: `map_tests`. Wrong bodies: here, in `wrong-bodies/`.
#![tactic(auto)]

mod bridge;
mod changes;
mod common;
mod counters;
mod diff;
mod ends;
mod entries;
mod forked;
mod lists;
mod many;
mod map;
mod nearest;
mod parts;
mod passes;
mod ranges;
mod same;
mod united;
mod updates;
mod valued;
mod wholes;

pub use entry_lists::Change;
pub use map::{Iter, IterRef, OrdMap};
pub use valued::MapValue;
