//! The one map type: a persistent ordered map with the fold of its entries.
//!
//! Contracts see a `Map` as its entries in the order of their keys, and its height. Each answer shares what it can with the
//! arguments, so a copy of a map costs no more than a pointer. `put_mut`, `insert_mut`, `del_mut` and `put_with` change the map
//! that they are called on, and no other; `union_into` and `multi_put_into` take a map that is given up, and move what it alone
//! has: a refusal loses it. No other call changes an argument. `NoMemory` is the one refusal, also where the `Augment` refuses.
//!
//! The names here give a map's augment, or its augment, its leaf and its block size, and are aliases of the types over one shape, which
//! code that is generic in its maps takes from `shaped`.
//!
//! Operations on whole maps fork where the cut allows it: each is a work of `bulk_passes`, `bulk_ops` or `bulk_changes`, handed to
//! `divide`. Its twin, whose name ends in `_alone`, hands it to `divide_alone`, and asks nothing about threads. `sorted_lists` sorts
//! pairs for it; the calls on single keys, on parts and on ranges stand on `tree_entry`, `tree_change`, `tree_cut`, `tree_join`,
//! `tree_query`, `tree_filter`, `tree_many` and `tree_walk`, all over the trees of `tree_shape`.
//!
//! A call whose name ends in `_counted` is the one without that ending with a counter, and says how many steps it takes at most; that of
//! a build, and of puts and removals of many keys, is the twin on one thread.
//!
//! Tests: `map_tests`, `work_tests`. Wrong bodies: here.
#![tactic(auto)]

mod aliases;
mod alone;
mod batches;
mod bulk;
mod changes;
mod counted;
mod cross;
mod entries;
mod finding;
mod given_up;
mod joins;
mod listing;
mod many;
mod map;
mod queries;
pub mod shaped;
mod shapes;
mod walks;

pub use aliases::{CodedMap, Cursor, Exposed, Map, Parts, PlainMap};
pub use bulk_changes::IntoEntries;
pub use cross::map_crosses;
