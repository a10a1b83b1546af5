//! Walks over trees: a cursor, which gives shares of the entries from both ends, an iterator that lends them, and where an entry stands
//! by its number.
//!
//! A cursor keeps its place in a block and the entry that follows the block, so that only the first entry of a block is looked up
//! from the root; the place at its back is kept apart. The iterator that lends keeps the four nearest nodes that follow its block, and
//! looks one block of sixteen up from the root. It stands on `tree_shape`.
//!
//! Tests: `map_tests`, `work_tests`. Wrong bodies: here, in `wrong-bodies/`.
#![tactic(auto)]

mod ahead;
mod back;
mod cursor;
mod lending;
mod seat;

pub use cursor::{Cursor, cursor_between};
pub use lending::{IterRef, iter_ref_between};
pub use seat::is_key_at;
