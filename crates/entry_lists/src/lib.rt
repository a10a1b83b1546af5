//! Work on increasing slices of entries: one pass over each, each entry shared once; and cuts of them at a key.
//!
//! `union_of`, `intersect_of` and `difference_of` answer new lists in O(m + n) for slices of m and n entries, and `changes_of` what
//! has changed from the one to the other.
//! `cut_slice` and `cut_front` lend the entries below a key, the value at it and those above it: the one by halves, the other
//! from the front, where the key is near. A call refuses only for want of memory. All but `changes_of` count each comparison as a
//! step, and bound how many there are.
//!
//! Tests: `ground_tests`. Wrong bodies: none here; the crates above state these clauses again.
#![tactic(auto)]

mod changing;
mod differing;
mod intersecting;
mod pushing;
mod slicing;
mod uniting;

pub use changing::{Change, changes_of};
pub use differing::difference_of;
pub use intersecting::intersect_of;
pub use pushing::{push_all_shared, push_shared};
pub use slicing::{SliceParts, cut_front, cut_slice};
pub use uniting::union_of;
