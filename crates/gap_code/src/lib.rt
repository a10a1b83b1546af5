//! Numbers with values, stored as the gaps between the numbers.
//!
//! `Gaps` is a list of entries, each a number and a value, whose numbers do not fall, in one vector of bytes: for each entry the
//! gap from the number before and the value, each in the shortest form of seven bits a byte. `ValueCode` says how values are
//! coded. A place among n entries is reached by a walk over the bytes, in O(n); a cut or a change copies runs of bytes, and codes
//! only a new entry and the number after it anew. A call that makes one refuses only for want of memory.
//!
//! Tests: `ground_tests`, through the leaves. Wrong bodies: here, in `wrong-bodies/`.
#![tactic(auto)]

mod build;
mod gaps;
mod number;
mod value_code;
mod walk;

pub use gaps::Gaps;
pub use number::{number_at, number_len, push_number};
pub use value_code::ValueCode;
pub use walk::Found;
