//! Ordered maps behind handles that C holds: closed, or open with a map from numbers of 64 bits to numbers of 64 bits.
//!
//! Contracts see a handle as its `entries`: none where it is closed, and the list of the map's entries where it is open. Every
//! call answers a status of `status`, and changes nothing but at status 0.
//!
//! Tests: `border_tests`. Wrong bodies: none here; `pam_c` states these clauses again.
#![tactic(auto)]

mod arrays;
mod as_bytes;
mod combining;
mod cross;
mod filling;
mod folding;
mod handle;
mod how;
mod inner;
mod making;
mod points;
mod reading;
mod slot;
pub mod status;

pub use arrays::{build, del_many, get_many, put_many};
pub use as_bytes::{bytes, from_bytes};
pub use combining::{intersection, union};
pub use cross::kept_crosses;
pub use filling::fill;
pub use folding::{fold, fold_range, least, least_range};
pub use handle::{Handle, closed, free, new};
pub use how::{How, how_of};
pub use making::{difference, range, share, split};
pub use points::{del, get, put};
pub use reading::{count, first, last, len, next, prev, rank, select};
