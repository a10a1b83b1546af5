//! Sets of intervals behind handles that C holds: closed, or open with a set of closed intervals of numbers of 64 bits.
//!
//! Contracts see a handle as its `intervals`: none where it is closed, and the list of the set's intervals where it is open. Every
//! call answers a status of `status`, and changes nothing but at status 0.
//!
//! Tests: `border_tests`. Wrong bodies: none here; `pam_c` states these clauses again.
#![tactic(auto)]

mod arrays;
mod asking;
mod cross;
mod handle;
mod inner;
mod listing;
mod single;
mod slot;
pub mod status;
mod wholes;

pub use asking::{any, len};
pub use cross::kept_crosses;
pub use handle::{Handle, closed, free, new};
pub use listing::{fill, overlapping, stab};
pub use single::{add, del};
pub use wholes::{build, share};
