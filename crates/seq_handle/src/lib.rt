//! Sequences behind handles that C holds: closed, or open with a sequence of numbers of 64 bits.
//!
//! Contracts see a handle as its `items`: none where it is closed, and the list of the sequence's items where it is open. Every
//! call answers a status of `status`, and changes nothing but at status 0.
//!
//! Tests: `border_tests`. Wrong bodies: none here; `pam_c` states these clauses again.
#![tactic(auto)]

mod asking;
mod cross;
mod handle;
mod inner;
mod single;
mod slot;
pub mod status;
mod sums;
mod wholes;

pub use asking::{fill, fold, fold_range, len};
pub use cross::kept_crosses;
pub use handle::{Handle, closed, free, new};
pub use single::{get, push, push_many, set};
pub use wholes::{append, build, reverse, share, skip, take};
