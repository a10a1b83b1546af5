//! Ordered maps behind handles that C holds: closed, or open with a map from byte strings to numbers of 64 bits.
//!
//! Contracts see a handle as its `entries`: none where it is closed, and the list of the map's entries where it is open. Keys are
//! any bytes, also none, and stand in the order of their bytes. Every call answers a status of `map_handle`, and changes nothing but
//! at status 0. A call that is given a key copies it, in time linear in its bytes and beside the comparisons of keys that its bound
//! counts, and may be refused the memory of that copy.
//!
//! Tests: `border_tests`. Wrong bodies: none here; `pam_c` states these clauses again.
#![tactic(auto)]

mod combining;
mod cross;
mod filling;
mod handle;
mod inner;
mod making;
mod points;
mod put_rows;
mod reading;
mod slot;
mod writing;

pub use combining::{intersection, union};
pub use cross::kept_crosses;
pub use filling::fill;
pub use handle::{Handle, closed, free, new};
pub use making::{difference, range, share, split};
pub use points::{contains, del, get, put};
pub use put_rows::put_many;
pub use reading::{first, fold, fold_range, last, len, next, prev, rank, select};
