//! Entries of maps from `u64` to `u64` as bytes, and back.
//!
//! `docs/FORMAT.md` tells the format, and `specs/Format.antt` has its definition. The bytes of a map are begun with the number of
//! its entries, the entries are appended by rising keys, and a checksum ends them. `read_entries` answers the entries exactly
//! where bytes are an encoding, and else the first fault.
//!
//! Tests: `border_tests`. Wrong bodies: none here; `map_bytes` states these clauses again.
#![tactic(auto)]

mod adler;
mod fault;
mod header;
mod laws;
mod number;
mod read;
mod write;

pub use fault::DecodeFault;
pub use laws::encodings_differ;
pub use read::read_entries;
pub use write::{begin, push_checksum, push_entry};
