//! Maps from `u64` to `u64` as bytes, and back.
//!
//! `docs/FORMAT.md` tells the format, of which `entry_bytes` has the definition. Each map has one encoding.
//!
//!     let bytes = encode(alloc, &map)?;
//!     let same = decode(alloc, &bytes)?;
//!
//! Tests: `border_tests`. Wrong bodies: here, in `wrong-bodies/`.
#![tactic(auto)]

mod decoder;
mod encoder;

pub use decoder::decode;
pub use encoder::encode;
