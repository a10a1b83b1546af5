//! Keys, values and augmented values of ordered maps, with the laws that the maps rest on.
//!
//! A map is given by an `Augment`: its keys (`Key`), its values (`Share`), and what is kept of entries beside them, with how two
//! such values combine. Blocks of entries are a `Leaf`, which lends its entries, is searched by a key and gives its parts. What
//! callers hand in are traits too: `Resolve` for two values at one key, `Test` and `AugTest` for filters, `Reduce` and `Project`
//! for what is made of many entries. Each trait states its laws as ghost members, and each type here proves them.
//!
//! `Steps` counts comparisons of keys and combinations of augmented values, so that contracts can bound them. `NoMemory` is the
//! one refusal.
//!
//! Tests: `ground_tests`. Wrong bodies: here, in `wrong-bodies/`.
#![tactic(auto)]

mod augment;
mod cross;
mod greater;
mod key;
mod leaf;
mod leaf_mut;
mod leaf_ref;
mod lent;
mod letters;
mod max_right;
mod max_right_of;
mod no_memory;
mod nothing;
mod numbers;
mod owners;
mod pair;
mod pair64;
mod reduce;
mod resolve;
mod share;
mod span;
mod steps;
mod sum_max;
mod test;
mod texts;
mod totals;
mod tuples;
mod wraps;

pub use augment::{Augment, SyncAugment};
pub use cross::crosses;
pub use greater::greater_shared;
pub use key::Key;
pub use leaf::{Leaf, Seek, Walk};
pub use leaf_mut::LeafMut;
pub use leaf_ref::LeafRef;
pub use lent::{Lent, owned};
pub use max_right::MaxRight;
pub use max_right_of::MaxRightOf;
pub use no_memory::NoMemory;
pub use nothing::Nothing;
pub use owners::{Items, Shared};
pub use pair::Pair;
pub use pair64::Pair64;
pub use reduce::{Project, Reduce, SyncReduce};
pub use resolve::{First, Larger, Resolve, SatSum, Second};
pub use share::{Share, share_entry};
pub use span::Span;
pub use steps::Steps;
pub use sum_max::SumMax;
pub use test::{AugTest, Test};
pub use texts::{Bytes, Text};
pub use totals::Totals;
