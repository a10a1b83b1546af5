//! Blocked, weight-balanced persistent trees over one shape: what they are made of, the type, its top, and the constructors that
//! keep them balanced.
//!
//! A `Shape` names the keys, values, folds and leaves of a tree, and with `BLOCK` how many entries a block holds at least, so that
//! code over trees has one parameter; `Of` is the shape of a given augment, leaf and block size. A tree of at most `2 * BLOCK`
//! entries is one block, one of at most `4 * BLOCK` entries a node over two blocks of at least `BLOCK` entries, and a larger one a
//! node over two balanced trees, neither of which has more than three times the weight of the other. Every node and block keeps the
//! fold of its entries, so a fold of a whole tree takes no time. Nodes and blocks have several owners, and one that has two is never
//! changed.
//!
//! It stands on `aug_monoid`, `balance` and `map_model`.
//!
//! Tests: `tree_tests`. Wrong bodies: none here; the crates above state these clauses again.
#![tactic(auto)]

mod build;
mod cross;
mod cut;
mod folding;
mod giving;
mod link;
mod listing;
mod look;
mod of;
mod shape;
mod tree;

pub use build::MOST_ENTRIES;
pub use cut::{Around, cut_around};
pub use folding::fold_leaf;
pub use look::Look;
pub use of::{Of, lawful_block};
pub use shape::{Shape, ShapeRef, SyncShape};
pub use tree::{Block, Node, Top, Tree};
