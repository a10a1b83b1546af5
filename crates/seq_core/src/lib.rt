//! Persistent sequences by place, as blocked, weight-balanced trees: the type, its top, the constructors that keep its shape,
//! what puts sequences together and cuts them, and what changes one item or appends one.
//!
//! A sequence of at most `2 * B` items is one block, one of at most `4 * B` items a node over two blocks, and a larger one a
//! node over two balanced sequences, neither of which has more than three times the weight of the other. Every node and block
//! keeps the sum of its items. Nodes and blocks have several owners; one that has a single owner may be changed in place. A call
//! refuses only for want of memory.
//!
//! Tests: `seq_tests`. Wrong bodies: none here; `pac_seq` states these clauses again.
#![tactic(auto)]

mod build;
mod changes;
mod cross;
mod cuts;
mod ends;
mod fold;
mod items;
mod joins;
mod link;
mod look;
mod pushes;
mod sets;
mod sides;
mod sum_top;
mod tree;
mod turns;
mod width;

pub use cuts::{append, skip, take};
pub use ends::Ends;
pub use fold::{Fold, SureFold, SyncFold};
pub use items::{copy_items, push_items, share_item, sum_items};
pub use joins::join;
pub use look::Look;
pub use pushes::push_mut;
pub use sets::{set_at, set_mut};
pub use sum_top::SumTop;
pub use tree::{Part, SeqTree};
pub use width::{BlockSize, Width};
