//! What the seats of a root know, for the proofs alone. No value of these types is made.
use atomic_table::TableRule;
use std::collections::LinkedList;
use std::snapshot::Snapshot;
use versions::{Entry, State, Version};

pub struct View<S, O: Drop> {
    pub role: Role,
    /// The root's base, unless the seat is spent.
    pub base: Option<S>,
    pub seen: LinkedList<Entry<O>>,
    /// Lists that were seen or told of before.
    pub older: LinkedList<LinkedList<Entry<O>>>,
}

pub enum Role {
    Spent,
    Notice,
    Reader(Tries),
    Writer(Lead),
}

/// A reader's number, how many turns it has lost, and the word that it found when it lost the last one.
pub struct Tries {
    pub number: u64,
    pub lost: u64,
    pub found: u64,
    pub has_turn: bool,
}

/// How many readers were made, and below which word the writer has the turn of every stripe.
pub struct Lead {
    pub readers: u64,
    pub held: u64,
}

/// What a root is opened with: its base, and for how many readers.
#[derive(Drop)]
pub struct Opening<S> {
    pub base: Snapshot<S>,
    pub readers: u32,
}

/// The rule of a root's table: `min(readers, 8)` stripes, each a word, which is its turn, and a slot, with seven words and slots
/// between two stripes that are not used.
pub struct RootRule;

impl<S: State> TableRule<Option<Version<S>>, View<S, S::Op>, Opening<S>> for RootRule {
    ghost use Rattle.version_root.specs.Root.{Ruled, opening_view};

    ghost holds = { λ key. Ruled key.base.value key.readers };

    ghost first = { λ key. opening_view key.base.value };
}
