//! What an open handle keeps.
use pac_seq::{Seq, SumTop};
use std::marker::Model;

/// A sequence of numbers with their saturating sum and the greatest of them.
pub(crate) type Numbers = Seq<SumTop, 32>;

/// What an open handle keeps.
#[derive(Drop)]
pub struct Inner {
    pub seq: Seq<SumTop, 32>,
}

impl Model for Inner {
    ghost use Rattle.std.specs.Prelude.{List, ℕ};

    ghost Value = { List ℕ };

    ghost view = { λ k. k.seq.items };
}
