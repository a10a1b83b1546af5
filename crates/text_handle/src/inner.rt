//! What an open handle keeps.
use aug_monoid::{Bytes, SumMax};
use ord_map::OrdMap;
use std::marker::Model;

/// What an open handle keeps.
#[derive(Drop)]
pub struct Inner {
    pub map: OrdMap<SumMax<Bytes>>,
}

impl Model for Inner {
    ghost use Rattle.std.specs.Prelude.{List, ℕ};

    ghost Value = { List (List ℕ × ℕ) };

    ghost view = { λ k. k.map };
}
