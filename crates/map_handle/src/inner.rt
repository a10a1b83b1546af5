//! What an open handle keeps.
use map_folds::SumMaxMin;
use ord_map::OrdMap;
use std::marker::Model;

/// What an open handle keeps.
#[derive(Drop)]
pub struct Inner {
    pub map: OrdMap<SumMaxMin<u64>>,
}

impl Model for Inner {
    ghost use Rattle.std.specs.Prelude.{List, ℕ};

    ghost Value = { List (ℕ × ℕ) };

    ghost view = { λ k. k.map };
}
