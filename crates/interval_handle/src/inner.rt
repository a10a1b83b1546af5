//! What an open handle keeps.
use interval_map::Intervals;
use std::marker::Model;

/// What an open handle keeps.
#[derive(Drop)]
pub struct Inner {
    pub set: Intervals,
}

impl Model for Inner {
    ghost use Rattle.std.specs.Prelude.{List};
    ghost use Rattle.aug_monoid.specs.declared.pair64.Pair64.{Pair64};

    ghost Value = { List Pair64 };

    ghost view = { λ k. k.set };
}
