//! What one end of a root tells another.
use crate::steps::{Place, Root};
use std::marker::Model;
use std::sync::Arc;
use versions::State;

/// A notice, seen as its root, the root's base, and the list that it tells of.
#[derive(Drop)]
pub struct Notice<S: State> {
    pub(crate) root: Arc<Root<S>>,
    pub(crate) seat: Place<S>,
}

impl<S: State> Model for Notice<S> {
    ghost use Rattle.std.specs.Arc.{arc_value};
    ghost use Rattle.version_root.specs.Seats.{Telling, telling, IsNotice};

    ghost Value = { Telling S S.Op };

    ghost view = { λ a. telling (arc_value a.root).shared.table_id (arc_value a.root).shared.key.base.value a.seat.me.0 };

    ghost invariant = { λ a. IsNotice (arc_value a.root).shared.table_id a.seat };
}
