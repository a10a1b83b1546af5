//! Shapes whose blocks hand their entries out.
use crate::into_entries::IntoEntries;
use std::marker::{Send, Sync};
use tree_shape::{Shape, SyncShape};

/// A `Shape` whose leaves hand their entries out where they are given up.
pub trait IntoShape: Shape<Leaf: IntoEntries<<Self as Shape>::Key, <Self as Shape>::Val>> {}

impl<M: Shape<Leaf: IntoEntries<<M as Shape>::Key, <M as Shape>::Val>>> IntoShape for M {}

/// An `IntoShape` of what is sent to and shared among threads.
pub trait SyncIntoShape: IntoShape + SyncShape {}

impl<M: IntoShape + SyncShape> SyncIntoShape for M {}
