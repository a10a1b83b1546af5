//! Maps and their cursors cross threads.
use crate::map::Map;
use aug_monoid::crosses;
use tree_shape::SyncShape;
use tree_walk::Cursor;

/// A map and its cursors are sent to and shared among threads. It does nothing, and is there for the proof of that alone.
pub fn map_crosses<M: SyncShape>(map: &Map<M>, cursor: &Cursor<'_, M>) {
    crosses(map);
    crosses(cursor);
}
