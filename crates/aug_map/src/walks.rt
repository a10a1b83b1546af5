//! Walks over maps.
ghost use Rattle.std.specs.Prelude.{◌≡◌, slice_range};

use crate::map::Map;
use std::alloc::Global;
use tree_shape::{Shape, ShapeRef};
use tree_walk::{Cursor, IterRef};

impl<M: Shape> Map<M> {
    /// Goes over the entries in the order of their keys: one item an entry, a share of it or a refusal of that share. It keeps the
    /// allocator for the shares, and takes no memory itself. An entry takes O(1), and the first one of a block O(log n) in a map
    /// of n entries. From the back, by `next_back` or `rev`, the last one of a block takes O(log n), and so does an entry between
    /// two blocks; others take O(1) where a block is a plain vector, and time linear in the block's size where it is coded.
    pub fn cursor(&self, alloc: Global) -> Cursor<'_, M>
        ensures { result ≡ self.now.entries }
    {
        self.cursor_between(alloc, 0, self.tree.size())
    }

    /// Goes over the entries at the places from `from` up to but without `to`, counted from 0, as `cursor` does; over none where
    /// `from` is not below `to`. Places past the last entry have none. Of a coded block inside which it begins each entry takes time
    /// linear in the block's size.
    pub fn cursor_between(&self, alloc: Global, from: u64, to: u64) -> Cursor<'_, M>
        ensures { result ≡ slice_range self.now.entries from to }
    {
        tree_walk::cursor_between(alloc, &self.tree, from, to)
    }
}

impl<M: ShapeRef> Map<M> {
    /// Goes over the entries in the order of their keys, which it lends where they stand. It takes no memory. An entry takes O(1), but
    /// the first one of a block, and one between two blocks, O(log n) in a map of n entries.
    pub fn iter_ref(&self) -> IterRef<'_, M>
        ensures { result ≡ self.now.entries }
    {
        self.iter_ref_between(0, self.tree.size())
    }

    /// Goes over the entries at the places from `from` up to but without `to`, counted from 0, as `iter_ref` does; over none where
    /// `from` is not below `to`. Places past the last entry have none.
    pub fn iter_ref_between(&self, from: u64, to: u64) -> IterRef<'_, M>
        ensures { result ≡ slice_range self.now.entries from to }
    {
        tree_walk::iter_ref_between(&self.tree, from, to)
    }
}
