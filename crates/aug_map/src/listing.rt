//! The list of a map's entries.
ghost use Rattle.std.specs.Prelude.{◌≡◌, ◌++◌, IfOk, length, take};

use crate::map::Map;
use aug_monoid::NoMemory;
use std::alloc::Global;
use tree_shape::Shape;

impl<M: Shape> Map<M> {
    /// The entries in the order of their keys, in time linear in their number.
    pub fn to_vec(&self, alloc: Global) -> Result<Vec<(M::Key, M::Val)>, NoMemory>
        ensures { IfOk result (λ list. list.items ≡ self.now.entries) }
    {
        let mut list = Vec::new(alloc);
        self.append_to(alloc, &mut list)?;
        Ok(list)
    }

    /// Appends the entries in the order of their keys, in time linear in their number. A refusal leaves some of them behind what
    /// stood there before.
    pub fn append_to(&self, alloc: Global, into: &mut Vec<(M::Key, M::Val)>) -> Result<(), NoMemory>
        ensures appended { IfOk result (λ _. into.new.items ≡ into.old.items ++ self.now.entries) }
        ensures kept { take (length into.old.items) into.new.items ≡ into.old.items }
    {
        self.tree.push_entries(alloc, into)
    }
}
