//! What a journal has: entries, each with a batch of operations.
ghost use Rattle.std.specs.Prelude.{◌≡◌, IfOk};

use aug_monoid::{NoMemory, Share};
use std::alloc::Global;
use std::marker::Model;
use std::sync::Arc;

/// Operations that are applied together, seen as their list in order. A batch may have many owners.
pub struct Batch<O: Drop> {
    ops: Arc<Vec<O>>,
}

impl<O: Drop> Model for Batch<O> {
    ghost use Rattle.std.specs.Prelude.{List};
    ghost use Rattle.std.specs.Arc.{arc_value};

    ghost Value = { List O };

    ghost view = { λ a. (arc_value a.ops).items };
}

impl<O: Drop> Drop for Batch<O> {
    fn drop(self) {
        let Batch { ops } = self;
        drop(ops);
    }
}

impl<O: Share> Batch<O> {
    /// A batch of these operations, in O(1). It takes one small block, and copies nothing.
    pub fn new(alloc: Global, ops: Vec<O>) -> Result<Batch<O>, NoMemory>
        ensures { IfOk result (λ batch. batch ≡ ops.items) }
    {
        Ok(Batch {
            ops: Arc::new(alloc, ops)?,
        })
    }

    /// Lends the operations, in O(1).
    pub fn ops(&self) -> &[O]
        ensures { result.now ≡ self.now }
    {
        self.ops.as_slice()
    }
}

impl<O: Share> Share for Batch<O> {
    ghost never_refuses = { ⊥ };

    /// The same operations, in O(1) and in the memory of these.
    fn share(&self, _alloc: Global) -> Result<Batch<O>, NoMemory> {
        Ok(Batch {
            ops: Arc::try_clone(&self.ops)?,
        })
    }
}

/// A batch, with the number of the caller that submitted it and the caller's tag.
#[derive(Drop)]
pub struct Entry<O: Drop> {
    pub caller: u32,
    pub tag: u64,
    pub batch: Batch<O>,
}

impl<O: Share> Share for Entry<O> {
    ghost never_refuses = { ⊥ };

    /// The same entry, in O(1): its batch is shared.
    fn share(&self, alloc: Global) -> Result<Entry<O>, NoMemory> {
        Ok(Entry {
            caller: self.caller,
            tag: self.tag,
            batch: self.batch.share(alloc)?,
        })
    }
}
