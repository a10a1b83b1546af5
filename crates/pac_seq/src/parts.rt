//! Sequences put together and cut.
ghost use Rattle.std.specs.Prelude.{◌≡◌, ◌++◌, IfOk, take, drop};

use crate::seq::SeqOver;
use aug_monoid::NoMemory;
use seq_core::{BlockSize, Fold, Part};
use std::alloc::Global;

impl<F: Fold, S: BlockSize> SeqOver<F, S> {
    /// These items, and then those of another sequence. Its time is linear in the heights and the size of a block.
    pub fn append(&self, alloc: Global, other: &SeqOver<F, S>) -> Result<SeqOver<F, S>, NoMemory>
        ensures { IfOk result (λ seq. seq.items ≡ self.now.items ++ other.now.items) }
    {
        let tree = seq_core::append(alloc, &self.tree, &other.tree)?;
        Ok(SeqOver { tree })
    }

    /// The first `count` items; all where there are fewer. Its time is linear in the height and the size of a block.
    pub fn take(&self, alloc: Global, count: u64) -> Result<SeqOver<F, S>, NoMemory>
        ensures { IfOk result (λ seq. seq.items ≡ take count self.now.items) }
    {
        let tree = seq_core::take(alloc, Part { tree: &self.tree }, count)?;
        Ok(SeqOver { tree })
    }

    /// The items after the first `count`; none where there are no more. Its time is linear in the height and the size of a
    /// block.
    pub fn skip(&self, alloc: Global, count: u64) -> Result<SeqOver<F, S>, NoMemory>
        ensures { IfOk result (λ seq. seq.items ≡ drop count self.now.items) }
    {
        let tree = seq_core::skip(alloc, Part { tree: &self.tree }, count)?;
        Ok(SeqOver { tree })
    }
}
