//! Trees lent and shared.
ghost use Rattle.std.specs.Prelude.{◌≡◌, IfOk};

use aug_monoid::{NoMemory, Share};
use std::alloc::Global;
use tree_shape::{Shape, Tree};

/// A map in a struct of its own, as the recursions that count steps take it. It is there for the proof alone.
#[derive(Drop)]
pub struct Part<'a, M: Shape> {
    pub tree: &'a Tree<M>,
}

/// Another owner of a map's entries. O(1). It is `share` with one clause, for the proofs of its callers alone.
pub fn another_owner<M: Shape>(alloc: Global, tree: &Tree<M>) -> Result<Tree<M>, NoMemory>
    ensures { IfOk result (λ copy. copy.entries ≡ tree.now.entries) }
{
    let copy = tree.share(alloc)?;
    Ok(copy)
}
