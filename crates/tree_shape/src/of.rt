//! The shape of a given augment, leaf and block size.
ghost use Rattle.std.specs.Prelude.{◌≡◌};
ghost use Rattle.tree_shape.specs.Clamped.{clamped};
ghost use Rattle.tree_shape.specs.Lawful.{clamped_lawful};

use crate::shape::Shape;
use aug_monoid::{Augment, Leaf};
use std::marker::PhantomData;

/// The shape of trees that keep the folds of `A`, in leaves `L` of `B` to `2 * B` entries. `B` is 1 to 128: 0 is taken as 1, and
/// what is above 128 as 128.
#[derive(Drop)]
pub struct Of<A, L, const B: usize>(PhantomData<(A, L)>);

impl<A: Augment, L: Leaf<A::Key, A::Val>, const B: usize> Shape for Of<A, L, B> {
    type Key = A::Key;

    type Val = A::Val;

    type Aug = A::Aug;

    type Augment = A;

    type Leaf = L;

    const BLOCK: usize = lawful_block(B);

    ghost BLOCK = { clamped B };

    ghost lawful = { clamped_lawful B };
}

/// The lawful block size next to a number. O(1).
pub const fn lawful_block(size: usize) -> usize
    ensures { result ≡ clamped size }
{
    if size < 1 {
        1
    } else if 128 < size {
        128
    } else {
        size
    }
}
