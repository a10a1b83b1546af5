//! Block sizes as types.
ghost use Rattle.std.specs.Prelude.{ℕ};

/// How many items a block holds at least. A recursive type can have no const parameter, so trees have a parameter with this
/// bound in place of a number. Maps have their block size from a shape of `tree_shape`; neither of the two floors stands on the
/// other.
pub trait BlockSize: Drop {
    const SIZE: usize;

    ghost SIZE: { ℕ };
}

/// Blocks of `B` items at least.
#[derive(Drop)]
pub struct Width<const B: usize>;

impl<const B: usize> BlockSize for Width<B> {
    const SIZE: usize = B;

    ghost SIZE = { B };
}
