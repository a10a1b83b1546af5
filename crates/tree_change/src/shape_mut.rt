//! Shapes whose blocks are changed in place.
use aug_monoid::LeafMut;
use tree_shape::Shape;

/// A `Shape` whose leaves are changed in place while they have one owner.
pub trait ShapeMut: Shape<Leaf: LeafMut<<Self as Shape>::Key, <Self as Shape>::Val>> {}

impl<M: Shape<Leaf: LeafMut<<M as Shape>::Key, <M as Shape>::Val>>> ShapeMut for M {}
