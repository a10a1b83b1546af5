//! The map types, named by their augment, leaf and block size.
use crate::joins::{Exposed as ShapedExposed, Parts as ShapedParts};
use crate::map::Map as ShapedMap;
use crate::shapes::{Coded, Plain};
use tree_shape::Of;
use tree_walk::Cursor as ShapedCursor;

/// A persistent ordered map with the fold of its entries, in blocks of `B` to `2 * B` entries.
pub type Map<A, L, const B: usize> = ShapedMap<Of<A, L, B>>;

/// A map in blocks that are plain vectors.
pub type PlainMap<A> = ShapedMap<Plain<A>>;

/// A map with keys that stand for numbers (`NumberKey`), as integers of up to 64 bits do, in blocks that keep the gaps between these.
pub type CodedMap<A> = ShapedMap<Coded<A>>;

/// The entries of a map in the order of their keys.
pub type Cursor<'a, A, L, const B: usize> = ShapedCursor<'a, Of<A, L, B>>;

/// An entry of a map, with the map of what is below it and that of what is above it.
pub type Exposed<A, L, const B: usize> = ShapedExposed<Of<A, L, B>>;

/// The entries below a key, the value at it, and the entries above it.
pub type Parts<A, L, const B: usize> = ShapedParts<Of<A, L, B>>;
