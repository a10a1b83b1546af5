//! The shapes of the two kinds of maps that users take, each a marker with nothing but the augment as its parameter.
use aug_monoid::Augment;
use diff_leaf::{NumberKey, NumberLeaf, ValueCode};
use leaf_blocks::PlainLeaf;
use std::marker::PhantomData;
use tree_shape::Shape;

/// The shape of maps in blocks of 64 to 128 entries that are plain vectors.
#[derive(Drop)]
pub struct Plain<A>(PhantomData<A>);

impl<A: Augment> Shape for Plain<A> {
    type Key = A::Key;

    type Val = A::Val;

    type Aug = A::Aug;

    type Augment = A;

    type Leaf = PlainLeaf<A::Key, A::Val>;

    const BLOCK: usize = 64;

    ghost BLOCK = { 64 };

    ghost use Rattle.std.proofs.Common.{arith};

    ghost lawful = { (Prim.omega arith, Prim.omega arith) };
}

/// The shape of maps with keys that stand for numbers, in blocks of 32 to 64 entries that keep the gaps between these.
#[derive(Drop)]
pub struct Coded<A>(PhantomData<A>);

impl<A: Augment<Key: NumberKey, Val: ValueCode>> Shape for Coded<A> {
    type Key = A::Key;

    type Val = A::Val;

    type Aug = A::Aug;

    type Augment = A;

    type Leaf = NumberLeaf<A::Key, A::Val>;

    const BLOCK: usize = 32;

    ghost BLOCK = { 32 };

    ghost use Rattle.std.proofs.Common.{arith};

    ghost lawful = { (Prim.omega arith, Prim.omega arith) };
}
