//! Iterators over vertices.
ghost use Rattle.std.specs.Prelude.{◌≡◌};
ghost use Rattle.std.specs.Iterator.{YieldsFirst, item_count};
ghost use Rattle.std.specs.Map.{keys_of};
ghost use Rattle.graph_snap.specs.Edges.{set_at};

use crate::degrees::Degrees;
use crate::vertices::{Vertices, set_ref};
use aug_map::shaped::{Coded, Cursor, IterRef, Plain};
use aug_monoid::Nothing;
use std::alloc::Global;
use std::marker::Model;

/// The vertices with an out-neighbour in order, seen as the list of those that are left. The next one takes O(1), but the first one
/// of a block, and one between two blocks, O(log n) for n vertices.
#[derive(Drop)]
pub struct VerticesIter<'a> {
    sets: IterRef<'a, Plain<Degrees>>,
}

impl<'a> Model for VerticesIter<'a> {
    ghost use Rattle.std.specs.Prelude.{List, ℕ};
    ghost use Rattle.std.specs.Map.{keys_of};

    ghost Value = { List ℕ };

    ghost view = { λ i. keys_of i.sets };
}

impl<'a> Iterator for VerticesIter<'a> {
    type Item = u64;

    ghost next_gives = { YieldsFirst (λ i. i) };

    ghost remaining = { item_count (λ i. i) };

    fn next(&mut self) -> Option<u64> {
        match self.sets.next() {
            Some((vertex, _)) => Some(*vertex),
            None => None,
        }
    }
}

/// The out-neighbours of a vertex in order, seen as the list of those that are left. The next one takes O(1), but the first one of
/// a block O(log k) for k out-neighbours.
#[derive(Drop)]
pub struct NeighboursIter<'a> {
    set: Option<Cursor<'a, Coded<Nothing<u64, ()>>>>,
}

impl<'a> Model for NeighboursIter<'a> {
    ghost use Rattle.std.specs.Prelude.{List, ℕ, []};
    ghost use Rattle.std.specs.Map.{keys_of};
    ghost use Rattle.std.specs.Option.{unwrap_or};

    ghost Value = { List ℕ };

    ghost view = { λ i. keys_of (unwrap_or i.set []) };
}

impl<'a> Iterator for NeighboursIter<'a> {
    type Item = u64;

    ghost next_gives = { YieldsFirst (λ i. i) };

    ghost remaining = { item_count (λ i. i) };

    fn next(&mut self) -> Option<u64> {
        let Some(set) = &mut self.set else {
            return None;
        };
        match set.next() {
            Some(Ok((element, ()))) => Some(element),
            Some(Err(_)) => unreachable!(),
            None => None,
        }
    }
}

/// Goes over the vertices of a map.
pub(crate) fn vertices_of(vertices: &Vertices) -> VerticesIter<'_>
    ensures { result ≡ keys_of vertices.now.entries }
{
    VerticesIter {
        sets: vertices.iter_ref(),
    }
}

/// Goes over the elements of the set of a vertex.
pub(crate) fn elements_at(alloc: Global, vertices: &Vertices, vertex: u64) -> NeighboursIter<'_>
    ensures { result ≡ keys_of (set_at vertices.now.entries vertex) }
{
    let set = match set_ref(vertices, vertex) {
        Some(set) => Some(set.map().cursor(alloc)),
        None => None,
    };
    NeighboursIter { set }
}
