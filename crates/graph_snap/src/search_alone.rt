//! The search by fronts on one thread.
ghost use Rattle.std.specs.Prelude.{◌≡◌, IfOk};
ghost use Rattle.std.specs.Ordering.{nat_cmp};
ghost use Rattle.map_model.specs.Entries.{IsIncreasing};
ghost use Rattle.map_model.specs.SetOperations.{difference};
ghost use Rattle.graph_snap.specs.Edges.{AreSets, edges_of};
ghost use Rattle.graph_snap.specs.Merging.{at_distance, neighbours_of, next_front};
ghost use Rattle.graph_snap.specs.Walks.{reach_within};

use crate::edge::Reached;
use crate::search::{Distances, Near, first_front, is_narrow, listed, not_in_list, pairs_at};
use crate::vertices::Vertices;
use aug_map::CodedMap;
use aug_monoid::{First, NoMemory};
use gathering::set_of_alone;
use std::alloc::Global;

// The vertices that an edge leads to from a front, with their distance.
fn near_pairs_alone(
    alloc: Global,
    vertices: &Vertices,
    front: &[(u64, u64)],
    distance: u64,
) -> Result<Vec<(u64, u64)>, NoMemory>
    ensures { IfOk result (λ pairs. pairs.items ≡ at_distance distance (neighbours_of vertices.now.entries front.now)) }
{
    let near = set_of_alone(alloc, &Near { vertices }, front)?;
    pairs_at(alloc, &near, distance)
}

// The vertices of a list in order that were not found before. The time goes by how long the list is.
fn not_in_map_alone(
    alloc: Global,
    near: &[(u64, u64)],
    found: &Distances,
) -> Result<Vec<(u64, u64)>, NoMemory>
    requires { IsIncreasing nat_cmp near.now }
    ensures { IfOk result (λ left. left.items ≡ difference nat_cmp near.now found.now.entries) }
{
    let listed: Distances = CodedMap::build_alone(alloc, near)?;
    let left = listed.difference_alone(alloc, found)?;
    left.to_vec(alloc)
}

// The vertices of a list in order that were not found before.
fn not_found_alone(
    alloc: Global,
    near: &[(u64, u64)],
    found: &Distances,
) -> Result<Vec<(u64, u64)>, NoMemory>
    requires { IsIncreasing nat_cmp near.now }
    ensures { IfOk result (λ left. left.items ≡ difference nat_cmp near.now found.now.entries) }
{
    if is_narrow(near, found) {
        not_in_map_alone(alloc, near, found)
    } else {
        not_in_list(alloc, near, found)
    }
}

/// The vertices that an edge leads to from a front and that were not found before.
pub(crate) fn next_front_alone(
    alloc: Global,
    vertices: &Vertices,
    front: &[(u64, u64)],
    found: &Distances,
    distance: u64,
) -> Result<Vec<(u64, u64)>, NoMemory>
    ensures { IfOk result (λ next. next.items ≡ next_front vertices.now.entries front.now found.now.entries distance) }
{
    let near = near_pairs_alone(alloc, vertices, front, distance)?;
    not_found_alone(alloc, &near, found)
}

/// What walks of at most `most` edges from a vertex reach, with the least numbers of edges, on one thread.
pub(crate) fn search_within(
    alloc: Global,
    vertices: &Vertices,
    from: u64,
    most: u64,
) -> Result<Vec<Reached>, NoMemory>
    requires { AreSets vertices.now.entries }
    ensures { IfOk result (λ found. found.items ≡ reach_within (edges_of vertices.now.entries) from most) }
{
    let mut front = first_front(alloc, from)?;
    let mut found = Distances::single(alloc, from, 0)?;
    let mut distance: u64 = 0;
    'levels: while front.len() > 0 {
        if distance >= most {
            return listed(alloc, &found);
        }
        distance += 1;
        front = next_front_alone(alloc, vertices, &front, &found, distance)?;
        found = found.union_into_alone(alloc, &front, &First)?;
    }
    listed(alloc, &found)
}
