//! The search by fronts: each has the vertices at one distance.
ghost use Rattle.std.specs.Prelude.{◌≡◌, ◌+◌, [], ◌∷◌, IfOk};
ghost use Rattle.std.specs.Ordering.{nat_cmp};
ghost use Rattle.aug_monoid.specs.Fresh.{IsFresh};
ghost use Rattle.map_model.specs.Entries.{IsIncreasing};
ghost use Rattle.map_model.specs.SetOperations.{difference};
ghost use Rattle.graph_snap.specs.Edges.{AreSets, edges_of, set_at};
ghost use Rattle.graph_snap.specs.Merging.{at_distance, neighbours_of, next_front};
ghost use Rattle.graph_snap.specs.Walks.{as_reached, reach};

use crate::edge::Reached;
use crate::vertices::{Vertices, set_at};
use aug_map::CodedMap;
use aug_monoid::{First, NoMemory, Nothing, Steps};
use entry_lists::difference_of;
use fork_join::{Gate, On};
use gathering::{Gives, set_of};
use std::alloc::Global;
use std::marker::{Brand, Sync};
use std::sync::ledger::{Blank, Ledger};
use std::thread::Threads;

/// The neighbours of a front are compared with what was found as a map, and not as a list, where they are fewer than one for so many
/// found.
const FOUND_FOR_EACH: u64 = 16;

/// Vertices with their distances.
pub(crate) type Distances = CodedMap<Nothing<u64, u64>>;

/// The set of each vertex of a front.
#[derive(Drop)]
pub(crate) struct Near<'a> {
    pub(crate) vertices: &'a Vertices,
}

impl<'a> Gives<(u64, u64), u64> for Near<'a> {
    ghost given = { λ n e. set_at n.vertices.now.entries e.0 };

    fn push_given(
        &self,
        alloc: Global,
        item: &(u64, u64),
        into: &mut Vec<(u64, ())>,
    ) -> Result<(), NoMemory> {
        let set = set_at(alloc, self.vertices, item.0)?;
        set.map().append_to(alloc, into)?;
        Ok(())
    }
}

/// Vertices with one distance.
pub(crate) fn pairs_at(
    alloc: Global,
    near: &[(u64, ())],
    distance: u64,
) -> Result<Vec<(u64, u64)>, NoMemory>
    ensures { IfOk result (λ pairs. pairs.items ≡ at_distance distance near.now) }
{
    let pairs = near.iter().map(|entry| (entry.0, distance)).collect(alloc)?;
    Ok(pairs)
}

// The vertices that an edge leads to from a front, with their distance.
fn near_pairs<R: Threads + Sync, G: Gate>(
    on: On<R, G>,
    alloc: Global,
    vertices: &Vertices,
    front: &[(u64, u64)],
    distance: u64,
) -> Result<Vec<(u64, u64)>, NoMemory>
    ensures { IfOk result (λ pairs. pairs.items ≡ at_distance distance (neighbours_of vertices.now.entries front.now)) }
{
    let near = set_of(on, alloc, &Near { vertices }, front)?;
    pairs_at(alloc, &near, distance)
}

/// Whether a list is so much shorter than what was found that a map of it costs less than a walk over all that was found.
pub(crate) fn is_narrow(near: &[(u64, u64)], found: &Distances) -> bool {
    (near.len() as u64) < found.size() / FOUND_FOR_EACH
}

/// The vertices of a list in order that were not found before. The time goes by how many were found.
pub(crate) fn not_in_list(
    alloc: Global,
    near: &[(u64, u64)],
    found: &Distances,
) -> Result<Vec<(u64, u64)>, NoMemory>
    requires { IsIncreasing nat_cmp near.now }
    ensures { IfOk result (λ left. left.items ≡ difference nat_cmp near.now found.now.entries) }
{
    let _size = found.size(); // for the proof alone: what was found is in order
    let known = found.to_vec(alloc)?;
    not_known::<Brand>(alloc, near, &known, Blank::new(1))
}

// The vertices of a list in order that are not among some that are known.
fn not_known<C: Ledger>(
    alloc: Global,
    near: &[(u64, u64)],
    known: &[(u64, u64)],
    blank: Blank,
) -> Result<Vec<(u64, u64)>, NoMemory>
    requires near { IsIncreasing nat_cmp near.now }
    requires known { IsIncreasing nat_cmp known.now }
    requires fresh { IsFresh C.name C.parts blank }
    ensures { IfOk result (λ left. left.items ≡ difference nat_cmp near.now known.now) }
{
    let mut steps = Steps::<C>::start(blank);
    difference_of(alloc, near, known, &mut steps)
}

// The vertices of a list in order that were not found before. The time goes by how long the list is.
fn not_in_map<R: Threads + Sync, G: Gate>(
    on: On<R, G>,
    alloc: Global,
    near: &[(u64, u64)],
    found: &Distances,
) -> Result<Vec<(u64, u64)>, NoMemory>
    requires { IsIncreasing nat_cmp near.now }
    ensures { IfOk result (λ left. left.items ≡ difference nat_cmp near.now found.now.entries) }
{
    let listed: Distances = CodedMap::build(on.rt, alloc, on.gate, on.cut, near)?;
    let left = listed.difference(on.rt, alloc, on.gate, on.cut, found)?;
    left.to_vec(alloc)
}

// The vertices of a list in order that were not found before.
fn not_found<R: Threads + Sync, G: Gate>(
    on: On<R, G>,
    alloc: Global,
    near: &[(u64, u64)],
    found: &Distances,
) -> Result<Vec<(u64, u64)>, NoMemory>
    requires increasing { IsIncreasing nat_cmp near.now }
    ensures { IfOk result (λ left. left.items ≡ difference nat_cmp near.now found.now.entries) }
{
    if is_narrow(near, found) {
        not_in_map(on, alloc, near, found)
    } else {
        not_in_list(alloc, near, found)
    }
}

// The vertices that an edge leads to from a front and that were not found before.
fn next_front<R: Threads + Sync, G: Gate>(
    on: On<R, G>,
    alloc: Global,
    vertices: &Vertices,
    front: &[(u64, u64)],
    found: &Distances,
    distance: u64,
) -> Result<Vec<(u64, u64)>, NoMemory>
    ensures { IfOk result (λ next. next.items ≡ next_front vertices.now.entries front.now found.now.entries distance) }
{
    let near = near_pairs(on, alloc, vertices, front, distance)?;
    not_found(on, alloc, &near, found)
}

/// The front at distance 0.
pub(crate) fn first_front(alloc: Global, from: u64) -> Result<Vec<(u64, u64)>, NoMemory>
    ensures { IfOk result (λ front. front.items ≡ (from, 0) ∷ []) }
{
    let mut front = Vec::new(alloc);
    front.push((from, 0))?;
    Ok(front)
}

/// Distances as a list.
pub(crate) fn listed(alloc: Global, found: &Distances) -> Result<Vec<Reached>, NoMemory>
    ensures { IfOk result (λ list. list.items ≡ as_reached found.now.entries) }
{
    let entries = found.to_vec(alloc)?;
    let list = entries
        .iter()
        .map(|entry| Reached {
            vertex: entry.0,
            distance: entry.1,
        })
        .collect(alloc)?;
    Ok(list)
}

/// The next distance; that there is none is want of memory, since a graph has an edge for each.
pub(crate) fn further(distance: u64) -> Result<u64, NoMemory>
    ensures { IfOk result (λ more. more ≡ distance + 1) }
{
    match distance.checked_add(1) {
        Some(more) => Ok(more),
        None => Err(NoMemory),
    }
}

/// What walks from a vertex reach, with the least numbers of edges.
pub(crate) fn search<R: Threads + Sync, G: Gate>(
    on: On<R, G>,
    alloc: Global,
    vertices: &Vertices,
    from: u64,
) -> Result<Vec<Reached>, NoMemory>
    requires { AreSets vertices.now.entries }
    ensures { IfOk result (λ found. found.items ≡ reach (edges_of vertices.now.entries) from) }
{
    let mut front = first_front(alloc, from)?;
    let mut found = Distances::single(alloc, from, 0)?;
    let mut distance: u64 = 0;
    'levels: while front.len() > 0 {
        distance = further(distance)?;
        front = next_front(on, alloc, vertices, &front, &found, distance)?;
        found = found.union_into(on.rt, alloc, on.gate, on.cut, &front, &First)?;
    }
    listed(alloc, &found)
}
