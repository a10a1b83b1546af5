//! The map from vertices to their sets of out-neighbours.
ghost use Rattle.std.specs.Prelude.{◌≡◌, is_some, length, IfOk};
ghost use Rattle.std.specs.Map.{keys_of};
ghost use Rattle.std.specs.Option.{option_copied};
ghost use Rattle.std.specs.Ordering.{nat_cmp};
ghost use Rattle.map_model.specs.Entries.{lookup};
ghost use Rattle.graph_snap.specs.Batches.{IsLessened, IsUnited};
ghost use Rattle.graph_snap.specs.Edges.{AreSets, edges_of, set_at};
ghost use Rattle.aug_monoid.specs.Fresh.{IsFresh};

use crate::degrees::Degrees;
use crate::neighbours::{HasElements, Merge, Minus, Neighbours};
use aug_map::PlainMap;
use aug_monoid::{First, NoMemory, Steps};
use fork_join::{Gate, On};
use std::alloc::Global;
use std::marker::{Brand, Sync};
use std::sync::ledger::{Blank, Ledger};
use std::thread::Threads;

/// A map from vertices to their sets of out-neighbours, with the number of edges.
pub type Vertices = PlainMap<Degrees>;

// The set of a vertex, with a counter that the caller gives up.
fn set_counted<C: Ledger>(
    alloc: Global,
    vertices: &Vertices,
    vertex: u64,
    blank: Blank,
) -> Result<Neighbours, NoMemory>
    requires { IsFresh C.name C.parts blank }
    ensures { IfOk result (λ set. set ≡ set_at vertices.now.entries vertex) }
{
    let mut steps = Steps::<C>::start(blank);
    match vertices.get(alloc, &vertex, &mut steps)? {
        Some(set) => Ok(set),
        None => Ok(Neighbours::none()),
    }
}

/// The set of a vertex.
pub(crate) fn set_at(
    alloc: Global,
    vertices: &Vertices,
    vertex: u64,
) -> Result<Neighbours, NoMemory>
    ensures { IfOk result (λ set. set ≡ set_at vertices.now.entries vertex) }
{
    set_counted::<Brand>(alloc, vertices, vertex, Blank::new(1))
}

// Lends the set of a vertex, with a counter that the caller gives up.
fn ref_counted<C: Ledger>(vertices: &Vertices, vertex: u64, blank: Blank) -> Option<&Neighbours>
    requires { IsFresh C.name C.parts blank }
    ensures { option_copied result ≡ lookup nat_cmp vertices.now.entries vertex }
{
    let mut steps = Steps::<C>::start(blank);
    vertices.get_ref(&vertex, &mut steps)
}

/// Lends the set of a vertex, if it has an out-neighbour.
pub(crate) fn set_ref(vertices: &Vertices, vertex: u64) -> Option<&Neighbours>
    ensures { option_copied result ≡ lookup nat_cmp vertices.now.entries vertex }
{
    ref_counted::<Brand>(vertices, vertex, Blank::new(1))
}

/// How many elements the set of a vertex has.
pub(crate) fn degree_at(vertices: &Vertices, vertex: u64) -> u64
    ensures { result ≡ length (set_at vertices.now.entries vertex) }
{
    match set_ref(vertices, vertex) {
        Some(set) => set.size(),
        None => 0,
    }
}

/// The elements of the set of a vertex.
pub(crate) fn neighbours_at(
    alloc: Global,
    vertices: &Vertices,
    vertex: u64,
) -> Result<Vec<u64>, NoMemory>
    ensures { IfOk result (λ list. list.items ≡ keys_of (set_at vertices.now.entries vertex)) }
{
    let set = set_at(alloc, vertices, vertex)?;
    set.elements(alloc)
}

/// Whether the set of a vertex has an element.
pub(crate) fn has_edge(vertices: &Vertices, from: u64, to: u64) -> bool
    ensures { result ≡ is_some (lookup nat_cmp (set_at vertices.now.entries from) to) }
{
    match set_ref(vertices, from) {
        Some(set) => set.has::<Brand>(to, Blank::new(1)),
        None => false,
    }
}

/// The map with the edges of another one too.
pub(crate) fn with_sets<R: Threads + Sync, G: Gate>(
    on: On<R, G>,
    alloc: Global,
    vertices: &Vertices,
    batch: &Vertices,
) -> Result<Vertices, NoMemory>
    requires vertices { AreSets vertices.now.entries }
    requires batch { AreSets batch.now.entries }
    ensures sets { IfOk result (λ map. AreSets map.entries) }
    ensures edges { IfOk result (λ map. IsUnited vertices.now.entries batch.now.entries map.entries) }
{
    vertices.union(on.rt, alloc, on.gate, on.cut, batch, &Merge)
}

/// `with_sets` on one thread.
pub(crate) fn with_sets_alone(
    alloc: Global,
    vertices: &Vertices,
    batch: &Vertices,
) -> Result<Vertices, NoMemory>
    requires vertices { AreSets vertices.now.entries }
    requires batch { AreSets batch.now.entries }
    ensures sets { IfOk result (λ map. AreSets map.entries) }
    ensures edges { IfOk result (λ map. IsUnited vertices.now.entries batch.now.entries map.entries) }
{
    vertices.union_alone(alloc, batch, &Merge)
}

/// The map, which is given up, with the edges of a list of sets too.
pub(crate) fn with_sets_into<R: Threads + Sync, G: Gate>(
    on: On<R, G>,
    alloc: Global,
    vertices: Vertices,
    batch: &[(u64, Neighbours)],
) -> Result<Vertices, NoMemory>
    requires vertices { AreSets vertices.entries }
    requires batch { AreSets batch.now }
    ensures sets { IfOk result (λ map. AreSets map.entries) }
    ensures edges { IfOk result (λ map. IsUnited vertices.entries batch.now map.entries) }
{
    vertices.union_into(on.rt, alloc, on.gate, on.cut, batch, &Merge)
}

/// The map without the edges of another one. A vertex that has no edge left is no key.
pub(crate) fn without_sets<R: Threads + Sync, G: Gate>(
    on: On<R, G>,
    alloc: Global,
    vertices: &Vertices,
    batch: &Vertices,
) -> Result<Vertices, NoMemory>
    requires vertices { AreSets vertices.now.entries }
    requires batch { AreSets batch.now.entries }
    ensures sets { IfOk result (λ map. AreSets map.entries) }
    ensures edges { IfOk result (λ map. IsLessened vertices.now.entries batch.now.entries map.entries) }
{
    let changed = vertices.intersect(on.rt, alloc, on.gate, on.cut, batch, &Minus)?;
    let left = changed.filter(on.rt, alloc, on.gate, on.cut, &HasElements)?;
    let others = vertices.difference(on.rt, alloc, on.gate, on.cut, batch)?;
    others.union(on.rt, alloc, on.gate, on.cut, &left, &First)
}

/// `without_sets` on one thread.
pub(crate) fn without_sets_alone(
    alloc: Global,
    vertices: &Vertices,
    batch: &Vertices,
) -> Result<Vertices, NoMemory>
    requires vertices { AreSets vertices.now.entries }
    requires batch { AreSets batch.now.entries }
    ensures sets { IfOk result (λ map. AreSets map.entries) }
    ensures edges { IfOk result (λ map. IsLessened vertices.now.entries batch.now.entries map.entries) }
{
    let changed = vertices.intersect_alone(alloc, batch, &Minus)?;
    let left = changed.filter_alone(alloc, &HasElements)?;
    let others = vertices.difference_alone(alloc, batch)?;
    others.union_alone(alloc, &left, &First)
}
