//! A search by depth, which finds an order or a cycle.
ghost use Rattle.std.specs.Prelude.{◌≡◌, ◌+◌, ◌<◌, [], ◌∷◌, ℕ, List, None, Some, false, length, reverse, IfOk, OnOk, MatchOption};
ghost use Rattle.std.specs.Ordering.{nat_cmp};
ghost use Rattle.map_model.specs.Entries.{lookup};
ghost use Rattle.graph_order.specs.Orders.{IsCycle, IsEnd};
ghost use Rattle.graph_order.specs.Searches.{Closes, HasEnded, IsMarked, IsNext, IsOpen, IsSearch, IsSeen, Keeps, on_walk, to_look_at, walk_of};

use aug_monoid::{NoMemory, Nothing};
use graph_snap::Graph;
use ord_map::OrdMap;
use std::alloc::Global;

/// A vertex of the present walk, with the ends of its edges that have not been looked at.
#[derive(Drop)]
pub(crate) struct Frame {
    pub(crate) vertex: u64,
    pub(crate) rest: Vec<u64>,
}

/// The state of a search. A mark says of a vertex whether it is done; one that is not is on the walk.
#[derive(Drop)]
pub(crate) struct Search {
    pub(crate) marks: OrdMap<Nothing<u64, bool>>,
    pub(crate) walk: Vec<Frame>,
    pub(crate) done: Vec<u64>,
}

/// Puts a vertex that is not marked on the walk.
fn go_to(alloc: Global, graph: &Graph, search: &mut Search, vertex: u64) -> Result<(), NoMemory>
    requires new { lookup nat_cmp search.old.marks vertex ≡ None }
    requires marked { IsMarked graph.now search.old.marks (reverse search.old.done.items) (on_walk (walk_of search.old.walk.items)) }
    requires live { IsOpen graph.now (reverse search.old.done.items) (vertex ∷ []) (walk_of search.old.walk.items) }
    requires end { IsEnd graph.now vertex }
    ensures search { OnOk result (IsSearch graph.now search.new) }
    ensures seen { OnOk result (to_look_at graph.now search.new.marks (walk_of search.new.walk.items) ≡ to_look_at graph.now search.old.marks (walk_of search.old.walk.items) + 1) }
    ensures kept { OnOk result (Keeps search.old.marks search.new.marks) }
    ensures marked { OnOk result (lookup nat_cmp search.new.marks vertex ≡ Some false) }
{
    let rest = graph.neighbours(alloc, vertex)?;
    search.marks.put(alloc, vertex, false)?;
    search.walk.push(Frame { vertex, rest })?;
    Ok(())
}

/// One step: the next end of an edge of the walk's last vertex, or that vertex is done. The answer is the end, if it is on the walk.
fn step(alloc: Global, graph: &Graph, search: &mut Search) -> Result<Option<u64>, NoMemory>
    requires search { IsSearch graph.now search.old }
    requires some { 0 < length search.old.walk.items }
    ensures { IfOk result (λ found. MatchOption found (IsNext graph.now search.old search.new) (Closes graph.now (reverse search.new.done.items) (walk_of search.new.walk.items))) }
{
    let Some(last) = search.walk.pop() else {
        unreachable!()
    };
    let Frame { vertex, rest } = last;
    let mut rest = rest;
    let Some(end) = rest.pop() else {
        search.marks.put(alloc, vertex, true)?;
        search.done.push(vertex)?;
        return Ok(None);
    };
    search.walk.push(Frame { vertex, rest })?;
    match search.marks.get(alloc, &end)? {
        Some(true) => Ok(None),
        Some(false) => Ok(Some(end)),
        None => {
            go_to(alloc, graph, search, end)?;
            Ok(None)
        }
    }
}

/// Goes on with a search until no vertex is on the walk, or an edge leads back to one.
fn go_on(alloc: Global, graph: &Graph, search: &mut Search) -> Result<Option<u64>, NoMemory>
    requires search { IsSearch graph.now search.old }
    ensures { IfOk result (λ found. MatchOption found (HasEnded graph.now search.old search.new) (Closes graph.now (reverse search.new.done.items) (walk_of search.new.walk.items))) }
{
    'deeper: while search.walk.len() > 0 {
        if let Some(end) = step(alloc, graph, search)? {
            return Ok(Some(end));
        }
    }
    Ok(None)
}

/// Goes from a vertex, unless it is marked, with no vertex on the walk: until there is none again, or an edge leads back to one.
pub(crate) fn go_from(
    alloc: Global,
    graph: &Graph,
    search: &mut Search,
    vertex: u64,
) -> Result<Option<u64>, NoMemory>
    requires search { IsSearch graph.now search.old }
    requires none { search.old.walk.items ≡ [] }
    requires end { IsEnd graph.now vertex }
    ensures { IfOk result (λ found. MatchOption found (HasEnded graph.now search.old search.new × IsSeen search.new.marks vertex) (Closes graph.now (reverse search.new.done.items) (walk_of search.new.walk.items))) }
{
    if search.marks.get(alloc, &vertex)?.is_some() {
        return Ok(None);
    }
    go_to(alloc, graph, search, vertex)?;
    go_on(alloc, graph, search)
}

/// The vertices of a walk from one of them on.
pub(crate) fn cycle_from(alloc: Global, walk: Vec<Frame>, first: u64) -> Result<Vec<u64>, NoMemory>
    ensures { IfOk result (λ cycle. (g : List (ℕ × ℕ)) (done : List ℕ) → Closes g done (walk_of walk.items) first → IsCycle g cycle.items) }
{
    let mut left = walk;
    let mut cycle = Vec::new(alloc);
    'back: while let Some(frame) = left.pop() {
        cycle.push(frame.vertex)?;
        if frame.vertex == first {
            cycle.reverse();
            return Ok(cycle);
        }
    }
    Ok(cycle)
}
