//! Graphs, which no call changes.
ghost use Rattle.std.specs.Prelude.{◌≡◌, ◌↔◌, [], Contains, length, IfOk, IsTrue, MatchOption};
ghost use Rattle.graph_snap.specs.Edges.{AreSets, IsGraph, IsReverse, edges_of, out_neighbours, pairs_of};
ghost use Rattle.graph_snap.specs.Edges.{reversed, sources, with_edges, without_edges};
ghost use Rattle.graph_snap.specs.Walks.{HasDistances, IsLeastPath, IsOutOfReach, reach, reach_within};

use crate::adding::with_edges_into_alone;
use crate::batch::{in_order_alone, sets_of, sets_of_alone, turned_sets};
use crate::counting::edges_in;
use crate::edge::{Edge, Reached};
use crate::iterators::{NeighboursIter, VerticesIter, elements_at, vertices_of};
use crate::least_path::least_path;
use crate::listing::edge_list;
use crate::search::search;
use crate::search_alone::search_within;
use crate::vertices::{
    Vertices, degree_at, has_edge, neighbours_at, with_sets, with_sets_alone, with_sets_into,
    without_sets, without_sets_alone,
};
use aug_map::PlainMap;
use aug_monoid::{NoMemory, Share};
use fork_join::{Cut, Gate, On};
use std::alloc::Global;
use std::marker::{Model, Sync};
use std::mem;
use std::thread::Threads;

/// A directed graph, seen as the list of its edges by their first vertex and then by their second. A vertex without edges is
/// not part of it.
pub struct Graph {
    vertices: Vertices,
    edges: u64,
}

impl Model for Graph {
    ghost use Rattle.std.specs.Prelude.{◌≡◌, List, ℕ, length};
    ghost use Rattle.graph_snap.specs.Edges.{AreSets, edges_of};

    ghost Value = { List (ℕ × ℕ) };

    ghost view = { λ g. edges_of g.vertices.entries };

    ghost invariant = { λ g. AreSets g.vertices.entries × (g.edges ≡ length (edges_of g.vertices.entries)) };
}

impl Drop for Graph {
    fn drop(self) {
        let Graph { vertices, edges: _ } = self;
        drop(vertices);
    }
}

impl Share for Graph {
    ghost never_refuses = { ⊥ };

    /// The same graph, in the memory of this one. O(1).
    fn share(&self, alloc: Global) -> Result<Graph, NoMemory> {
        let vertices = self.vertices.share(alloc)?;
        Ok(Graph {
            vertices,
            edges: self.edges,
        })
    }
}

impl Graph {
    /// The graph without edges. It takes no memory. O(1).
    pub fn new() -> Graph
        ensures { result ≡ [] }
    {
        Graph {
            vertices: PlainMap::empty(),
            edges: 0,
        }
    }

    // The map of the graph, which is given up.
    fn into_vertices(self) -> Vertices
        ensures sets { AreSets result.entries }
        ensures edges { edges_of result.entries ≡ self }
    {
        let mut graph = self;
        graph.edges = 0;
        mem::replace(&mut graph.vertices, PlainMap::empty())
    }

    /// The map from vertices to their sets of out-neighbours. Its keys are the vertices with an out-neighbour.
    /// O(1).
    pub fn map(&self) -> &Vertices
        ensures edges { edges_of result.now.entries ≡ self.now }
        ensures sets { AreSets result.now.entries }
    {
        &self.vertices
    }

    /// How many vertices have an out-neighbour. O(1).
    pub fn vertices(&self) -> u64
        ensures { result ≡ length (sources self.now) }
    {
        self.vertices.size()
    }

    /// How many edges there are. O(1).
    pub fn edges(&self) -> u64
        ensures count { result ≡ length self.now }
        ensures ordered { IsGraph self.now }
    {
        self.edges
    }

    /// The edges in order. O(m) for m edges.
    pub fn list(&self, alloc: Global) -> Result<Vec<Edge>, NoMemory>
        ensures { IfOk result (λ list. pairs_of list.items ≡ self.now) }
    {
        edge_list(alloc, &self.vertices)
    }

    /// How many out-neighbours a vertex has. It takes no memory. O(log n) for n vertices.
    pub fn out_degree(&self, vertex: u64) -> u64
        ensures { result ≡ length (out_neighbours self.now vertex) }
    {
        degree_at(&self.vertices, vertex)
    }

    /// What `out_degree` answers: it never refuses.
    pub fn degree(&self, _alloc: Global, vertex: u64) -> Result<u64, NoMemory>
        ensures { IfOk result (λ n. n ≡ length (out_neighbours self.now vertex)) }
    {
        Ok(self.out_degree(vertex))
    }

    /// Goes over the vertices with an out-neighbour in order. It takes no memory.
    pub fn vertices_iter(&self) -> VerticesIter<'_>
        ensures { result ≡ sources self.now }
    {
        vertices_of(&self.vertices)
    }

    /// Goes over the out-neighbours of a vertex in order; over none where it has no edge. It takes no memory. O(log n) for n vertices.
    pub fn neighbours_iter(&self, alloc: Global, vertex: u64) -> NeighboursIter<'_>
        ensures { result ≡ out_neighbours self.now vertex }
    {
        elements_at(alloc, &self.vertices, vertex)
    }

    /// The out-neighbours of a vertex in order; none where it has no edge. O(log n + k) for n vertices and k out-neighbours.
    pub fn neighbours(&self, alloc: Global, vertex: u64) -> Result<Vec<u64>, NoMemory>
        ensures { IfOk result (λ list. list.items ≡ out_neighbours self.now vertex) }
    {
        neighbours_at(alloc, &self.vertices, vertex)
    }

    /// Whether an edge is there. It takes no memory. O(log n) for n vertices.
    pub fn contains_edge(&self, from: u64, to: u64) -> bool
        ensures { IsTrue result ↔ Contains self.now (from, to) }
    {
        has_edge(&self.vertices, from, to)
    }

    /// What `contains_edge` answers: it never refuses.
    pub fn has_edge(&self, _alloc: Global, from: u64, to: u64) -> Result<bool, NoMemory>
        ensures { IfOk result (λ found. IsTrue found ↔ Contains self.now (from, to)) }
    {
        Ok(self.contains_edge(from, to))
    }

    /// The graph with these edges too. O(k * log(n * k)) for k edges and n vertices, which forks where the cut allows it, but for
    /// the grouping by vertex.
    pub fn add_edges<R: Threads + Sync, G: Gate>(
        &self,
        rt: &R,
        alloc: Global,
        gate: &G,
        cut: Cut,
        list: &[Edge],
    ) -> Result<Graph, NoMemory>
        ensures { IfOk result (λ graph. graph ≡ with_edges self.now (pairs_of list.now)) }
    {
        let on = On { rt, gate, cut };
        let changed = sets_of(on, alloc, list)?;
        let batch = Vertices::of_vec(alloc, changed)?;
        let vertices = with_sets(on, alloc, &self.vertices, &batch)?;
        let edges = edges_in(&vertices)?;
        Ok(Graph { vertices, edges })
    }

    /// `add_edges` on one thread. O(k * log(n * k)) for k edges and n vertices.
    pub fn add_edges_alone(&self, alloc: Global, list: &[Edge]) -> Result<Graph, NoMemory>
        ensures { IfOk result (λ graph. graph ≡ with_edges self.now (pairs_of list.now)) }
    {
        let changed = sets_of_alone(alloc, list)?;
        let batch = Vertices::of_vec(alloc, changed)?;
        let vertices = with_sets_alone(alloc, &self.vertices, &batch)?;
        let edges = edges_in(&vertices)?;
        Ok(Graph { vertices, edges })
    }

    /// `add_edges` of a graph that is given up: what of its map has one owner is moved, and what has more is copied, so that
    /// copies of the graph that were taken before stay as they were. The sets that gain edges are made anew. In the time of
    /// `add_edges`, and a refusal gives the graph up.
    pub fn add_edges_into<R: Threads + Sync, G: Gate>(
        self,
        rt: &R,
        alloc: Global,
        gate: &G,
        cut: Cut,
        list: &[Edge],
    ) -> Result<Graph, NoMemory>
        ensures { IfOk result (λ graph. graph ≡ with_edges self (pairs_of list.now)) }
    {
        let on = On { rt, gate, cut };
        let changed = sets_of(on, alloc, list)?;
        let vertices = with_sets_into(on, alloc, self.into_vertices(), &changed)?;
        let edges = edges_in(&vertices)?;
        Ok(Graph { vertices, edges })
    }

    /// `add_edges_into` on one thread. O(k * log(n * k)) for k edges and n vertices.
    pub fn add_edges_into_alone(self, alloc: Global, list: &[Edge]) -> Result<Graph, NoMemory>
        ensures { IfOk result (λ graph. graph ≡ with_edges self (pairs_of list.now)) }
    {
        let edges = in_order_alone(alloc, list)?;
        let vertices = with_edges_into_alone(alloc, self.into_vertices(), &edges)?;
        let edges = edges_in(&vertices)?;
        Ok(Graph { vertices, edges })
    }

    /// The graph without these edges, which need not be there. O(k * log(n * k)) for k edges and n vertices, forked as `add_edges`.
    pub fn cut_edges<R: Threads + Sync, G: Gate>(
        &self,
        rt: &R,
        alloc: Global,
        gate: &G,
        cut: Cut,
        list: &[Edge],
    ) -> Result<Graph, NoMemory>
        ensures { IfOk result (λ graph. graph ≡ without_edges self.now (pairs_of list.now)) }
    {
        let on = On { rt, gate, cut };
        let changed = sets_of(on, alloc, list)?;
        let batch = Vertices::of_vec(alloc, changed)?;
        let vertices = without_sets(on, alloc, &self.vertices, &batch)?;
        let edges = edges_in(&vertices)?;
        Ok(Graph { vertices, edges })
    }

    /// `cut_edges` on one thread. O(k * log(n * k)) for k edges and n vertices.
    pub fn cut_edges_alone(&self, alloc: Global, list: &[Edge]) -> Result<Graph, NoMemory>
        ensures { IfOk result (λ graph. graph ≡ without_edges self.now (pairs_of list.now)) }
    {
        let changed = sets_of_alone(alloc, list)?;
        let batch = Vertices::of_vec(alloc, changed)?;
        let vertices = without_sets_alone(alloc, &self.vertices, &batch)?;
        let edges = edges_in(&vertices)?;
        Ok(Graph { vertices, edges })
    }

    /// The graph with each edge turned round, on one thread. A vertex without in-neighbours has no edge there, and is not part of
    /// it. O(m * log m) for m edges.
    pub fn reversed(&self, alloc: Global) -> Result<Graph, NoMemory>
        ensures value { IfOk result (λ graph. graph ≡ reversed self.now) }
        ensures turned { IfOk result (λ graph. IsReverse self.now graph) }
    {
        let list = self.list(alloc)?;
        let sets = turned_sets(alloc, &list)?;
        let vertices = Vertices::of_vec(alloc, sets)?;
        let edges = edges_in(&vertices)?;
        Ok(Graph { vertices, edges })
    }

    /// The vertices that walks from `from` reach, in order, each with the least number of edges of such a walk; `from` itself
    /// is at 0. For each distance it gathers the out-neighbours of the vertices there, in parts that fork where the cut allows
    /// it, and sorts them. O(m * log(n * m)) for m edges from what is reached, and n vertices.
    pub fn bfs<R: Threads + Sync, G: Gate>(
        &self,
        rt: &R,
        alloc: Global,
        gate: &G,
        cut: Cut,
        from: u64,
    ) -> Result<Vec<Reached>, NoMemory>
        ensures value { IfOk result (λ found. found.items ≡ reach self.now from) }
        ensures least { IfOk result (λ found. HasDistances self.now from found.items) }
    {
        search(On { rt, gate, cut }, alloc, &self.vertices, from)
    }

    /// What `bfs` answers, on one thread. O(m * log(n * m)) for m edges from what is reached, and n vertices.
    pub fn bfs_alone(&self, alloc: Global, from: u64) -> Result<Vec<Reached>, NoMemory>
        ensures value { IfOk result (λ found. found.items ≡ reach self.now from) }
        ensures least { IfOk result (λ found. HasDistances self.now from found.items) }
    {
        search_within(alloc, &self.vertices, from, self.edges)
    }

    /// What `bfs_alone` answers, but for the vertices that take more than `most` edges. It stops at that distance.
    /// O(m * log(n * m)) for m edges from the vertices at less than `most`, and n vertices.
    pub fn within(&self, alloc: Global, from: u64, most: u64) -> Result<Vec<Reached>, NoMemory>
        ensures { IfOk result (λ found. found.items ≡ reach_within self.now from most) }
    {
        search_within(alloc, &self.vertices, from, most)
    }

    /// The vertices of a walk from `from` to `to` with the least number of edges, both ends included; none where no walk leads
    /// there. It is the search of `within` as far as `to`, which keeps its fronts, and then a way back through them that looks for
    /// an edge from each vertex at most once. O(m * log(n * m)) for m edges from what is reached, and n vertices.
    pub fn path(&self, alloc: Global, from: u64, to: u64) -> Result<Option<Vec<u64>>, NoMemory>
        ensures { IfOk result (λ found. MatchOption found (IsOutOfReach self.now from to) (λ path. IsLeastPath self.now from to path.items)) }
    {
        least_path(alloc, &self.vertices, from, to)
    }
}
