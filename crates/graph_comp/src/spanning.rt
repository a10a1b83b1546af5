//! Edges made a forest, by parts.
ghost use Rattle.std.specs.Prelude.{◌≡◌, ◌++◌, [], length, IfOk};
ghost use Rattle.graph_comp.specs.Forests.{HasEnds, Spans};

use crate::forest::{roots, unite, unite_all};
use crate::vertices::place_of;
use aug_monoid::{NoMemory, Steps};
use fork_join::{Cut, Divide, Gate, On, Opened, divide};
use graph_snap::Edge;
use std::alloc::Global;
use std::marker::Sync;
use std::sync::ledger::Ledger;
use std::thread::Threads;

// Makes the trees of both ends of each edge one.
fn unite_ends(parents: &mut [usize], vertices: &[u64], edges: &[Edge])
    requires ends { HasEnds vertices.now edges.now }
    requires none { Spans vertices.now [] parents.old }
    ensures { Spans vertices.now edges.now parents.new }
{
    for edge in edges {
        let from = place_of(vertices, edge.from);
        let to = place_of(vertices, edge.to);
        unite(parents, from, to);
    }
}

// Vertices in order; at most `most` edges are done at once.
#[derive(Drop)]
struct Spanning<'a> {
    vertices: &'a [u64],
    most: usize,
}

impl<'a> Spanning<'a> {
    // The forest of a part of the edges.
    fn part(&self, alloc: Global, part: &[Edge]) -> Result<Vec<usize>, NoMemory>
        requires { HasEnds self.now.vertices.now part.now }
        ensures { IfOk result (λ parents. Spans self.now.vertices.now part.now parents.items) }
    {
        let mut parents = roots(alloc, self.vertices.len())?;
        unite_ends(parents.as_mut_slice(), self.vertices, part);
        Ok(parents)
    }
}

impl<'a> Divide<&'a [Edge], (), Vec<usize>> for Spanning<'a> {
    ghost fits = { λ work part. HasEnds work.vertices.now part.now };

    ghost answers = { λ work part out. Spans work.vertices.now part.now out.items };

    ghost divides = { λ _ part front _ back. part.now ≡ front.now ++ back.now };

    ghost extent = { λ _ part. length part.now };

    ghost bound = { λ _ _. 0 };

    ghost closing = { λ _ _. 0 };

    fn size(&self, part: &&'a [Edge]) -> u64 {
        part.len() as u64
    }

    fn open<C: Ledger>(
        &self,
        alloc: Global,
        part: &'a [Edge],
        _steps: &mut Steps<C>,
    ) -> Result<Opened<&'a [Edge], (), Vec<usize>>, NoMemory> {
        if part.len() > self.most && part.len() >= 2 {
            let (front, back) = part.split_at(part.len() / 2);
            return Ok(Opened::Split(front, (), back));
        }
        let parents = self.part(alloc, part)?;
        Ok(Opened::Done(parents))
    }

    fn close<C: Ledger>(
        &self,
        _alloc: Global,
        mut left: Vec<usize>,
        _middle: (),
        right: Vec<usize>,
        _steps: &mut Steps<C>,
    ) -> Result<Vec<usize>, NoMemory> {
        unite_all(left.as_mut_slice(), right.as_slice());
        Ok(left)
    }
}

// How many edges at most are done at once: so many that each worker has a part, and no part has far fewer edges than its forest
// has places.
fn most_at_once(cut: Cut, vertices: usize, edges: usize) -> usize {
    if cut.splits(edges as u64) {
        edges.div_ceil(cut.workers as usize).max(vertices / 4)
    } else {
        edges
    }
}

/// The forest of edges whose ends are vertices in order. Where the cut allows it the edges are cut by halves until there are as many
/// parts as workers, or up to twice as many, and no further where a part has about a quarter as many edges as there are vertices.
/// For n vertices and m edges, which are at least half as many, it takes O(m * log n) time.
pub(crate) fn spanned<R: Threads + Sync, G: Gate>(
    on: On<R, G>,
    alloc: Global,
    vertices: &[u64],
    edges: &[Edge],
) -> Result<Vec<usize>, NoMemory>
    requires { HasEnds vertices.now edges.now }
    ensures { IfOk result (λ parents. Spans vertices.now edges.now parents.items) }
{
    let most = most_at_once(on.cut, vertices.len(), edges.len());
    divide(on, alloc, &Spanning { vertices, most }, edges)
}
