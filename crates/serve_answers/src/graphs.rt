//! What a served graph answers.
ghost use Rattle.std.specs.Prelude.{◌≡◌, ◌++◌, MatchResult};
ghost use Rattle.graph_snap.specs.Walks.{reach};
ghost use Rattle.serve_answers.specs.GraphAnswering as answering;
ghost use Rattle.serve_answers.specs.GraphAnswering.{answer_of, last_of};
ghost use Rattle.serve_text.specs.Texts.{Extends};

use aug_monoid::NoMemory;
use graph_snap::Graph;
use graph_tool::ReachedNumbers;
use script::{counted, line, reply};
use serve_script::EdgeQuery;
use serve_text::Answers;
use served_graph::ServedGraph;
use std::alloc::Global;

fn degree(alloc: Global, graph: &Graph, u: u64, out: &mut Vec<u8>) -> Result<(), NoMemory>
    ensures { MatchResult result (λ _. out.new.items ≡ out.old.items ++ answering.degree_reply graph.now u) (λ _. Extends out.old.items out.new.items) }
{
    let degree = graph.degree(alloc, u)?;
    reply(out, "degree", &[degree])
}

fn bfs(alloc: Global, graph: &Graph, u: u64, out: &mut Vec<u8>) -> Result<(), NoMemory>
    ensures { MatchResult result (λ _. out.new.items ≡ out.old.items ++ answering.reached_reply (reach graph.now u)) (λ _. Extends out.old.items out.new.items) }
{
    let found = graph.bfs_alone(alloc, u)?;
    let numbers = counted::<ReachedNumbers, _, _>(alloc, &found)?;
    reply(out, "bfs", &numbers)
}

/// The answers of a served graph to the queries of the tool gserve. A search is made on the thread of its caller.
#[derive(Drop)]
pub struct GraphAnswers;

impl Answers<ServedGraph> for GraphAnswers {
    ghost use Rattle.serve_answers.specs.GraphInLine.{answer_in_line, last_line};

    type Query = EdgeQuery;

    ghost answer_of = { answer_of };

    ghost last_of = { last_of };

    fn answer(
        alloc: Global,
        served: &ServedGraph,
        query: &EdgeQuery,
        out: &mut Vec<u8>,
    ) -> Result<(), NoMemory> {
        let graph = served.graph();
        match *query {
            EdgeQuery::Degree { u } => degree(alloc, graph, u, out),
            EdgeQuery::Bfs { u } => bfs(alloc, graph, u, out),
            EdgeQuery::Size => reply(out, "graph", &[graph.vertices(), graph.edges()]),
        }
    }

    fn write_last(_alloc: Global, served: &ServedGraph, out: &mut Vec<u8>) -> Result<(), NoMemory> {
        let graph = served.graph();
        line(out, "final", &[graph.vertices(), graph.edges()])
    }

    ghost in_line = { answer_in_line };

    ghost last_line = { last_line };
}
