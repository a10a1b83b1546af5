//! What a served map answers.
ghost use Rattle.std.specs.Prelude.{◌≡◌, ◌++◌, ◌∷◌, [], IfOk, MatchResult, length};
ghost use Rattle.std.specs.Ordering.{nat_cmp};
ghost use Rattle.map_model.specs.Entries.{lookup};
ghost use Rattle.map_model.specs.Parts.{rank};
ghost use Rattle.serve_answers.specs.MapAnswering as answering;
ghost use Rattle.serve_answers.specs.MapAnswering.{answer_of, last_of, range_totals, totals_of};
ghost use Rattle.script.specs.Lines.{reply_of};
ghost use Rattle.serve_text.specs.Texts.{Extends};
ghost use Rattle.aug_monoid.specs.Fresh.{IsFresh};

use aug_map::PlainMap;
use aug_monoid::{NoMemory, Steps, SumMax, Totals};
use script::{line, reply};
use serve_script::ServeQuery;
use serve_text::Answers;
use served_map::Served;
use std::alloc::Global;
use std::marker::Brand;
use std::sync::ledger::{Blank, Ledger};

type PlainTotals = PlainMap<SumMax<u64>>;

fn get<C: Ledger>(
    alloc: Global,
    map: &PlainTotals,
    k: u64,
    steps: &mut Steps<C>,
    out: &mut Vec<u8>,
) -> Result<(), NoMemory>
    ensures { MatchResult result (λ _. out.new.items ≡ out.old.items ++ answering.found_reply (lookup nat_cmp map.now.entries k)) (λ _. Extends out.old.items out.new.items) }
{
    match map.get(alloc, &k, steps)? {
        Some(val) => reply(out, "some", &[val]),
        None => reply(out, "none", &[]),
    }
}

// The totals of a range of keys.
#[tactic(auto, unfolding(crate::specs::MapAnswering::range_totals))]
fn totals_within<C: Ledger>(
    alloc: Global,
    map: &PlainTotals,
    lo: u64,
    hi: u64,
    steps: &mut Steps<C>,
) -> Result<Totals, NoMemory>
    ensures { IfOk result (λ totals. totals ≡ range_totals map.now.entries lo hi) }
{
    map.aug_range(alloc, &lo, &hi, steps)
}

// The totals of all entries.
#[tactic(auto, unfolding(crate::specs::MapAnswering::totals_of))]
fn totals(map: &PlainTotals) -> Totals
    ensures { result ≡ totals_of map.now.entries }
{
    match map.aug() {
        Some(fold) => *fold,
        None => Totals {
            sum: 0,
            greatest: 0,
        },
    }
}

fn sum<C: Ledger>(
    alloc: Global,
    map: &PlainTotals,
    lo: u64,
    hi: u64,
    steps: &mut Steps<C>,
    out: &mut Vec<u8>,
) -> Result<(), NoMemory>
    ensures { MatchResult result (λ _. out.new.items ≡ out.old.items ++ answering.totals_reply (range_totals map.now.entries lo hi)) (λ _. Extends out.old.items out.new.items) }
{
    let within = totals_within(alloc, map, lo, hi, steps)?;
    reply(out, "aug", &[within.sum, within.greatest])
}

/// Appends what the map answers, or the first part of it.
fn answer<C: Ledger>(
    alloc: Global,
    map: &PlainTotals,
    query: &ServeQuery,
    out: &mut Vec<u8>,
    blank: Blank,
) -> Result<(), NoMemory>
    requires { IsFresh C.name C.parts blank }
    ensures { MatchResult result (λ _. out.new.items ≡ out.old.items ++ answer_of map.now.entries query.now) (λ _. Extends out.old.items out.new.items) }
{
    let mut steps = Steps::<C>::start(blank);
    match *query {
        ServeQuery::Get { k } => get(alloc, map, k, &mut steps, out),
        ServeQuery::Sum { lo, hi } => sum(alloc, map, lo, hi, &mut steps, out),
        ServeQuery::Rank { k } => reply(out, "rank", &[map.rank(&k, &mut steps)]),
        ServeQuery::Size => reply(out, "size", &[map.size()]),
    }
}

/// The answers of a served map to the queries of the tool serve.
#[derive(Drop)]
pub struct MapAnswers;

impl Answers<Served> for MapAnswers {
    ghost use Rattle.serve_answers.specs.MapInLine.{answer_in_line, last_line};

    type Query = ServeQuery;

    ghost answer_of = { answer_of };

    ghost last_of = { last_of };

    fn answer(
        alloc: Global,
        served: &Served,
        query: &ServeQuery,
        out: &mut Vec<u8>,
    ) -> Result<(), NoMemory> {
        answer::<Brand>(alloc, served.map(), query, out, Blank::new(1))
    }

    fn write_last(_alloc: Global, served: &Served, out: &mut Vec<u8>) -> Result<(), NoMemory> {
        let map = served.map();
        let all = totals(map);
        line(out, "final", &[map.size(), all.sum, all.greatest])
    }

    ghost in_line = { answer_in_line };

    ghost last_line = { last_line };
}
