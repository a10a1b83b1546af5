//! Notes that are ranked by a rule of one's own.
ghost use Rattle.tour.specs.Rules.{bm25};

use crate::search::{NOTES, term};
use anyhow::Result;
use aug_monoid::NoMemory;
use inverted_index::{Doc, Index, Weigh};
use std::alloc::Global;

/// BM25 in thousandths, but for the factor of rare terms, which belongs to a question: more of a term counts less and less, and it
/// counts more in a document that is shorter than the mean.
#[derive(Drop)]
struct Bm25 {
    mean: u64,
}

impl Weigh for Bm25 {
    ghost weight = { λ rule times terms. bm25 rule.mean times terms };

    fn weigh(&self, _alloc: Global, times: u64, terms: u64) -> Result<u64, NoMemory> {
        let length = terms.saturating_mul(900) / self.mean.max(1);
        let whole = times.saturating_mul(1000).saturating_add(length);
        Ok(times.saturating_mul(2_200_000) / whole.saturating_add(300))
    }
}

/// The notes that have a word, by falling weight.
pub(crate) fn page(alloc: Global) -> Result<String> {
    let rule = Bm25 { mean: 5 };
    let mut docs = Vec::new(alloc);
    for (number, text) in (1u64..).zip(NOTES) {
        docs.push(Doc { doc: number, text })?;
    }
    let index = Index::new().add_docs_by_alone(alloc, &docs, &rule)?.index;
    let best = index.top(alloc, 3, &term(alloc, b"honey")?)?;
    let text = format!(in alloc; "most honey, and shortest: {best:?}\n")?;
    Ok(text)
}
