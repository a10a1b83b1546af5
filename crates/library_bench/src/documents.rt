//! An index of documents.

use crate::checksum::Checksum;
use crate::numbers::Numbers;
use crate::timed::{Timed, since};
use anyhow::{Result, bail};
use aug_monoid::NoMemory;
use inverted_index::{Doc, Hit, Index, Term};
use std::alloc::Global;
use std::rt::Clock;
use std::time::Instant;

/// How many words a document has.
const LENGTH: u64 = 50;

/// How many of the most frequent terms are asked for.
const FREQUENT: u64 = 8;

/// How often the first documents of two terms are asked for.
const ASKED: u64 = 100;

// The number of one of so many words, of which the early ones come far more often.
fn random_word(numbers: &mut Numbers, words: u64) -> u64 {
    let chance = numbers.item();
    let square = chance.wrapping_mul(chance) >> 20;
    let cube = square.wrapping_mul(chance) >> 20;
    cube.wrapping_mul(words) >> 20
}

fn random_text(alloc: Global, numbers: &mut Numbers, words: u64) -> Result<String, NoMemory> {
    let mut text = String::new(alloc);
    for _ in 0..LENGTH {
        let number = random_word(numbers, words);
        text.push_str(&format!(in alloc; "w{number} ")?)?;
    }
    Ok(text)
}

// As many texts as are wanted, of as many words.
fn random_texts(alloc: Global, numbers: &mut Numbers, count: u64) -> Result<Vec<String>, NoMemory> {
    let mut texts = Vec::new(alloc);
    for _ in 0..count {
        texts.push(random_text(alloc, numbers, count)?)?;
    }
    Ok(texts)
}

// The documents of texts, numbered from 1 on.
fn docs_of(alloc: Global, texts: &[String]) -> Result<Vec<Doc<'_>>, NoMemory> {
    let mut docs = Vec::new(alloc);
    for (number, text) in (1u64..).zip(texts) {
        docs.push(Doc {
            doc: number,
            text: text.as_bytes(),
        })?;
    }
    Ok(docs)
}

fn add_hits(checksum: &mut Checksum, hits: &[Hit]) {
    for hit in hits {
        checksum.add(hit.doc);
        checksum.add(hit.weight);
    }
}

fn add_bytes(checksum: &mut Checksum, bytes: &[u8]) {
    for byte in bytes {
        checksum.add(u64::from(*byte));
    }
}

// The checksum of all terms of an index with their documents and weights.
fn checksum_of(alloc: Global, index: &Index) -> Result<u64, NoMemory> {
    let mut checksum = Checksum::new();
    for term in &index.terms(alloc)? {
        add_bytes(&mut checksum, term.bytes());
        add_hits(&mut checksum, &index.matching(alloc, term)?.hits(alloc)?);
    }
    Ok(checksum.sum())
}

/// Indexes many documents at once.
pub(crate) fn time_added(rt: &impl Clock, alloc: Global, size: u64, seed: u64) -> Result<Timed> {
    let texts = random_texts(alloc, &mut Numbers::new(seed), size)?;
    let docs = docs_of(alloc, &texts)?;
    let start = Instant::now(rt)?;
    let added = Index::new().add_docs_alone(alloc, &docs)?;
    let nanoseconds = since(rt, start)?;
    Ok(Timed {
        checksum: checksum_of(alloc, &added.index)?,
        nanoseconds,
    })
}

// The terms of the most frequent words.
fn frequent_terms(alloc: Global) -> Result<Vec<Term>> {
    let mut terms = Vec::new(alloc);
    for number in 0..FREQUENT {
        let word = format!(in alloc; "w{number}")?;
        match Term::of(alloc, word.as_bytes()) {
            Ok(term) => terms.push(term)?,
            Err(_) => bail!("no term"),
        }
    }
    Ok(terms)
}

// Adds the first ten documents that have both terms to a checksum.
fn add_top(
    alloc: Global,
    index: &Index,
    terms: (&Term, &Term),
    checksum: &mut Checksum,
) -> Result<(), NoMemory> {
    let first = index.matching(alloc, terms.0)?;
    let both = first.and(alloc, &index.matching(alloc, terms.1)?)?;
    add_hits(checksum, &both.top(alloc, 10)?);
    Ok(())
}

fn tops(
    alloc: Global,
    index: &Index,
    terms: &[Term],
    numbers: &mut Numbers,
) -> Result<u64, NoMemory> {
    let mut checksum = Checksum::new();
    for _ in 0..ASKED {
        let first = terms.get(numbers.below(FREQUENT) as usize);
        let second = terms.get(numbers.below(FREQUENT) as usize);
        if let (Some(first), Some(second)) = (first, second) {
            add_top(alloc, index, (first, second), &mut checksum)?;
        }
    }
    Ok(checksum.sum())
}

/// Asks for the first ten documents of those that have both of two frequent terms.
pub(crate) fn time_top(rt: &impl Clock, alloc: Global, size: u64, seed: u64) -> Result<Timed> {
    let mut numbers = Numbers::new(seed);
    let texts = random_texts(alloc, &mut numbers, size)?;
    let added = Index::new().add_docs_alone(alloc, &docs_of(alloc, &texts)?)?;
    let terms = frequent_terms(alloc)?;
    let start = Instant::now(rt)?;
    let checksum = tops(alloc, &added.index, &terms, &mut numbers)?;
    let nanoseconds = since(rt, start)?;
    Ok(Timed {
        checksum,
        nanoseconds,
    })
}
