//! A search over ten documents, by an inverted index.

use anyhow::{Result, bail};
use inverted_index::{Doc, Index, Term};
use std::alloc::Global;

/// Ten lines of a notebook.
pub(crate) const NOTES: &[&[u8]] = &[
    b"Apples and pears, baked with honey",
    b"Bread: flour, water, salt, and a day",
    b"Honey cake with almonds, and more honey",
    b"Pear tart, almonds on top",
    b"Salt lemons in a jar",
    b"Apple cake with cinnamon",
    b"Almond bread with honey",
    b"Lemon cake, flour and honey",
    b"Water, lemon, mint",
    b"Baked apples without honey",
];

/// The term of a word.
pub(crate) fn term(alloc: Global, word: &[u8]) -> Result<Term> {
    match Term::of(alloc, word) {
        Ok(term) => Ok(term),
        Err(_) => bail!("no term"),
    }
}

// The words of terms, a comma between two.
fn words_of(alloc: Global, terms: &[Term]) -> Result<String> {
    let mut words = String::new(alloc);
    for term in terms {
        if !words.is_empty() {
            words.push_str(", ")?;
        }
        let word = str::from_utf8(term.bytes())?;
        words.push_str(word)?;
    }
    Ok(words)
}

/// Which notes have both of two words, one and not another, and one most often, and which words begin with some letters.
pub(crate) fn page(alloc: Global) -> Result<String> {
    let mut docs = Vec::new(alloc);
    for (number, text) in (1u64..).zip(NOTES) {
        docs.push(Doc { doc: number, text })?;
    }
    let added = Index::new().add_docs_alone(alloc, &docs)?;
    let index = added.index;
    let honey = term(alloc, b"honey")?;
    let cake = term(alloc, b"cake")?;
    let best = index.top(alloc, 3, &honey)?;
    let without = index.without_alone(alloc, &cake, &honey)?;
    let both = index.all_of_alone(alloc, &[honey, cake])?;
    let words = words_of(alloc, &index.terms_from(alloc, b"al")?)?;
    let text = format!(in alloc;
        "honey and cake: {both:?}\ncake without honey: {without:?}\nmost honey: {best:?}\nbegin with al: {words}\n"
    )?;
    Ok(text)
}
