//! A phone book: names and numbers, both texts.

use anyhow::Result;
use aug_monoid::{Nothing, Share, Text};
use ord_map::OrdMap;
use std::alloc::Global;

/// Numbers by name, without a fold.
type Book = OrdMap<Nothing<Text, Text>>;

const ENTRIES: &[(&str, &str)] = &[
    ("Ada", "0151 1"),
    ("Bela", "0151 2"),
    ("Carla", "0151 3"),
    ("Emil", "0151 4"),
];

// The text of a number, where there is one.
fn shown(number: &Option<Text>) -> &str {
    match number {
        Some(number) => number.as_str(),
        None => "none",
    }
}

/// A number looked up, one changed, one removed, and the book as it was before.
pub(crate) fn page(alloc: Global) -> Result<String> {
    let mut book = Book::new();
    for (name, number) in ENTRIES {
        let name = Text::from_str(alloc, name)?;
        let number = Text::from_str(alloc, number)?;
        book.put(alloc, name, number)?;
    }
    let before = book.share(alloc)?; // costs no more than a pointer
    let ada = Text::from_str(alloc, "Ada")?;
    let emil = Text::from_str(alloc, "Emil")?;
    let old = book.insert(alloc, ada.share(alloc)?, Text::from_str(alloc, "0160 9")?)?;
    book.del(alloc, &emil)?;
    let from_b = Text::from_str(alloc, "B")?;
    let next = book.ceiling(alloc, &from_b)?.map(|(name, _number)| name);
    let text = format!(in alloc;
        "Ada had {}, and has {}\nEmil has {}, and had {}\nthe first name from B on: {}\n",
        shown(&old),
        shown(&book.get(alloc, &ada)?),
        shown(&book.get(alloc, &emil)?),
        shown(&before.get(alloc, &emil)?),
        shown(&next)
    )?;
    Ok(text)
}
