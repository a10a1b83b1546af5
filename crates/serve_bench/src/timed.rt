//! What an operation tells.

use anyhow::{Context, Result};
use std::alloc::Global;

/// The last line of an operation's text, and how long the operation took.
#[derive(Drop)]
pub(crate) struct Timed {
    pub(crate) last: String,
    pub(crate) nanoseconds: u128,
}

/// The last line of a text, beside a time.
pub(crate) fn told(alloc: Global, text: &[u8], nanoseconds: u128) -> Result<Timed> {
    let text = str::from_utf8(text)?;
    let last = text.lines().next_back().context("a text has a line")?;
    Ok(Timed {
        last: String::from_str(alloc, last)?,
        nanoseconds,
    })
}
