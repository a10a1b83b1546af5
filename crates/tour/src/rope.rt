//! A text in an editor: bytes in a sequence that knows how many lines they have.

ghost use Rattle.std.specs.Prelude.{◌≡◌, ◌==◌, ◌+◌, ◌-◌, ◌^◌, ◌≤◌, cond, min, nat_le};
ghost use Rattle.std.proofs.Common.{arith};
ghost use Rattle.std.proofs.lemmas.Bool.Decides.{nat_tests};
ghost use Rattle.aug_monoid.specs.Fresh.{IsFresh};

use anyhow::Result;
use aug_monoid::{Share, Steps};
use pac_seq::{Fold, Seq, SeqOver, SumTest, SureFold};
use std::alloc::Global;
use std::marker::Brand;
use std::sync::ledger::{Blank, Ledger};

/// How many line feeds bytes have; more than `u64::MAX` are that many.
#[derive(Drop)]
struct LineFeeds;

impl Fold for LineFeeds {
    type Item = u8;

    type Sum = u64;

    ghost Fits = { λ n. n ≤ 2 ^ 64 - 1 };

    ghost image_of = { λ byte. cond (byte == 10) 1 0 };

    ghost unit_of = { 0 };

    ghost combined = { λ a b. min (a + b) (2 ^ 64 - 1) };

    ghost image_fits = { λ byte. Prim.grind (arith, nat_tests) };

    ghost monoid = { record { unit_fits = Prim.omega arith; combine_fits = λ a b f g. Prim.omega arith; left_unit = λ a f. Prim.omega arith; right_unit = λ a f. Prim.omega arith; assoc = λ a b c f g h. Prim.omega arith } };

    ghost sums_never_refuse = { tt };

    fn of(byte: &u8) -> u64 {
        if *byte == b'\n' { 1 } else { 0 }
    }

    fn unit() -> u64 {
        0
    }

    fn combine<C: Ledger>(a: &u64, b: &u64, steps: &mut Steps<C>) -> u64 {
        steps.tick();
        a.saturating_add(*b)
    }
}

impl SureFold for LineFeeds {
    ghost items_never_refuse = { tt };
}

/// At least so many line feeds.
#[derive(Drop)]
struct Lines {
    least: u64,
}

impl SumTest<LineFeeds> for Lines {
    ghost admits = { λ test feeds. nat_le test.least feeds };

    ghost stays = { λ test a b f g passed. Prim.grind (arith, nat_tests) };

    fn passes(&self, feeds: &u64) -> bool {
        self.least <= *feeds
    }
}

/// Bytes, with how many line feeds any run of them has.
type Rope = Seq<LineFeeds, 64>;

// The place of the line feed that ends the line of a number, which counts from 1.
fn end_counted<C: Ledger>(alloc: Global, rope: &Rope, line: u64, blank: Blank) -> Option<u64>
    requires { IsFresh C.name C.parts blank }
{
    let mut steps = Steps::<C>::start(blank);
    rope.first_where(alloc, &Lines { least: line }, &mut steps)
}

// The place where a line begins, of which the first has the number 1; the size where there are fewer lines.
fn line_start(alloc: Global, rope: &Rope, line: u64) -> u64 {
    let before = line.saturating_sub(1);
    if before == 0 {
        return 0;
    }
    match end_counted::<Brand>(alloc, rope, before, Blank::new(1)) {
        Some(place) => place.saturating_add(1),
        None => rope.size(),
    }
}

/// A line put into a text, and the line and column of a place.
pub(crate) fn page(alloc: Global) -> Result<String> {
    let poem: Rope = SeqOver::from_items(alloc, b"roses are red\nviolets are blue\n")?;
    let undo = poem.share(alloc)?; // costs no more than a pointer
    let at = line_start(alloc, &poem, 2);
    let more: Rope = SeqOver::from_items(alloc, b"sugar is sweet\n")?;
    let poem = poem
        .take(alloc, at)?
        .append(alloc, &more)?
        .append(alloc, &poem.skip(alloc, at)?)?;
    let place = 16;
    let front = poem.take(alloc, place)?;
    let line = front.sum(alloc).saturating_add(1);
    let column = place
        .saturating_sub(line_start(alloc, &poem, line))
        .saturating_add(1);
    let text = format!(in alloc;
        "bytes {}, lines {}; before {} and {}\nplace {place} is in line {line} at column {column}\n",
        poem.size(),
        poem.sum(alloc),
        undo.size(),
        undo.sum(alloc)
    )?;
    Ok(text)
}
