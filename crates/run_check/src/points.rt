//! The points 2 to 5 of a run.
ghost use Rattle.std.specs.Prelude.{◌≡◌, ◌==◌, ◌<◌, ◌≤◌, ◌↔◌, ℕ, IfOk, IsTrue, All, length, filter, nat_lt, nat_le};
ghost use Rattle.std.specs.List.Sorted.{IsNonDecreasingBy};
ghost use Rattle.serve_text.specs.Records.{answered_of};

use crate::placed::Placed;
use crate::reads::Reading;
use crate::rising::{Step, rise_for_callers};
use aug_monoid::NoMemory;
use std::alloc::Global;

/// Whether the numbers of each caller's batches rise.
pub(crate) fn callers_rise<O: Drop>(
    alloc: Global,
    callers: u32,
    ordered: &[Placed<O>],
) -> Result<bool, NoMemory>
    requires { All (λ p. p.entry.caller < callers) ordered.now }
    ensures { IfOk result (λ rise. IsTrue rise ↔ ((c : ℕ) → IsNonDecreasingBy (λ p. p.entry.tag) (filter (λ p. p.entry.caller == c) ordered.now))) }
{
    let mut steps = Vec::with_capacity(alloc, ordered.len())?;
    for p in ordered {
        steps.push(Step {
            caller: p.entry.caller,
            number: p.entry.tag,
        })?;
    }
    let rise = rise_for_callers(alloc, callers, steps.as_slice())?;
    Ok(rise)
}

/// Whether the rounds of the batches never fall.
pub(crate) fn rounds_rise<O: Drop>(ordered: &[Placed<O>]) -> bool
    ensures { IsTrue result ↔ IsNonDecreasingBy (λ p. p.round) ordered.now }
{
    let mut last = 0;
    for p in ordered {
        if p.round < last {
            return false;
        }
        last = p.round;
    }
    true
}

/// How many of the batches are of rounds before this one.
fn count_before<O: Drop>(placed: &[Placed<O>], round: u64) -> usize
    requires { IsNonDecreasingBy (λ p. p.round) placed.now }
    ensures { result ≡ length (filter (λ p. nat_lt p.round round) placed.now) }
{
    placed.partition_point(|p| p.round < round)
}

/// How many of the batches are of rounds up to and with this one.
fn count_up_to<O: Drop>(placed: &[Placed<O>], round: u64) -> usize
    requires { IsNonDecreasingBy (λ p. p.round) placed.now }
    ensures { result ≡ length (filter (λ p. nat_le p.round round) placed.now) }
{
    placed.partition_point(|p| p.round <= round)
}

/// Whether a read is of its round, in O(log n) for n batches.
fn is_of_its_round<O: Drop, Q: Drop>(placed: &[Placed<O>], read: &Reading<'_, Q>) -> bool
    requires { IsNonDecreasingBy (λ p. p.round) placed.now }
    ensures { IsTrue result ↔ ((length (filter (λ p. nat_lt p.round read.now.asked.round) placed.now) ≤ read.now.number) × (read.now.number ≤ length (filter (λ p. nat_le p.round read.now.asked.round) placed.now))) }
{
    let least = count_before(placed, read.round) as u64;
    let most = count_up_to(placed, read.round) as u64;
    least <= read.number && read.number <= most
}

/// Whether each read is of its round.
pub(crate) fn are_of_their_rounds<O: Drop, Q: Drop>(
    placed: &[Placed<O>],
    reads: &[Reading<'_, Q>],
) -> bool
    requires { IsNonDecreasingBy (λ p. p.round) placed.now }
    ensures { IsTrue result ↔ All (λ a. (length (filter (λ p. nat_lt p.round a.asked.round) placed.now) ≤ a.number) × (a.number ≤ length (filter (λ p. nat_le p.round a.asked.round) placed.now))) reads.now }
{
    for read in reads {
        if !is_of_its_round(placed, read) {
            return false;
        }
    }
    true
}

/// Whether along each caller's reads the number never falls.
pub(crate) fn numbers_rise<Q: Drop>(
    alloc: Global,
    callers: u32,
    reads: &[Reading<'_, Q>],
) -> Result<bool, NoMemory>
    requires { All (λ a. a.asked.caller < callers) reads.now }
    ensures { IfOk result (λ rise. IsTrue rise ↔ ((c : ℕ) → IsNonDecreasingBy (λ a. a.number) (answered_of c reads.now))) }
{
    let mut steps = Vec::with_capacity(alloc, reads.len())?;
    for read in reads {
        steps.push(Step {
            caller: read.caller,
            number: read.number,
        })?;
    }
    let rise = rise_for_callers(alloc, callers, steps.as_slice())?;
    Ok(rise)
}
