//! Reads in the order of their numbers.
ghost use Rattle.std.specs.Prelude.{◌≡◌, IfOk, All};
ghost use Rattle.run_check.specs.Turns.{AreTurns, HaveTurns, IsTurn};

use crate::reads::Reading;
use aug_monoid::NoMemory;
use std::alloc::Global;

/// The number of a read, and its place among the reads.
#[derive(Clone, Copy)]
pub(crate) struct Turn {
    pub(crate) number: u64,
    pub(crate) at: usize,
}

fn turns_of<Q: Drop>(alloc: Global, reads: &[Reading<'_, Q>]) -> Result<Vec<Turn>, NoMemory>
    ensures { IfOk result (λ turns. All (IsTurn reads.now) turns.items × HaveTurns reads.now turns.items) }
{
    let mut turns = Vec::with_capacity(alloc, reads.len())?;
    for at in 0..reads.len() {
        let read = &reads[at];
        turns.push(Turn {
            number: read.number,
            at,
        })?;
    }
    Ok(turns)
}

/// The reads in the order of their numbers, in O(n log n).
pub(crate) fn sorted_turns<Q: Drop>(
    alloc: Global,
    reads: &[Reading<'_, Q>],
) -> Result<Vec<Turn>, NoMemory>
    ensures { IfOk result (λ turns. AreTurns reads.now turns.items) }
{
    let mut turns = turns_of(alloc, reads)?;
    turns.sort_by_key(|turn| turn.number)?;
    Ok(turns)
}
