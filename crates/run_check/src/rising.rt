//! Numbers that never fall.
ghost use Rattle.std.specs.Prelude.{◌≡◌, ◌==◌, ◌<◌, ◌↔◌, ℕ, IfOk, IsTrue, All, filter, replicate};
ghost use Rattle.std.specs.List.Sorted.{IsNonDecreasingBy};

use aug_monoid::NoMemory;
use std::alloc::Global;

/// A number of a caller.
#[derive(Clone, Copy)]
pub(crate) struct Step {
    pub(crate) caller: u32,
    pub(crate) number: u64,
}

/// So many zeros.
fn zeros(alloc: Global, count: usize) -> Result<Vec<u64>, NoMemory>
    ensures { IfOk result (λ zeros. zeros.items ≡ replicate count 0) }
{
    let zeros = Vec::from_elem(alloc, 0, count)?;
    Ok(zeros)
}

/// Whether along each caller's steps the number never falls, in one pass.
pub(crate) fn rise_for_callers(
    alloc: Global,
    callers: u32,
    steps: &[Step],
) -> Result<bool, NoMemory>
    requires { All (λ s. s.caller < callers) steps.now }
    ensures { IfOk result (λ rise. IsTrue rise ↔ ((c : ℕ) → IsNonDecreasingBy (λ s. s.number) (filter (λ s. s.caller == c) steps.now))) }
{
    let mut last = zeros(alloc, callers as usize)?;
    for step in steps {
        let at = step.caller as usize;
        if step.number < last[at] {
            return Ok(false);
        }
        last[at] = step.number;
    }
    Ok(true)
}
