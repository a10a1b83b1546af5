//! Lines of rows: how many there are, and then the numbers of each.
ghost use Rattle.std.specs.Prelude.{◌≡◌, ◌++◌, IfOk, MatchResult};
ghost use Rattle.script.specs.Lines.{counted, line_of};

use crate::line;
use aug_monoid::NoMemory;
use std::alloc::Global;

/// What says the `N` numbers of a row.
pub trait Numbers<T, const N: usize> {
    ghost use Rattle.std.specs.Prelude.{List, ℕ};

    ghost numbers_of: { T → List ℕ };

    /// The numbers of a row.
    fn numbers(row: &T) -> [u64; N]
        ensures { result ≡ numbers_of row.now };
}

/// How many rows there are, and then the numbers of each. O(numbers).
pub fn counted<M: Numbers<T, N>, T, const N: usize>(
    alloc: Global,
    rows: &[T],
) -> Result<Vec<u64>, NoMemory>
    ensures { IfOk result (λ numbers. numbers.items ≡ counted M.numbers_of rows.now) }
{
    let mut numbers = Vec::with_capacity(alloc, rows.len().saturating_mul(N).saturating_add(1))?;
    numbers.push(rows.len() as u64)?;
    for row in rows {
        numbers.extend_from_slice(&M::numbers(row))?;
    }
    Ok(numbers)
}

/// Appends the line that counts rows and lists the numbers of each, or nothing. O(numbers).
pub fn counted_line<M: Numbers<T, N>, T, const N: usize>(
    alloc: Global,
    out: &mut Vec<u8>,
    word: &str,
    rows: &[T],
) -> Result<(), NoMemory>
    ensures { MatchResult result (λ _. out.new.items ≡ out.old.items ++ line_of word.now (counted M.numbers_of rows.now)) (λ _. out.new.items ≡ out.old.items) }
{
    let numbers = counted::<M, T, N>(alloc, rows)?;
    line(out, word, &numbers)
}
