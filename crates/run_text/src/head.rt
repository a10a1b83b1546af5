//! The beginnings of lines.
ghost use Rattle.std.specs.Prelude.{◌≡◌, ◌≢◌, ◌∷◌, ◌++◌, ℕ, List, decimal};
ghost use Rattle.std.specs.Option.{MatchOption};
ghost use Rattle.serve_text.specs.Texts.{comma};

use crate::lines::split_at_byte;
use crate::number::number;

/// What stands behind a letter, a comma, a number and one more comma.
pub(crate) fn behind_head(line: &[u8], letter: u8, place: u64) -> Option<&[u8]>
    ensures { MatchOption result ((rest : List ℕ) → line.now ≢ letter ∷ comma ∷ (decimal place ++ comma ∷ rest)) (λ rest. line.now ≡ letter ∷ comma ∷ (decimal place ++ comma ∷ rest.now)) }
{
    let [first, b',', behind @ ..] = line else {
        return None;
    };
    let Some((digits, rest)) = split_at_byte(behind, b',') else {
        return None;
    };
    let Some(found) = number(digits) else {
        return None;
    };
    if *first != letter {
        return None;
    }
    if found != place {
        return None;
    }
    Some(rest)
}
