//! Texts that are cut at a byte.
ghost use Rattle.std.specs.Prelude.{◌≡◌, ◌≢◌, ◌∷◌, ◌++◌, All};
ghost use Rattle.std.specs.Option.{MatchOption};

/// What stands before the first byte of a value, and what stands behind it.
pub(crate) fn split_at_byte(text: &[u8], stop: u8) -> Option<(&[u8], &[u8])>
    ensures { MatchOption result (All (λ b. b ≢ stop) text.now) (λ parts. (text.now ≡ parts.0.now ++ stop ∷ parts.1.now) × All (λ b. b ≢ stop) parts.0.now) }
{
    for at in 0..text.len() {
        if text[at] == stop {
            return Some((&text[..at], &text[at + 1..]));
        }
    }
    None
}
