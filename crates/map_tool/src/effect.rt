//! What a command does: a register changes, or a line is replied.
ghost use Rattle.std.specs.Prelude.{◌≡◌, Ok};
ghost use Rattle.map_tool.specs.declared.effect.Effect.TheVariants as made;

use crate::registers::Register;
use aug_monoid::{NoMemory, Totals};

/// What a command does. Where a register changes, the reply is its size.
#[derive(Drop)]
pub(crate) enum Effect {
    /// A register gets a map.
    Changes(u8, Register),
    /// A key of a register gets a value, where the map stands.
    Puts(u8, u64, u64),
    /// A register loses a key, where the map stands.
    Dels(u8, u64),
    /// Replies a value, if there is one.
    Found(Option<u64>),
    /// Replies an entry, if there is one.
    Entry(Option<(u64, u64)>),
    /// Replies the sum and the greatest of some values.
    Totals(Totals),
    /// Replies all entries of a map.
    List(Register),
    /// Replies how many entries there are.
    Size(u64),
    /// Replies the greatest of some values.
    Max(u64),
    /// Replies how many keys are less than one.
    Rank(u64),
    /// Replies how many values lie in a range.
    Count(u64),
    /// Replies that two maps overlap.
    Overlap,
}

/// A register gets a map.
pub(crate) fn change(d: u8, map: Register) -> Result<Effect, NoMemory>
    ensures { result ≡ Ok (made.Changes d map) }
{
    Ok(Effect::Changes(d, map))
}
