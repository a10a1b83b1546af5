//! What calls answer.

/// Done.
pub const OK: u8 = 0;
/// There is no such entry.
pub const NOT_THERE: u8 = 1;
/// The array is too short; how long it must be is written.
pub const NO_ROOM: u8 = 2;
/// The bytes are no map's.
pub const NOT_A_MAP: u8 = 3;
/// A closed handle where an open one is wanted, an open one where the result goes, lengths that differ, or an unknown way to
/// resolve.
pub const BAD_CALL: u8 = 4;
/// Memory was refused.
pub const NO_MEMORY: u8 = 7;
