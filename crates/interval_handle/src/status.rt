//! What calls answer.

/// Done.
pub const OK: u8 = 0;
/// There is no such interval.
pub const NOT_THERE: u8 = 1;
/// The arrays are too short; how long they must be is written.
pub const NO_ROOM: u8 = 2;
/// A closed handle where an open one is wanted, an open one where the result goes, arrays that differ in length, or ends that are
/// not in order.
pub const BAD_CALL: u8 = 4;
/// Memory was refused.
pub const NO_MEMORY: u8 = 7;
