//! What calls answer.

/// Done.
pub const OK: u8 = 0;
/// There is no item at the place.
pub const NOT_THERE: u8 = 1;
/// A closed handle where an open one is wanted, or an open one where the result goes.
pub const BAD_CALL: u8 = 4;
/// Memory was refused.
pub const NO_MEMORY: u8 = 7;
