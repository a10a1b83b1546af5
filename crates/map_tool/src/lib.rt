//! The tool map: its commands run on sixteen registers, each by one call of the library of maps.
//!
//! `map_command` makes the `Effect` of one command from the maps of `Registers` that it reads, and then does it and appends its
//! reply in one place; a refusal leaves both as they were, and the commands that change or ask one entry say how many steps they
//! take. `run_map` runs a whole script from empty registers and answers the replies; long runs of puts into one register are done
//! at once (`put_runs`), and so are long runs of look-ups in one. What each command means stands in `specs/Effects`.
//!
//! Tests: `program_tests`. Wrong bodies: none here; `pam_top` states these clauses of whole runs.
#![tactic(auto)]

mod asking;
mod changing;
mod command;
mod doing;
mod effect;
mod entries;
mod gets;
mod registers;
mod replacing;
mod running;
mod runs;
mod values;

pub use command::map_command;
pub use registers::Registers;
pub use running::run_map;
