//! Two closures, side by side where the cut allows it, else one after the other, and work that is divided by them.
//!
//! A `Cut` says how many workers there are and from which size on a part is worth two of them, and an `On` where a call runs: its
//! runtime, its gate and its cut. `fork2` runs two closures; `divide` is the one forked recursion over work that says by `Divide`
//! how a part is opened and how two answers are closed, and `divide_alone` the same recursion on one thread, in counted steps;
//! `divide_uncounted` throws the counter away. What they answer depends neither on the runtime nor on the cut nor on the gate, which
//! each fork enters, so that a test can show that halves overlap; `FreeGate` lets all through.
//!
//! Tests: `ground_tests`. Wrong bodies: here, in `wrong-bodies/`.
#![tactic(auto)]

mod cut;
mod dividing;
mod fork;
mod gate;
mod on;
mod work;

pub use cut::Cut;
pub use dividing::{divide, divide_alone, divide_uncounted};
pub use fork::fork2;
pub use gate::{FreeGate, Gate};
pub use on::On;
pub use work::{Divide, Opened};
