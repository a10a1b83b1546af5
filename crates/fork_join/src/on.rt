//! Where a call runs.
ghost use Rattle.std.specs.Prelude.{◌≡◌};

use crate::cut::Cut;
use crate::gate::FreeGate;
use std::alloc::AllocError;

/// Where a call runs: the runtime that makes its threads, the gate that their halves enter, and its share of the machine.
pub struct On<'a, R, G> {
    pub rt: &'a R,
    pub gate: &'a G,
    pub cut: Cut,
}

// By hand, since neither the runtime nor the gate need be `Copy`.
impl<'a, R, G> Copy for On<'a, R, G> {}

impl<'a, R, G> Clone for On<'a, R, G> {
    ghost is_clone = { λ x y. y ≡ x };

    fn clone(&self) -> Result<Self, AllocError> {
        Ok(*self)
    }
}

impl<'a, R, G> On<'a, R, G> {
    /// The same place with another share of the machine.
    pub fn with(self, cut: Cut) -> On<'a, R, G>
        ensures { result.cut ≡ cut }
    {
        On {
            rt: self.rt,
            gate: self.gate,
            cut,
        }
    }

    /// The same place with the gate that does nothing.
    pub fn free(self) -> On<'a, R, FreeGate>
        ensures { result.cut ≡ self.entry.cut }
    {
        On {
            rt: self.rt,
            gate: &FreeGate,
            cut: self.cut,
        }
    }
}
