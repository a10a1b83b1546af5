//! What can be divided.
ghost use Rattle.std.specs.Prelude.{ℕ, ◌+◌, ◌≤◌, IfOk};
ghost use Rattle.fork_join.specs.Openings.{IsOpened, AreHalves, left_to_do};

use aug_monoid::{NoMemory, Steps};
use std::alloc::Global;
use std::sync::ledger::Ledger;

/// A part that is done, or its two halves and what is kept between them.
#[derive(Drop)]
pub enum Opened<P, M, O> {
    Done(O),
    Split(P, M, P),
}

/// Work whose parts are split in two until they are small. Where it is to fork it crosses threads besides.
pub trait Divide<P, M, O>: Drop {
    /// That this is a part of such work.
    ghost fits: { Self → P → Type 0 };

    /// That this is the answer for a part.
    ghost answers: { Self → P → O → Type 0 };

    /// That a part consists of two halves and what is between them.
    ghost divides: { Self → P → P → M → P → Type 0 };

    /// A number that falls from a part to its halves.
    ghost extent: { Self → P → ℕ };

    /// The most steps that a part takes on one thread, from its opening to its close. Where nothing is counted it is 0.
    ghost bound: { Self → P → ℕ };

    /// The most steps that the close of a part takes.
    ghost closing: { Self → P → ℕ };

    /// How much work a part is, beside the grain of a cut and beside the other half; what is only taken over is 0.
    fn size(&self, part: &P) -> u64;

    /// Does a small part, or splits it.
    fn open<C: Ledger>(
        &self,
        alloc: Global,
        part: P,
        steps: &mut Steps<C>,
    ) -> Result<Opened<P, M, O>, NoMemory>
        requires { fits self.now part }
        ensures opened { IfOk result (IsOpened (fits self.now) (answers self.now part) (divides self.now part) (extent self.now) (extent self.now part)) }
        ensures cost { IfOk result (λ opened. steps.new + left_to_do (bound self.now) (closing self.now part) opened ≤ steps.old + bound self.now part) };

    /// The answer for a part from those for its halves.
    fn close<C: Ledger>(
        &self,
        alloc: Global,
        left: O,
        middle: M,
        right: O,
        steps: &mut Steps<C>,
    ) -> Result<O, NoMemory>
        requires { AreHalves (answers self.now) (divides self.now) left middle right }
        ensures answer { IfOk result (λ out. (part front back : P) → divides self.now part front middle back
            → answers self.now front left → answers self.now back right → answers self.now part out) }
        ensures cost { IfOk result (λ _. (part front back : P) → divides self.now part front middle back
            → answers self.now front left → answers self.now back right → steps.new ≤ steps.old + closing self.now part) };
}
