//! The recursion, forked and on one thread.
ghost use Rattle.std.specs.Prelude.{◌+◌, ◌≤◌, IfOk};
ghost use Rattle.std.specs.Thread.{IsSend, IsSync};
ghost use Rattle.aug_monoid.specs.Fresh.{IsFresh};
ghost use Rattle.fork_join.specs.Openings.{IsOpened, AreHalves};

use crate::cut::Cut;
use crate::fork::{Sizes, fork_halves};
use crate::gate::Gate;
use crate::on::On;
use crate::work::{Divide, Opened};
use aug_monoid::{NoMemory, Steps};
use std::alloc::Global;
use std::marker::{Brand, Send, Sync};
use std::sync::ledger::{Blank, Ledger};
use std::thread::Threads;

/// The answer for a part, by halves of halves, forked where the cut allows it. A half that is too small for a worker of its own
/// is done by the caller's thread, and takes no worker from the other.
/// The answer does not depend on where it runs.
#[cycle(divide)]
pub fn divide<
    R: Threads + Sync,
    G: Gate,
    P: Send + Drop,
    M: Send + Drop,
    O: Send + Drop,
    D: Divide<P, M, O> + Send + Sync,
>(on: On<R, G>, alloc: Global, work: &D, part: P) -> Result<O, NoMemory>
    requires { D.fits work.now part }
    ensures { IfOk result (D.answers work.now part) }
{
    let whole = work.size(&part);
    match open_uncounted(alloc, work, part)? {
        Opened::Done(out) => Ok(out),
        Opened::Split(front, middle, back) => {
            let sizes = Sizes {
                whole,
                front: work.size(&front),
                back: work.size(&back),
            };
            let near = move |cut: Cut| -> Result<O, NoMemory>
                requires { IsSync R.row × IsSync G.row × IsSync D.row × IsSend P.row × IsSend M.row × IsSend O.row × D.fits work.now front }
                ensures { IfOk result (D.answers work.entry.now front) }
            { divide(on.with(cut), alloc, work, front) };
            let far = move |cut: Cut| -> Result<O, NoMemory>
                requires { IsSync R.row × IsSync G.row × IsSync D.row × IsSend P.row × IsSend M.row × IsSend O.row × D.fits work.now back }
                ensures { IfOk result (D.answers work.entry.now back) }
            { divide(on.with(cut), alloc, work, back) };
            let (left, right) = fork_halves(on, sizes, near, far);
            close_uncounted(alloc, work, left?, middle, right?)
        }
    }
}

// The opening of a part, with a counter of its own.
fn open_uncounted<P, M, O, D: Divide<P, M, O>>(
    alloc: Global,
    work: &D,
    part: P,
) -> Result<Opened<P, M, O>, NoMemory>
    requires { D.fits work.now part }
    ensures { IfOk result (IsOpened (D.fits work.now) (D.answers work.now part) (D.divides work.now part) (D.extent work.now) (D.extent work.now part)) }
{
    open_with_counter::<P, M, O, D, Brand>(alloc, work, part, Blank::new(1))
}

fn open_with_counter<P, M, O, D: Divide<P, M, O>, C: Ledger>(
    alloc: Global,
    work: &D,
    part: P,
    blank: Blank,
) -> Result<Opened<P, M, O>, NoMemory>
    requires fits { D.fits work.now part }
    requires fresh { IsFresh C.name C.parts blank }
    ensures { IfOk result (IsOpened (D.fits work.now) (D.answers work.now part) (D.divides work.now part) (D.extent work.now) (D.extent work.now part)) }
{
    let mut steps = Steps::<C>::start(blank);
    work.open(alloc, part, &mut steps)
}

// The close of a part, with a counter of its own.
fn close_uncounted<P, M, O, D: Divide<P, M, O>>(
    alloc: Global,
    work: &D,
    left: O,
    middle: M,
    right: O,
) -> Result<O, NoMemory>
    requires { AreHalves (D.answers work.now) (D.divides work.now) left middle right }
    ensures { IfOk result (λ out. (part front back : P) → D.divides work.now part front middle back
        → D.answers work.now front left → D.answers work.now back right → D.answers work.now part out) }
{
    close_with_counter::<P, M, O, D, Brand>(alloc, work, left, middle, right, Blank::new(1))
}

fn close_with_counter<P, M, O, D: Divide<P, M, O>, C: Ledger>(
    alloc: Global,
    work: &D,
    left: O,
    middle: M,
    right: O,
    blank: Blank,
) -> Result<O, NoMemory>
    requires halves { AreHalves (D.answers work.now) (D.divides work.now) left middle right }
    requires fresh { IsFresh C.name C.parts blank }
    ensures { IfOk result (λ out. (part front back : P) → D.divides work.now part front middle back
        → D.answers work.now front left → D.answers work.now back right → D.answers work.now part out) }
{
    let mut steps = Steps::<C>::start(blank);
    work.close(alloc, left, middle, right, &mut steps)
}

/// The answer for a part on one thread, by halves of halves: those that `divide` opens and closes. For a part of extent n the
/// recursion is O(n) deep. It takes at most as many steps as the work's bound for the part says.
pub fn divide_alone<P: Drop, M: Drop, O: Drop, D: Divide<P, M, O>, C: Ledger>(
    alloc: Global,
    work: &D,
    part: P,
    steps: &mut Steps<C>,
) -> Result<O, NoMemory>
    requires { D.fits work.now part }
    ensures answer { IfOk result (D.answers work.now part) }
    ensures cost { IfOk result (λ _. steps.new ≤ steps.old + D.bound work.now part) }
{
    match work.open(alloc, part, steps)? {
        Opened::Done(out) => Ok(out),
        Opened::Split(front, middle, back) => {
            let left = divide_alone(alloc, work, front, steps)?;
            let right = divide_alone(alloc, work, back, steps)?;
            work.close(alloc, left, middle, right, steps)
        }
    }
}

/// `divide_alone` with a counter that is thrown away, for a caller with no bound on steps to keep.
pub fn divide_uncounted<P: Drop, M: Drop, O: Drop, D: Divide<P, M, O>>(
    alloc: Global,
    work: &D,
    part: P,
) -> Result<O, NoMemory>
    requires { D.fits work.now part }
    ensures { IfOk result (D.answers work.now part) }
{
    divide_with_counter::<P, M, O, D, Brand>(alloc, work, part, Blank::new(1))
}

fn divide_with_counter<P: Drop, M: Drop, O: Drop, D: Divide<P, M, O>, C: Ledger>(
    alloc: Global,
    work: &D,
    part: P,
    blank: Blank,
) -> Result<O, NoMemory>
    requires fits { D.fits work.now part }
    requires fresh { IsFresh C.name C.parts blank }
    ensures { IfOk result (D.answers work.now part) }
{
    let mut steps = Steps::<C>::start(blank);
    divide_alone(alloc, work, part, &mut steps)
}
