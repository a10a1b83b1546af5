//! Two closures, each called once.
ghost use Rattle.std.specs.Prelude.{◌≡◌, ◌≤◌};

use crate::cut::Cut;
use crate::gate::Gate;
use crate::on::On;
use std::marker::{Send, Sync};
use std::thread;
use std::thread::Threads;

/// How much work a part and its halves are.
#[derive(Clone, Copy)]
pub(crate) struct Sizes {
    pub(crate) whole: u64,
    pub(crate) front: u64,
    pub(crate) back: u64,
}

/// Calls both closures once, each with a lawful cut, and answers what they answer.
///
/// Where the cut has at least 2 workers and the size is at least its grain, they run side by side: the
/// left half with the greater half of the workers, the right half with the rest, and each enters the
/// gate at its place first. Else they run one after the other, each with one worker.
/// Nothing is allocated, and nothing is refused: where no thread can be made, one half waits for the other.
pub fn fork2<
    R: Threads + Sync,
    G: Gate,
    F: Send,
    H: Send,
    P: FnOnce(Cut) -> F + Send,
    Q: FnOnce(Cut) -> H + Send,
>(rt: &R, gate: &G, cut: Cut, size: u64, left: P, right: Q) -> (F, H)
    requires left { P.IsAlwaysCallable left }
    requires right { Q.IsAlwaysCallable right }
    ensures left { (c : Cut) × P.post left c result.0 }
    ensures right { (c : Cut) × Q.post right c result.1 }
{
    if cut.splits(size) {
        let near = cut.left();
        let far = cut.right();
        let begin_left = move || -> F
            requires { P.IsAlwaysCallable left }
            ensures { P.post left near result }
        {
            gate.enter(near.place);
            left(near)
        };
        let begin_right = move || -> H
            requires { Q.IsAlwaysCallable right }
            ensures { Q.post right far result }
        {
            gate.enter(far.place);
            right(far)
        };
        thread::join(rt, begin_left, begin_right)
    } else {
        let alone = cut.alone();
        let first = left(alone);
        let second = right(alone);
        (first, second)
    }
}

/// `fork2` for two halves of given sizes. A half whose share of the workers is less than one worker is done first or last by the
/// caller's thread, and the other half has the whole cut.
pub(crate) fn fork_halves<
    R: Threads + Sync,
    G: Gate,
    F: Send,
    H: Send,
    P: FnOnce(Cut) -> F + Send,
    Q: FnOnce(Cut) -> H + Send,
>(on: On<R, G>, sizes: Sizes, left: P, right: Q) -> (F, H)
    requires left { P.IsAlwaysCallable left }
    requires right { Q.IsAlwaysCallable right }
    ensures left { (c : Cut) × P.post left c result.0 }
    ensures right { (c : Cut) × Q.post right c result.1 }
{
    let cut = on.cut;
    let workers = cut.workers as u64;
    if sizes.front < sizes.back / workers {
        let first = left(cut.alone());
        let second = right(cut);
        (first, second)
    } else if sizes.back < sizes.front / workers {
        let first = left(cut);
        let second = right(cut.alone());
        (first, second)
    } else {
        fork2(on.rt, on.gate, cut, sizes.whole, left, right)
    }
}
