//! What unions with a small and with a narrow map take.
ghost use Rattle.map_model.specs.Balance.{IsBlockSize};
ghost use Rattle.aug_monoid.specs.Fresh.{IsFresh};

use crate::changes::{Block, evens};
use crate::counted::Counted;
use crate::sums::Sums;
use crate::work::Work;
use aug_map::Map;
use aug_monoid::{First, Leaf, LeafMut, Steps, SumMax};
use fork_join::{Cut, FreeGate, Gate};
use leaf_blocks::PlainLeaf;
use std::alloc::Global;
use std::marker::{Brand, Send, Sync};
use std::process::Abort;
use std::sync::atomic::{AtomicU64, Ordering};
use std::sync::ledger::{Blank, Ledger};
use std::thread::Threads;

type Tally<'a, const B: usize> = Map<Sums<'a>, Block<'a>, B>;

/// How many entries the small map has.
const FEW: u64 = 16;

/// A map of `FEW` odd numbers, far from one another.
fn few<'a, R: Abort, L: LeafMut<Counted<'a>, u64>, const B: usize, C: Ledger>(
    rt: &R,
    alloc: Global,
    work: &'a Work,
    steps: &mut Steps<C>,
) -> Map<Sums<'a>, L, B> {
    let mut map: Map<Sums<'a>, L, B> = Map::empty();
    for place in 0..FEW {
        map.put_mut(alloc, Counted::new(512 * place + 1, work), place, steps)
            .expect(rt, "put");
    }
    map
}

/// Whether a union shares, for each entry of the small map, no more keys than a block has, and two for each node above it.
fn shares_few_in<R: Threads + Abort + Sync, const B: usize, C: Ledger>(
    rt: &R,
    alloc: Global,
    steps: &mut Steps<C>,
) -> bool
    requires { IsBlockSize B }
{
    let work = Work::new();
    let many: Tally<'_, B> = evens(rt, alloc, &work, steps);
    let few: Tally<'_, B> = few(rt, alloc, &work, steps);
    work.take();
    let united = many
        .union(rt, alloc, &FreeGate, Cut::new(1, 1), &few, &First)
        .expect(rt, "memory");
    let shared = work.take().shared;
    let path = united.height() as u64 + 1;
    shared <= FEW * 2 * (B as u64 + path)
}

/// The same for blocks of 1, 2 and 32 entries.
fn shares_few_counted<R: Threads + Abort + Sync, C: Ledger>(
    rt: &R,
    alloc: Global,
    blank: Blank,
) -> [bool; 3]
    requires { IsFresh C.name C.parts blank }
{
    let mut steps = Steps::<C>::start(blank);
    let one = shares_few_in::<R, 1, C>(rt, alloc, &mut steps);
    let two = shares_few_in::<R, 2, C>(rt, alloc, &mut steps);
    let many = shares_few_in::<R, 32, C>(rt, alloc, &mut steps);
    [one, two, many]
}

fn shares_few<R: Threads + Abort + Sync>(rt: &R, alloc: Global) -> [bool; 3] {
    shares_few_counted::<R, Brand>(rt, alloc, Blank::new(1))
}

#[test]
fn a_small_union_shares_a_path_for_each_entry(rt: HostRuntime) {
    assert_eq!(rt; shares_few(&rt, rt.alloc()), [true; 3]);
}

/// A gate that counts how often it is entered.
#[derive(Drop)]
struct Entered {
    times: AtomicU64,
}

impl Gate for Entered {
    fn enter(&self, _place: u64) {
        self.times.fetch_add(1, Ordering::SeqCst);
    }
}

/// Each number below `end` that `step` divides, with itself as value.
fn multiples<R: Abort, L: Leaf<u64, u64>>(
    rt: &R,
    alloc: Global,
    step: u64,
    end: u64,
) -> Map<SumMax<u64>, L, 32> {
    let mut pairs = Vec::new(alloc);
    for key in 0..end {
        if key.is_multiple_of(step) {
            pairs.push((key, key)).expect(rt, "memory");
        }
    }
    Map::build_alone(alloc, &pairs).expect(rt, "memory")
}

/// The size of the union with a map in a sixteenth of the other's range, and how often the gate was entered: by both halves of 15 forks,
/// where each of sixteen workers has a part.
fn narrow<R: Threads + Abort + Sync, L: Leaf<u64, u64> + Send + Sync>(
    rt: &R,
    alloc: Global,
) -> (u64, u64) {
    let wide = multiples::<R, L>(rt, alloc, 2, 320_000);
    let narrow = multiples::<R, L>(rt, alloc, 3, 20_000);
    let gate = Entered {
        times: AtomicU64::new(0),
    };
    let united = wide
        .union(rt, alloc, &gate, Cut::new(16, 1), &narrow, &First)
        .expect(rt, "memory");
    (united.size(), gate.times.load(Ordering::SeqCst))
}

#[test]
fn a_union_with_a_narrow_map_forks_where_that_is(rt: HostRuntime) {
    let taken = narrow::<HostRuntime, PlainLeaf<u64, u64>>(&rt, rt.alloc());
    assert_eq!(rt; taken, (163_333, 30));
}
