//! How many items the calls of long sequences share. Where memory is refused, a test ends here.
ghost use Rattle.std.specs.Prelude.{◌≡◌, ◌+◌, IsTrue};
ghost use Rattle.aug_monoid.specs.Totals.{TotalsFit, totals_base, totals_unit, totals_combine, totals_monoid, totals_base_fits};

use aug_monoid::{NoMemory, Share, Steps, Totals};
use pac_seq::{Fold, Seq, SeqOver, SureFold};
use std::alloc::Global;
use std::marker::{Model, PhantomData};
use std::process::Abort;
use std::sync::atomic::{AtomicU64, Ordering};
use std::sync::ledger::Ledger;

/// A number that counts how often it is shared.
#[derive(Drop)]
struct Counted<'a> {
    number: u64,
    shares: &'a AtomicU64,
}

impl<'a> Model for Counted<'a> {
    ghost use Rattle.std.specs.Prelude.{ℕ};

    ghost Value = { ℕ };

    ghost view = { λ c. c.number };
}

impl<'a> Counted<'a> {
    // A function of its own, so that the number is known to fit its type.
    fn number(&self) -> u64
        ensures { result ≡ self.now }
    {
        self.number
    }
}

impl<'a> Share for Counted<'a> {
    ghost never_refuses = { Unit {0} };

    fn share(&self, _alloc: Global) -> Result<Counted<'a>, NoMemory> {
        self.shares.fetch_add(1, Ordering::SeqCst);
        Ok(Counted {
            number: self.number,
            shares: self.shares,
        })
    }

    fn is_total() -> bool
        ensures { IsTrue result → Unit {0} }
    {
        true
    }
}

/// The saturating sum and the greatest of such numbers.
#[derive(Drop)]
struct CountedTop<'a> {
    items: PhantomData<Counted<'a>>,
}

impl<'a> Fold for CountedTop<'a> {
    type Item = Counted<'a>;

    type Sum = Totals;

    ghost Fits = { TotalsFit };

    ghost image_of = { totals_base };

    ghost unit_of = { totals_unit };

    ghost combined = { totals_combine };

    ghost image_fits = { totals_base_fits };

    ghost monoid = { totals_monoid };

    ghost sums_never_refuse = { tt };

    fn of(item: &Counted<'a>) -> Totals {
        let number = item.number();
        Totals {
            sum: number,
            greatest: number,
        }
    }

    fn unit() -> Totals
        ensures { result ≡ totals_unit }
    {
        Totals {
            sum: 0,
            greatest: 0,
        }
    }

    fn combine<C: Ledger>(a: &Totals, b: &Totals, steps: &mut Steps<C>) -> Totals
        ensures value { result ≡ totals_combine a.now b.now }
        ensures one_step { steps.new ≡ steps.old + 1 }
    {
        steps.tick();
        Totals {
            sum: a.sum.saturating_add(b.sum),
            greatest: a.greatest.max(b.greatest),
        }
    }
}

impl<'a> SureFold for CountedTop<'a> {
    ghost items_never_refuse = { tt };
}

type Numbers<'a> = Seq<CountedTop<'a>, 32>;

/// The numbers below `count`.
fn numbers<'a, R: Abort>(rt: &R, alloc: Global, count: u64, shares: &'a AtomicU64) -> Numbers<'a> {
    let mut items = Vec::new(alloc);
    for number in 0..count {
        items.push(Counted { number, shares }).expect(rt, "memory");
    }
    SeqOver::from_items(alloc, &items).expect(rt, "memory")
}

/// No more items than so many are shared where paths and single blocks are copied: of up to 64 items in a block, and a few at each level.
const FEW: u64 = 400;

/// Asserts the size of a sequence that was made, and that few items were shared for it.
fn assert_few<'a, R: Abort>(
    rt: &R,
    shares: &AtomicU64,
    made: Result<Numbers<'a>, NoMemory>,
    size: u64,
) {
    assert_eq!(rt; made.expect(rt, "memory").size(), size);
    let count = shares.swap(0, Ordering::SeqCst);
    assert!(rt; count <= FEW, "{count} items were shared for {size}");
}

const LONG: u64 = 100_000;

const SHORT: u64 = 1_000;

/// Where long sequences are cut and changed.
const PLACE: u64 = 61_803;

fn assert_appends_few<'a, R: Abort>(
    rt: &R,
    alloc: Global,
    long: &Numbers<'a>,
    short: &Numbers<'a>,
    shares: &'a AtomicU64,
) {
    shares.store(0, Ordering::SeqCst);
    assert_few(rt, shares, long.append(alloc, long), LONG + LONG);
    assert_few(rt, shares, long.append(alloc, short), LONG + SHORT);
    assert_few(rt, shares, short.append(alloc, long), SHORT + LONG);
}

#[test]
fn appends_of_long_sequences_share_few_items(rt: HostRuntime) {
    let shares = AtomicU64::new(0);
    let long = numbers(&rt, rt.alloc(), LONG, &shares);
    let short = numbers(&rt, rt.alloc(), SHORT, &shares);
    assert_appends_few(&rt, rt.alloc(), &long, &short, &shares);
}

fn assert_cuts_few<'a, R: Abort>(rt: &R, alloc: Global, long: &Numbers<'a>, shares: &'a AtomicU64) {
    shares.store(0, Ordering::SeqCst);
    assert_few(rt, shares, long.take(alloc, PLACE), PLACE);
    assert_few(rt, shares, long.skip(alloc, PLACE), LONG - PLACE);
}

#[test]
fn cuts_of_a_long_sequence_share_few_items(rt: HostRuntime) {
    let shares = AtomicU64::new(0);
    let long = numbers(&rt, rt.alloc(), LONG, &shares);
    assert_cuts_few(&rt, rt.alloc(), &long, &shares);
}

fn assert_sets_few<'a, R: Abort>(rt: &R, alloc: Global, long: &Numbers<'a>, shares: &'a AtomicU64) {
    shares.store(0, Ordering::SeqCst);
    assert!(rt; PLACE < long.size());
    let item = Counted { number: 0, shares };
    assert_few(rt, shares, long.set(alloc, PLACE, item), LONG);
}

#[test]
fn a_change_of_a_long_sequence_shares_few_items(rt: HostRuntime) {
    let shares = AtomicU64::new(0);
    let long = numbers(&rt, rt.alloc(), LONG, &shares);
    assert_sets_few(&rt, rt.alloc(), &long, &shares);
}

/// How many items are shared where a number is set in a sequence with one owner.
fn shared_by_set<'a, R: Abort>(
    rt: &R,
    alloc: Global,
    long: &mut Numbers<'a>,
    shares: &'a AtomicU64,
) -> u64 {
    shares.store(0, Ordering::SeqCst);
    assert!(rt; PLACE < long.size());
    let item = Counted { number: 0, shares };
    long.set_mut(alloc, PLACE, item).expect(rt, "memory");
    shares.load(Ordering::SeqCst)
}

/// How many are shared where a thousand are pushed behind it one by one, of which each 32nd comes to a full block.
fn shared_by_pushes<'a, R: Abort>(
    rt: &R,
    alloc: Global,
    long: &mut Numbers<'a>,
    shares: &'a AtomicU64,
) -> u64 {
    shares.store(0, Ordering::SeqCst);
    for number in 0..SHORT {
        let item = Counted { number, shares };
        long.push_mut(alloc, item).expect(rt, "memory");
    }
    shares.load(Ordering::SeqCst)
}

#[test]
fn changes_in_place_share_next_to_no_items(rt: HostRuntime) {
    let shares = AtomicU64::new(0);
    let mut long = numbers(&rt, rt.alloc(), LONG, &shares);
    assert_eq!(rt; shared_by_set(&rt, rt.alloc(), &mut long, &shares), 0);
    let count = shared_by_pushes(&rt, rt.alloc(), &mut long, &shares);
    assert!(rt; count <= 7 * SHORT, "{count} items were shared for {SHORT}");
}
