//! Of pairs in a row that have one key, the first.
ghost use Rattle.std.specs.Prelude.{◌≡◌, ◌+◌, ◌≤◌, length, take};
ghost use Rattle.std.specs.List.{dedup};
ghost use Rattle.std.specs.Ordering.{is_eq};
ghost use Rattle.aug_monoid.specs.Fresh.{IsFresh};

use aug_monoid::{Key, Steps};
use std::marker::Brand;
use std::sync::ledger::{Blank, Ledger};

/// Brings the first of pairs in a row that have one key to the front, and answers how many stand there then. Each comparison is a
/// step: at most n for n pairs.
fn bring_firsts_to_front<K: Key, V, C: Ledger>(pairs: &mut [(K, V)], steps: &mut Steps<C>) -> usize
    ensures firsts { take result pairs.new ≡ dedup (λ x y. is_eq (K.cmp x.0 y.0)) pairs.old }
    ensures cost { steps.new ≤ steps.old + length pairs.old }
{
    if pairs.is_empty() {
        return 0;
    }
    let mut kept = 1;
    for at in 1..pairs.len() {
        let row = &pairs[..];
        if !row[at].0.order(&row[kept - 1].0, steps).is_eq() {
            pairs.swap(kept, at);
            kept += 1;
        }
    }
    kept
}

/// `keep_first_of_each` with a counter of the caller's. Each comparison is a step: at most n for n pairs.
pub(crate) fn keep_first_of_each_counted<K: Key, V: Drop, C: Ledger>(
    pairs: &mut Vec<(K, V)>,
    steps: &mut Steps<C>,
)
    ensures firsts { pairs.new.items ≡ dedup (λ x y. is_eq (K.cmp x.0 y.0)) pairs.old.items }
    ensures cost { steps.new ≤ steps.old + length pairs.old.items }
{
    let kept = bring_firsts_to_front(pairs.as_mut_slice(), steps);
    pairs.truncate(kept);
}

/// Leaves of pairs in a row that have one key the first. O(n) for n pairs.
pub fn keep_first_of_each<K: Key, V: Drop>(pairs: &mut Vec<(K, V)>)
    ensures { pairs.new.items ≡ dedup (λ x y. is_eq (K.cmp x.0 y.0)) pairs.old.items }
{
    keep_first_of_each_uncounted::<K, V, Brand>(pairs, Blank::new(1));
}

fn keep_first_of_each_uncounted<K: Key, V: Drop, C: Ledger>(pairs: &mut Vec<(K, V)>, blank: Blank)
    requires { IsFresh C.name C.parts blank }
    ensures { pairs.new.items ≡ dedup (λ x y. is_eq (K.cmp x.0 y.0)) pairs.old.items }
{
    let mut steps = Steps::<C>::start(blank);
    keep_first_of_each_counted(pairs, &mut steps);
}
