//! Two maps that are combined key by key.
ghost use Rattle.std.specs.Prelude.{◌≡◌, ◌+◌, ◌≤◌, Bool, List, Option, Some, None, length, IfOk};
ghost use Rattle.std.specs.Option.{option_map};
ghost use Rattle.map_model.specs.Entries.{IsIncreasing};
ghost use Rattle.bulk_ops.specs.Combination.{IsCombination};

use aug_monoid::{Key, NoMemory, Share, Steps};
use std::alloc::Global;
use std::sync::ledger::Ledger;

/// What the combination of two maps has at each key, and how two slices are combined: `Uniting`, `Intersecting`, `Differing`.
pub trait Combination<K: Key, V: Share>: Drop {
    /// The entries of the combination, from those of the two maps.
    ghost combined: { Self → List (K × V) → List (K × V) → List (K × V) };

    /// What stands at a key, from what the two maps have there.
    ghost kept: { Self → Option V → Option V → Option V };

    /// Whether an entry that only the first map has stays.
    ghost first_stays: { Self → Bool };

    /// Whether an entry that only the second map has stays.
    ghost second_stays: { Self → Bool };

    /// Whether the first map stays where the second is empty.
    fn keeps_first(&self) -> bool
        ensures { result ≡ first_stays self.now };

    /// Whether the second map stays where the first is empty.
    fn keeps_second(&self) -> bool
        ensures { result ≡ second_stays self.now };

    /// What stands at a key, from what the two maps have there. `NoMemory` for want of memory alone.
    fn keep(&self, alloc: Global, a: Option<&V>, b: Option<&V>) -> Result<Option<V>, NoMemory>
        ensures { IfOk result (λ val. val ≡ kept self.now (option_map (λ v. v.now) a.entry) (option_map (λ v. v.now) b.entry)) };

    /// The combination of two slices whose keys rise. Each comparison is a step, at most one for each entry. `NoMemory` for want of
    /// memory alone.
    fn combine_slices<C: Ledger>(
        &self,
        alloc: Global,
        a: &[(K, V)],
        b: &[(K, V)],
        steps: &mut Steps<C>,
    ) -> Result<Vec<(K, V)>, NoMemory>
        requires first { IsIncreasing K.cmp a.now }
        requires second { IsIncreasing K.cmp b.now }
        ensures value { IfOk result (λ v. v.items ≡ combined self.now a.now b.now) }
        ensures cost { steps.new ≤ steps.old + (length a.now + length b.now) };

    ghost laws: { (how : Self) → IsCombination K.cmp (combined how) (kept how) (first_stays how) (second_stays how) };
}
