//! A map in one sorted vector, the plain program of what an ordered map is.
ghost use Rattle.std.specs.Prelude.{◌≡◌, ◌&&◌, [], nat_le, if◌then◌else◌, IfOk, IfErr, MatchResult, length};
ghost use Rattle.std.specs.Ordering.{nat_cmp};
ghost use Rattle.map_model.specs.Entries.{lookup, set};
ghost use Rattle.aug_monoid.specs.Totals.{totals_base, totals_combine};
ghost use Rattle.map_tool.specs.Values.{range_totals};
ghost use Rattle.pam_top.specs.Places.{IsAt, IsGapFor};

use aug_monoid::{NoMemory, Totals};
use std::alloc::Global;
use std::marker::Model;

// The totals with an entry, which counts where its key is in the range.
fn with_entry(totals: Totals, key: u64, val: u64, lo: u64, hi: u64) -> Totals
    ensures { result ≡ (if (nat_le lo key && nat_le key hi) then totals_combine totals (totals_base val) else totals) }
{
    if key < lo || hi < key {
        return totals;
    }
    Totals {
        sum: totals.sum.saturating_add(val),
        greatest: totals.greatest.max(val),
    }
}

/// A map from `u64` to `u64`, in the order of its keys.
#[derive(Drop)]
pub struct SortedMap {
    entries: Vec<(u64, u64)>,
}

impl Model for SortedMap {
    ghost use Rattle.std.specs.Prelude.{ℕ, List};
    ghost use Rattle.std.specs.Ordering.{nat_cmp};
    ghost use Rattle.map_model.specs.Entries.{IsIncreasing};

    ghost Value = { List (ℕ × ℕ) };

    ghost view = { λ m. m.entries.items };

    ghost invariant = { λ m. IsIncreasing nat_cmp m.entries.items };
}

impl SortedMap {
    /// The empty map. It takes no memory.
    pub fn empty(alloc: Global) -> SortedMap
        ensures { result ≡ [] }
    {
        SortedMap {
            entries: Vec::new(alloc),
        }
    }

    /// How many entries there are.
    pub fn size(&self) -> u64
        ensures { result ≡ length self.now }
    {
        self.entries.len() as u64
    }

    /// Sets a key's value, in time linear in the size where the key is new. A refusal changes
    /// nothing.
    pub fn put(&mut self, key: u64, val: u64) -> Result<(), NoMemory>
        ensures { MatchResult result (λ _. self.new ≡ set nat_cmp self.old key val) (λ _. self.new ≡ self.old) }
    {
        match self.place_of(key) {
            Ok(at) => {
                self.entries[at] = (key, val);
                Ok(())
            }
            Err(at) => Ok(self.entries.insert(at, (key, val))?),
        }
    }

    /// The value at a key, in time logarithmic in the size.
    pub fn get(&self, key: u64) -> Option<u64>
        ensures { result ≡ lookup nat_cmp self.now key }
    {
        match self.place_of(key) {
            Ok(at) => Some(self.entries[at].1),
            Err(_) => None,
        }
    }

    /// The saturating sum and the greatest of the values at keys from `lo` to `hi`, in time linear
    /// in the size.
    pub fn aug_range(&self, lo: u64, hi: u64) -> Totals
        ensures { result ≡ range_totals self.now lo hi }
    {
        let mut totals = Totals {
            sum: 0,
            greatest: 0,
        };
        for &(key, val) in &self.entries {
            totals = with_entry(totals, key, val, lo, hi);
        }
        totals
    }

    // Where the key is, or where it would go.
    fn place_of(&self, key: u64) -> Result<usize, usize>
        ensures found { IfOk result (IsAt self.now key) }
        ensures absent { IfErr result (IsGapFor self.now key) }
    {
        self.entries.binary_search_by_key(&key, |&(k, _)| k)
    }
}
