//! A block as a vector of entries.
ghost use Rattle.std.specs.Prelude.{◌≡◌, ◌≤◌, length, IfOk};
ghost use Rattle.map_model.specs.Entries.{IsIncreasing};

use crate::copying::{push_shares, shares_of};
use crate::seeking::seek_in;
use aug_monoid::{Key, Leaf, LeafMut, LeafRef, Lent, NoMemory, Seek, Share, Steps, Walk};
use std::alloc::Global;
use std::marker::Model;
use std::sync::ledger::Ledger;

/// A block as a vector of entries whose keys rise. It is searched by halves, in at most 9
/// comparisons of keys where it has at most 256 entries. A call that makes a block of shared entries
/// allocates its vector once and shares each entry once; one that is given a vector takes it over.
#[derive(Drop)]
pub struct PlainLeaf<K: Key, V: Share> {
    entries: Vec<(K, V)>,
}

impl<K: Key, V: Share> Model for PlainLeaf<K, V> {
    ghost use Rattle.std.specs.Prelude.{List};

    ghost Value = { List (K × V) };

    ghost use Rattle.map_model.specs.Entries.{IsIncreasing};

    ghost view = { λ l. l.entries.items };

    ghost invariant = { λ l. IsIncreasing K.cmp l.entries.items };
}

impl<K: Key, V: Share> PlainLeaf<K, V> {
    /// Its entries, moved out.
    pub fn into_entries(self) -> Vec<(K, V)>
        ensures { result.items ≡ self }
    {
        let PlainLeaf { entries } = self;
        entries
    }
}

impl<K: Key, V: Share> Leaf<K, V> for PlainLeaf<K, V> {
    const FIND: u64 = 9;

    ghost FIND = { 9 };

    ghost entries = { λ l. l };

    ghost fits_walk = { λ l walk. walk.index ≤ length l };

    ghost walk_within = { λ l walk fits. fits };

    fn from_entries(alloc: Global, from: &[(K, V)]) -> Result<PlainLeaf<K, V>, NoMemory> {
        let entries = shares_of(alloc, from)?;
        Ok(PlainLeaf { entries })
    }

    fn from_owned(_alloc: Global, from: Vec<(K, V)>) -> Result<PlainLeaf<K, V>, NoMemory>
        requires increasing { IsIncreasing K.cmp from.items }
        requires short { length from.items ≤ 512 }
        ensures { IfOk result (λ leaf. leaf ≡ from.items) }
    {
        Ok(PlainLeaf { entries: from })
    }

    fn len(&self) -> u64 {
        self.entries.len() as u64
    }

    fn get_at(&self, at: u64) -> Option<Lent<'_, K, V>> {
        match self.entries.get(at as usize) {
            Some(entry) => Some(Lent::Kept(entry)),
            None => None,
        }
    }

    fn seek<C: Ledger>(&self, key: &K, steps: &mut Steps<C>) -> Seek {
        seek_in(&self.entries, key, steps)
    }

    fn walk(&self) -> Walk {
        Walk {
            index: 0,
            byte: 0,
            key: 0,
        }
    }

    fn walk_next(&self, walk: &mut Walk) -> Option<Lent<'_, K, V>> {
        match self.entries.get(walk.index as usize) {
            Some(entry) => {
                walk.index += 1;
                Some(Lent::Kept(entry))
            }
            None => None,
        }
    }

    // Room for all is made once, so that each entry is stored with no call.
    fn share_into(&self, alloc: Global, out: &mut Vec<(K, V)>) -> Result<(), NoMemory> {
        out.reserve(self.entries.len())?;
        push_shares(alloc, out, &self.entries)
    }

    fn front(&self, alloc: Global, at: u64) -> Result<PlainLeaf<K, V>, NoMemory> {
        let entries = shares_of(alloc, &self.entries[..at as usize])?;
        Ok(PlainLeaf { entries })
    }

    fn back(&self, alloc: Global, at: u64) -> Result<PlainLeaf<K, V>, NoMemory> {
        let (_, after) = self.entries.split_at(at as usize);
        let entries = shares_of(alloc, after)?;
        Ok(PlainLeaf { entries })
    }

    fn cut(
        self,
        _alloc: Global,
        at: u64,
    ) -> Result<(PlainLeaf<K, V>, (K, V), PlainLeaf<K, V>), NoMemory> {
        let PlainLeaf { entries } = self;
        let mut front = entries;
        let back = front.split_off(at as usize + 1)?;
        let Some(middle) = front.pop() else {
            unreachable!()
        };
        front.shrink_to_fit();
        Ok((
            PlainLeaf { entries: front },
            middle,
            PlainLeaf { entries: back },
        ))
    }

    fn concat3(
        &self,
        alloc: Global,
        key: K,
        val: V,
        right: &PlainLeaf<K, V>,
    ) -> Result<PlainLeaf<K, V>, NoMemory> {
        let count = self.entries.len() + 1 + right.entries.len();
        let mut entries = Vec::with_capacity(alloc, count)?;
        push_shares(alloc, &mut entries, &self.entries)?;
        entries.push_reserved((key, val));
        push_shares(alloc, &mut entries, &right.entries)?;
        Ok(PlainLeaf { entries })
    }

    fn concat3_owned(
        self,
        _alloc: Global,
        key: K,
        val: V,
        right: PlainLeaf<K, V>,
    ) -> Result<PlainLeaf<K, V>, NoMemory> {
        let (mut entries, mut after) = (self.into_entries(), right.into_entries());
        entries.reserve_exact(1 + after.len())?;
        entries.push_reserved((key, val));
        entries.append(&mut after)?;
        Ok(PlainLeaf { entries })
    }

    fn splice(
        &self,
        alloc: Global,
        at: u64,
        upto: u64,
        key: K,
        val: V,
    ) -> Result<PlainLeaf<K, V>, NoMemory> {
        let (front, _) = self.entries.split_at(at as usize);
        let (_, back) = self.entries.split_at(upto as usize);
        let mut entries = Vec::with_capacity(alloc, front.len() + 1 + back.len())?;
        push_shares(alloc, &mut entries, front)?;
        entries.push_reserved((key, val));
        push_shares(alloc, &mut entries, back)?;
        Ok(PlainLeaf { entries })
    }

    fn without(&self, alloc: Global, at: u64) -> Result<PlainLeaf<K, V>, NoMemory> {
        let (front, _) = self.entries.split_at(at as usize);
        let (_, back) = self.entries.split_at(at as usize + 1);
        let mut entries = Vec::with_capacity(alloc, front.len() + back.len())?;
        push_shares(alloc, &mut entries, front)?;
        push_shares(alloc, &mut entries, back)?;
        Ok(PlainLeaf { entries })
    }
}

impl<K: Key, V: Share> LeafMut<K, V> for PlainLeaf<K, V> {
    fn set_at(&mut self, _alloc: Global, at: u64, key: K, val: V) -> Result<(), NoMemory> {
        self.entries[at as usize] = (key, val);
        Ok(())
    }

    // A full vector grows by a quarter, since a block has twice its least size at most.
    fn insert_at(&mut self, _alloc: Global, at: u64, key: K, val: V) -> Result<(), NoMemory> {
        let count = self.entries.len();
        if count == self.entries.capacity() {
            self.entries.reserve_exact(count / 4 + 1)?;
        }
        self.entries.insert(at as usize, (key, val))?;
        Ok(())
    }

    fn remove_at(&mut self, _alloc: Global, at: u64) -> Result<(), NoMemory> {
        self.entries.remove(at as usize);
        Ok(())
    }
}

impl<K: Key, V: Share> LeafRef<K, V> for PlainLeaf<K, V> {
    fn as_slice(&self) -> &[(K, V)] {
        &self.entries
    }
}
