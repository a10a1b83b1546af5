//! A block as the gaps between its keys.
ghost use Rattle.std.specs.Prelude.{◌≡◌, ◌≤◌, length, map, IfOk};
ghost use Rattle.map_model.specs.Entries.{IsIncreasing};
ghost use Rattle.gap_code.specs.Code.{code};
ghost use Rattle.diff_leaf.specs.Numbers.{key_entry, number_entry, AreNumbers};

use crate::number_key::NumberKey;
use crate::seek::seek_key;
use aug_monoid::{Leaf, LeafMut, Lent, NoMemory, Seek, Steps, Walk};
use gap_code::{Gaps, ValueCode, number_len};
use std::alloc::Global;
use std::marker::{Model, PhantomData};
use std::sync::ledger::Ledger;

/// A block of keys that stand for numbers: for each entry the gap from the number before, in LEB128,
/// and then the bytes of its value. `seek` and `get_at` walk over the bytes, `seek` in at most 256 comparisons
/// of numbers where there are at most 256 entries. A cut or a change copies runs of bytes, and codes only the
/// new entry and the key after it anew.
#[derive(Drop)]
pub struct NumberLeaf<K: NumberKey, V: ValueCode> {
    gaps: Gaps<V>,
    keys: PhantomData<K>,
}

/// A block of keys that are numbers of 64 bits.
pub type DiffLeaf<V> = NumberLeaf<u64, V>;

impl<K: NumberKey, V: ValueCode> Model for NumberLeaf<K, V> {
    ghost use Rattle.std.specs.Prelude.{List, map};

    ghost Value = { List (K × V) };

    ghost use Rattle.diff_leaf.specs.Numbers.{key_entry, AreNumbers};

    ghost view = { λ l. map (key_entry K.key_of) l.gaps };

    ghost invariant = { λ l. AreNumbers K.fits_number l.gaps };
}

/// How many bytes to set aside for entries whose keys rise: what their keys take, and of values that have bytes a guess.
fn room_for<K: NumberKey, V: ValueCode>(from: &[(K, V)]) -> usize {
    if V::ROOM > 0 {
        return from.len().saturating_mul(4);
    }
    let mut room: usize = 0;
    let mut last: u64 = 0;
    for entry in from {
        let number = entry.0.number();
        room = room.saturating_add(number_len(number.saturating_sub(last)));
        last = number;
    }
    room
}

/// The gap code of entries whose keys rise.
fn encode<K: NumberKey, V: ValueCode>(alloc: Global, from: &[(K, V)]) -> Result<Gaps<V>, NoMemory>
    requires increasing { IsIncreasing K.cmp from.now }
    requires short { length from.now ≤ 512 }
    ensures same { IfOk result (λ gaps. map (key_entry K.key_of) gaps ≡ from.now) }
    ensures numbers { IfOk result (λ gaps. AreNumbers K.fits_number gaps) }
{
    let mut gaps = Gaps::with_room(alloc, room_for(from))?;
    for entry in from {
        gaps.push(entry.0.number(), &entry.1)?;
    }
    gaps.shrink_to_fit();
    Ok(gaps)
}

impl<K: NumberKey, V: ValueCode> NumberLeaf<K, V> {
    fn of_gaps(gaps: Gaps<V>) -> NumberLeaf<K, V>
        requires { AreNumbers K.fits_number gaps }
        ensures { result ≡ map (key_entry K.key_of) gaps }
    {
        NumberLeaf {
            gaps,
            keys: PhantomData,
        }
    }

    /// The stored bytes, which are the gap code of the entries, by the numbers of their keys.
    pub fn code(&self) -> &[u8]
        ensures { result.now ≡ code V.bytes_of (map (number_entry K.number_of) self.now) }
    {
        self.gaps.code()
    }
}

impl<K: NumberKey, V: ValueCode> Leaf<K, V> for NumberLeaf<K, V> {
    ghost use Rattle.std.specs.Prelude.{map};
    ghost use Rattle.gap_code.specs.Code.{IsPlaceOf};
    ghost use Rattle.diff_leaf.specs.Numbers.{number_entry};
    ghost use Rattle.diff_leaf.specs.NumberLaws.{place_within};

    const FIND: u64 = 256;

    ghost FIND = { 256 };

    ghost entries = { λ l. l };

    ghost fits_walk = { λ l walk. IsPlaceOf V.bytes_of (map (number_entry K.number_of) l) walk };

    ghost walk_within = { λ l walk fits. place_within K.number_of V.bytes_of l fits };

    fn from_entries(alloc: Global, from: &[(K, V)]) -> Result<NumberLeaf<K, V>, NoMemory> {
        let gaps = encode::<K, V>(alloc, from)?;
        Ok(NumberLeaf::of_gaps(gaps))
    }

    fn from_owned(alloc: Global, from: Vec<(K, V)>) -> Result<NumberLeaf<K, V>, NoMemory>
        requires increasing { IsIncreasing K.cmp from.items }
        requires short { length from.items ≤ 512 }
        ensures { IfOk result (λ leaf. leaf ≡ from.items) }
    {
        let gaps = encode::<K, V>(alloc, &from)?;
        Ok(NumberLeaf::of_gaps(gaps))
    }

    fn len(&self) -> u64 {
        self.gaps.len()
    }

    fn get_at(&self, at: u64) -> Option<Lent<'_, K, V>> {
        match self.gaps.get(at) {
            Some((number, val)) => Some(Lent::Decoded(K::of_number(number), val)),
            None => None,
        }
    }

    fn seek<C: Ledger>(&self, key: &K, steps: &mut Steps<C>) -> Seek {
        seek_key::<V, C>(&self.gaps, key.number(), steps)
    }

    fn walk(&self) -> Walk {
        self.gaps.first_place()
    }

    fn walk_next(&self, walk: &mut Walk) -> Option<Lent<'_, K, V>> {
        if walk.index >= self.gaps.len() {
            return None;
        }
        let found = self.gaps.entry_at(walk);
        *walk = found.next;
        Some(Lent::Decoded(K::of_number(found.number), found.val))
    }

    fn front(&self, alloc: Global, at: u64) -> Result<NumberLeaf<K, V>, NoMemory> {
        let gaps = self.gaps.front(alloc, at)?;
        Ok(NumberLeaf::of_gaps(gaps))
    }

    fn back(&self, alloc: Global, at: u64) -> Result<NumberLeaf<K, V>, NoMemory> {
        let gaps = self.gaps.back(alloc, at)?;
        Ok(NumberLeaf::of_gaps(gaps))
    }

    fn concat3(
        &self,
        alloc: Global,
        key: K,
        val: V,
        right: &NumberLeaf<K, V>,
    ) -> Result<NumberLeaf<K, V>, NoMemory> {
        let gaps = self.gaps.concat(alloc, key.number(), &val, &right.gaps)?;
        Ok(NumberLeaf::of_gaps(gaps))
    }

    fn splice(
        &self,
        alloc: Global,
        at: u64,
        upto: u64,
        key: K,
        val: V,
    ) -> Result<NumberLeaf<K, V>, NoMemory> {
        let gaps = self.gaps.splice(alloc, at, upto, key.number(), &val)?;
        Ok(NumberLeaf::of_gaps(gaps))
    }

    fn without(&self, alloc: Global, at: u64) -> Result<NumberLeaf<K, V>, NoMemory> {
        let gaps = self.gaps.without(alloc, at)?;
        Ok(NumberLeaf::of_gaps(gaps))
    }
}

/// Each change makes the bytes anew, in one copy.
impl<K: NumberKey, V: ValueCode> LeafMut<K, V> for NumberLeaf<K, V> {
    fn set_at(&mut self, alloc: Global, at: u64, key: K, val: V) -> Result<(), NoMemory> {
        *self = self.splice(alloc, at, at + 1, key, val)?;
        Ok(())
    }

    fn insert_at(&mut self, alloc: Global, at: u64, key: K, val: V) -> Result<(), NoMemory> {
        *self = self.splice(alloc, at, at, key, val)?;
        Ok(())
    }

    fn remove_at(&mut self, alloc: Global, at: u64) -> Result<(), NoMemory> {
        *self = self.without(alloc, at)?;
        Ok(())
    }
}
