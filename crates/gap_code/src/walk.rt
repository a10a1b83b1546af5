//! Places among entries, and the entries there.
ghost use Rattle.std.specs.Prelude.{◌≡◌, ℕ, ◌+◌, ◌-◌, ◌<◌, ◌≤◌, ◌^◌, ◌++◌, length, drop, slice_get, Some};
ghost use Rattle.gap_code.specs.Leb.{leb, BeginsWith};
ghost use Rattle.gap_code.specs.Code.{code, code_after, IsPlace, IsPlaceOf};

use crate::gaps::Gaps;
use crate::number::number_at;
use crate::value_code::ValueCode;
use aug_monoid::Walk;

/// An entry, and the place after it.
#[derive(Drop)]
pub struct Found<V> {
    pub number: u64,
    pub val: V,
    pub next: Walk,
}

impl<V: ValueCode> Gaps<V> {
    /// The place before the first entry.
    #[inline(always)]
    pub fn first_place(&self) -> Walk
        ensures place { IsPlaceOf V.bytes_of self.now result }
        ensures index { result.index ≡ 0 }
    {
        Walk {
            index: 0,
            byte: 0,
            key: 0,
        }
    }

    /// The place behind the last entry.
    pub(crate) fn end_place(&self) -> Walk
        ensures place { IsPlaceOf V.bytes_of self.now result }
        ensures index { result.index ≡ length self.now }
    {
        Walk {
            index: self.len,
            byte: self.code.len() as u64,
            key: self.last,
        }
    }

    /// The number of the entry at a place, and where the bytes of its value stand in the code.
    #[inline(always)]
    pub fn entry_start(&self, place: &Walk) -> (u64, usize)
        requires place { IsPlaceOf V.bytes_of self.now place.now }
        requires inside { place.now.index < length self.now }
        ensures counted { length self.now < 2 ^ 64 }
        ensures within { result.1 ≤ length (code V.bytes_of self.now) }
        ensures reads { BeginsWith V.fits_bytes V.bytes_of (drop result.1 (code V.bytes_of self.now)) }
        ensures entry { slice_get self.now place.now.index ≡ Some (result.0, V.value_of (drop result.1 (code V.bytes_of self.now))) }
        ensures next { IsPlace V.bytes_of self.now (place.now.index + 1)
            (result.1 + length (V.bytes_of (V.value_of (drop result.1 (code V.bytes_of self.now))))) result.0 }
        ensures rest { (before : ℕ) → code_after V.bytes_of before (drop place.now.index self.now)
            ≡ leb (result.0 - before) ++ drop result.1 (code V.bytes_of self.now) }
    {
        // For the proof alone: that the number of entries has 64 bits.
        let _len = self.len;
        let (gap, at) = number_at(&self.code, place.byte as usize);
        (place.key + gap, at)
    }

    /// The entry at a place.
    #[inline(always)]
    pub fn entry_at(&self, place: &Walk) -> Found<V>
        requires place { IsPlaceOf V.bytes_of self.now place.now }
        requires inside { place.now.index < length self.now }
        ensures entry { slice_get self.now place.now.index ≡ Some (result.number, result.val) }
        ensures next { IsPlaceOf V.bytes_of self.now result.next }
        ensures index { result.next.index ≡ place.now.index + 1 }
    {
        let (number, at) = self.entry_start(place);
        let (val, after) = V::code_at(self.code(), at);
        let next = Walk {
            index: place.index + 1,
            byte: after as u64,
            key: number,
        };
        Found { number, val, next }
    }

    /// The place behind the entry at a place. Of the entry it reads the number, and passes over the value.
    #[inline(always)]
    pub fn pass(&self, place: &Walk) -> Walk
        requires place { IsPlaceOf V.bytes_of self.now place.now }
        requires inside { place.now.index < length self.now }
        ensures entry { (val : V) × (slice_get self.now place.now.index ≡ Some (result.key, val)) }
        ensures place { IsPlaceOf V.bytes_of self.now result }
        ensures index { result.index ≡ place.now.index + 1 }
    {
        let (number, at) = self.entry_start(place);
        let after = V::code_end(self.code(), at);
        Walk {
            index: place.index + 1,
            byte: after as u64,
            key: number,
        }
    }

    /// The place before the entry of an index.
    pub(crate) fn place_at(&self, index: u64) -> Walk
        requires { index ≤ length self.now }
        ensures place { IsPlaceOf V.bytes_of self.now result }
        ensures index { result.index ≡ index }
    {
        let first = self.first_place();
        self.place_from(&first, index)
    }

    /// The place before the entry of an index, reached from an earlier place.
    pub(crate) fn place_from(&self, from: &Walk, index: u64) -> Walk
        requires from { IsPlaceOf V.bytes_of self.now from.now }
        requires order { from.now.index ≤ index }
        requires inside { index ≤ length self.now }
        ensures place { IsPlaceOf V.bytes_of self.now result }
        ensures index { result.index ≡ index }
    {
        let mut place = *from;
        while place.index < index {
            place = self.pass(&place);
        }
        place
    }

    /// The entry of an index.
    pub fn get(&self, index: u64) -> Option<(u64, V)>
        ensures { result ≡ slice_get self.now index }
    {
        if index >= self.len() {
            return None;
        }
        let place = self.place_at(index);
        let found = self.entry_at(&place);
        Some((found.number, found.val))
    }
}
