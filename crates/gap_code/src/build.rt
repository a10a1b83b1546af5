//! Entries made of entries, by copies of runs of bytes.
ghost use Rattle.std.specs.Prelude.{◌≡◌, ◌+◌, ◌<◌, ◌≤◌, ◌^◌, ◌∷◌, ◌++◌, length, take, drop, IfOk};
ghost use Rattle.gap_code.specs.Code.{NotFalling, IsPlaceOf};

use crate::gaps::Gaps;
use crate::number::number_len;
use crate::value_code::ValueCode;
use aug_monoid::{NoMemory, Walk};
use std::alloc::Global;
use std::marker::PhantomData;

/// The entries of one before a place, an entry, and those of another from a place on.
fn joined<V: ValueCode>(
    alloc: Global,
    left: &Gaps<V>,
    before: &Walk,
    number: u64,
    val: &V,
    right: &Gaps<V>,
    after: &Walk,
) -> Result<Gaps<V>, NoMemory>
    requires before { IsPlaceOf V.bytes_of left.now before.now }
    requires after { IsPlaceOf V.bytes_of right.now after.now }
    requires rises { NotFalling 0 (take before.now.index left.now ++ (number, val.now) ∷ drop after.now.index right.now) }
    requires short { length (take before.now.index left.now ++ (number, val.now) ∷ drop after.now.index right.now) < 2 ^ 64 }
    ensures { IfOk result (λ whole. whole ≡ take before.now.index left.now ++ (number, val.now) ∷ drop after.now.index right.now) }
{
    let rest = right.code().len().saturating_sub(after.byte as usize);
    let gap = number_len(number.saturating_sub(before.key)); // the gap after it takes no more bytes than it did
    let room = (before.byte as usize)
        .saturating_add(rest)
        .saturating_add(gap)
        .saturating_add(V::ROOM);
    let mut whole = left.start(alloc, room, before)?;
    whole.push(number, val)?;
    whole.append(right, after)?;
    whole.shrink_to_fit();
    Ok(whole)
}

impl<V: ValueCode> Gaps<V> {
    /// The entries before an index.
    pub fn front(&self, alloc: Global, at: u64) -> Result<Gaps<V>, NoMemory>
        requires { at ≤ length self.now }
        ensures { IfOk result (λ part. part ≡ take at self.now) }
    {
        let place = self.place_at(at);
        self.start(alloc, place.byte as usize, &place)
    }

    /// The entries from an index on: only the first number is coded anew.
    pub fn back(&self, alloc: Global, at: u64) -> Result<Gaps<V>, NoMemory>
        requires { at ≤ length self.now }
        ensures { IfOk result (λ part. part ≡ drop at self.now) }
    {
        if at >= self.len {
            return Ok(Gaps {
                code: Vec::new(alloc),
                len: 0,
                last: 0,
                values: PhantomData,
            });
        }
        let place = self.place_at(at);
        let mut part = Gaps::with_room(alloc, self.code.len().saturating_add(9))?;
        part.append(self, &place)?;
        part.shrink_to_fit();
        Ok(part)
    }

    /// The entries, another and those of a third.
    pub fn concat(
        &self,
        alloc: Global,
        number: u64,
        val: &V,
        right: &Gaps<V>,
    ) -> Result<Gaps<V>, NoMemory>
        requires rises { NotFalling 0 (self.now ++ (number, val.now) ∷ right.now) }
        requires short { length (self.now ++ (number, val.now) ∷ right.now) < 2 ^ 64 }
        ensures { IfOk result (λ whole. whole ≡ self.now ++ (number, val.now) ∷ right.now) }
    {
        let end = self.end_place();
        let first = right.first_place();
        joined(alloc, self, &end, number, val, right, &first)
    }

    /// The entries before an index, another, and those from a later index on.
    pub fn splice(
        &self,
        alloc: Global,
        at: u64,
        upto: u64,
        number: u64,
        val: &V,
    ) -> Result<Gaps<V>, NoMemory>
        requires order { at ≤ upto }
        requires inside { upto ≤ length self.now }
        requires rises { NotFalling 0 (take at self.now ++ (number, val.now) ∷ drop upto self.now) }
        requires short { length (take at self.now ++ (number, val.now) ∷ drop upto self.now) < 2 ^ 64 }
        ensures { IfOk result (λ spliced. spliced ≡ take at self.now ++ (number, val.now) ∷ drop upto self.now) }
    {
        let before = self.place_at(at);
        let after = self.place_from(&before, upto);
        joined(alloc, self, &before, number, val, self, &after)
    }

    /// The entries without the one of an index.
    pub fn without(&self, alloc: Global, at: u64) -> Result<Gaps<V>, NoMemory>
        requires { at < length self.now }
        ensures { IfOk result (λ rest. rest ≡ take at self.now ++ drop (at + 1) self.now) }
    {
        // For the proof alone: that the number of entries has 64 bits.
        let _len = self.len;
        let before = self.place_at(at);
        let after = self.place_from(&before, at + 1);
        let mut rest = self.start(alloc, self.code.len(), &before)?;
        rest.append(self, &after)?;
        rest.shrink_to_fit();
        Ok(rest)
    }
}
