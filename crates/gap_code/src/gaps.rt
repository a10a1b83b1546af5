//! Entries as the gaps between their numbers.
ghost use Rattle.std.specs.Prelude.{◌≡◌, ◌+◌, ◌<◌, ◌≤◌, ◌^◌, [], ◌∷◌, ◌++◌, length, take, drop, IfOk, OnOk, OnErr};
ghost use Rattle.gap_code.specs.Leb.{leb};
ghost use Rattle.gap_code.specs.Code.{code, last_key, NotFalling, IsPlaceOf};

use crate::number::push_number;
use crate::value_code::ValueCode;
use aug_monoid::{NoMemory, Walk};
use std::alloc::Global;
use std::marker::{Model, PhantomData};

/// Entries, each a number and a value, whose numbers do not fall: for each the gap from the number before, in LEB128, and then
/// the bytes of its value.
#[derive(Drop)]
pub struct Gaps<V: ValueCode> {
    pub(crate) code: Vec<u8>,
    pub(crate) len: u64,
    pub(crate) last: u64,
    pub(crate) values: PhantomData<V>,
}

impl<V: ValueCode> Model for Gaps<V> {
    ghost use Rattle.std.specs.Prelude.{List, ℕ};
    ghost use Rattle.gap_code.specs.Code.{entries_of, IsCodeOf};

    ghost Value = { List (ℕ × V) };

    ghost view = { λ g. entries_of V.bytes_of V.value_of g.len 0 g.code.items };

    ghost invariant = { λ g. IsCodeOf V.fits_bytes V.bytes_of g.code.items g.len g.last (entries_of V.bytes_of V.value_of g.len 0 g.code.items) };
}

/// Appends the bytes of a gap and a value. A refusal leaves some of them behind what stood there before.
#[tactic(auto, using(map_model::proofs::Prefixes::front_same, map_model::proofs::Prefixes::front_further))]
#[inline]
fn push_pair<V: ValueCode>(out: &mut Vec<u8>, gap: u64, val: &V) -> Result<(), NoMemory>
    ensures appended { OnOk result (out.new.items ≡ (out.old.items ++ leb gap) ++ V.bytes_of val.now) }
    ensures fits { OnOk result (V.fits_bytes val.now) }
    ensures kept { take (length out.old.items) out.new.items ≡ out.old.items }
{
    push_number(out, gap)?;
    val.code_to(out)
}

/// Appends the bytes of a gap and others. A refusal leaves some of them behind what stood there before.
#[tactic(auto, using(map_model::proofs::Prefixes::front_same, map_model::proofs::Prefixes::front_then))]
fn push_run(out: &mut Vec<u8>, gap: u64, bytes: &[u8]) -> Result<(), NoMemory>
    ensures appended { OnOk result (out.new.items ≡ (out.old.items ++ leb gap) ++ bytes.now) }
    ensures kept { take (length out.old.items) out.new.items ≡ out.old.items }
{
    push_number(out, gap)?;
    out.extend_from_slice(bytes)?;
    Ok(())
}

impl<V: ValueCode> Gaps<V> {
    /// No entries, with room for so many bytes.
    pub fn with_room(alloc: Global, bytes: usize) -> Result<Gaps<V>, NoMemory>
        ensures { IfOk result (λ gaps. gaps ≡ []) }
    {
        Ok(Gaps {
            code: Vec::with_capacity(alloc, bytes)?,
            len: 0,
            last: 0,
            values: PhantomData,
        })
    }

    /// The stored bytes, which are the gap code of the entries.
    #[inline(always)]
    pub fn code(&self) -> &[u8]
        ensures { result.now ≡ code V.bytes_of self.now }
    {
        &self.code
    }

    /// The number of entries.
    #[inline(always)]
    pub fn len(&self) -> u64
        ensures { result ≡ length self.now }
    {
        self.len
    }

    /// Appends an entry, whose number is not below the last. A refusal leaves the entries as they were.
    #[inline]
    pub fn push(&mut self, number: u64, val: &V) -> Result<(), NoMemory>
        requires rises { last_key 0 self.old ≤ number }
        requires short { length self.old + 1 < 2 ^ 64 }
        ensures pushed { OnOk result (self.new ≡ self.old ++ (number, val.now) ∷ []) }
        ensures kept { OnErr result (self.new ≡ self.old) }
    {
        let held = self.code.len();
        if let Err(cause) = push_pair::<V>(&mut self.code, number - self.last, val) {
            self.code.truncate(held);
            return Err(cause);
        }
        self.len += 1;
        self.last = number;
        Ok(())
    }

    /// Gives back the room that is left.
    pub fn shrink_to_fit(&mut self)
        ensures { self.new ≡ self.old }
    {
        self.code.shrink_to_fit();
    }

    /// The entries before a place, with room for so many bytes.
    pub(crate) fn start(
        &self,
        alloc: Global,
        bytes: usize,
        place: &Walk,
    ) -> Result<Gaps<V>, NoMemory>
        requires { IsPlaceOf V.bytes_of self.now place.now }
        ensures { IfOk result (λ part. part ≡ take place.now.index self.now) }
    {
        let mut code = Vec::with_capacity(alloc, bytes)?;
        code.extend_from_slice(&self.code[..place.byte as usize])?;
        Ok(Gaps {
            code,
            len: place.index,
            last: place.key,
            values: PhantomData,
        })
    }

    /// Appends the entries from a place of others on, whose numbers are not below the last: only the first gap is coded anew. A
    /// refusal leaves the entries as they were.
    pub(crate) fn append(&mut self, from: &Gaps<V>, place: &Walk) -> Result<(), NoMemory>
        requires place { IsPlaceOf V.bytes_of from.now place.now }
        requires rises { NotFalling (last_key 0 self.old) (drop place.now.index from.now) }
        requires short { length (self.old ++ drop place.now.index from.now) < 2 ^ 64 }
        ensures { OnOk result (self.new ≡ self.old ++ drop place.now.index from.now) }
    {
        if place.index >= from.len {
            return Ok(());
        }
        let (number, at) = from.entry_start(place);
        let held = self.code.len();
        if let Err(cause) = push_run(&mut self.code, number - self.last, &from.code[at..]) {
            self.code.truncate(held);
            return Err(cause);
        }
        self.len += from.len - place.index;
        self.last = from.last;
        Ok(())
    }
}
