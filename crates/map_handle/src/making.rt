//! Maps made of others, each in a handle of its own.
ghost use Rattle.std.specs.Prelude.{◌≡◌, IfOk, None, Some};
ghost use Rattle.std.specs.Option.{option_map};
ghost use Rattle.std.specs.Ordering.{nat_cmp};
ghost use Rattle.loose.specs.Statuses.{Becomes, both, into};
ghost use Rattle.map_model.specs.SetOperations.{difference};
ghost use Rattle.map_model.specs.Entries.{below};
ghost use Rattle.map_model.specs.Parts.{right_of, slice};

use crate::handle::{Handle, is_open, keep, take};
use crate::inner::Inner;
use crate::status::{BAD_CALL, NO_MEMORY, OK};
use aug_monoid::{NoMemory, Share};
use map_folds::SumMaxMin;
use ord_map::OrdMap;
use std::alloc::Global;

/// Opens a closed handle with a map.
pub(crate) fn open(alloc: Global, out: &mut Handle, map: OrdMap<SumMaxMin<u64>>) -> u8
    requires { out.old.entries ≡ None }
    ensures { Becomes (Some map) result out.old.entries out.new.entries }
{
    match Box::new(alloc, Inner { map }) {
        Ok(kept) => {
            keep(out, kept);
            OK
        }
        Err(_) => NO_MEMORY,
    }
}

/// A map of the same entries in a handle of its own, in O(1) and in the memory of this one.
pub fn share(alloc: Global, map: &mut Handle, out: &mut Handle) -> u8
    ensures made { Becomes (into out.old.entries map.old.entries) result out.old.entries out.new.entries }
    ensures same { map.new.entries ≡ map.old.entries }
{
    if is_open(out) {
        return BAD_CALL;
    }
    let Some(kept) = take(alloc, map) else {
        return BAD_CALL;
    };
    let made = kept.map.share(alloc);
    keep(map, kept);
    match made {
        Ok(copy) => open(alloc, out, copy),
        Err(_) => NO_MEMORY,
    }
}

/// The map of the entries with keys from `lo` to `hi`, both included, in O(log n).
pub fn range(alloc: Global, map: &mut Handle, lo: u64, hi: u64, out: &mut Handle) -> u8
    ensures made { Becomes (into out.old.entries (option_map (λ m. slice nat_cmp m lo hi) map.old.entries)) result out.old.entries out.new.entries }
    ensures same { map.new.entries ≡ map.old.entries }
{
    if is_open(out) {
        return BAD_CALL;
    }
    let Some(kept) = take(alloc, map) else {
        return BAD_CALL;
    };
    let made = kept.map.range(alloc, &lo, &hi);
    keep(map, kept);
    match made {
        Ok(part) => open(alloc, out, part),
        Err(_) => NO_MEMORY,
    }
}

/// The entries of `a` whose keys `b` hasn't. For maps of m and n entries, m at most n, it takes O(m log(n / m + 1)).
pub fn difference(alloc: Global, a: &mut Handle, b: &mut Handle, out: &mut Handle) -> u8
    ensures made { Becomes (into out.old.entries (both (difference nat_cmp) a.old.entries b.old.entries)) result out.old.entries out.new.entries }
    ensures same_a { a.new.entries ≡ a.old.entries }
    ensures same_b { b.new.entries ≡ b.old.entries }
{
    if is_open(out) {
        return BAD_CALL;
    }
    let Some(first) = take(alloc, a) else {
        return BAD_CALL;
    };
    let Some(second) = take(alloc, b) else {
        keep(a, first);
        return BAD_CALL;
    };
    let made = first.map.difference(alloc, &second.map);
    keep(a, first);
    keep(b, second);
    match made {
        Ok(rest) => open(alloc, out, rest),
        Err(_) => NO_MEMORY,
    }
}

/// The entries with keys less than `key`, and those with keys at least `key`, in O(log n).
pub fn split(alloc: Global, map: &mut Handle, key: u64, low: &mut Handle, high: &mut Handle) -> u8
    ensures low { Becomes (into low.old.entries (into high.old.entries (option_map (λ m. below nat_cmp m key) map.old.entries))) result low.old.entries low.new.entries }
    ensures high { Becomes (into low.old.entries (into high.old.entries (option_map (λ m. right_of nat_cmp m key) map.old.entries))) result high.old.entries high.new.entries }
    ensures same { map.new.entries ≡ map.old.entries }
{
    if is_open(low) || is_open(high) {
        return BAD_CALL;
    }
    let Some(kept) = take(alloc, map) else {
        return BAD_CALL;
    };
    let made = halves(alloc, &kept, key);
    keep(map, kept);
    match made {
        Ok((left, right)) => {
            keep(low, left);
            keep(high, right);
            OK
        }
        Err(_) => NO_MEMORY,
    }
}

/// The entries with keys less than `key`, and those with keys at least `key`.
fn halves(alloc: Global, kept: &Inner, key: u64) -> Result<(Box<Inner>, Box<Inner>), NoMemory>
    ensures low { IfOk result (λ halves. halves.0.value ≡ below nat_cmp kept.now key) }
    ensures high { IfOk result (λ halves. halves.1.value ≡ right_of nat_cmp kept.now key) }
{
    let mut left = kept.map.share(alloc)?;
    let right = left.split_off(alloc, &key)?;
    let left = Box::new(alloc, Inner { map: left })?;
    let right = Box::new(alloc, Inner { map: right })?;
    Ok((left, right))
}
