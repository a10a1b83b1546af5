//! Unions and intersections.
ghost use Rattle.std.specs.Prelude.{◌≡◌};
ghost use Rattle.loose.specs.Statuses.{Becomes, into};
ghost use Rattle.map_handle.specs.Hows.{how_at};
ghost use Rattle.text_handle.specs.Hows.{shared, united};

use crate::handle::{Handle, is_open, keep, open, take};
use map_handle::how_of;
use map_handle::status::{BAD_CALL, NO_MEMORY};
use std::alloc::Global;

/// The entries of either map; at a key of both the value that `how` makes. For maps of m and n entries, m at most n, it takes
/// O(m log(n / m + 1)).
pub fn union(alloc: Global, a: &mut Handle, b: &mut Handle, how: u8, out: &mut Handle) -> u8
    ensures made { Becomes (into out.old.entries (united (how_at how) a.old.entries b.old.entries)) result out.old.entries out.new.entries }
    ensures same_a { a.new.entries ≡ a.old.entries }
    ensures same_b { b.new.entries ≡ b.old.entries }
{
    if is_open(out) {
        return BAD_CALL;
    }
    let Some(resolve) = how_of(how) else {
        return BAD_CALL;
    };
    let Some(first) = take(alloc, a) else {
        return BAD_CALL;
    };
    let Some(second) = take(alloc, b) else {
        keep(a, first);
        return BAD_CALL;
    };
    let made = first.map.union(alloc, &second.map, &resolve);
    keep(a, first);
    keep(b, second);
    match made {
        Ok(both) => open(alloc, out, both),
        Err(_) => NO_MEMORY,
    }
}

/// The entries whose keys both maps have, with the value that `how` makes, in the time of `union`.
pub fn intersection(alloc: Global, a: &mut Handle, b: &mut Handle, how: u8, out: &mut Handle) -> u8
    ensures made { Becomes (into out.old.entries (shared (how_at how) a.old.entries b.old.entries)) result out.old.entries out.new.entries }
    ensures same_a { a.new.entries ≡ a.old.entries }
    ensures same_b { b.new.entries ≡ b.old.entries }
{
    if is_open(out) {
        return BAD_CALL;
    }
    let Some(resolve) = how_of(how) else {
        return BAD_CALL;
    };
    let Some(first) = take(alloc, a) else {
        return BAD_CALL;
    };
    let Some(second) = take(alloc, b) else {
        keep(a, first);
        return BAD_CALL;
    };
    let made = first.map.intersection(alloc, &second.map, &resolve);
    keep(a, first);
    keep(b, second);
    match made {
        Ok(both) => open(alloc, out, both),
        Err(_) => NO_MEMORY,
    }
}
