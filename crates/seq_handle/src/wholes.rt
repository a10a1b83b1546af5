//! Sequences made of lists, and of one another.
ghost use Rattle.std.specs.Prelude.{◌≡◌, ◌++◌, Some, drop as dropped, reverse as reversed, take as taken};
ghost use Rattle.std.specs.Option.{option_map};
ghost use Rattle.loose.specs.Statuses.{Becomes, into, both};

use crate::handle::{Handle, is_open, keep, open, take as take_out};
use crate::inner::Numbers;
use crate::status::{BAD_CALL, NO_MEMORY};
use aug_monoid::Share;
use std::alloc::Global;

/// Opens a closed handle with the sequence of another, in O(1).
pub fn share(alloc: Global, seq: &mut Handle, out: &mut Handle) -> u8
    ensures made { Becomes (into out.old.items seq.old.items) result out.old.items out.new.items }
    ensures same { seq.new.items ≡ seq.old.items }
{
    if is_open(out) {
        return BAD_CALL;
    }
    let Some(kept) = take_out(alloc, seq) else {
        return BAD_CALL;
    };
    let made = kept.seq.share(alloc);
    keep(seq, kept);
    match made {
        Ok(made) => open(alloc, out, made),
        Err(_) => NO_MEMORY,
    }
}

/// Opens a closed handle with the sequence of a list, in O(n) for n items.
pub fn build(alloc: Global, seq: &mut Handle, items: &[u64]) -> u8
    ensures { Becomes (into seq.old.items (Some items.now)) result seq.old.items seq.new.items }
{
    if is_open(seq) {
        return BAD_CALL;
    }
    match Numbers::from_items(alloc, items) {
        Ok(made) => open(alloc, seq, made),
        Err(_) => NO_MEMORY,
    }
}

/// Opens a closed handle with the items of one and then those of another, in O(log n + B) for n items in blocks of B.
pub fn append(alloc: Global, a: &mut Handle, b: &mut Handle, out: &mut Handle) -> u8
    ensures made { Becomes (into out.old.items (both (λ x y. x ++ y) a.old.items b.old.items)) result out.old.items out.new.items }
    ensures same_a { a.new.items ≡ a.old.items }
    ensures same_b { b.new.items ≡ b.old.items }
{
    if is_open(out) {
        return BAD_CALL;
    }
    let Some(front) = take_out(alloc, a) else {
        return BAD_CALL;
    };
    let Some(back) = take_out(alloc, b) else {
        keep(a, front);
        return BAD_CALL;
    };
    let made = front.seq.append(alloc, &back.seq);
    keep(a, front);
    keep(b, back);
    match made {
        Ok(made) => open(alloc, out, made),
        Err(_) => NO_MEMORY,
    }
}

/// Opens a closed handle with the first `count` items of a sequence, or all where there are fewer, in O(log n + B) for n items in
/// blocks of B.
pub fn take(alloc: Global, seq: &mut Handle, count: u64, out: &mut Handle) -> u8
    ensures made { Becomes (into out.old.items (option_map (λ s. taken count s) seq.old.items)) result out.old.items out.new.items }
    ensures same { seq.new.items ≡ seq.old.items }
{
    if is_open(out) {
        return BAD_CALL;
    }
    let Some(kept) = take_out(alloc, seq) else {
        return BAD_CALL;
    };
    let made = kept.seq.take(alloc, count);
    keep(seq, kept);
    match made {
        Ok(made) => open(alloc, out, made),
        Err(_) => NO_MEMORY,
    }
}

/// Opens a closed handle with the items of a sequence after its first `count`, in O(log n + B) for n items in blocks of B.
pub fn skip(alloc: Global, seq: &mut Handle, count: u64, out: &mut Handle) -> u8
    ensures made { Becomes (into out.old.items (option_map (λ s. dropped count s) seq.old.items)) result out.old.items out.new.items }
    ensures same { seq.new.items ≡ seq.old.items }
{
    if is_open(out) {
        return BAD_CALL;
    }
    let Some(kept) = take_out(alloc, seq) else {
        return BAD_CALL;
    };
    let made = kept.seq.skip(alloc, count);
    keep(seq, kept);
    match made {
        Ok(made) => open(alloc, out, made),
        Err(_) => NO_MEMORY,
    }
}

/// Opens a closed handle with the items of a sequence from the last to the first, in O(n) for n items.
pub fn reverse(alloc: Global, seq: &mut Handle, out: &mut Handle) -> u8
    ensures made { Becomes (into out.old.items (option_map (λ s. reversed s) seq.old.items)) result out.old.items out.new.items }
    ensures same { seq.new.items ≡ seq.old.items }
{
    if is_open(out) {
        return BAD_CALL;
    }
    let Some(kept) = take_out(alloc, seq) else {
        return BAD_CALL;
    };
    let made = kept.seq.reverse_alone(alloc);
    keep(seq, kept);
    match made {
        Ok(made) => open(alloc, out, made),
        Err(_) => NO_MEMORY,
    }
}
