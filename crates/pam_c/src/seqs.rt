//! Sequences for C.
ghost use Rattle.std.specs.Prelude.{◌≡◌, ℕ, ◌<◌, ◌++◌, ◌∷◌, [], List, None, Some, drop, length, reverse, slice_get, slice_set, take};
ghost use Rattle.std.specs.Option.{option_map};
ghost use Rattle.aug_monoid.specs.Totals.{totals};
ghost use Rattle.loose.specs.Arrays.{overwritten};
ghost use Rattle.loose.specs.Changes.{ChangesThere};
ghost use Rattle.loose.specs.Statuses.{Answers, Becomes, both, into};
ghost use Rattle.seq_handle.specs.Totals.{totals_of};

use seq_handle::Handle;
use std::alloc::Global;

/// Opens a closed handle with the sequence of no items.
#[unsafe(no_mangle)]
pub extern "C" fn pam_x_seq_new(alloc: Global, seq: &mut Handle) -> u8
    ensures { Becomes (into seq.old.items (Some [])) result seq.old.items seq.new.items }
{
    seq_handle::new(alloc, seq)
}

/// Closes a handle, in O(n) for what no other sequence shares; one that is closed stays so.
#[unsafe(no_mangle)]
pub extern "C" fn pam_x_seq_free(alloc: Global, seq: &mut Handle) -> u8
    ensures status { result ≡ 0 }
    ensures closed { seq.new.items ≡ None }
{
    seq_handle::free(alloc, seq)
}

/// Opens a closed handle with the sequence of another, in O(1).
#[unsafe(no_mangle)]
pub extern "C" fn pam_x_seq_share(alloc: Global, seq: &mut Handle, out: &mut Handle) -> u8
    ensures made { Becomes (into out.old.items seq.old.items) result out.old.items out.new.items }
    ensures same { seq.new.items ≡ seq.old.items }
{
    seq_handle::share(alloc, seq, out)
}

/// Opens a closed handle with the sequence of a list, in O(n) for n items.
#[unsafe(no_mangle)]
pub extern "C" fn pam_x_seq_build(alloc: Global, seq: &mut Handle, items: &[u64]) -> u8
    ensures { Becomes (into seq.old.items (Some items.now)) result seq.old.items seq.new.items }
{
    seq_handle::build(alloc, seq, items)
}

/// How many items there are, in O(1).
#[unsafe(no_mangle)]
pub extern "C" fn pam_x_seq_len(alloc: Global, seq: &mut Handle, len: &mut u64) -> u8
    ensures answer { Answers (option_map (λ s. Some (length s)) seq.old.items) result len.old len.new }
    ensures same { seq.new.items ≡ seq.old.items }
{
    seq_handle::len(alloc, seq, len)
}

/// The item at a place, in O(log n) for n items.
#[unsafe(no_mangle)]
pub extern "C" fn pam_x_seq_get(alloc: Global, seq: &mut Handle, place: u64, item: &mut u64) -> u8
    ensures answer { Answers (option_map (λ s. slice_get s place) seq.old.items) result item.old item.new }
    ensures same { seq.new.items ≡ seq.old.items }
{
    seq_handle::get(alloc, seq, place, item)
}

/// Sets the item at a place, in O(log n + B) for n items in blocks of B.
#[unsafe(no_mangle)]
pub extern "C" fn pam_x_seq_set(alloc: Global, seq: &mut Handle, place: u64, item: u64) -> u8
    ensures { ChangesThere (λ s. place < length s) (λ s. slice_set s place item) result seq.old.items seq.new.items }
{
    seq_handle::set(alloc, seq, place, item)
}

/// Appends one item, in O(log n + B) for n items in blocks of B.
#[unsafe(no_mangle)]
pub extern "C" fn pam_x_seq_push(alloc: Global, seq: &mut Handle, item: u64) -> u8
    ensures { Becomes (option_map (λ s. s ++ item ∷ []) seq.old.items) result seq.old.items seq.new.items }
{
    seq_handle::push(alloc, seq, item)
}

/// Appends the items of a list, in O(log n + B + k) for k items after n in blocks of B.
#[unsafe(no_mangle)]
pub extern "C" fn pam_x_seq_push_many(alloc: Global, seq: &mut Handle, items: &[u64]) -> u8
    ensures { Becomes (option_map (λ s. s ++ items.now) seq.old.items) result seq.old.items seq.new.items }
{
    seq_handle::push_many(alloc, seq, items)
}

/// Opens a closed handle with the items of one and then those of another, in O(log n + B) for n items in blocks of B.
#[unsafe(no_mangle)]
pub extern "C" fn pam_x_seq_append(
    alloc: Global,
    a: &mut Handle,
    b: &mut Handle,
    out: &mut Handle,
) -> u8
    ensures made { Becomes (into out.old.items (both (λ x y. x ++ y) a.old.items b.old.items)) result out.old.items out.new.items }
    ensures same_a { a.new.items ≡ a.old.items }
    ensures same_b { b.new.items ≡ b.old.items }
{
    seq_handle::append(alloc, a, b, out)
}

/// Opens a closed handle with the first `count` items of a sequence, or all where there are fewer, in O(log n + B) for n items in
/// blocks of B.
#[unsafe(no_mangle)]
pub extern "C" fn pam_x_seq_take(
    alloc: Global,
    seq: &mut Handle,
    count: u64,
    out: &mut Handle,
) -> u8
    ensures made { Becomes (into out.old.items (option_map (λ s. take count s) seq.old.items)) result out.old.items out.new.items }
    ensures same { seq.new.items ≡ seq.old.items }
{
    seq_handle::take(alloc, seq, count, out)
}

/// Opens a closed handle with the items of a sequence after its first `count`, in O(log n + B) for n items in blocks of B.
#[unsafe(no_mangle)]
pub extern "C" fn pam_x_seq_skip(
    alloc: Global,
    seq: &mut Handle,
    count: u64,
    out: &mut Handle,
) -> u8
    ensures made { Becomes (into out.old.items (option_map (λ s. drop count s) seq.old.items)) result out.old.items out.new.items }
    ensures same { seq.new.items ≡ seq.old.items }
{
    seq_handle::skip(alloc, seq, count, out)
}

/// Opens a closed handle with the items of a sequence from the last to the first, in O(n) for n items.
#[unsafe(no_mangle)]
pub extern "C" fn pam_x_seq_reverse(alloc: Global, seq: &mut Handle, out: &mut Handle) -> u8
    ensures made { Becomes (into out.old.items (option_map (λ s. reverse s) seq.old.items)) result out.old.items out.new.items }
    ensures same { seq.new.items ≡ seq.old.items }
{
    seq_handle::reverse(alloc, seq, out)
}

/// The sum of all items, or `u64::MAX` where that is less, and the greatest item; both are 0 where there are no items. O(1).
#[unsafe(no_mangle)]
pub extern "C" fn pam_x_seq_fold(
    alloc: Global,
    seq: &mut Handle,
    sum: &mut u64,
    greatest: &mut u64,
) -> u8
    ensures answer { Answers (option_map (λ s. Some (totals_of s)) seq.old.items) result (totals sum.old greatest.old) (totals sum.new greatest.new) }
    ensures same { seq.new.items ≡ seq.old.items }
{
    seq_handle::fold(alloc, seq, sum, greatest)
}

/// As `fold`, of the first `count` items after the first `from`, or as many as there are, in O(log n + B) for n items in blocks of
/// B.
#[unsafe(no_mangle)]
pub extern "C" fn pam_x_seq_fold_range(
    alloc: Global,
    seq: &mut Handle,
    from: u64,
    count: u64,
    sum: &mut u64,
    greatest: &mut u64,
) -> u8
    ensures answer { Answers (option_map (λ s. Some (totals_of (take count (drop from s)))) seq.old.items) result (totals sum.old greatest.old) (totals sum.new greatest.new) }
    ensures same { seq.new.items ≡ seq.old.items }
{
    seq_handle::fold_range(alloc, seq, from, count, sum, greatest)
}

/// Writes the items from a place on into an array, as many as fit, and how many they are. O(log n + k) for k items written.
#[unsafe(no_mangle)]
pub extern "C" fn pam_x_seq_fill(
    alloc: Global,
    seq: &mut Handle,
    from_place: u64,
    items: &mut [u64],
    count: &mut usize,
) -> u8
    ensures answer { Answers {X = List ℕ × ℕ} (option_map (λ s. let first = take (length items.old) (drop from_place s) in Some (overwritten items.old first, length first)) seq.old.items) result (items.old, count.old) (items.new, count.new) }
    ensures same { seq.new.items ≡ seq.old.items }
{
    seq_handle::fill(alloc, seq, from_place, items, count)
}
