//! Maps from byte strings for C. Each call is one of `text_handle`, under the name that `pam_null.c` calls.
ghost use Rattle.aug_monoid.specs.Totals.{totals};
ghost use Rattle.loose.specs.Statuses.{Answers, Becomes, both, into};
ghost use Rattle.map_handle.specs.Hows.{how_at};
ghost use Rattle.map_model.specs.Entries.{below, lookup, set};
ghost use Rattle.map_model.specs.Operations.{after, puts};
ghost use Rattle.map_model.specs.Parts.{next, prev, rank, right_of, select, slice};
ghost use Rattle.map_model.specs.SetOperations.{difference};
ghost use Rattle.ord_map.specs.Ends.{last};
ghost use Rattle.std.specs.Option.{option_map};
ghost use Rattle.std.specs.Prelude.{◌≡◌, [], IsTrue, None, Some, length};
ghost use Rattle.text_handle.specs.Folds.{range_totals, totals_of};
ghost use Rattle.text_handle.specs.Hows.{shared, united};
ghost use Rattle.text_handle.specs.Keys.{Removes, Tests, bytes_cmp};
ghost use Rattle.text_handle.specs.Places.{Finds, place};
ghost use Rattle.text_handle.specs.Rows.{Fills, are_ends, entries_from, rows};
ghost use Rattle.text_handle.specs.Statuses.{Tells};

use std::alloc::Global;
use text_handle::Handle;

/// Opens a closed handle with the empty map.
#[unsafe(no_mangle)]
pub extern "C" fn pam_x_text_map_new(alloc: Global, map: &mut Handle) -> u8
    ensures { Becomes (into map.old.entries (Some [])) result map.old.entries map.new.entries }
{
    text_handle::new(alloc, map)
}

/// Closes a handle, in O(n) for what no other map shares; one that is closed stays so.
#[unsafe(no_mangle)]
pub extern "C" fn pam_x_text_map_free(alloc: Global, map: &mut Handle) -> u8
    ensures status { result ≡ 0 }
    ensures closed { map.new.entries ≡ None }
{
    text_handle::free(alloc, map)
}

/// A map of the same entries in a handle of its own, in O(1) and in the memory of this one.
#[unsafe(no_mangle)]
pub extern "C" fn pam_x_text_map_share(alloc: Global, map: &mut Handle, out: &mut Handle) -> u8
    ensures made { Becomes (into out.old.entries map.old.entries) result out.old.entries out.new.entries }
    ensures same { map.new.entries ≡ map.old.entries }
{
    text_handle::share(alloc, map, out)
}

/// How many entries there are, in O(1).
#[unsafe(no_mangle)]
pub extern "C" fn pam_x_text_map_len(alloc: Global, map: &mut Handle, count: &mut u64) -> u8
    ensures answer { Answers (option_map (λ m. Some (length m)) map.old.entries) result count.old count.new }
    ensures same { map.new.entries ≡ map.old.entries }
{
    text_handle::len(alloc, map, count)
}

/// The value at a key, in O(log n).
#[unsafe(no_mangle)]
pub extern "C" fn pam_x_text_map_get(
    alloc: Global,
    map: &mut Handle,
    key: &[u8],
    val: &mut u64,
) -> u8
    ensures answer { Tells (option_map (λ m. lookup bytes_cmp m key.now) map.old.entries) result val.old val.new }
    ensures same { map.new.entries ≡ map.old.entries }
{
    text_handle::get(alloc, map, key, val)
}

/// Whether a key is there, in O(log n): 0 where it is, and 1 where it isn't.
#[unsafe(no_mangle)]
pub extern "C" fn pam_x_text_map_contains(alloc: Global, map: &mut Handle, key: &[u8]) -> u8
    ensures answer { Tests key.now result map.old.entries }
    ensures same { map.new.entries ≡ map.old.entries }
{
    text_handle::contains(alloc, map, key)
}

/// Sets a key to a value, in O(log n).
#[unsafe(no_mangle)]
pub extern "C" fn pam_x_text_map_put(alloc: Global, map: &mut Handle, key: &[u8], val: u64) -> u8
    ensures { Becomes (option_map (λ m. set bytes_cmp m key.now val) map.old.entries) result map.old.entries map.new.entries }
{
    text_handle::put(alloc, map, key, val)
}

/// Removes a key, in O(log n).
#[unsafe(no_mangle)]
pub extern "C" fn pam_x_text_map_del(alloc: Global, map: &mut Handle, key: &[u8]) -> u8
    ensures { Removes key.now result map.old.entries map.new.entries }
{
    text_handle::del(alloc, map, key)
}

/// The saturating sum and the greatest of the values, both 0 where there are none, in O(1).
#[unsafe(no_mangle)]
pub extern "C" fn pam_x_text_map_fold(
    alloc: Global,
    map: &mut Handle,
    sum: &mut u64,
    greatest: &mut u64,
) -> u8
    ensures answer { Answers (option_map (λ m. Some (totals_of m)) map.old.entries) result (totals sum.old greatest.old) (totals sum.new greatest.new) }
    ensures same { map.new.entries ≡ map.old.entries }
{
    text_handle::fold(alloc, map, sum, greatest)
}

/// The saturating sum and the greatest of the values at keys from `lo` to `hi`, both included, in O(log n); both 0 where there
/// are none.
#[unsafe(no_mangle)]
pub extern "C" fn pam_x_text_map_fold_range(
    alloc: Global,
    map: &mut Handle,
    lo: &[u8],
    hi: &[u8],
    sum: &mut u64,
    greatest: &mut u64,
) -> u8
    ensures answer { Tells (option_map (λ m. Some (range_totals m lo.now hi.now)) map.old.entries) result (totals sum.old greatest.old) (totals sum.new greatest.new) }
    ensures same { map.new.entries ≡ map.old.entries }
{
    text_handle::fold_range(alloc, map, lo, hi, sum, greatest)
}

/// How many keys are less than `key`, in O(log n).
#[unsafe(no_mangle)]
pub extern "C" fn pam_x_text_map_rank(
    alloc: Global,
    map: &mut Handle,
    key: &[u8],
    count: &mut u64,
) -> u8
    ensures answer { Tells (option_map (λ m. Some (rank bytes_cmp m key.now)) map.old.entries) result count.old count.new }
    ensures same { map.new.entries ≡ map.old.entries }
{
    text_handle::rank(alloc, map, key, count)
}

/// The entry at a place, counted from 0, in O(log n).
#[unsafe(no_mangle)]
pub extern "C" fn pam_x_text_map_select(
    alloc: Global,
    map: &mut Handle,
    at: u64,
    key: &mut [u8],
    key_len: &mut usize,
    val: &mut u64,
) -> u8
    ensures answer { Finds (option_map (λ m. select m at) map.old.entries) result (place key.old key_len.old val.old) (place key.new key_len.new val.new) }
    ensures same { map.new.entries ≡ map.old.entries }
{
    text_handle::select(alloc, map, at, key, key_len, val)
}

/// The entry with the least key greater than `than`, in O(log n).
#[unsafe(no_mangle)]
pub extern "C" fn pam_x_text_map_next(
    alloc: Global,
    map: &mut Handle,
    than: &[u8],
    key: &mut [u8],
    key_len: &mut usize,
    val: &mut u64,
) -> u8
    ensures answer { Finds (option_map (λ m. next bytes_cmp m than.now) map.old.entries) result (place key.old key_len.old val.old) (place key.new key_len.new val.new) }
    ensures same { map.new.entries ≡ map.old.entries }
{
    text_handle::next(alloc, map, than, key, key_len, val)
}

/// The entry with the greatest key less than `than`, in O(log n).
#[unsafe(no_mangle)]
pub extern "C" fn pam_x_text_map_prev(
    alloc: Global,
    map: &mut Handle,
    than: &[u8],
    key: &mut [u8],
    key_len: &mut usize,
    val: &mut u64,
) -> u8
    ensures answer { Finds (option_map (λ m. prev bytes_cmp m than.now) map.old.entries) result (place key.old key_len.old val.old) (place key.new key_len.new val.new) }
    ensures same { map.new.entries ≡ map.old.entries }
{
    text_handle::prev(alloc, map, than, key, key_len, val)
}

/// The entry with the least key, in O(log n).
#[unsafe(no_mangle)]
pub extern "C" fn pam_x_text_map_first(
    alloc: Global,
    map: &mut Handle,
    key: &mut [u8],
    key_len: &mut usize,
    val: &mut u64,
) -> u8
    ensures answer { Finds (option_map (λ m. select m 0) map.old.entries) result (place key.old key_len.old val.old) (place key.new key_len.new val.new) }
    ensures same { map.new.entries ≡ map.old.entries }
{
    text_handle::first(alloc, map, key, key_len, val)
}

/// The entry with the greatest key, in O(log n).
#[unsafe(no_mangle)]
pub extern "C" fn pam_x_text_map_last(
    alloc: Global,
    map: &mut Handle,
    key: &mut [u8],
    key_len: &mut usize,
    val: &mut u64,
) -> u8
    ensures answer { Finds (option_map (λ m. last m) map.old.entries) result (place key.old key_len.old val.old) (place key.new key_len.new val.new) }
    ensures same { map.new.entries ≡ map.old.entries }
{
    text_handle::last(alloc, map, key, key_len, val)
}

/// The entries of either map; at a key of both the value that `how` makes. For maps of m and n entries, m at most n, it takes
/// O(m log(n / m + 1)).
#[unsafe(no_mangle)]
pub extern "C" fn pam_x_text_map_union(
    alloc: Global,
    a: &mut Handle,
    b: &mut Handle,
    how: u8,
    out: &mut Handle,
) -> u8
    ensures made { Becomes (into out.old.entries (united (how_at how) a.old.entries b.old.entries)) result out.old.entries out.new.entries }
    ensures same_a { a.new.entries ≡ a.old.entries }
    ensures same_b { b.new.entries ≡ b.old.entries }
{
    text_handle::union(alloc, a, b, how, out)
}

/// The entries whose keys both maps have, with the value that `how` makes, in the time of `union`.
#[unsafe(no_mangle)]
pub extern "C" fn pam_x_text_map_intersection(
    alloc: Global,
    a: &mut Handle,
    b: &mut Handle,
    how: u8,
    out: &mut Handle,
) -> u8
    ensures made { Becomes (into out.old.entries (shared (how_at how) a.old.entries b.old.entries)) result out.old.entries out.new.entries }
    ensures same_a { a.new.entries ≡ a.old.entries }
    ensures same_b { b.new.entries ≡ b.old.entries }
{
    text_handle::intersection(alloc, a, b, how, out)
}

/// The entries of `a` whose keys `b` hasn't. For maps of m and n entries, m at most n, it takes O(m log(n / m + 1)).
#[unsafe(no_mangle)]
pub extern "C" fn pam_x_text_map_difference(
    alloc: Global,
    a: &mut Handle,
    b: &mut Handle,
    out: &mut Handle,
) -> u8
    ensures made { Becomes (into out.old.entries (both (difference bytes_cmp) a.old.entries b.old.entries)) result out.old.entries out.new.entries }
    ensures same_a { a.new.entries ≡ a.old.entries }
    ensures same_b { b.new.entries ≡ b.old.entries }
{
    text_handle::difference(alloc, a, b, out)
}

/// The entries with keys less than `key`, and those with keys at least `key`, in O(log n).
#[unsafe(no_mangle)]
pub extern "C" fn pam_x_text_map_split(
    alloc: Global,
    map: &mut Handle,
    key: &[u8],
    low: &mut Handle,
    high: &mut Handle,
) -> u8
    ensures low { Becomes (into low.old.entries (into high.old.entries (option_map (λ m. below bytes_cmp m key.now) map.old.entries))) result low.old.entries low.new.entries }
    ensures high { Becomes (into low.old.entries (into high.old.entries (option_map (λ m. right_of bytes_cmp m key.now) map.old.entries))) result high.old.entries high.new.entries }
    ensures same { map.new.entries ≡ map.old.entries }
{
    text_handle::split(alloc, map, key, low, high)
}

/// The map of the entries with keys from `lo` to `hi`, both included, in O(log n).
#[unsafe(no_mangle)]
pub extern "C" fn pam_x_text_map_range(
    alloc: Global,
    map: &mut Handle,
    lo: &[u8],
    hi: &[u8],
    out: &mut Handle,
) -> u8
    ensures made { Becomes (into out.old.entries (option_map (λ m. slice bytes_cmp m lo.now hi.now) map.old.entries)) result out.old.entries out.new.entries }
    ensures same { map.new.entries ≡ map.old.entries }
{
    text_handle::range(alloc, map, lo, hi, out)
}

/// Writes the first entries with keys at least `from_key`, as many as there are and fit, and how many these are, in O(log n + k) for k
/// of them: the bytes of their keys in a row, where each key ends in that row, and the values.
#[unsafe(no_mangle)]
pub extern "C" fn pam_x_text_map_fill(
    alloc: Global,
    map: &mut Handle,
    from_key: &[u8],
    keys: &mut [u8],
    ends: &mut [usize],
    vals: &mut [u64],
    count: &mut usize,
) -> u8
    ensures fit { length ends.old ≡ length vals.old → Fills (option_map (λ m. right_of bytes_cmp m from_key.now) map.old.entries) result (rows keys.old ends.old vals.old count.old) (rows keys.new ends.new vals.new count.new) }
    ensures unfit { ¬ (length ends.old ≡ length vals.old) → (result ≡ 4) × (rows keys.new ends.new vals.new count.new ≡ rows keys.old ends.old vals.old count.old) }
    ensures same { map.new.entries ≡ map.old.entries }
{
    text_handle::fill(alloc, map, from_key, keys, ends, vals, count)
}

/// Puts entries in order, in O(m log(m + n)); a later value of a key wins. The first key begins at 0, and each other where the one
/// before it ends. It is a bad call where a key ends before it begins, or behind the last byte.
#[unsafe(no_mangle)]
pub extern "C" fn pam_x_text_map_put_many(
    alloc: Global,
    map: &mut Handle,
    keys: &[u8],
    ends: &[usize],
    vals: &[u64],
) -> u8
    ensures fit { length ends.now ≡ length vals.now → IsTrue (are_ends 0 (length keys.now) ends.now) → Becomes (option_map (λ m. after bytes_cmp m (puts (entries_from 0 keys.now ends.now vals.now))) map.old.entries) result map.old.entries map.new.entries }
    ensures unfit { ¬ (length ends.now ≡ length vals.now) → Becomes None result map.old.entries map.new.entries }
    ensures unordered { ¬ IsTrue (are_ends 0 (length keys.now) ends.now) → Becomes None result map.old.entries map.new.entries }
{
    text_handle::put_many(alloc, map, keys, ends, vals)
}
