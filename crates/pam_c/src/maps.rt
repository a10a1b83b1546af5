//! Maps for C. Each call is one of `map_handle`, under the name that `pam_null.c` calls.
ghost use Rattle.aug_monoid.specs.Totals.{totals};
ghost use Rattle.entry_bytes.specs.Format.{encoding};
ghost use Rattle.loose.specs.Statuses.{Answers, Becomes, both, into};
ghost use Rattle.map_handle.specs.Arrays.{filled, found_at, without};
ghost use Rattle.map_handle.specs.Bytes.{Fills, Opens, room};
ghost use Rattle.map_handle.specs.Folds.{least_of, range_totals, totals_of};
ghost use Rattle.map_handle.specs.Hows.{how_at, shared, united};
ghost use Rattle.map_handle.specs.Keys.{Lacks};
ghost use Rattle.map_model.specs.Entries.{below, drop_key, lookup, set};
ghost use Rattle.map_model.specs.Operations.{after, build, puts};
ghost use Rattle.map_model.specs.Parts.{next, prev, rank, right_of, select, slice};
ghost use Rattle.map_model.specs.SetOperations.{difference};
ghost use Rattle.ord_map.specs.Ends.{last};
ghost use Rattle.std.specs.List.{zip};
ghost use Rattle.std.specs.Option.{option_map};
ghost use Rattle.std.specs.Ordering.{nat_cmp};
ghost use Rattle.std.specs.Prelude.{None, Some, [], drop, length, map, ◌≡◌};

use map_handle::Handle;
use std::alloc::Global;

/// Opens a closed handle with the empty map.
#[unsafe(no_mangle)]
pub extern "C" fn pam_x_map_new(alloc: Global, map: &mut Handle) -> u8
    ensures { Becomes (into map.old.entries (Some [])) result map.old.entries map.new.entries }
{
    map_handle::new(alloc, map)
}

/// Closes a handle, in O(n) for what no other map shares; one that is closed stays so.
#[unsafe(no_mangle)]
pub extern "C" fn pam_x_map_free(alloc: Global, map: &mut Handle) -> u8
    ensures status { result ≡ 0 }
    ensures closed { map.new.entries ≡ None }
{
    map_handle::free(alloc, map)
}

/// A map of the same entries in a handle of its own, in O(1) and in the memory of this one.
#[unsafe(no_mangle)]
pub extern "C" fn pam_x_map_share(alloc: Global, map: &mut Handle, out: &mut Handle) -> u8
    ensures made { Becomes (into out.old.entries map.old.entries) result out.old.entries out.new.entries }
    ensures same { map.new.entries ≡ map.old.entries }
{
    map_handle::share(alloc, map, out)
}

/// How many entries there are, in O(1).
#[unsafe(no_mangle)]
pub extern "C" fn pam_x_map_len(alloc: Global, map: &mut Handle, count: &mut u64) -> u8
    ensures answer { Answers (option_map (λ m. Some (length m)) map.old.entries) result count.old count.new }
    ensures same { map.new.entries ≡ map.old.entries }
{
    map_handle::len(alloc, map, count)
}

/// The value at a key, in O(log n).
#[unsafe(no_mangle)]
pub extern "C" fn pam_x_map_get(alloc: Global, map: &mut Handle, key: u64, val: &mut u64) -> u8
    ensures answer { Answers (option_map (λ m. lookup nat_cmp m key) map.old.entries) result val.old val.new }
    ensures same { map.new.entries ≡ map.old.entries }
{
    map_handle::get(alloc, map, key, val)
}

/// Sets a key to a value, in O(log n).
#[unsafe(no_mangle)]
pub extern "C" fn pam_x_map_put(alloc: Global, map: &mut Handle, key: u64, val: u64) -> u8
    ensures { Becomes (option_map (λ m. set nat_cmp m key val) map.old.entries) result map.old.entries map.new.entries }
{
    map_handle::put(alloc, map, key, val)
}

/// Removes a key, in O(log n).
#[unsafe(no_mangle)]
pub extern "C" fn pam_x_map_del(alloc: Global, map: &mut Handle, key: u64) -> u8
    ensures missing { Lacks key map.old.entries → (result ≡ 1) × (map.new.entries ≡ map.old.entries) }
    ensures removed { (Lacks key map.old.entries → ⊥) → Becomes (option_map (λ m. drop_key nat_cmp m key) map.old.entries) result map.old.entries map.new.entries }
{
    map_handle::del(alloc, map, key)
}

/// The saturating sum and the greatest of the values, both 0 where there are none, in O(1).
#[unsafe(no_mangle)]
pub extern "C" fn pam_x_map_fold(
    alloc: Global,
    map: &mut Handle,
    sum: &mut u64,
    greatest: &mut u64,
) -> u8
    ensures answer { Answers (option_map (λ m. Some (totals_of m)) map.old.entries) result (totals sum.old greatest.old) (totals sum.new greatest.new) }
    ensures same { map.new.entries ≡ map.old.entries }
{
    map_handle::fold(alloc, map, sum, greatest)
}

/// The saturating sum and the greatest of the values at keys from `lo` to `hi`, both included, in O(log n); both 0 where there
/// are none.
#[unsafe(no_mangle)]
pub extern "C" fn pam_x_map_fold_range(
    alloc: Global,
    map: &mut Handle,
    lo: u64,
    hi: u64,
    sum: &mut u64,
    greatest: &mut u64,
) -> u8
    ensures answer { Answers (option_map (λ m. Some (range_totals m lo hi)) map.old.entries) result (totals sum.old greatest.old) (totals sum.new greatest.new) }
    ensures same { map.new.entries ≡ map.old.entries }
{
    map_handle::fold_range(alloc, map, lo, hi, sum, greatest)
}

/// The least of the values, in O(1), if there are any.
#[unsafe(no_mangle)]
pub extern "C" fn pam_x_map_least(alloc: Global, map: &mut Handle, least: &mut u64) -> u8
    ensures answer { Answers (option_map least_of map.old.entries) result least.old least.new }
    ensures same { map.new.entries ≡ map.old.entries }
{
    map_handle::least(alloc, map, least)
}

/// The least of the values at keys from `lo` to `hi`, both included, in O(log n), if there are any.
#[unsafe(no_mangle)]
pub extern "C" fn pam_x_map_least_range(
    alloc: Global,
    map: &mut Handle,
    lo: u64,
    hi: u64,
    least: &mut u64,
) -> u8
    ensures answer { Answers (option_map (λ m. least_of (slice nat_cmp m lo hi)) map.old.entries) result least.old least.new }
    ensures same { map.new.entries ≡ map.old.entries }
{
    map_handle::least_range(alloc, map, lo, hi, least)
}

/// How many entries have keys from `lo` to `hi`, both included, in O(log n).
#[unsafe(no_mangle)]
pub extern "C" fn pam_x_map_count(
    alloc: Global,
    map: &mut Handle,
    lo: u64,
    hi: u64,
    count: &mut u64,
) -> u8
    ensures answer { Answers (option_map (λ m. Some (length (slice nat_cmp m lo hi))) map.old.entries) result count.old count.new }
    ensures same { map.new.entries ≡ map.old.entries }
{
    map_handle::count(alloc, map, lo, hi, count)
}

/// How many keys are less than `key`, in O(log n).
#[unsafe(no_mangle)]
pub extern "C" fn pam_x_map_rank(alloc: Global, map: &mut Handle, key: u64, count: &mut u64) -> u8
    ensures answer { Answers (option_map (λ m. Some (rank nat_cmp m key)) map.old.entries) result count.old count.new }
    ensures same { map.new.entries ≡ map.old.entries }
{
    map_handle::rank(alloc, map, key, count)
}

/// The entry at a place, counted from 0, in O(log n).
#[unsafe(no_mangle)]
pub extern "C" fn pam_x_map_select(
    alloc: Global,
    map: &mut Handle,
    at: u64,
    key: &mut u64,
    val: &mut u64,
) -> u8
    ensures answer { Answers (option_map (λ m. select m at) map.old.entries) result (key.old, val.old) (key.new, val.new) }
    ensures same { map.new.entries ≡ map.old.entries }
{
    map_handle::select(alloc, map, at, key, val)
}

/// The entry with the least key greater than `than`, in O(log n).
#[unsafe(no_mangle)]
pub extern "C" fn pam_x_map_next(
    alloc: Global,
    map: &mut Handle,
    than: u64,
    key: &mut u64,
    val: &mut u64,
) -> u8
    ensures answer { Answers (option_map (λ m. next nat_cmp m than) map.old.entries) result (key.old, val.old) (key.new, val.new) }
    ensures same { map.new.entries ≡ map.old.entries }
{
    map_handle::next(alloc, map, than, key, val)
}

/// The entry with the greatest key less than `than`, in O(log n).
#[unsafe(no_mangle)]
pub extern "C" fn pam_x_map_prev(
    alloc: Global,
    map: &mut Handle,
    than: u64,
    key: &mut u64,
    val: &mut u64,
) -> u8
    ensures answer { Answers (option_map (λ m. prev nat_cmp m than) map.old.entries) result (key.old, val.old) (key.new, val.new) }
    ensures same { map.new.entries ≡ map.old.entries }
{
    map_handle::prev(alloc, map, than, key, val)
}

/// The entry with the least key, in O(log n).
#[unsafe(no_mangle)]
pub extern "C" fn pam_x_map_first(
    alloc: Global,
    map: &mut Handle,
    key: &mut u64,
    val: &mut u64,
) -> u8
    ensures answer { Answers (option_map (λ m. select m 0) map.old.entries) result (key.old, val.old) (key.new, val.new) }
    ensures same { map.new.entries ≡ map.old.entries }
{
    map_handle::first(alloc, map, key, val)
}

/// The entry with the greatest key, in O(log n).
#[unsafe(no_mangle)]
pub extern "C" fn pam_x_map_last(
    alloc: Global,
    map: &mut Handle,
    key: &mut u64,
    val: &mut u64,
) -> u8
    ensures answer { Answers (option_map (λ m. last m) map.old.entries) result (key.old, val.old) (key.new, val.new) }
    ensures same { map.new.entries ≡ map.old.entries }
{
    map_handle::last(alloc, map, key, val)
}

/// The entries of either map; at a key of both the value that `how` makes. For maps of m and n entries, m at most n, it takes
/// O(m log(n / m + 1)).
#[unsafe(no_mangle)]
pub extern "C" fn pam_x_map_union(
    alloc: Global,
    a: &mut Handle,
    b: &mut Handle,
    how: u8,
    out: &mut Handle,
) -> u8
    ensures made { Becomes (into out.old.entries (united (how_at how) a.old.entries b.old.entries)) result out.old.entries out.new.entries }
    ensures same_a { a.new.entries ≡ a.old.entries }
    ensures same_b { b.new.entries ≡ b.old.entries }
{
    map_handle::union(alloc, a, b, how, out)
}

/// The entries whose keys both maps have, with the value that `how` makes, in the time of `union`.
#[unsafe(no_mangle)]
pub extern "C" fn pam_x_map_intersection(
    alloc: Global,
    a: &mut Handle,
    b: &mut Handle,
    how: u8,
    out: &mut Handle,
) -> u8
    ensures made { Becomes (into out.old.entries (shared (how_at how) a.old.entries b.old.entries)) result out.old.entries out.new.entries }
    ensures same_a { a.new.entries ≡ a.old.entries }
    ensures same_b { b.new.entries ≡ b.old.entries }
{
    map_handle::intersection(alloc, a, b, how, out)
}

/// The entries of `a` whose keys `b` hasn't. For maps of m and n entries, m at most n, it takes O(m log(n / m + 1)).
#[unsafe(no_mangle)]
pub extern "C" fn pam_x_map_difference(
    alloc: Global,
    a: &mut Handle,
    b: &mut Handle,
    out: &mut Handle,
) -> u8
    ensures made { Becomes (into out.old.entries (both (difference nat_cmp) a.old.entries b.old.entries)) result out.old.entries out.new.entries }
    ensures same_a { a.new.entries ≡ a.old.entries }
    ensures same_b { b.new.entries ≡ b.old.entries }
{
    map_handle::difference(alloc, a, b, out)
}

/// The entries with keys less than `key`, and those with keys at least `key`, in O(log n).
#[unsafe(no_mangle)]
pub extern "C" fn pam_x_map_split(
    alloc: Global,
    map: &mut Handle,
    key: u64,
    low: &mut Handle,
    high: &mut Handle,
) -> u8
    ensures low { Becomes (into low.old.entries (into high.old.entries (option_map (λ m. below nat_cmp m key) map.old.entries))) result low.old.entries low.new.entries }
    ensures high { Becomes (into low.old.entries (into high.old.entries (option_map (λ m. right_of nat_cmp m key) map.old.entries))) result high.old.entries high.new.entries }
    ensures same { map.new.entries ≡ map.old.entries }
{
    map_handle::split(alloc, map, key, low, high)
}

/// The map of the entries with keys from `lo` to `hi`, both included, in O(log n).
#[unsafe(no_mangle)]
pub extern "C" fn pam_x_map_range(
    alloc: Global,
    map: &mut Handle,
    lo: u64,
    hi: u64,
    out: &mut Handle,
) -> u8
    ensures made { Becomes (into out.old.entries (option_map (λ m. slice nat_cmp m lo hi) map.old.entries)) result out.old.entries out.new.entries }
    ensures same { map.new.entries ≡ map.old.entries }
{
    map_handle::range(alloc, map, lo, hi, out)
}

/// Writes the first entries with keys at least `from_key`, as many as there are and fit, and how many these are, in O(log n + k)
/// for k of them; where memory is refused in O(log n) for each.
#[unsafe(no_mangle)]
pub extern "C" fn pam_x_map_fill(
    alloc: Global,
    map: &mut Handle,
    from_key: u64,
    keys: &mut [u64],
    vals: &mut [u64],
    count: &mut usize,
) -> u8
    ensures fit { length keys.old ≡ length vals.old → Answers (option_map (λ m. Some (filled (drop (rank nat_cmp m from_key) m) keys.old vals.old)) map.old.entries) result (count.old, keys.old, vals.old) (count.new, keys.new, vals.new) }
    ensures unfit { (length keys.old ≡ length vals.old → ⊥) → (result ≡ 4) × (count.new ≡ count.old) × (keys.new ≡ keys.old) × (vals.new ≡ vals.old) }
    ensures same { map.new.entries ≡ map.old.entries }
{
    map_handle::fill(alloc, map, from_key, keys, vals, count)
}

/// Opens a closed handle with the map of the pairs, in O(n log n); a later pair of a key wins.
#[unsafe(no_mangle)]
pub extern "C" fn pam_x_map_build(alloc: Global, map: &mut Handle, keys: &[u64], vals: &[u64]) -> u8
    ensures fit { length keys.now ≡ length vals.now → Becomes (into map.old.entries (Some (build nat_cmp (zip keys.now vals.now)))) result map.old.entries map.new.entries }
    ensures unfit { (length keys.now ≡ length vals.now → ⊥) → Becomes None result map.old.entries map.new.entries }
{
    map_handle::build(alloc, map, keys, vals)
}

/// Puts pairs in order, in O(m log(m + n)); a later pair of a key wins.
#[unsafe(no_mangle)]
pub extern "C" fn pam_x_map_put_many(
    alloc: Global,
    map: &mut Handle,
    keys: &[u64],
    vals: &[u64],
) -> u8
    ensures fit { length keys.now ≡ length vals.now → Becomes (option_map (λ m. after nat_cmp m (puts (zip keys.now vals.now))) map.old.entries) result map.old.entries map.new.entries }
    ensures unfit { (length keys.now ≡ length vals.now → ⊥) → Becomes None result map.old.entries map.new.entries }
{
    map_handle::put_many(alloc, map, keys, vals)
}

/// For each key its value and 1, or 0 and 0 where the map lacks it, in O(m log n).
#[unsafe(no_mangle)]
pub extern "C" fn pam_x_map_get_many(
    alloc: Global,
    map: &mut Handle,
    keys: &[u64],
    vals: &mut [u64],
    present: &mut [u8],
) -> u8
    ensures fit { length keys.now ≡ length vals.old → length keys.now ≡ length present.old → Answers (option_map (λ m. Some (found_at m keys.now)) map.old.entries) result (vals.old, present.old) (vals.new, present.new) }
    ensures unfit_vals { (length keys.now ≡ length vals.old → ⊥) → (result ≡ 4) × (vals.new ≡ vals.old) × (present.new ≡ present.old) }
    ensures unfit_present { (length keys.now ≡ length present.old → ⊥) → (result ≡ 4) × (vals.new ≡ vals.old) × (present.new ≡ present.old) }
    ensures same { map.new.entries ≡ map.old.entries }
{
    map_handle::get_many(alloc, map, keys, vals, present)
}

/// Removes keys, which the map need not have, in O(m log(m + n)).
#[unsafe(no_mangle)]
pub extern "C" fn pam_x_map_del_many(alloc: Global, map: &mut Handle, keys: &[u64]) -> u8
    ensures { Becomes (option_map (λ m. without m keys.now) map.old.entries) result map.old.entries map.new.entries }
{
    map_handle::del_many(alloc, map, keys)
}

/// Writes the map as bytes, and how many they are, in O(n).
#[unsafe(no_mangle)]
pub extern "C" fn pam_x_map_bytes(
    alloc: Global,
    map: &mut Handle,
    out: &mut [u8],
    needed: &mut usize,
) -> u8
    ensures answer { Fills (option_map encoding map.old.entries) result (room out.old needed.old) (room out.new needed.new) }
    ensures same { map.new.entries ≡ map.old.entries }
{
    map_handle::bytes(alloc, map, out, needed)
}

/// Opens a closed handle with the map that bytes are, in O(n log n) for n entries.
#[unsafe(no_mangle)]
pub extern "C" fn pam_x_map_from_bytes(alloc: Global, map: &mut Handle, bytes: &[u8]) -> u8
    ensures { Opens bytes.now result map.old.entries map.new.entries }
{
    map_handle::from_bytes(alloc, map, bytes)
}
