//! Sorted keys with their places, divided at a key.
ghost use Rattle.std.specs.Prelude.{◌≡◌, ◌≤◌, ◌++◌, true, false, length, take, drop};
ghost use Rattle.std.specs.List.Sorted.{IsSortedByKey};
ghost use Rattle.std.specs.Ordering.{is_le, is_lt};
ghost use Rattle.std.specs.declared.cmp.Ordering.TheVariants.{Equal};
ghost use Rattle.map_model.specs.Entries.{AllAbove, AllBelow, AllKeys};

use aug_monoid::Key;

/// The keys below a key, those that are it, and those above it.
#[derive(Drop)]
pub(crate) struct Divided<'a, K> {
    pub(crate) below: &'a [(K, usize)],
    pub(crate) same: &'a [(K, usize)],
    pub(crate) above: &'a [(K, usize)],
}

/// How many keys are below a key.
fn count_below<K: Key>(keys: &[(K, usize)], key: &K) -> usize
    requires { IsSortedByKey (λ e. e.0) K.cmp keys.now }
    ensures inside { result ≤ length keys.now }
    ensures front { AllBelow K.cmp (take result keys.now) key.now }
    ensures back { AllKeys (λ k. is_lt (K.cmp k key.now) ≡ false) (drop result keys.now) }
{
    keys.partition_point(
        |entry: &(K, usize)| -> bool
            ensures { result ≡ is_lt (K.cmp entry.now.0 key.entry.now) }
        { entry.0.cmp(key).is_lt() },
    )
}

/// How many of the keys that are not below a key are it.
fn count_same<K: Key>(keys: &[(K, usize)], key: &K) -> usize
    requires sorted { IsSortedByKey (λ e. e.0) K.cmp keys.now }
    requires least { AllKeys (λ k. is_lt (K.cmp k key.now) ≡ false) keys.now }
    ensures inside { result ≤ length keys.now }
    ensures front { AllKeys (λ k. K.cmp k key.now ≡ Equal) (take result keys.now) }
    ensures back { AllAbove K.cmp (drop result keys.now) key.now }
{
    keys.partition_point(
        |entry: &(K, usize)| -> bool
            ensures { result ≡ is_le (K.cmp entry.now.0 key.entry.now) }
        { entry.0.cmp(key).is_le() },
    )
}

/// Sorted keys divided at a key, by halves. O(log n) for n keys.
pub(crate) fn divide_at<'a, K: Key>(keys: &'a [(K, usize)], key: &K) -> Divided<'a, K>
    requires { IsSortedByKey (λ e. e.0) K.cmp keys.now }
    ensures whole { keys.now ≡ result.below.now ++ (result.same.now ++ result.above.now) }
    ensures below { AllBelow K.cmp result.below.now key.now }
    ensures same { AllKeys (λ k. K.cmp k key.now ≡ Equal) result.same.now }
    ensures above { AllAbove K.cmp result.above.now key.now }
    ensures below_sorted { IsSortedByKey (λ e. e.0) K.cmp result.below.now }
    ensures above_sorted { IsSortedByKey (λ e. e.0) K.cmp result.above.now }
{
    let (below, rest) = keys.split_at(count_below(keys, key));
    let (same, above) = rest.split_at(count_same(rest, key));
    Divided { below, same, above }
}
