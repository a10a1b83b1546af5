//! Keys without values, in order and each once.
ghost use Rattle.std.specs.Prelude.{◌≡◌, length};
ghost use Rattle.std.specs.List.Sorted.{IsPermutation, IsSortedByKey};
ghost use Rattle.map_model.specs.Operations.{build};

use crate::firsts::keep_first_of_each;
use aug_monoid::Key;
use std::cmp::Ordering;

/// Sorts keys, in place: without values it does not matter in which order equal keys come.
fn sort_keys<K: Key>(keys: &mut [(K, ())])
    ensures len { length keys.new ≡ length keys.old }
    ensures same { IsPermutation keys.old keys.new }
    ensures sorted { IsSortedByKey (λ e. e.0) K.cmp keys.new }
{
    keys.sort_unstable_by(
        |x: &(K, ()), y: &(K, ())| -> Ordering
            ensures { result ≡ K.cmp x.now.0 y.now.0 }
        { x.0.cmp(&y.0) },
    );
}

/// Puts keys in order, each once, and takes no memory for it. For n keys it makes about n * log n comparisons.
pub fn put_in_order<K: Key>(keys: &mut Vec<(K, ())>)
    ensures { keys.new.items ≡ build K.cmp keys.old.items }
{
    sort_keys(keys.as_mut_slice());
    keep_first_of_each(keys);
}
