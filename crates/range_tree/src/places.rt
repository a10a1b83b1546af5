//! Places: pairs of numbers, ordered by the first and then by the second.
ghost use Rattle.std.specs.Prelude.{◌≡◌};
ghost use Rattle.range_tree.specs.Places.{greatest_at, least_at, swapped};

use aug_monoid::Pair64;

/// From (x, y) to (y, x), and back.
pub(crate) fn swapped(place: Pair64) -> Pair64
    ensures { result ≡ swapped place }
{
    Pair64 {
        first: place.second,
        second: place.first,
    }
}

/// The least place with this first number.
pub(crate) fn least_at(first: u64) -> Pair64
    ensures { result ≡ least_at first }
{
    Pair64 { first, second: 0 }
}

/// The greatest place with this first number.
pub(crate) fn greatest_at(first: u64) -> Pair64
    ensures { result ≡ greatest_at first }
{
    Pair64 {
        first,
        second: u64::MAX,
    }
}
