//! The line of the intervals that were hit.
ghost use Rattle.std.specs.Prelude.{◌≡◌, ◌++◌, OnOk};
ghost use Rattle.interval_tool.specs.Effects.{ends_of, hits_line};

use aug_monoid::{NoMemory, Pair64};
use script::{Numbers, counted_line};
use std::alloc::Global;

// The ends of an interval.
struct Ends;

impl Numbers<Pair64, 2> for Ends {
    ghost numbers_of = { ends_of };

    fn numbers(hit: &Pair64) -> [u64; 2] {
        [hit.first, hit.second]
    }
}

/// Appends the line that counts and lists intervals.
pub(crate) fn hits_line(alloc: Global, text: &mut Vec<u8>, hits: &[Pair64]) -> Result<(), NoMemory>
    ensures { OnOk result (text.new.items ≡ text.old.items ++ hits_line hits.now) }
{
    counted_line::<Ends, _, _>(alloc, text, "hits", hits)
}
