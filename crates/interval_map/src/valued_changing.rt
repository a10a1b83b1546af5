//! Changes of one interval of a map.
ghost use Rattle.std.specs.Prelude.{◌≡◌, IfOk, OnErr};
ghost use Rattle.aug_monoid.specs.Spans.{span, span_cmp};
ghost use Rattle.map_model.specs.Entries.{drop_key, lookup, set};
ghost use Rattle.interval_map.specs.IntervalMaps.{IsInterval};

use crate::valued::IntervalMap;
use aug_monoid::{Key, NoMemory, Share, Span};
use std::alloc::Global;

impl<E: Key, V: Share> IntervalMap<E, V> {
    /// Sets the interval from `left` to `right` to a value, and answers the value that it had: in place where no other map has part
    /// in what changes. After a refusal the map is as it was. O(log n).
    pub fn insert(
        &mut self,
        alloc: Global,
        left: E,
        right: E,
        val: V,
    ) -> Result<Option<V>, NoMemory>
        requires { IsInterval E.cmp (span left right) }
        ensures value { IfOk result (λ old. old ≡ lookup (span_cmp E.cmp) self.old (span left right)) }
        ensures entries { IfOk result (λ _. self.new ≡ set (span_cmp E.cmp) self.old (span left right) val) }
        ensures kept { OnErr result (self.new ≡ self.old) }
    {
        self.map.insert(alloc, Span { left, right }, val)
    }

    /// Removes the interval from `left` to `right`, which need not be there, and answers the value that it had, as `insert` does.
    /// After a refusal the map is as it was. O(log n).
    pub fn remove(&mut self, alloc: Global, left: &E, right: &E) -> Result<Option<V>, NoMemory>
        ensures value { IfOk result (λ old. old ≡ lookup (span_cmp E.cmp) self.old (span left.now right.now)) }
        ensures entries { IfOk result (λ _. self.new ≡ drop_key (span_cmp E.cmp) self.old (span left.now right.now)) }
        ensures kept { OnErr result (self.new ≡ self.old) }
    {
        let ends = Span::between(alloc, left, right)?;
        self.map.remove(alloc, &ends)
    }
}
