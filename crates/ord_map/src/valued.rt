//! Maps of the same keys with other values.
ghost use Rattle.std.specs.Prelude.{◌≡◌, IfOk, map};

use crate::map::OrdMap;
use aug_map::PlainMap;
use aug_monoid::{Augment, NoMemory};
use std::alloc::Global;

/// What is made of the value at a key.
pub trait MapValue<K, V>: Drop {
    type Out: Drop;

    ghost made_of: { Self → K → V → Self.Out };

    fn make(&self, alloc: Global, key: &K, val: &V) -> Result<Self::Out, NoMemory>
        ensures { IfOk result (λ out. out ≡ made_of self.now key.now val.now) };
}

// The entries of a map with what `how` makes of their values.
fn made_entries<A: Augment, F: MapValue<A::Key, A::Val>>(
    alloc: Global,
    from: &OrdMap<A>,
    how: &F,
) -> Result<Vec<(A::Key, F::Out)>, NoMemory>
    ensures { IfOk result (λ list. list.items ≡ map (λ e. (e.0, F.made_of how.now e.0 e.1)) from.now) }
{
    let mut list = Vec::new(alloc);
    for entry in from.iter(alloc) {
        let (key, val) = entry?;
        let made = how.make(alloc, &key, &val)?;
        list.push((key, made))?;
    }
    Ok(list)
}

impl<A: Augment> OrdMap<A> {
    /// The map of the same keys, each with what `how` makes of its value, under a fold of its own, in O(n). It refuses where `how`
    /// does.
    ///
    ///     let map = Sums::from_pairs(alloc, &[(1, 10), (2, 20)])?;
    ///     map.map_values(alloc, &AtLeast { least: 20 })?     // [(1, false), (2, true)]
    pub fn map_values<B: Augment<Key = A::Key>, F: MapValue<A::Key, A::Val, Out = B::Val>>(
        &self,
        alloc: Global,
        how: &F,
    ) -> Result<OrdMap<B>, NoMemory>
        ensures { IfOk result (λ made. made ≡ map (λ e. (e.0, F.made_of how.now e.0 e.1)) self.now) }
    {
        let _number = self.len(); // for the proof alone: keys rise
        let entries = made_entries(alloc, self, how)?;
        let map = PlainMap::of_vec(alloc, entries)?;
        Ok(OrdMap { map })
    }
}
