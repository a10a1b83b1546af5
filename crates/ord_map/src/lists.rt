//! The keys and the values as lists.
ghost use Rattle.std.specs.Prelude.{◌≡◌, IfOk};
ghost use Rattle.std.specs.Map.{keys_of, values_of};

use crate::map::OrdMap;
use aug_monoid::{Augment, NoMemory};
use std::alloc::Global;

impl<A: Augment> OrdMap<A> {
    /// The keys in their order, in O(n).
    ///
    ///     let map = Sums::from_pairs(alloc, &[(1, 10), (2, 20)])?;
    ///     map.keys(alloc)?     // [1, 2]
    pub fn keys(&self, alloc: Global) -> Result<Vec<A::Key>, NoMemory>
        ensures { IfOk result (λ keys. keys.items ≡ keys_of self.now) }
    {
        let mut keys = Vec::new(alloc);
        for entry in self.iter(alloc) {
            let (key, _val) = entry?;
            keys.push(key)?;
        }
        Ok(keys)
    }

    /// The values in the order of their keys, in O(n).
    ///
    ///     let map = Sums::from_pairs(alloc, &[(1, 10), (2, 20)])?;
    ///     map.values(alloc)?     // [10, 20]
    pub fn values(&self, alloc: Global) -> Result<Vec<A::Val>, NoMemory>
        ensures { IfOk result (λ vals. vals.items ≡ values_of self.now) }
    {
        let mut vals = Vec::new(alloc);
        for entry in self.iter(alloc) {
            let (_key, val) = entry?;
            vals.push(val)?;
        }
        Ok(vals)
    }
}
