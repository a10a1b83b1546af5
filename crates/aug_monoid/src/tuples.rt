//! Pairs and triples of keys, ordered by the first part, then by the next.
ghost use Rattle.std.specs.Prelude.{◌≡◌};
ghost use Rattle.std.proofs.lemmas.Map.Lookups.{exact_pairs};
ghost use Rattle.aug_monoid.specs.Exact.{exact_triples};

use crate::key::Key;
use crate::no_memory::NoMemory;
use crate::share::Share;
use std::alloc::Global;

impl<A: Key, B: Key> Key for (A, B) {
    ghost exact = { exact_pairs A.cmp B.cmp A.exact B.exact };
}

impl<A: Share, B: Share, C: Share> Share for (A, B, C) {
    ghost never_refuses = { A.never_refuses × B.never_refuses × C.never_refuses };

    fn share(&self, alloc: Global) -> Result<(A, B, C), NoMemory> {
        let first = self.0.share(alloc)?;
        let second = self.1.share(alloc)?;
        let third = self.2.share(alloc)?;
        Ok((first, second, third))
    }

    fn is_total() -> bool {
        A::is_total() && B::is_total() && C::is_total()
    }
}

impl<A: Key, B: Key, C: Key> Key for (A, B, C) {
    ghost exact = { exact_triples A.cmp B.cmp C.cmp A.exact B.exact C.exact };
}
