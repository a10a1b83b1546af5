//! How many keys two maps have in common.
ghost use Rattle.std.specs.Prelude.{◌≡◌, length};
ghost use Rattle.map_model.specs.SetOperations.{intersect};

use crate::map::OrdMap;
use aug_monoid::Augment;
use std::cmp::Ordering;

/// The keys of a map that has fewer than one entry for so many of the other's are looked up there.
const FEW: u64 = 16;

// How many keys of a map another has, where each is looked up.
fn count_found<A: Augment>(few: &OrdMap<A>, many: &OrdMap<A>) -> u64
    ensures { result ≡ length (intersect A.Key.cmp (λ a _. a) few.now many.now) }
{
    let _number = few.len(); // for the proof alone: a count fits its type
    let mut count: u64 = 0;
    let mut walk = few.iter_ref();
    while let Some((key, _val)) = walk.next() {
        if many.get_ref(key).is_some() {
            count += 1;
        }
    }
    count
}

// How many keys two maps have, by a walk over both.
fn count_met<A: Augment>(a: &OrdMap<A>, b: &OrdMap<A>) -> u64
    ensures { result ≡ length (intersect A.Key.cmp (λ a _. a) a.now b.now) }
{
    let _numbers = (a.len(), b.len()); // for the proof alone: keys rise, and a count fits its type
    let mut count: u64 = 0;
    let (mut left, mut right) = (a.iter_ref(), b.iter_ref());
    let (mut near, mut far) = (left.next(), right.next());
    while let (Some((key, _)), Some((other, _))) = (near, far) {
        match key.cmp(other) {
            Ordering::Less => near = left.next(),
            Ordering::Greater => far = right.next(),
            Ordering::Equal => {
                count += 1;
                near = left.next();
                far = right.next();
            }
        }
    }
    count
}

impl<A: Augment> OrdMap<A> {
    /// How many keys both maps have. It makes no map, takes no memory and refuses nothing. For maps of m and n entries, m at most
    /// n, it takes O(m log n) where m is less than a sixteenth of n, and else O(m + n).
    ///
    ///     let map = Sums::from_pairs(alloc, &[(1, 10), (2, 20)])?;
    ///     let other = Sums::from_pairs(alloc, &[(2, 21), (3, 30)])?;
    ///     map.intersection_len(&other)     // 1
    pub fn intersection_len(&self, other: &OrdMap<A>) -> u64
        ensures { result ≡ length (intersect A.Key.cmp (λ a _. a) self.now other.now) }
    {
        if self.len() < other.len() / FEW {
            return count_found(self, other);
        }
        if other.len() < self.len() / FEW {
            return count_found(other, self);
        }
        count_met(self, other)
    }
}
