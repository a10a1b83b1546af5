//! How much of the machine a call may use.
ghost use Rattle.std.specs.Prelude.{◌≡◌, ◌+◌, ◌*◌, ◌/◌, ◌≤◌, ◌<◌, ◌↔◌, IsTrue};
ghost use Rattle.fork_join.specs.Places.{least_power};

/// How many workers a call may use, from which size on it forks, and its place in the tree of forks.
///
/// Workers are 1 to 64, the grain is 1 to 4294967296. The place of a whole call is 1. The left half of
/// a fork at place p is at place 2p, the right half at 2p + 1, so the halves' places are 2 to 127.
#[derive(Clone, Copy, Debug)]
pub struct Cut {
    pub workers: u32,
    pub grain: u64,
    pub place: u64,
    ghost some_worker: { 1 ≤ workers },
    ghost few_workers: { workers ≤ 64 },
    ghost grain_low: { 1 ≤ grain },
    ghost grain_high: { grain ≤ 4294967296 },
    ghost placed: { 1 ≤ place },
    ghost places_left: { (place + 1) * least_power workers ≤ 128 },
}

impl Cut {
    /// The cut of a whole call, at place 1.
    pub fn new(workers: u32, grain: u64) -> Cut
        requires some_worker { 1 ≤ workers }
        requires few_workers { workers ≤ 64 }
        requires grain_low { 1 ≤ grain }
        requires grain_high { grain ≤ 4294967296 }
        ensures workers { result.workers ≡ workers }
        ensures grain { result.grain ≡ grain }
        ensures place { result.place ≡ 1 }
    {
        Cut {
            workers,
            grain,
            place: 1,
        }
    }

    /// Whether work of this size is split between two threads.
    pub fn splits(self, size: u64) -> bool
        ensures { IsTrue result ↔ ((2 ≤ self.workers) × (self.grain ≤ size)) }
    {
        self.workers >= 2 && self.grain <= size
    }

    /// The cut of the left half.
    pub fn left(self) -> Cut
        requires { 2 ≤ self.workers }
        ensures workers { result.workers ≡ (self.workers + 1) / 2 }
        ensures grain { result.grain ≡ self.grain }
        ensures place { result.place ≡ 2 * self.place }
    {
        Cut {
            workers: self.workers.div_ceil(2),
            grain: self.grain,
            place: 2 * self.place,
        }
    }

    /// The cut of the right half.
    pub fn right(self) -> Cut
        requires { 2 ≤ self.workers }
        ensures workers { result.workers ≡ self.workers / 2 }
        ensures grain { result.grain ≡ self.grain }
        ensures place { result.place ≡ 2 * self.place + 1 }
    {
        Cut {
            workers: self.workers / 2,
            grain: self.grain,
            place: 2 * self.place + 1,
        }
    }

    /// The same cut with one worker, which never forks.
    pub fn alone(self) -> Cut
        ensures workers { result.workers ≡ 1 }
        ensures grain { result.grain ≡ self.grain }
        ensures place { result.place ≡ self.place }
    {
        Cut {
            workers: 1,
            grain: self.grain,
            place: self.place,
        }
    }
}
