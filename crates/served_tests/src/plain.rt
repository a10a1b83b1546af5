//! Operations on a plain sorted list, and lists of operations by chance. Where memory is refused, a test ends here.
ghost use Rattle.std.specs.Prelude.{◌<◌};

use served_map::Op;
use std::alloc::Global;
use std::process::Abort;

pub(crate) type Entries = Vec<(u64, u64)>;

/// Numbers by chance.
#[derive(Drop)]
pub(crate) struct Chance {
    number: u64,
    /// Keys are below it.
    keys: u64,
    ghost some_key: { 0 < keys },
}

impl Chance {
    pub(crate) fn new(seed: u64, keys: u64) -> Chance
        requires { 0 < keys }
    {
        Chance { number: seed, keys }
    }

    /// A number of 31 bits.
    pub(crate) fn next(&mut self) -> u64 {
        self.number = self
            .number
            .wrapping_mul(6364136223846793005)
            .wrapping_add(1442695040888963407);
        self.number >> 33
    }

    /// A value: one in eight is so great that few sums with it fit.
    fn value(&mut self) -> u64 {
        let small = self.next() % 1000;
        if self.next() % 8 == 0 {
            u64::MAX - small
        } else {
            small
        }
    }

    /// An operation: one in a hundred is a wipe of up to 16 keys, or of none.
    fn op(&mut self) -> Op {
        let kind = self.next() % 100;
        let key = self.next() % self.keys;
        if kind < 30 {
            Op::Put {
                key,
                val: self.value(),
            }
        } else if kind < 55 {
            Op::Del { key }
        } else if kind < 99 {
            Op::Add {
                key,
                val: self.value(),
            }
        } else {
            Op::Wipe {
                lo: key,
                hi: key.saturating_add(self.next() % 17).saturating_sub(1),
            }
        }
    }

    /// So many operations, none of which is a wipe.
    pub(crate) fn ops_without_wipes<R: Abort>(
        &mut self,
        rt: &R,
        alloc: Global,
        count: u64,
    ) -> Vec<Op> {
        let mut ops = Vec::new(alloc);
        for _turn in 0..count {
            let op = self.op();
            if !matches!(op, Op::Wipe { lo: _, hi: _ }) {
                ops.push(op).expect(rt, "memory");
            }
        }
        ops
    }

    /// So many operations.
    pub(crate) fn ops<R: Abort>(&mut self, rt: &R, alloc: Global, count: u64) -> Vec<Op> {
        let mut ops = Vec::new(alloc);
        for _turn in 0..count {
            ops.push(self.op()).expect(rt, "memory");
        }
        ops
    }
}

/// The list with a value at a key.
fn set<R: Abort>(rt: &R, list: &mut Entries, key: u64, val: u64) {
    let at = list.partition_point(|entry| entry.0 < key);
    if at < list.len() && list[at].0 == key {
        list[at].1 = val;
    } else {
        list.insert(at, (key, val)).expect(rt, "memory");
    }
}

/// The value of a key in a list.
fn value_in(list: &Entries, key: u64) -> Option<u64> {
    let at = list.partition_point(|entry| entry.0 < key);
    if at < list.len() && list[at].0 == key {
        Some(list[at].1)
    } else {
        None
    }
}

/// Changes the list as an operation does.
fn step<R: Abort>(rt: &R, list: &mut Entries, op: &Op) {
    match *op {
        Op::Put { key, val } => set(rt, list, key, val),
        Op::Del { key } => list.retain(|entry| entry.0 != key),
        Op::Add { key, val } => {
            let sum = match value_in(list, key) {
                None => val,
                Some(old) => old.saturating_add(val),
            };
            set(rt, list, key, sum);
        }
        Op::Wipe { lo, hi } => list.retain(|entry| entry.0 < lo || hi < entry.0),
    }
}

/// Changes the list as operations do, one after another.
pub(crate) fn apply_plainly<R: Abort>(rt: &R, list: &mut Entries, ops: &[Op]) {
    for op in ops {
        step(rt, list, op);
    }
}
