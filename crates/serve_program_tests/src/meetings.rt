//! Gates at which callers and combiner wait for one another.

use crate::runs::{serve, sound_edge};
use fork_join::Gate;
use pam_top::Status;
use std::sync::atomic::{AtomicU64, Ordering};
use std::test::Fail;
use std::thread::yield_now;

/// How often one looks for another before it gives up.
const LOOKS: u64 = 10_000_000;

/// The gate's places before a turn takes and after it has published, and before a read of the callers 0 and 1.
const TAKING: u64 = 200;

const PUBLISHED: u64 = 201;

const FIRST_READ: u64 = 256;

const SECOND_READ: u64 = 257;

/// What is waited for.
#[derive(Drop)]
struct Sign {
    word: AtomicU64,
}

impl Sign {
    fn new() -> Sign {
        Sign {
            word: AtomicU64::new(0),
        }
    }

    fn give(&self) {
        self.word.store(1, Ordering::SeqCst);
    }

    fn was_given(&self) -> bool {
        self.word.load(Ordering::SeqCst) == 1
    }

    /// Waits for the sign, and gives another one where it does not come.
    fn await_or(&self, gave_up: &Sign) {
        for _ in 0..LOOKS {
            if self.was_given() {
                return;
            }
            yield_now();
        }
        gave_up.give();
    }
}

/// A gate that holds a turn until caller 0 is about to read, and this read until a turn has published.
#[derive(Drop)]
struct Handover {
    reads: Sign,
    published: Sign,
    gave_up: Sign,
}

impl Gate for Handover {
    fn enter(&self, place: u64) {
        match place {
            TAKING => self.reads.await_or(&self.gave_up),
            PUBLISHED => self.published.give(),
            FIRST_READ => {
                self.reads.give();
                self.published.await_or(&self.gave_up);
            }
            _ => {}
        }
    }
}

#[test]
fn a_caller_reads_what_the_combiner_publishes_beside_it(rt: HostRuntime) -> Result<(), Fail> {
    let gate = Handover {
        reads: Sign::new(),
        published: Sign::new(),
        gave_up: Sign::new(),
    };
    let input = b"serve,1\nb,0,put,1,10\nr,0,get,1\n";
    let (status, text) = serve(&rt, rt.alloc(), "1", input, &sound_edge(9, 1000), &gate)?;
    assert_eq!(rt; status, Status::Ok);
    assert_eq!(rt;
        text.as_slice(),
        b"r,3,1,some,10\nj,1,2\nfinal,1,10,10\n".as_slice()
    );
    assert!(rt; gate.published.was_given() && !gate.gave_up.was_given());
    Ok(())
}

/// A gate that holds the read of each of two callers until the other is about to read too.
#[derive(Drop)]
struct Pair {
    first: Sign,
    second: Sign,
    gave_up: Sign,
}

impl Gate for Pair {
    fn enter(&self, place: u64) {
        match place {
            FIRST_READ => {
                self.first.give();
                self.second.await_or(&self.gave_up);
            }
            SECOND_READ => {
                self.second.give();
                self.first.await_or(&self.gave_up);
            }
            _ => {}
        }
    }
}

#[test]
fn two_callers_read_beside_each_other(rt: HostRuntime) -> Result<(), Fail> {
    let gate = Pair {
        first: Sign::new(),
        second: Sign::new(),
        gave_up: Sign::new(),
    };
    let input = b"serve,2\nr,0,size\nr,1,size\n";
    let (status, text) = serve(&rt, rt.alloc(), "1", input, &sound_edge(9, 1000), &gate)?;
    assert_eq!(rt; status, Status::Ok);
    assert_eq!(rt;
        text.as_slice(),
        b"r,2,0,size,0\nr,3,0,size,0\nfinal,0,0,0\n".as_slice()
    );
    assert!(rt; gate.second.was_given() && !gate.gave_up.was_given());
    Ok(())
}
