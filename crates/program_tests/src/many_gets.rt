//! Long runs of look-ups of the tool map.

use crate::many_puts::{push, written};
use fork_join::FreeGate;
use pam_top::plain_map::SortedMap;
use std::alloc::Global;
use std::process::Abort;

/// So many entries the register has.
const ENTRIES: u64 = 5000;

/// So many look-ups stand in the run.
const GETS: u64 = 600;

/// A script that puts entries at every second key, and looks up keys all over them, some of them more than once.
fn script<R: Abort>(rt: &R, alloc: Global) -> Vec<u8> {
    let mut text = Vec::new(alloc);
    for i in 0..ENTRIES {
        push(rt, &mut text, "put", &[3, i.wrapping_mul(2), i]);
    }
    for i in 0..GETS {
        push(rt, &mut text, "get", &[3, asked(i)]);
    }
    text
}

/// The key of a look-up.
fn asked(i: u64) -> u64 {
    i.wrapping_mul(i) % 10_100
}

/// What is replied to it, by a sorted vector.
fn replies<R: Abort>(rt: &R, alloc: Global) -> Vec<u8> {
    let mut map = SortedMap::empty(alloc);
    let mut text = Vec::new(alloc);
    for i in 0..ENTRIES {
        map.put(i.wrapping_mul(2), i).expect(rt, "memory");
        push(rt, &mut text, "ok", &[map.size()]);
    }
    for i in 0..GETS {
        match map.get(asked(i)) {
            Some(val) => push(rt, &mut text, "some", &[val]),
            None => push(rt, &mut text, "none", &[]),
        }
    }
    text
}

#[test]
fn a_long_run_of_gets_replies_as_single_ones(rt: HostRuntime) {
    let alloc = rt.alloc();
    let input = script(&rt, alloc);
    assert_eq!(rt; written(&rt, alloc, input, &FreeGate), replies(&rt, alloc));
}
