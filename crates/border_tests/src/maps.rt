//! Each call of a map's handle once.
use map_handle::status::{BAD_CALL, NOT_THERE, OK};
use map_handle::{Handle, closed};
use std::alloc::Global;
use std::process::Abort;

const KEYS: [u64; 4] = [5, 1, 3, 5];

const VALS: [u64; 4] = [99, 10, 30, 50];

/// A handle with the entries 1: 10, 3: 30 and 5: 50.
fn three<R: Abort>(rt: &R, alloc: Global) -> Handle {
    let mut map = closed(alloc);
    assert_eq!(rt; map_handle::build(alloc, &mut map, &KEYS, &VALS), OK);
    map
}

/// Asserts that a handle has these entries, and frees it.
fn assert_map<R: Abort>(rt: &R, alloc: Global, map: &mut Handle, keys: &[u64], vals: &[u64]) {
    let mut found_keys = [0; 4];
    let mut found_vals = [0; 4];
    let mut count = 0;
    assert_eq!(rt;
        map_handle::fill(alloc, map, 0, &mut found_keys, &mut found_vals, &mut count),
        OK
    );
    assert!(rt; count <= 4);
    assert_eq!(rt; &found_keys[..count], keys);
    assert_eq!(rt; &found_vals[..count], vals);
    assert_eq!(rt; map_handle::free(alloc, map), OK);
}

#[test]
fn single_entries(rt: HostRuntime) {
    let alloc = rt.alloc();
    let mut map = closed(alloc);
    let mut val = 7;
    assert_eq!(rt; map_handle::put(alloc, &mut map, 1, 10), BAD_CALL);
    assert_eq!(rt; map_handle::new(alloc, &mut map), OK);
    assert_eq!(rt; map_handle::new(alloc, &mut map), BAD_CALL);
    assert_eq!(rt; map_handle::put(alloc, &mut map, 1, 10), OK);
    assert_eq!(rt; map_handle::get(alloc, &mut map, 2, &mut val), NOT_THERE);
    assert_eq!(rt; map_handle::get(alloc, &mut map, 1, &mut val), OK);
    assert_eq!(rt; val, 10);
    assert_eq!(rt; map_handle::del(alloc, &mut map, 2), NOT_THERE);
    assert_eq!(rt; map_handle::del(alloc, &mut map, 1), OK);
    assert_eq!(rt; map_handle::len(alloc, &mut map, &mut val), OK);
    assert_eq!(rt; val, 0);
    assert_eq!(rt; map_handle::free(alloc, &mut map), OK);
    assert_eq!(rt; map_handle::free(alloc, &mut map), OK);
}

#[test]
fn folds(rt: HostRuntime) {
    let alloc = rt.alloc();
    let mut map = three(&rt, alloc);
    let mut sum = 0;
    let mut greatest = 0;
    assert_eq!(rt;
        map_handle::fold(alloc, &mut map, &mut sum, &mut greatest),
        OK
    );
    assert_eq!(rt; (sum, greatest), (90, 50));
    assert_eq!(rt;
        map_handle::fold_range(alloc, &mut map, 1, 3, &mut sum, &mut greatest),
        OK
    );
    assert_eq!(rt; (sum, greatest), (40, 30));
    assert_eq!(rt; map_handle::least(alloc, &mut map, &mut sum), OK);
    assert_eq!(rt; sum, 10);
    assert_eq!(rt;
        map_handle::least_range(alloc, &mut map, 2, 9, &mut sum),
        OK
    );
    assert_eq!(rt; sum, 30);
    assert_eq!(rt;
        map_handle::least_range(alloc, &mut map, 6, 9, &mut sum),
        NOT_THERE
    );
    assert_eq!(rt; map_handle::free(alloc, &mut map), OK);
}

#[test]
fn places(rt: HostRuntime) {
    let alloc = rt.alloc();
    let mut map = three(&rt, alloc);
    let mut key = 0;
    let mut val = 0;
    assert_eq!(rt; map_handle::count(alloc, &mut map, 1, 4, &mut key), OK);
    assert_eq!(rt; key, 2);
    assert_eq!(rt; map_handle::rank(alloc, &mut map, 4, &mut key), OK);
    assert_eq!(rt; key, 2);
    assert_eq!(rt;
        map_handle::select(alloc, &mut map, 1, &mut key, &mut val),
        OK
    );
    assert_eq!(rt; (key, val), (3, 30));
    assert_eq!(rt;
        map_handle::next(alloc, &mut map, 3, &mut key, &mut val),
        OK
    );
    assert_eq!(rt; (key, val), (5, 50));
    assert_eq!(rt;
        map_handle::prev(alloc, &mut map, 3, &mut key, &mut val),
        OK
    );
    assert_eq!(rt; (key, val), (1, 10));
    assert_eq!(rt; map_handle::last(alloc, &mut map, &mut key, &mut val), OK);
    assert_eq!(rt; (key, val), (5, 50));
    assert_eq!(rt; map_handle::first(alloc, &mut map, &mut key, &mut val), OK);
    assert_eq!(rt; (key, val), (1, 10));
    assert_eq!(rt; map_handle::free(alloc, &mut map), OK);
}

/// A handle with the entries 3: 1 and 4: 2.
fn other<R: Abort>(rt: &R, alloc: Global) -> Handle {
    let mut map = closed(alloc);
    assert_eq!(rt; map_handle::build(alloc, &mut map, &[3, 4], &[1, 2]), OK);
    map
}

#[test]
fn two_maps(rt: HostRuntime) {
    let alloc = rt.alloc();
    let mut a = three(&rt, alloc);
    let mut b = other(&rt, alloc);
    let mut out = closed(alloc);
    assert_eq!(rt;
        map_handle::union(alloc, &mut a, &mut b, 4, &mut out),
        BAD_CALL
    );
    assert_eq!(rt; map_handle::union(alloc, &mut a, &mut b, 2, &mut out), OK);
    assert_map(&rt, alloc, &mut out, &[1, 3, 4, 5], &[10, 31, 2, 50]);
    assert_eq!(rt;
        map_handle::intersection(alloc, &mut a, &mut b, 1, &mut out),
        OK
    );
    assert_map(&rt, alloc, &mut out, &[3], &[1]);
    assert_eq!(rt; map_handle::difference(alloc, &mut a, &mut b, &mut out), OK);
    assert_map(&rt, alloc, &mut out, &[1, 5], &[10, 50]);
    assert_map(&rt, alloc, &mut a, &[1, 3, 5], &[10, 30, 50]);
    assert_map(&rt, alloc, &mut b, &[3, 4], &[1, 2]);
}

#[test]
fn parts(rt: HostRuntime) {
    let alloc = rt.alloc();
    let mut map = three(&rt, alloc);
    let mut low = closed(alloc);
    let mut high = closed(alloc);
    assert_eq!(rt;
        map_handle::split(alloc, &mut map, 3, &mut low, &mut high),
        OK
    );
    assert_map(&rt, alloc, &mut low, &[1], &[10]);
    assert_map(&rt, alloc, &mut high, &[3, 5], &[30, 50]);
    assert_eq!(rt; map_handle::range(alloc, &mut map, 2, 4, &mut low), OK);
    assert_map(&rt, alloc, &mut low, &[3], &[30]);
    assert_eq!(rt; map_handle::share(alloc, &mut map, &mut low), OK);
    assert_map(&rt, alloc, &mut map, &[1, 3, 5], &[10, 30, 50]);
    assert_map(&rt, alloc, &mut low, &[1, 3, 5], &[10, 30, 50]);
}

#[test]
fn arrays(rt: HostRuntime) {
    let alloc = rt.alloc();
    let mut map = three(&rt, alloc);
    let mut vals = [7; 2];
    let mut present = [7; 2];
    assert_eq!(rt;
        map_handle::put_many(alloc, &mut map, &[4, 1], &[40, 11]),
        OK
    );
    assert_eq!(rt;
        map_handle::get_many(alloc, &mut map, &[1, 2], &mut vals, &mut present),
        OK
    );
    assert_eq!(rt; vals, [11, 0]);
    assert_eq!(rt; present, [1, 0]);
    assert_eq!(rt; map_handle::del_many(alloc, &mut map, &[1, 2, 5]), OK);
    assert_map(&rt, alloc, &mut map, &[3, 4], &[30, 40]);
}

/// A handle with the map of 0, 2, .. 998 to the same numbers and one more.
fn even<R: Abort>(rt: &R, alloc: Global) -> Handle {
    let mut map = closed(alloc);
    assert_eq!(rt; map_handle::new(alloc, &mut map), OK);
    for half in 0..500u64 {
        let key = 2 * half;
        assert_eq!(rt; map_handle::put(alloc, &mut map, key, key + 1), OK);
    }
    map
}

/// Asserts what an array of so many is filled with from a key on: the first key, and how many.
fn assert_filled<R: Abort>(
    rt: &R,
    alloc: Global,
    map: &mut Handle,
    from_key: u64,
    room: usize,
    first: u64,
    wanted: usize,
) {
    let mut keys = Vec::new(alloc);
    keys.resize(room, 7).expect(rt, "memory");
    let mut vals = Vec::new(alloc);
    vals.resize(room, 7).expect(rt, "memory");
    let mut count = 0;
    assert_eq!(rt;
        map_handle::fill(alloc, map, from_key, &mut keys, &mut vals, &mut count),
        OK
    );
    assert_eq!(rt; count, wanted);
    let mut key = first;
    for (found, val) in keys.iter().zip(vals.iter()).take(wanted) {
        assert_eq!(rt; (*found, *val), (key, key.saturating_add(1)));
        key = key.saturating_add(2);
    }
    assert!(rt; keys.iter().skip(wanted).all(|key| *key == 7));
}

#[test]
fn arrays_are_filled_from_a_key_on(rt: HostRuntime) {
    let alloc = rt.alloc();
    let mut map = even(&rt, alloc);
    assert_filled(&rt, alloc, &mut map, 301, 63, 302, 63);
    assert_filled(&rt, alloc, &mut map, 301, 64, 302, 64);
    assert_filled(&rt, alloc, &mut map, 0, 600, 0, 500);
    assert_filled(&rt, alloc, &mut map, 900, 100, 900, 50);
    assert_filled(&rt, alloc, &mut map, 999, 100, 0, 0);
    assert_eq!(rt; map_handle::free(alloc, &mut map), OK);
}
