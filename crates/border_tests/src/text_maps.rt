//! Each call of the handle of a map from byte strings once.
use map_handle::status::{BAD_CALL, NO_ROOM, NOT_THERE, OK};
use std::alloc::Global;
use std::process::Abort;
use text_handle::{Handle, closed};

const ENDS: [usize; 4] = [3, 3, 6, 9];

const VALS: [u64; 4] = [99, 10, 30, 50];

/// A handle with the entries "": 10, "bar": 30 and "foo": 50.
fn three<R: Abort>(rt: &R, alloc: Global) -> Handle {
    let mut map = closed(alloc);
    assert_eq!(rt; text_handle::new(alloc, &mut map), OK);
    assert_eq!(rt;
        text_handle::put_many(alloc, &mut map, b"foobarfoo", &ENDS, &VALS),
        OK
    );
    map
}

/// Asserts that a handle has these entries, and frees it.
fn assert_map<R: Abort>(
    rt: &R,
    alloc: Global,
    map: &mut Handle,
    keys: &[u8],
    ends: &[usize],
    vals: &[u64],
) {
    let mut found_keys = [0; 16];
    let mut found_ends = [0; 5];
    let mut found_vals = [0; 5];
    let mut count = 0;
    assert_eq!(rt;
        text_handle::fill(
            alloc,
            map,
            b"",
            &mut found_keys,
            &mut found_ends,
            &mut found_vals,
            &mut count
        ),
        OK
    );
    assert!(rt; count <= 5);
    assert!(rt; keys.len() <= 16);
    assert_eq!(rt; &found_keys[..keys.len()], keys);
    assert_eq!(rt; &found_ends[..count], ends);
    assert_eq!(rt; &found_vals[..count], vals);
    assert_eq!(rt; text_handle::free(alloc, map), OK);
}

#[test]
fn single_entries(rt: HostRuntime) {
    let alloc = rt.alloc();
    let mut map = closed(alloc);
    let mut val = 7;
    assert_eq!(rt; text_handle::put(alloc, &mut map, b"", 10), BAD_CALL);
    assert_eq!(rt; text_handle::new(alloc, &mut map), OK);
    assert_eq!(rt; text_handle::new(alloc, &mut map), BAD_CALL);
    assert_eq!(rt; text_handle::put(alloc, &mut map, b"", 10), OK);
    assert_eq!(rt;
        text_handle::get(alloc, &mut map, b"\0", &mut val),
        NOT_THERE
    );
    assert_eq!(rt; val, 7);
    assert_eq!(rt; text_handle::get(alloc, &mut map, b"", &mut val), OK);
    assert_eq!(rt; val, 10);
    assert_eq!(rt; text_handle::contains(alloc, &mut map, b""), OK);
    assert_eq!(rt; text_handle::contains(alloc, &mut map, b"a"), NOT_THERE);
    assert_eq!(rt; text_handle::del(alloc, &mut map, b"a"), NOT_THERE);
    assert_eq!(rt; text_handle::del(alloc, &mut map, b""), OK);
    assert_eq!(rt; text_handle::len(alloc, &mut map, &mut val), OK);
    assert_eq!(rt; val, 0);
    assert_eq!(rt; text_handle::free(alloc, &mut map), OK);
    assert_eq!(rt; text_handle::free(alloc, &mut map), OK);
}

#[test]
fn folds(rt: HostRuntime) {
    let alloc = rt.alloc();
    let mut map = three(&rt, alloc);
    let mut sum = 0;
    let mut greatest = 0;
    assert_eq!(rt;
        text_handle::fold(alloc, &mut map, &mut sum, &mut greatest),
        OK
    );
    assert_eq!(rt; (sum, greatest), (90, 50));
    assert_eq!(rt;
        text_handle::fold_range(alloc, &mut map, b"", b"bar", &mut sum, &mut greatest),
        OK
    );
    assert_eq!(rt; (sum, greatest), (40, 30));
    assert_eq!(rt; text_handle::free(alloc, &mut map), OK);
}

#[test]
fn places(rt: HostRuntime) {
    let alloc = rt.alloc();
    let mut map = three(&rt, alloc);
    let mut key = [b'-'; 4];
    let mut len = 9;
    let mut val = 0;
    assert_eq!(rt; text_handle::rank(alloc, &mut map, b"f", &mut val), OK);
    assert_eq!(rt; val, 2);
    assert_eq!(rt;
        text_handle::select(alloc, &mut map, 1, &mut key, &mut len, &mut val),
        OK
    );
    assert_eq!(rt; (key, len, val), (*b"bar-", 3, 30));
    assert_eq!(rt;
        text_handle::next(alloc, &mut map, b"bar", &mut key, &mut len, &mut val),
        OK
    );
    assert_eq!(rt; (key, len, val), (*b"foo-", 3, 50));
    assert_eq!(rt;
        text_handle::prev(alloc, &mut map, b"bar", &mut key, &mut len, &mut val),
        OK
    );
    assert_eq!(rt; (key, len, val), (*b"foo-", 0, 10));
    assert_eq!(rt;
        text_handle::last(alloc, &mut map, &mut key[..2], &mut len, &mut val),
        NO_ROOM
    );
    assert_eq!(rt; (key, len, val), (*b"foo-", 3, 10));
    assert_eq!(rt;
        text_handle::first(alloc, &mut map, &mut [], &mut len, &mut val),
        OK
    );
    assert_eq!(rt; (len, val), (0, 10));
    assert_eq!(rt;
        text_handle::next(alloc, &mut map, b"foo", &mut key, &mut len, &mut val),
        NOT_THERE
    );
    assert_eq!(rt; text_handle::free(alloc, &mut map), OK);
}

/// A handle with the entries "bar": 1 and "ba": 2.
fn other<R: Abort>(rt: &R, alloc: Global) -> Handle {
    let mut map = closed(alloc);
    assert_eq!(rt; text_handle::new(alloc, &mut map), OK);
    assert_eq!(rt;
        text_handle::put_many(alloc, &mut map, b"barba", &[3, 5], &[1, 2]),
        OK
    );
    map
}

#[test]
fn two_maps(rt: HostRuntime) {
    let alloc = rt.alloc();
    let mut a = three(&rt, alloc);
    let mut b = other(&rt, alloc);
    let mut out = closed(alloc);
    assert_eq!(rt;
        text_handle::union(alloc, &mut a, &mut b, 4, &mut out),
        BAD_CALL
    );
    assert_eq!(rt; text_handle::union(alloc, &mut a, &mut b, 2, &mut out), OK);
    assert_map(
        &rt,
        alloc,
        &mut out,
        b"babarfoo",
        &[0, 2, 5, 8],
        &[10, 2, 31, 50],
    );
    assert_eq!(rt;
        text_handle::intersection(alloc, &mut a, &mut b, 1, &mut out),
        OK
    );
    assert_map(&rt, alloc, &mut out, b"bar", &[3], &[1]);
    assert_eq!(rt;
        text_handle::difference(alloc, &mut a, &mut b, &mut out),
        OK
    );
    assert_map(&rt, alloc, &mut out, b"foo", &[0, 3], &[10, 50]);
    assert_map(&rt, alloc, &mut a, b"barfoo", &[0, 3, 6], &[10, 30, 50]);
    assert_map(&rt, alloc, &mut b, b"babar", &[2, 5], &[2, 1]);
}

#[test]
fn parts(rt: HostRuntime) {
    let alloc = rt.alloc();
    let mut map = three(&rt, alloc);
    let mut low = closed(alloc);
    let mut high = closed(alloc);
    assert_eq!(rt;
        text_handle::split(alloc, &mut map, b"bar", &mut low, &mut high),
        OK
    );
    assert_map(&rt, alloc, &mut low, b"", &[0], &[10]);
    assert_map(&rt, alloc, &mut high, b"barfoo", &[3, 6], &[30, 50]);
    assert_eq!(rt;
        text_handle::range(alloc, &mut map, b"a", b"bar", &mut low),
        OK
    );
    assert_map(&rt, alloc, &mut low, b"bar", &[3], &[30]);
    assert_eq!(rt; text_handle::share(alloc, &mut map, &mut low), OK);
    assert_eq!(rt; text_handle::put(alloc, &mut map, b"", 11), OK);
    assert_map(&rt, alloc, &mut map, b"barfoo", &[0, 3, 6], &[11, 30, 50]);
    assert_map(&rt, alloc, &mut low, b"barfoo", &[0, 3, 6], &[10, 30, 50]);
}

/// Asserts what arrays are filled with from "a" on, where they have so much room: the status and the number.
fn assert_filled<R: Abort>(
    rt: &R,
    alloc: Global,
    map: &mut Handle,
    room: usize,
    places: usize,
    status: u8,
    wanted: usize,
) {
    let mut keys = Vec::new(alloc);
    keys.resize(room, b'-').expect(rt, "memory");
    let mut ends = Vec::new(alloc);
    ends.resize(places, 7).expect(rt, "memory");
    let mut vals = Vec::new(alloc);
    vals.resize(places, 7).expect(rt, "memory");
    let mut count = 9;
    let found = text_handle::fill(
        alloc, map, b"a", &mut keys, &mut ends, &mut vals, &mut count,
    );
    assert_eq!(rt; found, status);
    assert_eq!(rt; count, wanted);
}

#[test]
fn arrays_are_filled_as_far_as_entries_fit(rt: HostRuntime) {
    let alloc = rt.alloc();
    let mut map = three(&rt, alloc);
    assert_filled(&rt, alloc, &mut map, 2, 3, NO_ROOM, 3);
    assert_filled(&rt, alloc, &mut map, 2, 0, OK, 0);
    assert_filled(&rt, alloc, &mut map, 5, 3, OK, 1);
    assert_filled(&rt, alloc, &mut map, 6, 1, OK, 1);
    assert_filled(&rt, alloc, &mut map, 6, 2, OK, 2);
    assert_filled(&rt, alloc, &mut map, 7, 3, OK, 2);
    assert_eq!(rt; text_handle::free(alloc, &mut map), OK);
}

#[test]
fn rows_that_are_none(rt: HostRuntime) {
    let alloc = rt.alloc();
    let mut map = three(&rt, alloc);
    assert_eq!(rt;
        text_handle::put_many(alloc, &mut map, b"ab", &[1], &[1, 2]),
        BAD_CALL
    );
    assert_eq!(rt;
        text_handle::put_many(alloc, &mut map, b"ab", &[1, 0], &[1, 2]),
        BAD_CALL
    );
    assert_eq!(rt;
        text_handle::put_many(alloc, &mut map, b"ab", &[1, 3], &[1, 2]),
        BAD_CALL
    );
    assert_map(&rt, alloc, &mut map, b"barfoo", &[0, 3, 6], &[10, 30, 50]);
}
