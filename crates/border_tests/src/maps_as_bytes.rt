//! Maps as bytes, of which the expected ones are made by another program, with zlib's Adler-32.
use entry_bytes::DecodeFault;
use map_bytes::{decode, encode};
use map_folds::SumMaxMin;
use ord_map::OrdMap;
use std::alloc::Global;
use std::process::Abort;

type Sums = OrdMap<SumMaxMin<u64>>;

/// The bytes of the map of some pairs.
fn bytes_of<R: Abort>(rt: &R, alloc: Global, pairs: &[(u64, u64)]) -> Vec<u8> {
    let map: Sums = OrdMap::from_pairs(alloc, pairs).expect(rt, "memory");
    encode(alloc, &map).expect(rt, "memory")
}

/// The entries that bytes are read as.
fn entries_of<R: Abort>(rt: &R, alloc: Global, bytes: &[u8]) -> Vec<(u64, u64)> {
    let map = decode(alloc, bytes).expect(rt, "a map");
    let mut list = Vec::new(alloc);
    for entry in map.iter(alloc) {
        list.push(entry.expect(rt, "memory")).expect(rt, "memory");
    }
    list
}

/// Asserts that the map of these entries has these bytes, and is read off them.
fn assert_bytes<R: Abort>(rt: &R, alloc: Global, entries: &[(u64, u64)], bytes: &[u8]) {
    assert_eq!(rt; bytes_of(rt, alloc, entries).as_slice(), bytes);
    assert_eq!(rt; entries_of(rt, alloc, bytes).as_slice(), entries);
}

fn fault_of(alloc: Global, bytes: &[u8]) -> Option<DecodeFault> {
    match decode(alloc, bytes) {
        Ok(_) => None,
        Err(fault) => Some(fault),
    }
}

/// Asserts that bytes are those of no map, by this fault.
fn assert_fault<R: Abort>(rt: &R, alloc: Global, bytes: &[u8], fault: DecodeFault) {
    assert_eq!(rt; fault_of(alloc, bytes), Some(fault));
}

const TWO: &[(u64, u64)] = &[(1, 10), (300, 5)];

const TWO_BYTES: &[u8] = b"PAMB\x01\x01\x02\x01\x0a\xab\x02\x05\x0e\x3d\x01\xe2";

#[test]
fn maps_have_the_bytes_of_another_program(rt: HostRuntime) {
    let alloc = rt.alloc();
    assert_bytes(&rt, alloc, &[], b"PAMB\x01\x01\x00\x06\x4b\x01\x23");
    assert_bytes(
        &rt,
        alloc,
        &[(0, 0)],
        b"PAMB\x01\x01\x01\x00\x00\x08\x94\x01\x24",
    );
    assert_bytes(&rt, alloc, TWO, TWO_BYTES);
}

#[test]
fn numbers_at_the_ends_of_their_lengths(rt: HostRuntime) {
    let alloc = rt.alloc();
    assert_bytes(
        &rt,
        alloc,
        &[(0, 0), (u64::MAX, u64::MAX)],
        b"PAMB\x01\x01\x02\x00\x00\xff\xff\xff\xff\xff\xff\xff\xff\xff\x01\xff\xff\xff\xff\xff\xff\xff\xff\xff\x01\xe4\xc1\x13\x15",
    );
    assert_bytes(
        &rt,
        alloc,
        &[(127, 128), (255, 16383), (16639, 16384)],
        b"PAMB\x01\x01\x03\x7f\x80\x01\x80\x01\xff\x7f\x80\x80\x01\x80\x80\x01\x3a\x39\x06\x27",
    );
}

#[test]
fn bytes_of_no_header(rt: HostRuntime) {
    let alloc = rt.alloc();
    assert_fault(&rt, alloc, b"", DecodeFault::Short);
    assert_fault(&rt, alloc, b"PAMB\x01", DecodeFault::Short);
    assert_fault(
        &rt,
        alloc,
        b"PAMC\x01\x01\x02\x01\x0a\xab\x02\x05\x0e\x3d\x01\xe2",
        DecodeFault::Magic,
    );
    assert_fault(
        &rt,
        alloc,
        b"PAMB\x02\x01\x02\x01\x0a\xab\x02\x05\x0e\x3d\x01\xe2",
        DecodeFault::Version,
    );
    assert_fault(
        &rt,
        alloc,
        b"PAMB\x01\x02\x02\x01\x0a\xab\x02\x05\x0e\x3d\x01\xe2",
        DecodeFault::Kind,
    );
}

#[test]
fn more_entries_than_there_is_room_for(rt: HostRuntime) {
    let alloc = rt.alloc();
    assert_fault(
        &rt,
        alloc,
        b"PAMB\x01\x01\x03\x01\x01\x08\x9d\x01\x28",
        DecodeFault::Short,
    );
    assert_fault(
        &rt,
        alloc,
        b"PAMB\x01\x01\xff\xff\xff\xff\xff\xff\xff\xff\xff\x01\0\0\0\0\0\0\0\0\0\0\0\0\0\0\0\0\0\0\0\0",
        DecodeFault::Short,
    );
    assert_fault(
        &rt,
        alloc,
        b"PAMB\x01\x01\x02\x07\xff\xff\xff\xff\xff\xff\xff",
        DecodeFault::Short,
    );
}

#[test]
fn numbers_that_are_none(rt: HostRuntime) {
    let alloc = rt.alloc();
    assert_fault(
        &rt,
        alloc,
        b"PAMB\x01\x01\x80\x00\x08\x6e\x01\xa3",
        DecodeFault::Number,
    );
    assert_fault(
        &rt,
        alloc,
        b"PAMB\x01\x01\x01\x80\x80\x80\x80\x80\x80\x80\x80\x80\x02\x05\x32\x61\x05\xab",
        DecodeFault::Number,
    );
    assert_fault(
        &rt,
        alloc,
        b"PAMB\x01\x01\x01\xff\xff\xff\xff\xff\xff\xff\xff\xff\xff\x01\x05\x5e\xb8\x0b\x20",
        DecodeFault::Number,
    );
    assert_fault(
        &rt,
        alloc,
        b"PAMB\x01\x01\x01\x07\x85\x00\x0a\xd7\x01\xb0",
        DecodeFault::Number,
    );
}

#[test]
fn keys_that_do_not_rise(rt: HostRuntime) {
    let alloc = rt.alloc();
    assert_fault(
        &rt,
        alloc,
        b"PAMB\x01\x01\x02\x07\x01\x00\x01\x0b\x01\x01\x2e",
        DecodeFault::Order,
    );
    assert_fault(
        &rt,
        alloc,
        b"PAMB\x01\x01\x02\xff\xff\xff\xff\xff\xff\xff\xff\xff\x01\x01\x01\x01\x65\xe7\x0a\x20",
        DecodeFault::Order,
    );
}

#[test]
fn another_checksum_and_bytes_behind_it(rt: HostRuntime) {
    let alloc = rt.alloc();
    assert_fault(
        &rt,
        alloc,
        b"PAMB\x01\x01\x02\x01\x0a\xab\x02\x05\0\0\0\0",
        DecodeFault::Checksum,
    );
    assert_fault(
        &rt,
        alloc,
        b"PAMB\x01\x01\x02\x01\x0a\xab\x02\x05\x0e\x3d\x01\xe2\0",
        DecodeFault::Trailing,
    );
}

#[test]
fn bytes_that_are_cut_anywhere(rt: HostRuntime) {
    let alloc = rt.alloc();
    for end in 0..TWO_BYTES.len() {
        assert_fault(&rt, alloc, &TWO_BYTES[..end], DecodeFault::Short);
    }
}

#[test]
fn each_bit_that_is_turned(rt: HostRuntime) {
    let alloc = rt.alloc();
    let mut bytes = TWO_BYTES.to_vec(alloc).expect(&rt, "memory");
    for at in 0..bytes.len() {
        for bit in 0..8u32 {
            bytes[at] ^= 1u8 << bit;
            assert!(rt; fault_of(alloc, &bytes).is_some());
            bytes[at] ^= 1u8 << bit;
        }
    }
}

const MANY: u64 = 100_000;

#[test]
fn a_hundred_thousand_entries(rt: HostRuntime) {
    let alloc = rt.alloc();
    let mut entries = Vec::new(alloc);
    for key in 1..=MANY {
        entries.push((key, key % 100)).expect(&rt, "memory");
    }
    let bytes = bytes_of(&rt, alloc, &entries);
    assert_eq!(rt; bytes.len(), 200_013);
    assert_eq!(rt; &bytes[200_009..], [0x26, 0x6a, 0x15, 0x69].as_slice());
    assert!(rt; entries_of(&rt, alloc, &bytes) == entries);
}
