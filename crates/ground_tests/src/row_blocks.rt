//! The bytes of small blocks of places, worked out by hand, and such blocks through their trait.

use crate::blocks::{seek_of, walked};
use aug_monoid::{Leaf, NoMemory, Pair64, owned};
use row_leaf::{RowLeaf, leaf_crosses};
use std::process::Abort;

#[test]
fn places_of_one_row_have_no_gap(rt: HostRuntime) -> Result<(), NoMemory> {
    let alloc = rt.alloc();
    let low = Pair64 {
        first: 5,
        second: 300,
    };
    let next = Pair64 {
        first: 5,
        second: 301,
    };
    let high = Pair64 {
        first: 7,
        second: 0,
    };
    let entries = [(low, 7), (next, 128), (high, 1)];
    let leaf = RowLeaf::from_entries(alloc, &entries)?;
    let bytes = [
        0x05, 0xac, 0x02, 0x07, 0x00, 0xad, 0x02, 0x80, 0x01, 0x02, 0x00, 0x01,
    ];
    assert_eq!(rt; leaf.code(), bytes.as_slice());
    assert_eq!(rt; walked(&rt, alloc, &leaf).as_slice(), entries.as_slice());
    leaf_crosses(&leaf);
    Ok(())
}

fn assert_seeks<R: Abort>(rt: &R, leaf: &RowLeaf, rows: &[((u64, u64), u64, bool)]) {
    for (key, at, hit) in rows {
        let (first, second) = *key;
        assert_eq!(rt; seek_of(leaf, &Pair64 { first, second }), (*at, *hit));
    }
}

#[test]
fn places_are_sought_by_row_and_then_by_column(rt: HostRuntime) -> Result<(), NoMemory> {
    let alloc = rt.alloc();
    let low = Pair64 {
        first: 5,
        second: 300,
    };
    let next = Pair64 {
        first: 5,
        second: 301,
    };
    let high = Pair64 {
        first: 7,
        second: 0,
    };
    let entries = [(low, 7), (next, 128), (high, 1)];
    let leaf = RowLeaf::from_entries(alloc, &entries)?;
    let rows = [
        ((4, 999), 0, false),
        ((5, 299), 0, false),
        ((5, 300), 0, true),
        ((5, 301), 1, true),
        ((6, 0), 2, false),
        ((7, 0), 2, true),
        ((7, 1), 3, false),
    ];
    assert_seeks(&rt, &leaf, &rows);
    Ok(())
}

#[test]
fn the_greatest_place_and_weight(rt: HostRuntime) -> Result<(), NoMemory> {
    let alloc = rt.alloc();
    let entry = (
        Pair64 {
            first: u64::MAX,
            second: u64::MAX,
        },
        u64::MAX,
    );
    let leaf = RowLeaf::from_owned(alloc, vec![in alloc; entry]?)?;
    let number = [0xff, 0xff, 0xff, 0xff, 0xff, 0xff, 0xff, 0xff, 0xff, 0x01];
    assert_eq!(rt; leaf.code().len(), 30);
    assert_eq!(rt; &leaf.code()[..10], number.as_slice());
    assert_eq!(rt; &leaf.code()[20..], number.as_slice());
    assert!(rt; owned(alloc, leaf.get_at(0))? == Some(entry));
    assert!(rt; owned(alloc, leaf.get_at(1))? == None);
    Ok(())
}

#[test]
fn the_row_after_a_new_one_is_coded_anew(rt: HostRuntime) -> Result<(), NoMemory> {
    let alloc = rt.alloc();
    let low = Pair64 {
        first: 5,
        second: 1,
    };
    let high = Pair64 {
        first: 300,
        second: 6,
    };
    let leaf = RowLeaf::from_entries(alloc, &[(low, 2), (high, 8)])?;
    let key = Pair64 {
        first: 9,
        second: 9,
    };
    let inserted = leaf.splice(alloc, 1, 1, key, 1)?;
    let bytes = [0x05, 0x01, 0x02, 0x04, 0x09, 0x01, 0xa3, 0x02, 0x06, 0x08];
    assert_eq!(rt; inserted.code(), bytes.as_slice());
    assert_eq!(rt; inserted.len(), 3);
    Ok(())
}

#[test]
fn the_row_after_a_changed_one_is_coded_anew(rt: HostRuntime) -> Result<(), NoMemory> {
    let alloc = rt.alloc();
    let low = Pair64 {
        first: 5,
        second: 1,
    };
    let high = Pair64 {
        first: 300,
        second: 6,
    };
    let leaf = RowLeaf::from_entries(alloc, &[(low, 2), (high, 8)])?;
    let key = Pair64 {
        first: 7,
        second: 5,
    };
    let replaced = leaf.splice(alloc, 0, 1, key, 8)?;
    assert_eq!(rt;
        replaced.code(),
        [0x07, 0x05, 0x08, 0xa5, 0x02, 0x06, 0x08].as_slice()
    );
    let rest = leaf.without(alloc, 0)?;
    assert_eq!(rt; rest.code(), [0xac, 0x02, 0x06, 0x08].as_slice());
    Ok(())
}

#[test]
fn parts_are_joined_around_a_place_of_the_same_row(rt: HostRuntime) -> Result<(), NoMemory> {
    let alloc = rt.alloc();
    let low = Pair64 {
        first: 5,
        second: 1,
    };
    let high = Pair64 {
        first: 300,
        second: 6,
    };
    let leaf = RowLeaf::from_entries(alloc, &[(low, 2), (high, 8)])?;
    let front = leaf.front(alloc, 1)?;
    let back = leaf.back(alloc, 1)?;
    assert_eq!(rt; front.code(), [0x05, 0x01, 0x02].as_slice());
    assert_eq!(rt; back.code(), [0xac, 0x02, 0x06, 0x08].as_slice());
    let key = Pair64 {
        first: 5,
        second: 4,
    };
    let whole = front.concat3(alloc, key, 9, &back)?;
    let bytes = [0x05, 0x01, 0x02, 0x00, 0x04, 0x09, 0xa7, 0x02, 0x06, 0x08];
    assert_eq!(rt; whole.code(), bytes.as_slice());
    Ok(())
}
