//! Sets of intervals by handles: each call once, with answers that are known from outside.
use interval_handle::status::{BAD_CALL, NO_ROOM, NOT_THERE, OK};
use interval_handle::{
    Handle, add, any, build, closed, del, fill, free, len, new, overlapping, share, stab,
};
use std::alloc::Global;
use std::test::Fail;

/// An open handle with the intervals 1 to 4, 3 to 9 and 6 to 7.
fn of_three(alloc: Global) -> Handle {
    let mut set = closed(alloc);
    build(alloc, &mut set, &[6, 1, 3], &[7, 4, 9]);
    set
}

#[test]
fn intervals_are_added_and_removed(rt: HostRuntime) -> Result<(), Fail> {
    let alloc = rt.alloc();
    let mut set = closed(alloc);
    let mut other = closed(alloc);
    let mut number = 0;
    assert_eq!(rt; add(alloc, &mut set, 1, 2), BAD_CALL);
    assert_eq!(rt; new(alloc, &mut set), OK);
    assert_eq!(rt; add(alloc, &mut set, 3, 2), BAD_CALL);
    assert_eq!(rt; add(alloc, &mut set, 2, 5), OK);
    assert_eq!(rt; any(alloc, &mut set, 5), OK);
    assert_eq!(rt; any(alloc, &mut set, 6), NOT_THERE);
    assert_eq!(rt; share(alloc, &mut set, &mut other), OK);
    assert_eq!(rt; del(alloc, &mut set, 2, 4), NOT_THERE);
    assert_eq!(rt; del(alloc, &mut set, 2, 5), OK);
    assert_eq!(rt; len(alloc, &mut set, &mut number), OK);
    assert_eq!(rt; number, 0);
    assert_eq!(rt; len(alloc, &mut other, &mut number), OK);
    assert_eq!(rt; number, 1);
    assert_eq!(rt; free(alloc, &mut set), OK);
    assert_eq!(rt; free(alloc, &mut other), OK);
    Ok(())
}

#[test]
fn a_set_is_built_of_ends_in_order(rt: HostRuntime) -> Result<(), Fail> {
    let alloc = rt.alloc();
    let mut set = closed(alloc);
    let mut number = 0;
    assert_eq!(rt; build(alloc, &mut set, &[1, 5], &[2, 4]), BAD_CALL);
    assert_eq!(rt; build(alloc, &mut set, &[1, 5], &[2]), BAD_CALL);
    assert_eq!(rt; build(alloc, &mut set, &[1, 1], &[2, 2]), OK);
    assert_eq!(rt; len(alloc, &mut set, &mut number), OK);
    assert_eq!(rt; number, 1);
    assert_eq!(rt; free(alloc, &mut set), OK);
    Ok(())
}

#[test]
fn intervals_are_listed_where_there_is_room(rt: HostRuntime) -> Result<(), Fail> {
    let alloc = rt.alloc();
    let mut set = of_three(alloc);
    let mut lefts = [0, 0];
    let mut rights = [0, 0];
    let mut count = 0;
    assert_eq!(rt;
        stab(alloc, &mut set, 4, &mut lefts, &mut rights, &mut count),
        OK
    );
    assert_eq!(rt; lefts, [1, 3]);
    assert_eq!(rt; rights, [4, 9]);
    assert_eq!(rt; count, 2);
    assert_eq!(rt;
        overlapping(alloc, &mut set, 8, 8, &mut lefts, &mut rights, &mut count),
        OK
    );
    assert_eq!(rt; lefts, [3, 3]);
    assert_eq!(rt; rights, [9, 9]);
    assert_eq!(rt; count, 1);
    assert_eq!(rt;
        overlapping(alloc, &mut set, 4, 6, &mut lefts, &mut rights, &mut count),
        NO_ROOM
    );
    assert_eq!(rt; lefts, [3, 3]);
    assert_eq!(rt; rights, [9, 9]);
    assert_eq!(rt; count, 3);
    assert_eq!(rt;
        overlapping(alloc, &mut set, 6, 4, &mut lefts, &mut rights, &mut count),
        BAD_CALL
    );
    assert_eq!(rt;
        fill(alloc, &mut set, 1, 5, &mut lefts, &mut rights, &mut count),
        OK
    );
    assert_eq!(rt; lefts, [3, 6]);
    assert_eq!(rt; rights, [9, 7]);
    assert_eq!(rt; count, 2);
    assert_eq!(rt; free(alloc, &mut set), OK);
    Ok(())
}
