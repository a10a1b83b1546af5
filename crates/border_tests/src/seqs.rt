//! Sequences by handles: each call once, with answers that are known from outside.
use seq_handle::status::{BAD_CALL, NOT_THERE, OK};
use seq_handle::{
    Handle, append, build, closed, fill, fold, fold_range, free, get, len, new, push, push_many,
    reverse, set, share, skip, take,
};
use std::alloc::Global;
use std::test::Fail;

/// Whether an open handle has just the items of a list of at most four.
fn has_items(alloc: Global, seq: &mut Handle, items: &[u64]) -> bool {
    let mut room = [0; 5];
    let mut count = 0;
    let status = fill(alloc, seq, 0, &mut room, &mut count);
    let written = &room[..count.min(5)];
    status == OK && written == items
}

#[test]
fn items_are_pushed_read_and_set(rt: HostRuntime) -> Result<(), Fail> {
    let alloc = rt.alloc();
    let mut seq = closed(alloc);
    let mut item = 9;
    assert_eq!(rt; push(alloc, &mut seq, 1), BAD_CALL);
    assert_eq!(rt; new(alloc, &mut seq), OK);
    assert_eq!(rt; new(alloc, &mut seq), BAD_CALL);
    assert_eq!(rt; push(alloc, &mut seq, 4), OK);
    assert_eq!(rt; push_many(alloc, &mut seq, &[7, 5]), OK);
    assert_eq!(rt; get(alloc, &mut seq, 3, &mut item), NOT_THERE);
    assert_eq!(rt; item, 9);
    assert_eq!(rt; get(alloc, &mut seq, 2, &mut item), OK);
    assert_eq!(rt; item, 5);
    assert_eq!(rt; set(alloc, &mut seq, 1, 8), OK);
    assert_eq!(rt; set(alloc, &mut seq, 3, 8), NOT_THERE);
    assert_eq!(rt; len(alloc, &mut seq, &mut item), OK);
    assert_eq!(rt; item, 3);
    assert!(rt; has_items(alloc, &mut seq, &[4, 8, 5]));
    assert_eq!(rt; free(alloc, &mut seq), OK);
    assert_eq!(rt; free(alloc, &mut seq), OK);
    Ok(())
}

#[test]
fn sequences_are_cut_and_put_together(rt: HostRuntime) -> Result<(), Fail> {
    let alloc = rt.alloc();
    let mut front = closed(alloc);
    let mut back = closed(alloc);
    let mut both = closed(alloc);
    let mut turned = closed(alloc);
    assert_eq!(rt; build(alloc, &mut both, &[1, 2, 3]), OK);
    assert_eq!(rt; take(alloc, &mut both, 1, &mut front), OK);
    assert_eq!(rt; skip(alloc, &mut both, 1, &mut back), OK);
    assert!(rt; has_items(alloc, &mut front, &[1]));
    assert!(rt; has_items(alloc, &mut back, &[2, 3]));
    assert_eq!(rt; append(alloc, &mut back, &mut front, &mut both), BAD_CALL);
    assert_eq!(rt; free(alloc, &mut both), OK);
    assert_eq!(rt; append(alloc, &mut back, &mut front, &mut both), OK);
    assert!(rt; has_items(alloc, &mut both, &[2, 3, 1]));
    assert_eq!(rt; reverse(alloc, &mut both, &mut turned), OK);
    assert!(rt; has_items(alloc, &mut turned, &[1, 3, 2]));
    assert_eq!(rt; free(alloc, &mut front), OK);
    assert_eq!(rt; share(alloc, &mut turned, &mut front), OK);
    assert_eq!(rt; push(alloc, &mut front, 6), OK);
    assert!(rt; has_items(alloc, &mut front, &[1, 3, 2, 6]));
    assert!(rt; has_items(alloc, &mut turned, &[1, 3, 2]));
    free(alloc, &mut front);
    free(alloc, &mut back);
    free(alloc, &mut both);
    free(alloc, &mut turned);
    Ok(())
}

#[test]
fn runs_are_summed_and_written(rt: HostRuntime) -> Result<(), Fail> {
    let alloc = rt.alloc();
    let mut seq = closed(alloc);
    let mut sum = 0;
    let mut greatest = 0;
    let mut room = [9, 9];
    let mut count = 0;
    assert_eq!(rt; build(alloc, &mut seq, &[2, u64::MAX, 5, 1]), OK);
    assert_eq!(rt; fold(alloc, &mut seq, &mut sum, &mut greatest), OK);
    assert_eq!(rt; sum, u64::MAX);
    assert_eq!(rt; greatest, u64::MAX);
    assert_eq!(rt;
        fold_range(alloc, &mut seq, 2, 9, &mut sum, &mut greatest),
        OK
    );
    assert_eq!(rt; sum, 6);
    assert_eq!(rt; greatest, 5);
    assert_eq!(rt; fill(alloc, &mut seq, 2, &mut room, &mut count), OK);
    assert_eq!(rt; room, [5, 1]);
    assert_eq!(rt; count, 2);
    assert_eq!(rt; fill(alloc, &mut seq, 3, &mut room, &mut count), OK);
    assert_eq!(rt; room, [1, 1]);
    assert_eq!(rt; count, 1);
    assert_eq!(rt; free(alloc, &mut seq), OK);
    assert_eq!(rt; fill(alloc, &mut seq, 0, &mut room, &mut count), BAD_CALL);
    Ok(())
}
