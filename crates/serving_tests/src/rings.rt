//! 2000 items go through a lane, with both ends in one thread.
use lanes::Lane;

#[test]
fn all_items_come_in_order(rt: HostRuntime) {
    let alloc = rt.alloc();
    let Lane {
        mut submitter,
        mut intake,
    } = Lane::make(alloc).expect(&rt, "memory");
    for item in 0..2000u64 {
        assert!(rt; submitter.submit(item).is_ok());
    }
    let mut room = Vec::with_capacity(alloc, 100).expect(&rt, "memory");
    intake.poll(&mut room);
    assert!(rt; room.len() >= 100);
    assert_eq!(rt; intake.beside(&mut submitter), 2000 - room.len() as u64);
    intake
        .collect(&mut submitter, &mut room)
        .expect(&rt, "memory");
    assert_eq!(rt; room.len(), 2000);
    for (at, item) in room.iter().enumerate() {
        assert_eq!(rt; *item, at as u64);
    }
    assert_eq!(rt; intake.beside(&mut submitter), 0);
}
