//! The bookings of a room for a day, as intervals of minutes since midnight.

use anyhow::Result;
use aug_monoid::Share;
use interval_map::Intervals;
use std::alloc::Global;

// The minutes since midnight of an hour and a minute.
fn time(hour: u64, minute: u64) -> u64 {
    hour.saturating_mul(60).saturating_add(minute)
}

// A meeting is booked where it ends no earlier than it begins.
fn book(alloc: Global, room: &mut Intervals, from: u64, to: u64) -> Result<()> {
    if from <= to {
        room.add_mut(alloc, from, to)?;
    }
    Ok(())
}

/// Three meetings, a fourth one that would overlap, and a free time for it.
pub(crate) fn page(alloc: Global) -> Result<String> {
    let mut room = Intervals::new();
    book(alloc, &mut room, time(9, 0), time(9, 59))?;
    book(alloc, &mut room, time(10, 0), time(10, 29))?;
    book(alloc, &mut room, time(13, 0), time(14, 59))?;
    let wanted = (time(10, 15), time(11, 14));
    let clash = room.first_overlapping(alloc, wanted.0, wanted.1)?;
    let later = (time(10, 30), time(11, 29));
    let free = !room.any_overlapping(alloc, later.0, later.1);
    let before = room.share(alloc)?; // costs no more than a pointer
    if free {
        book(alloc, &mut room, later.0, later.1)?;
    }
    let busy = room.overlap(alloc, time(10, 0), time(12, 0))?;
    let text = format!(in alloc;
        "the first meeting in the way of 10:15 to 11:14: {clash:?}\n10:30 is free: {free}\nfrom 10:00 to 12:00 now: {busy:?}\nin use at 11:00 before and after: {}, {}\n",
        before.any(alloc, time(11, 0)),
        room.any(alloc, time(11, 0))
    )?;
    Ok(text)
}
