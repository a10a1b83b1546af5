//! The order of the batches, as a text tells it.

use aug_monoid::NoMemory;
use script::number;
use std::alloc::Global;

/// The record's number in the line of a batch at a place.
fn record_in(line: &[u8], place: u64) -> Option<u64> {
    let mut fields = line.split(|byte| *byte == b',');
    if fields.next()? != b"j".as_slice() || number(fields.next()?)? != place {
        return None;
    }
    number(fields.next()?)
}

/// The records' numbers of the batches in their order: those of the first lines, as many as there are, each with its place.
pub(crate) fn order_in(alloc: Global, text: &[u8]) -> Result<Vec<u64>, NoMemory> {
    let mut records = Vec::new(alloc);
    let mut place: u64 = 1;
    for line in text.split(|byte| *byte == b'\n') {
        match record_in(line, place) {
            Some(record) => records.push(record)?,
            None => break,
        }
        place = place.saturating_add(1);
    }
    Ok(records)
}

/// Whether the records from 2 on, which are those of so many callers in turn, stand there once each, and those of a caller in order.
pub(crate) fn is_order_of(
    alloc: Global,
    callers: usize,
    batches: u64,
    order: &[u64],
) -> Result<bool, NoMemory> {
    let mut next = Vec::new(alloc);
    for caller in 0..callers {
        next.push((caller as u64).saturating_add(2))?;
    }
    for record in order {
        let caller = (record.saturating_sub(2) as usize).checked_rem(callers);
        match caller.and_then(|caller| next.get_mut(caller)) {
            Some(place) if *place == *record => *place = place.saturating_add(callers as u64),
            _ => return Ok(false),
        }
    }
    Ok(order.len() as u64 == batches)
}
