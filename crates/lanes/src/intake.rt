//! The end of a lane that takes items in.
ghost use Rattle.std.specs.Prelude.{◌≡◌, ◌≤◌, List, ◌++◌, length, OnOk, OnErr, vec_len, vec_capacity};

use crate::moves::{pass_waiting, take_known};
use crate::submitter::Submitter;
use aug_monoid::NoMemory;
use rtrb::Consumer;
use std::marker::Model;

/// The receiving end, seen as its lane and the list of all items received.
pub struct Intake<T> {
    pub(crate) ring: Consumer<T>,
}

impl<T: Drop> Drop for Intake<T> {
    fn drop(self) {
        let Intake { ring } = self;
        drop(ring);
    }
}

impl<T> Model for Intake<T> {
    ghost use Rattle.lanes.specs.Lane.{Receiving, receiving_of};

    ghost Value = { Receiving T };

    ghost view = { λ a. receiving_of a.ring };
}

impl<T: Drop> Intake<T> {
    /// Moves the items that it sees in the ring into the room's spare places. It takes no memory and never blocks.
    /// How many items it sees is open. O(1) an item.
    pub fn poll(&mut self, room: &mut Vec<T>)
        ensures lane { self.new.lane ≡ self.old.lane }
        ensures polled { (items : List T) × (self.new.received ≡ self.old.received ++ items) × (room.new.items ≡ room.old.items ++ items) }
        ensures room { vec_len room.new ≤ vec_capacity room.old }
    {
        let capacity = room.capacity();
        for _ in 0..capacity {
            if room.len() >= capacity {
                break;
            }
            let Ok(item) = self.ring.pop() else {
                break;
            };
            let Ok(()) = room.push(item) else {
                unreachable!()
            };
        }
    }

    /// How many of the items sent aren't received, and that those received are the first ones. O(1), and it takes no memory.
    pub fn beside(&mut self, from: &mut Submitter<T>) -> u64
        requires { self.old.lane ≡ from.old.lane }
        ensures intake { self.new ≡ self.old }
        ensures submitter { from.new ≡ from.old }
        ensures left { (items : List T) × (self.new.received ++ items ≡ from.new.sent) × (result ≡ length items) }
    {
        let known = self.ring.slots_beside(&mut from.ring);
        known as u64 + from.waiting.len() as u64
    }

    /// Takes all items sent that aren't received, and puts them at the end of the list.
    /// It goes on in order: what the ring holds, then what waits. O(1) an item. A refusal changes nothing.
    pub fn collect(&mut self, from: &mut Submitter<T>, out: &mut Vec<T>) -> Result<(), NoMemory>
        requires { self.old.lane ≡ from.old.lane }
        ensures lane { self.new.lane ≡ self.old.lane }
        ensures submitter { from.new ≡ from.old }
        ensures all { OnOk result (self.new.received ≡ from.new.sent) }
        ensures moved { OnOk result ((items : List T) × (self.new.received ≡ self.old.received ++ items) × (out.new.items ≡ out.old.items ++ items)) }
        ensures err { OnErr result (self.new ≡ self.old) }
        ensures out { OnErr result (out.new.items ≡ out.old.items) }
    {
        let known = self.ring.slots_beside(&mut from.ring);
        out.reserve(known + from.waiting.len())?;
        take_known(&mut self.ring, known, out);
        pass_waiting(&mut from.ring, &mut from.waiting, &mut self.ring, out);
        Ok(())
    }
}
