//! The end of a lane that submits, and how a lane is made.
ghost use Rattle.std.specs.Prelude.{◌≡◌, ◌≤◌, ◌^◌, List, [], ◌∷◌, ◌++◌, length, OnOk, OnErr, IfOk, IfErr};
ghost use Rattle.rtrb.specs.Ring.{sent, SameProducer};

use crate::intake::Intake;
use aug_monoid::NoMemory;
use rtrb::{Producer, PushError, RingBuffer};
use std::alloc::{AllocFailed, Global};
use std::collections::VecDeque;
use std::marker::Model;

/// The places of a ring.
const PLACES: usize = 1024;

/// More items than this can't wait.
const MOST_WAITING: usize = 1 << 60;

/// The submitting end, seen as its lane and the list of all items sent: those pushed into the ring, then those that wait.
pub struct Submitter<T> {
    pub(crate) ring: Producer<T>,
    pub(crate) waiting: VecDeque<T>,
}

impl<T: Drop> Drop for Submitter<T> {
    fn drop(self) {
        let Submitter { ring, waiting } = self;
        drop(ring);
        drop(waiting);
    }
}

impl<T> Model for Submitter<T> {
    ghost use Rattle.std.specs.Prelude.{◌≡◌, ◌≤◌, ◌^◌, length};
    ghost use Rattle.rtrb.specs.Ring.{producer_capacity};
    ghost use Rattle.lanes.specs.Lane.{Sending, sending_of};

    ghost Value = { Sending T };

    ghost view = { λ a. sending_of a.ring a.waiting.items };

    ghost invariant = { λ a. (producer_capacity a.ring ≡ 1024) × (length a.waiting.items ≤ 2 ^ 60) };
}

/// A new lane, with both its ends.
#[derive(Drop)]
pub struct Lane<T> {
    pub submitter: Submitter<T>,
    pub intake: Intake<T>,
}

/// A value that was not sent, and why.
#[derive(Drop)]
pub struct Refused<T> {
    pub value: T,
    pub cause: NoMemory,
}

impl<T: Drop> Lane<T> {
    /// The two ends of one lane, on which nothing was sent. It takes the memory of the ring, which has 1024 places.
    pub fn make(alloc: Global) -> Result<Lane<T>, NoMemory>
        ensures lane { IfOk result (λ lane. lane.submitter.lane ≡ lane.intake.lane) }
        ensures sent { IfOk result (λ lane. lane.submitter.sent ≡ []) }
        ensures received { IfOk result (λ lane. lane.intake.received ≡ []) }
    {
        let (producer, consumer) = RingBuffer::new(alloc, PLACES)?;
        Ok(Lane {
            submitter: Submitter {
                ring: producer,
                waiting: VecDeque::new(alloc),
            },
            intake: Intake { ring: consumer },
        })
    }
}

impl<T: Drop> Submitter<T> {
    /// Sends the value. It first moves what waits into the ring, in order, while the ring has places, and never blocks.
    /// It takes memory only where the value has to wait. A refusal hands the value back, and nothing was sent.
    ///
    /// Each value is moved at most once, so a submit takes O(1) on average, and at most 1024 moves.
    pub fn submit(&mut self, value: T) -> Result<(), Refused<T>>
        ensures lane { self.new.lane ≡ self.old.lane }
        ensures ok { OnOk result (self.new.sent ≡ self.old.sent ++ value ∷ []) }
        ensures value { IfErr result (λ refused. refused.value ≡ value) }
        ensures err { OnErr result (self.new ≡ self.old) }
    {
        refill(&mut self.ring, &mut self.waiting);
        if self.waiting.is_empty() {
            match self.ring.push(value) {
                Ok(()) => Ok(()),
                Err(PushError::Full(value)) => wait(&mut self.waiting, value),
            }
        } else {
            wait(&mut self.waiting, value)
        }
    }
}

/// Moves the first values that wait into the ring, while it has places.
fn refill<T>(ring: &mut Producer<T>, waiting: &mut VecDeque<T>)
    ensures ring { SameProducer ring.old ring.new }
    ensures sent { sent ring.new ++ waiting.new.items ≡ sent ring.old ++ waiting.old.items }
    ensures fewer { length waiting.new.items ≤ length waiting.old.items }
{
    while !waiting.is_empty() && !ring.is_full() {
        let Some(value) = waiting.pop_front() else {
            unreachable!()
        };
        ring.push_reserved(value);
    }
}

/// Puts a value at the end of the list of those that wait.
fn wait<T: Drop>(waiting: &mut VecDeque<T>, value: T) -> Result<(), Refused<T>>
    ensures ok { OnOk result (waiting.new.items ≡ waiting.old.items ++ value ∷ []) }
    ensures err { IfErr result (λ refused. (refused.value ≡ value) × (waiting.new.items ≡ waiting.old.items)) }
    ensures few { length waiting.old.items ≤ 2 ^ 60 → length waiting.new.items ≤ 2 ^ 60 }
{
    if waiting.len() >= MOST_WAITING {
        return Err(Refused {
            value,
            cause: NoMemory,
        });
    }
    match waiting.push_back(value) {
        Ok(()) => Ok(()),
        Err(AllocFailed { value }) => Err(Refused {
            value,
            cause: NoMemory,
        }),
    }
}
