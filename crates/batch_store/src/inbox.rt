//! What goes from the lanes into the pending list.
ghost use Rattle.std.specs.Prelude.{◌≡◌, ◌≤◌, ◌+◌, List, [], ◌++◌, length, map, vec_len, vec_capacity, IfOk};
ghost use Rattle.batch_store.specs.Journal.{entry_of, IsTakenFrom};

use crate::submitted::Submitted;
use aug_monoid::{NoMemory, Share};
use lanes::Intake;
use std::alloc::Global;
use version_root::Entry;

/// How many items a turn takes from one lane at most: as many as a lane's ring has places.
const ROOM: usize = 1024;

/// The store's ends of the lanes, and what was taken from them and is not yet published.
#[derive(Drop)]
pub(crate) struct Inbox<O: Drop> {
    pub(crate) intakes: Vec<Intake<Submitted<O>>>,
    pub(crate) pending: Vec<Entry<O>>,
    /// One room for all lanes, which is empty between two of them.
    pub(crate) room: Vec<Submitted<O>>,
}

/// Moves the items to the end of the pending list, with their caller's number.
pub(crate) fn file<O: Share>(
    items: &mut Vec<Submitted<O>>,
    caller: u32,
    pending: &mut Vec<Entry<O>>,
)
    requires { vec_len pending.old + vec_len items.old ≤ vec_capacity pending.old }
    ensures items { items.new.items ≡ [] }
    ensures pending { pending.new.items ≡ pending.old.items ++ map (entry_of caller) items.old.items }
{
    for item in items.drain(..) {
        let Submitted { tag, batch } = item;
        let Ok(()) = pending.push(Entry { caller, tag, batch }) else {
            unreachable!()
        };
    }
}

/// Takes what a lane shows. The pending list grows first, so a refusal has taken nothing.
fn take<O: Share>(
    intake: &mut Intake<Submitted<O>>,
    caller: u32,
    room: &mut Vec<Submitted<O>>,
    pending: &mut Vec<Entry<O>>,
) -> Result<(), NoMemory>
    requires { room.old.items ≡ [] }
    ensures lane { intake.new.lane ≡ intake.old.lane }
    ensures room { room.new.items ≡ [] }
    ensures took { (items : List _) × (intake.new.received ≡ intake.old.received ++ items) × (pending.new.items ≡ pending.old.items ++ map (entry_of caller) items) }
{
    pending.reserve(room.capacity())?;
    intake.poll(room);
    file(room, caller, pending);
    Ok(())
}

/// Takes what each lane shows. On a refusal what was taken so far is pending.
pub(crate) fn take_all<O: Share>(
    intakes: &mut [Intake<Submitted<O>>],
    room: &mut Vec<Submitted<O>>,
    pending: &mut Vec<Entry<O>>,
) -> Result<(), NoMemory>
    requires few { length intakes.old ≤ 64 }
    requires room { room.old.items ≡ [] }
    ensures room { room.new.items ≡ [] }
    ensures took { (taken : List _) × (pending.new.items ≡ pending.old.items ++ taken) × IsTakenFrom taken intakes.old intakes.new }
{
    for caller in 0..intakes.len() {
        take(&mut intakes[caller], caller as u32, room, pending)?;
    }
    Ok(())
}

impl<O: Share> Inbox<O> {
    /// The inbox of these lanes, with an empty list.
    pub(crate) fn new(
        alloc: Global,
        intakes: Vec<Intake<Submitted<O>>>,
    ) -> Result<Inbox<O>, NoMemory>
        ensures { IfOk result (λ inbox. (inbox.intakes.items ≡ intakes.items) × (inbox.pending.items ≡ []) × (inbox.room.items ≡ [])) }
    {
        Ok(Inbox {
            intakes,
            pending: Vec::with_capacity(alloc, ROOM)?,
            room: Vec::with_capacity(alloc, ROOM)?,
        })
    }

    /// Takes what each lane shows. It takes no memory where no lane shows anything and nothing is pending.
    pub(crate) fn take(&mut self) -> Result<(), NoMemory>
        requires few { length self.old.intakes.items ≤ 64 }
        requires room { self.old.room.items ≡ [] }
        ensures room { self.new.room.items ≡ [] }
        ensures took { (taken : List _) × (self.new.pending.items ≡ self.old.pending.items ++ taken) × IsTakenFrom taken self.old.intakes.items self.new.intakes.items }
    {
        take_all(&mut self.intakes, &mut self.room, &mut self.pending)
    }
}
