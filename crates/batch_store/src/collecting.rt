//! What goes from the callers into the pending list at the end of a round.
ghost use Rattle.std.specs.Prelude.{◌≡◌, ◌≤◌, List, [], ◌++◌, length, map, OnOk, OnErr};
ghost use Rattle.batch_store.specs.Journal.{entry_of, lanes_of, IsTakenFrom};
ghost use Rattle.batch_store.specs.Hearing.{AreAt, AreHeard, HeardAll};

use crate::caller::Caller;
use crate::inbox::{Inbox, file};
use crate::submitted::Submitted;
use aug_monoid::NoMemory;
use lanes::Intake;
use std::alloc::Global;
use version_root::{Entry, State};

/// Takes all that a caller has sent. The pending list grows first, so a refusal has taken nothing.
fn collect_from<S: State>(
    alloc: Global,
    intake: &mut Intake<Submitted<S::Op>>,
    caller: &mut Caller<S>,
    pending: &mut Vec<Entry<S::Op>>,
) -> Result<(), NoMemory>
    requires { intake.old.lane ≡ caller.old.lane }
    ensures lane { intake.new.lane ≡ intake.old.lane }
    ensures caller { caller.new ≡ caller.old }
    ensures took { (items : List _) × (intake.new.received ≡ intake.old.received ++ items) × (pending.new.items ≡ pending.old.items ++ map (entry_of caller.old.number) items) }
    ensures ok { OnOk result (intake.new.received ≡ caller.old.sent) }
    ensures err { OnErr result (intake.new ≡ intake.old) }
{
    let count = intake.beside(&mut caller.submitter);
    pending.reserve(count as usize)?;
    let mut items = Vec::new(alloc);
    intake.collect(&mut caller.submitter, &mut items)?;
    file(&mut items, caller.number, pending);
    Ok(())
}

/// Sees how far a lane is behind its caller.
fn hear<S: State>(intake: &mut Intake<Submitted<S::Op>>, caller: &mut Caller<S>)
    requires { intake.old.lane ≡ caller.old.lane }
    ensures intake { intake.new ≡ intake.old }
    ensures caller { caller.new ≡ caller.old }
    ensures left { (left : List _) × (intake.new.received ++ left ≡ caller.new.sent) }
{
    intake.beside(&mut caller.submitter);
}

/// Sees how far each lane is behind its caller.
fn hear_all<S: State>(intakes: &mut [Intake<Submitted<S::Op>>], callers: &mut [Caller<S>])
    requires { AreAt (lanes_of intakes.old) callers.old }
    ensures intakes { intakes.new ≡ intakes.old }
    ensures callers { callers.new ≡ callers.old }
    ensures heard { AreHeard (length intakes.new) intakes.new callers.new }
{
    for at in 0..intakes.len() {
        hear(&mut intakes[at], &mut callers[at]);
    }
}

/// Takes all that the callers have sent. On a refusal what was taken so far is pending.
fn collect_all<S: State>(
    alloc: Global,
    intakes: &mut [Intake<Submitted<S::Op>>],
    callers: &mut [Caller<S>],
    pending: &mut Vec<Entry<S::Op>>,
) -> Result<(), NoMemory>
    requires at { AreAt (lanes_of intakes.old) callers.old }
    requires heard { AreHeard (length intakes.old) intakes.old callers.old }
    ensures callers { callers.new ≡ callers.old }
    ensures took { (taken : List _) × (pending.new.items ≡ pending.old.items ++ taken) × IsTakenFrom taken intakes.old intakes.new }
    ensures heard { AreHeard (length intakes.new) intakes.new callers.new }
    ensures ok { OnOk result (HeardAll (length intakes.new) intakes.new callers.new) }
{
    for at in 0..intakes.len() {
        collect_from(alloc, &mut intakes[at], &mut callers[at], pending)?;
    }
    Ok(())
}

/// Takes all that the callers have sent, and first sees how far each lane is behind: what is left there is known on a refusal too.
fn hear_and_collect<S: State>(
    alloc: Global,
    intakes: &mut [Intake<Submitted<S::Op>>],
    callers: &mut [Caller<S>],
    pending: &mut Vec<Entry<S::Op>>,
) -> Result<(), NoMemory>
    requires { AreAt (lanes_of intakes.old) callers.old }
    ensures callers { callers.new ≡ callers.old }
    ensures took { (taken : List _) × (pending.new.items ≡ pending.old.items ++ taken) × IsTakenFrom taken intakes.old intakes.new }
    ensures before { AreHeard (length intakes.old) intakes.old callers.old }
    ensures heard { AreHeard (length intakes.new) intakes.new callers.new }
    ensures ok { OnOk result (HeardAll (length intakes.new) intakes.new callers.new) }
{
    hear_all(intakes, callers);
    collect_all(alloc, intakes, callers, pending)
}

/// Takes all that the callers have sent into the inbox.
pub(crate) fn gather<S: State>(
    alloc: Global,
    inbox: &mut Inbox<S::Op>,
    callers: &mut [Caller<S>],
) -> Result<(), NoMemory>
    requires { AreAt (lanes_of inbox.old.intakes.items) callers.old }
    ensures room { inbox.new.room.items ≡ inbox.old.room.items }
    ensures callers { callers.new ≡ callers.old }
    ensures took { (taken : List _) × (inbox.new.pending.items ≡ inbox.old.pending.items ++ taken) × IsTakenFrom taken inbox.old.intakes.items inbox.new.intakes.items }
    ensures before { AreHeard (length inbox.old.intakes.items) inbox.old.intakes.items callers.old }
    ensures heard { AreHeard (length inbox.new.intakes.items) inbox.new.intakes.items callers.new }
    ensures ok { OnOk result (HeardAll (length inbox.new.intakes.items) inbox.new.intakes.items callers.new) }
{
    hear_and_collect(alloc, &mut inbox.intakes, callers, &mut inbox.pending)
}
