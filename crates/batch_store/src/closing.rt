//! What writer and readers tell each other at the end of a round.
ghost use Rattle.std.specs.Prelude.{◌≡◌, [], ◌++◌, ◌⊎◌, length, OnOk, OnErr, IfOk, All};
ghost use Rattle.version_root.specs.Public.{IsPrefix};
ghost use Rattle.batch_store.specs.Calling.{SameCaller};
ghost use Rattle.batch_store.specs.Hearing.{HaveSeen};
ghost use Rattle.batch_store.specs.Round.{AreTold};

use crate::caller::Caller;
use crate::publishing::publish_all;
use aug_monoid::NoMemory;
use fork_join::{Gate, On};
use std::alloc::Global;
use std::marker::Sync;
use std::sync::Wait;
use std::thread::Threads;
use version_root::{Entry, State, Writer};

/// What the caller has seen is a beginning of the journal.
fn take_in<S: State, R: Wait>(
    rt: &R,
    writer: &mut Writer<S>,
    caller: &mut Caller<S>,
) -> Result<(), NoMemory>
    requires { caller.old.reader.root ≡ writer.old.root }
    ensures writer { writer.new ≡ writer.old }
    ensures caller { caller.new ≡ caller.old }
    ensures ok { OnOk result (IsPrefix caller.new.reader.seen writer.new.journal) }
{
    let notice = caller.reader.note()?;
    writer.take_in(rt, notice);
    Ok(())
}

/// The caller sees the journal.
fn show<S: State>(writer: &mut Writer<S>, caller: &mut Caller<S>) -> Result<(), NoMemory>
    requires root { caller.old.reader.root ≡ writer.old.root }
    requires seen { IsPrefix caller.old.reader.seen writer.old.journal }
    ensures writer { writer.new ≡ writer.old }
    ensures caller { SameCaller caller.old caller.new × (caller.new.sent ≡ caller.old.sent) }
    ensures ok { OnOk result (caller.new.reader.seen ≡ writer.new.journal) }
    ensures err { OnErr result (caller.new ≡ caller.old) }
{
    let notice = writer.tell()?;
    caller.reader.learn(notice);
    Ok(())
}

/// What each caller has seen is a beginning of the journal.
fn take_in_all<S: State, R: Wait>(
    rt: &R,
    writer: &mut Writer<S>,
    callers: &mut [Caller<S>],
) -> Result<(), NoMemory>
    requires { All (λ caller. caller.reader.root ≡ writer.old.root) callers.old }
    ensures writer { writer.new ≡ writer.old }
    ensures callers { callers.new ≡ callers.old }
    ensures ok { OnOk result (HaveSeen (length callers.new) writer.new.journal callers.new) }
{
    for at in 0..callers.len() {
        take_in(rt, writer, &mut callers[at])?;
    }
    Ok(())
}

/// Each caller sees the journal.
fn show_all<S: State>(writer: &mut Writer<S>, callers: &mut [Caller<S>]) -> Result<(), NoMemory>
    requires roots { All (λ caller. caller.reader.root ≡ writer.old.root) callers.old }
    requires seen { HaveSeen (length callers.old) writer.old.journal callers.old }
    ensures writer { writer.new ≡ writer.old }
    ensures callers { AreTold writer.new.journal callers.old callers.new }
    ensures ok { OnOk result (All (λ caller. caller.reader.seen ≡ writer.new.journal) callers.new) }
{
    for at in 0..callers.len() {
        show(writer, &mut callers[at])?;
    }
    Ok(())
}

/// Tells the writer what each caller has seen, and each caller the journal.
pub(crate) fn tell_all<S: State, R: Wait>(
    rt: &R,
    writer: &mut Writer<S>,
    callers: &mut [Caller<S>],
) -> Result<(), NoMemory>
    requires { All (λ caller. caller.reader.root ≡ writer.old.root) callers.old }
    ensures writer { writer.new ≡ writer.old }
    ensures callers { AreTold writer.new.journal callers.old callers.new }
    ensures ok { OnOk result (All (λ caller. caller.reader.seen ≡ writer.new.journal) callers.new) }
    ensures seen { OnOk result (HaveSeen (length callers.old) writer.new.journal callers.old) }
{
    take_in_all(rt, writer, callers)?;
    show_all(writer, callers)
}

/// Publishes all that is pending, and tells each caller the journal.
pub(crate) fn close<S: State, R: Threads + Wait + Sync, G: Gate>(
    on: On<R, G>,
    alloc: Global,
    writer: &mut Writer<S>,
    pending: &mut Vec<Entry<S::Op>>,
    callers: &mut [Caller<S>],
) -> Result<u64, NoMemory>
    requires { All (λ caller. caller.reader.root ≡ writer.old.root) callers.old }
    ensures root { (writer.new.root ≡ writer.old.root) × (writer.new.base ≡ writer.old.base) }
    ensures callers { AreTold writer.new.journal callers.old callers.new }
    ensures whole { ((writer.new.journal ≡ writer.old.journal) × (pending.new.items ≡ pending.old.items)) ⊎ ((writer.new.journal ≡ writer.old.journal ++ pending.old.items) × (pending.new.items ≡ [])) }
    ensures number { IfOk result (λ number. number ≡ length writer.new.journal) }
    ensures published { OnOk result ((writer.new.journal ≡ writer.old.journal ++ pending.old.items) × (pending.new.items ≡ [])) }
    ensures seen { OnOk result (HaveSeen (length callers.old) writer.new.journal callers.old × All (λ caller. caller.reader.seen ≡ writer.new.journal) callers.new) }
{
    let number = publish_all(on, alloc, writer, pending.as_slice())?;
    pending.clear();
    tell_all(on.rt, writer, callers)?;
    Ok(number)
}
