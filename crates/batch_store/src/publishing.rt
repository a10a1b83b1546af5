//! What goes from the pending list into the journal.
ghost use Rattle.std.specs.Prelude.{◌≡◌, ◌++◌, length, OnOk, OnErr, IfOk};

use aug_monoid::NoMemory;
use fork_join::{Gate, On};
use std::alloc::Global;
use std::marker::Sync;
use std::sync::Wait;
use std::thread::Threads;
use version_root::{Entry, State, Writer};

/// Publishes the version with the entries at the end of its journal.
fn extend<S: State, R: Threads + Wait + Sync, G: Gate>(
    on: On<R, G>,
    alloc: Global,
    writer: &mut Writer<S>,
    entries: &[Entry<S::Op>],
) -> Result<(), NoMemory>
    ensures ok { OnOk result (writer.new ≡ record writer.old { journal = writer.old.journal ++ entries.now }) }
    ensures err { OnErr result (writer.new ≡ writer.old) }
{
    let version = writer
        .current()
        .extend(on.rt, alloc, on.gate, on.cut, entries)?;
    writer.publish(on.rt, alloc, version)
}

/// Publishes the entries as one version, if there are any, and answers how many entries the journal has.
pub(crate) fn publish_all<S: State, R: Threads + Wait + Sync, G: Gate>(
    on: On<R, G>,
    alloc: Global,
    writer: &mut Writer<S>,
    entries: &[Entry<S::Op>],
) -> Result<u64, NoMemory>
    ensures root { (writer.new.root ≡ writer.old.root) × (writer.new.base ≡ writer.old.base) }
    ensures number { IfOk result (λ number. number ≡ length writer.new.journal) }
    ensures ok { OnOk result (writer.new.journal ≡ writer.old.journal ++ entries.now) }
    ensures err { OnErr result (writer.new.journal ≡ writer.old.journal) }
{
    if !entries.is_empty() {
        extend(on, alloc, writer, entries)?;
    }
    Ok(writer.current().number())
}
