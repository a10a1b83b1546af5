//! A root of a served map, with one reader. Where memory is refused, the test ends here.
ghost use Rattle.std.specs.Prelude.{◌≡◌, IfOk};
ghost use Rattle.version_root.specs.Public.{IsPrefix};

use aug_monoid::NoMemory;
use fork_join::{Cut, FreeGate};
use served_map::{Op, Served};
use std::alloc::Global;
use std::marker::Sync;
use std::process::Abort;
use std::sync::Wait;
use std::thread::Threads;
use version_root::{Batch, Entry, Reader, Version, Writer, start};

/// Asserts what a version's number and its entries are.
fn assert_told<R: Abort>(
    rt: &R,
    alloc: Global,
    version: &Version<Served>,
    number: u64,
    wanted: &[(u64, u64)],
) {
    let entries = version.state().map().to_vec(alloc).expect(rt, "memory");
    assert_eq!(rt; entries.as_slice(), wanted);
    assert!(rt; version.number() == number);
}

/// A root of the map without entries.
fn one_reader(alloc: Global) -> Result<(Writer<Served>, Reader<Served>), NoMemory>
    ensures { IfOk result (λ ends. ends.1.root ≡ ends.0.root) }
{
    let (writer, mut readers) = start(alloc, Served::new(), 1)?;
    let reader = readers.pop().ok_or(NoMemory)?;
    Ok((writer, reader))
}

fn two_ends<R: Abort>(rt: &R, alloc: Global) -> (Writer<Served>, Reader<Served>)
    ensures { result.1.root ≡ result.0.root }
{
    one_reader(alloc).expect(rt, "memory")
}

/// An entry that sets the value at 1 to 10.
fn ten<R: Abort>(rt: &R, alloc: Global) -> Entry<Op> {
    let ops = Vec::from_slice(alloc, &[Op::Put { key: 1, val: 10 }]).expect(rt, "memory");
    Entry {
        caller: 0,
        tag: 0,
        batch: Batch::new(alloc, ops).expect(rt, "memory"),
    }
}

/// The version with one more entry.
fn longer<R: Threads + Abort + Sync>(
    rt: &R,
    alloc: Global,
    version: &Version<Served>,
) -> Version<Served>
    ensures base { result.base ≡ version.now.base }
    ensures grows { IsPrefix version.now.journal result.journal }
{
    let entries = [ten(rt, alloc)];
    let longer = version.extend(rt, alloc, &FreeGate, Cut::new(1, 1024), &entries);
    longer.expect(rt, "memory")
}

/// The writer publishes its version with one more entry.
fn publish<R: Threads + Wait + Abort + Sync>(rt: &R, alloc: Global, writer: &mut Writer<Served>)
    ensures { writer.new.root ≡ writer.old.root }
{
    let version = longer(rt, alloc, writer.current());
    writer.publish(rt, alloc, version).expect(rt, "memory");
}

/// The writer tells the reader of its version.
fn tell<R: Abort>(rt: &R, writer: &mut Writer<Served>, reader: &mut Reader<Served>)
    requires { reader.old.root ≡ writer.old.root }
    ensures writer { writer.new.root ≡ writer.old.root }
    ensures reader { reader.new.root ≡ reader.old.root }
{
    match writer.tell() {
        Ok(notice) => reader.learn(notice),
        Err(_) => panic!(rt; "memory"),
    }
}

/// The reader tells the writer of its version.
fn answer<R: Wait + Abort>(rt: &R, writer: &mut Writer<Served>, reader: &mut Reader<Served>)
    requires { reader.old.root ≡ writer.old.root }
    ensures { reader.new.root ≡ reader.old.root }
{
    match reader.note() {
        Ok(notice) => writer.take_in(rt, notice),
        Err(_) => panic!(rt; "memory"),
    }
}

/// The version that a reader takes, which keeps its root.
fn taken<R: Wait + Abort>(rt: &R, alloc: Global, reader: &mut Reader<Served>) -> Version<Served>
    ensures { reader.new.root ≡ reader.old.root }
{
    reader.snapshot(rt, alloc).expect(rt, "memory")
}

#[test]
fn a_held_version_stays_and_the_newest_is_found(rt: HostRuntime) {
    let alloc = rt.alloc();
    let (mut writer, mut reader) = two_ends(&rt, alloc);
    let held = taken(&rt, alloc, &mut reader);
    publish(&rt, alloc, &mut writer);
    tell(&rt, &mut writer, &mut reader);
    assert_told(&rt, alloc, &taken(&rt, alloc, &mut reader), 1, &[(1, 10)]);
    answer(&rt, &mut writer, &mut reader);
    let again = reader.try_snapshot(alloc).expect(&rt, "a turn");
    assert_told(&rt, alloc, &again, 1, &[(1, 10)]);
    assert_told(&rt, alloc, &held, 0, &[]);
}
