//! A root over a total behind a door: the worked one, readers beside a writer, and refused copies. Where else memory is
//! refused, a test ends.
ghost use Rattle.std.specs.Prelude.{◌≡◌, IfOk};
ghost use Rattle.version_root.specs.Public.{IsPrefix};

use crate::guarded::{Guarded, HELD, OPEN, SHUT, TRAP};
use crate::journals::{longer, made_longer, told};
use aug_monoid::NoMemory;
use std::alloc::Global;
use std::marker::Sync;
use std::process::Abort;
use std::sync::atomic::{AtomicU64, Ordering};
use std::sync::{Arc, Wait};
use std::thread;
use std::thread::Threads;
use version_root::{Missed, Reader, Version, Writer, start};

fn door<R: Abort>(rt: &R, alloc: Global) -> Arc<AtomicU64> {
    Arc::new(alloc, AtomicU64::new(OPEN)).expect(rt, "memory")
}

/// A root with one reader.
fn one_reader(
    alloc: Global,
    door: &Arc<AtomicU64>,
) -> Result<(Writer<Guarded>, Reader<Guarded>), NoMemory>
    ensures { IfOk result (λ ends. ends.1.root ≡ ends.0.root) }
{
    let (writer, mut readers) = start(alloc, Guarded::new(Arc::try_clone(door)?, 0), 1)?;
    let reader = readers.pop().ok_or(NoMemory)?;
    Ok((writer, reader))
}

fn two_ends<R: Abort>(
    rt: &R,
    alloc: Global,
    door: &Arc<AtomicU64>,
) -> (Writer<Guarded>, Reader<Guarded>)
    ensures { result.1.root ≡ result.0.root }
{
    one_reader(alloc, door).expect(rt, "memory")
}

/// The number and the total of the version that a reader takes.
fn taken<R: Wait + Abort>(rt: &R, alloc: Global, reader: &mut Reader<Guarded>) -> (u64, u64)
    ensures { reader.new.root ≡ reader.old.root }
{
    let version = reader.snapshot(rt, alloc).expect(rt, "memory");
    told(&version)
}

/// The writer publishes its version with one more entry, which adds this number.
fn add<R: Threads + Wait + Abort + Sync>(
    rt: &R,
    alloc: Global,
    writer: &mut Writer<Guarded>,
    number: u64,
)
    ensures { writer.new.root ≡ writer.old.root }
{
    let version = made_longer(rt, alloc, writer.current(), 0, &[number]);
    writer.publish(rt, alloc, version).expect(rt, "memory");
}

/// The writer tells the reader of its version.
fn tell<R: Abort>(rt: &R, writer: &mut Writer<Guarded>, reader: &mut Reader<Guarded>)
    requires { reader.old.root ≡ writer.old.root }
    ensures writer { writer.new.root ≡ writer.old.root }
    ensures reader { reader.new.root ≡ reader.old.root }
{
    match writer.tell() {
        Ok(notice) => reader.learn(notice),
        Err(_) => panic!(rt; "memory"),
    }
}

/// The reader tells the writer of its version.
fn answer<R: Wait + Abort>(rt: &R, writer: &mut Writer<Guarded>, reader: &mut Reader<Guarded>)
    requires { reader.old.root ≡ writer.old.root }
{
    match reader.note() {
        Ok(notice) => writer.take_in(rt, notice),
        Err(_) => panic!(rt; "memory"),
    }
}

#[test]
fn a_notice_shows_what_was_published(rt: HostRuntime) {
    let door = door(&rt, rt.alloc());
    let (mut writer, mut reader) = two_ends(&rt, rt.alloc(), &door);
    assert_eq!(rt; taken(&rt, rt.alloc(), &mut reader), (0, 0));
    add(&rt, rt.alloc(), &mut writer, 10);
    tell(&rt, &mut writer, &mut reader);
    assert_eq!(rt; taken(&rt, rt.alloc(), &mut reader), (1, 10));
    answer(&rt, &mut writer, &mut reader);
}

#[derive(Drop)]
enum End {
    Writer(Writer<Guarded>),
    Reader(Reader<Guarded>),
}

/// Publishes 1000 versions, and answers whether the last one has that number.
fn publish_all<R: Threads + Wait + Abort + Sync>(
    rt: &R,
    alloc: Global,
    writer: &mut Writer<Guarded>,
) -> bool {
    for number in 0..1000 {
        add(rt, alloc, writer, number);
    }
    writer.current().number() == 1000
}

/// Takes 1000 versions, and answers whether their numbers never fell.
fn take_all<R: Wait + Abort>(rt: &R, alloc: Global, reader: &mut Reader<Guarded>) -> bool {
    let mut last = 0;
    let mut rises = true;
    for _ in 0..1000 {
        let (number, _) = taken(rt, alloc, reader);
        rises = rises && last <= number;
        last = number;
    }
    rises
}

fn run<R: Threads + Wait + Abort + Sync>(rt: &R, alloc: Global, end: End) -> bool {
    match end {
        End::Writer(mut writer) => publish_all(rt, alloc, &mut writer),
        End::Reader(mut reader) => take_all(rt, alloc, &mut reader),
    }
}

/// The ends of a root with 20 readers.
fn many_ends<R: Abort>(rt: &R, alloc: Global) -> Vec<End> {
    let base = Guarded::new(door(rt, alloc), 0);
    let (writer, readers) = start(alloc, base, 20).expect(rt, "memory");
    let mut ends = Vec::new(alloc);
    ends.push(End::Writer(writer)).expect(rt, "memory");
    for reader in readers {
        ends.push(End::Reader(reader)).expect(rt, "memory");
    }
    ends
}

fn never_fell<R: Threads + Wait + Abort + Sync>(rt: &R, alloc: Global) -> bool {
    let ends = many_ends(rt, alloc);
    let answers = thread::map_vec(rt, ends, &|end| run(rt, alloc, end)).expect(rt, "memory");
    answers.iter().all(|answer| *answer)
}

#[test]
fn numbers_never_fall(rt: HostRuntime) {
    assert!(rt; never_fell(&rt, rt.alloc()));
}

/// Waits until a copy is held up at the door.
fn wait_until_held<R: Wait>(rt: &R, door: &AtomicU64) {
    for _ in rt.forever() {
        if door.load(Ordering::SeqCst) == HELD {
            break;
        }
        thread::yield_now();
    }
}

/// To whom a reader lost the turn of its stripe, and 0 where it got it.
fn lost_to(alloc: Global, reader: &mut Reader<Guarded>) -> u64 {
    match reader.try_snapshot(alloc) {
        Err(Missed::Busy { found }) => found,
        _ => 0,
    }
}

/// The reader tries once while the turn of its stripe is held, and again until it is free.
/// It answers to whom it lost the turn first, and the number of its version.
fn try_while_held<R: Wait + Abort>(
    rt: &R,
    alloc: Global,
    door: &AtomicU64,
    reader: &mut Reader<Guarded>,
) -> (u64, u64) {
    wait_until_held(rt, door);
    let found = lost_to(alloc, reader);
    door.store(OPEN, Ordering::SeqCst);
    let (number, _) = taken(rt, alloc, reader);
    (found, number)
}

/// The readers with the numbers 2 and 10 of a root with 8 stripes, who share the first one.
fn of_one_stripe<R: Abort>(
    rt: &R,
    alloc: Global,
    door: &Arc<AtomicU64>,
) -> (Reader<Guarded>, Reader<Guarded>) {
    let base = Guarded::new(Arc::try_clone(door).expect(rt, "memory"), 0);
    let (_writer, mut readers) = start(alloc, base, 9).expect(rt, "memory");
    let last = readers.pop().expect(rt, "nine readers");
    readers.truncate(1);
    let first = readers.pop().expect(rt, "a reader");
    (first, last)
}

/// The first reader's copy is held up while the second one tries.
fn tried<R: Threads + Wait + Abort + Sync>(rt: &R, alloc: Global) -> (u64, u64) {
    let door = door(rt, alloc);
    let (mut first, mut last) = of_one_stripe(rt, alloc, &door);
    door.store(TRAP, Ordering::SeqCst);
    let (_held, tried) = thread::join(
        rt,
        || taken(rt, alloc, &mut first),
        || try_while_held(rt, alloc, &door, &mut last),
    );
    tried
}

#[test]
fn a_held_turn_is_busy(rt: HostRuntime) {
    assert_eq!(rt; tried(&rt, rt.alloc()), (2, 0));
}

/// Whether each call of a reader that wants a copy of a state is refused.
fn are_reads_refused<R: Wait>(rt: &R, alloc: Global, reader: &mut Reader<Guarded>) -> bool {
    let no_try = matches!(reader.try_snapshot(alloc), Err(Missed::NoMemory));
    let no_snapshot = reader.snapshot(rt, alloc).is_err();
    no_try && no_snapshot
}

/// Whether each call of a writer that wants a copy of a state is refused.
fn are_writes_refused<R: Threads + Wait + Sync>(
    rt: &R,
    alloc: Global,
    writer: &mut Writer<Guarded>,
    version: Version<Guarded>,
) -> bool
    requires base { version.base ≡ writer.old.base }
    requires grows { IsPrefix writer.old.journal version.journal }
{
    let no_version = longer(rt, alloc, writer.current(), 0, &[30]).is_err();
    let no_publish = writer.publish(rt, alloc, version).is_err();
    no_version && no_publish
}

#[test]
fn refused_copies_leave_the_root_as_it_was(rt: HostRuntime) {
    let door = door(&rt, rt.alloc());
    let (mut writer, mut reader) = two_ends(&rt, rt.alloc(), &door);
    let second = made_longer(&rt, rt.alloc(), writer.current(), 0, &[10]);
    door.store(SHUT, Ordering::SeqCst);
    assert!(rt; one_reader(rt.alloc(), &door).is_err());
    assert!(rt; are_reads_refused(&rt, rt.alloc(), &mut reader));
    assert!(rt; are_writes_refused(&rt, rt.alloc(), &mut writer, second));
    door.store(OPEN, Ordering::SeqCst);
    assert_eq!(rt; taken(&rt, rt.alloc(), &mut reader), (0, 0));
    assert_eq!(rt; told(writer.current()), (0, 0));
}
