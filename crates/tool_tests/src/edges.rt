//! Sources and sinks that fail at some calls, and the standard streams.
ghost use Rattle.std.specs.Prelude.{◌≤◌};

use io_edge::{Failed, MemSink, MemSource, Sink, Source, StdSink, StdSource};
use std::test::Fail;

#[test]
fn a_source_gives_pieces_and_fails_at_its_calls(rt: HostRuntime) -> Result<(), Fail> {
    let alloc = rt.alloc();
    let bytes = Vec::from_slice(alloc, b"abcdefg".as_slice())?;
    let mut source = MemSource::new(bytes, 3, Vec::from_slice(alloc, &[2])?);
    let mut room = [0u8; 4];
    assert_eq!(rt; source.read(&mut room), Ok(3));
    assert_eq!(rt; &room, b"abc\0");
    assert_eq!(rt; source.read(&mut room), Err(Failed));
    assert_eq!(rt; source.read(&mut room[..2]), Ok(2));
    assert_eq!(rt; &room, b"dec\0");
    assert_eq!(rt; source.read(&mut room), Ok(2));
    assert_eq!(rt; &room, b"fgc\0");
    assert_eq!(rt; source.read(&mut room), Ok(0));
    Ok(())
}

#[test]
fn a_sink_takes_pieces_and_fails_at_its_calls_and_without_room(
    rt: HostRuntime,
) -> Result<(), Fail> {
    let alloc = rt.alloc();
    let mut sink = MemSink::new(alloc, 4, 3, Vec::from_slice(alloc, &[2])?)?;
    assert_eq!(rt; sink.write(b"abcde"), Ok(3));
    assert_eq!(rt; sink.write(b"de"), Err(Failed));
    assert_eq!(rt; sink.write(b"de"), Ok(1));
    assert_eq!(rt; sink.write(b"e"), Err(Failed));
    assert_eq!(rt; sink.write(b""), Ok(0));
    assert_eq!(rt; sink.written(), b"abcd".as_slice());
    Ok(())
}

#[test]
fn standard_output_takes_a_line(rt: HostRuntime) {
    let line = b"\n";
    assert_eq!(rt; StdSink::new(&rt).write(line), Ok(1));
}

#[test]
fn standard_input_gives_nothing_into_no_room(rt: HostRuntime) {
    assert_eq!(rt; StdSource::new(&rt).read(&mut []), Ok(0));
}
