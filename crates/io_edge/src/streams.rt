//! Standard input and output. What they hold or take is not told.
ghost use Rattle.std.specs.Prelude.{◌≡◌, None, false};

use crate::{Failed, Sink, Source};
use std::io::{Printer, Read, Write, writer};

/// Standard input.
#[derive(Drop)]
pub struct StdSource<R> {
    reader: R,
    ended: bool,
    faults: u64,
}

impl<R> StdSource<R> {
    /// The standard input of a runtime, with no fault so far.
    pub fn new<I: Input<Reader = R>>(rt: &I) -> StdSource<R>
        ensures faultless { result.faults ≡ 0 }
        ensures open { result.ended ≡ false }
    {
        StdSource {
            reader: rt.reader(),
            ended: false,
            faults: 0,
        }
    }
}

impl<R: Read> Source for StdSource<R> {
    ghost left = { λ _. None };

    ghost ended = { λ s. s.ended };

    ghost faults = { λ s. s.faults };

    fn read(&mut self, buf: &mut [u8]) -> Result<usize, Failed> {
        match self.reader.read(buf) {
            Ok(count) => {
                if !buf.is_empty() {
                    self.ended = count == 0;
                }
                Ok(count)
            }
            Err(_) => {
                if !buf.is_empty() {
                    self.ended = false;
                }
                self.faults = self.faults.saturating_add(1);
                Err(Failed)
            }
        }
    }
}

/// Standard output.
#[derive(Drop)]
pub struct StdSink<W> {
    writer: W,
    faults: u64,
}

impl<'a, P: Print> StdSink<Printer<'a, P>> {
    /// The standard output of a runtime, with no fault so far.
    pub fn new(rt: &'a P) -> StdSink<Printer<'a, P>>
        ensures faultless { result.faults ≡ 0 }
    {
        StdSink {
            writer: writer(rt),
            faults: 0,
        }
    }
}

impl<W: Write> Sink for StdSink<W> {
    ghost written = { λ _. None };

    ghost faults = { λ s. s.faults };

    fn write(&mut self, piece: &[u8]) -> Result<usize, Failed> {
        match self.writer.write(piece) {
            Ok(count) => {
                if count > 0 || piece.is_empty() {
                    return Ok(count);
                }
            }
            Err(_) => {}
        }
        self.faults = self.faults.saturating_add(1);
        Err(Failed)
    }
}
