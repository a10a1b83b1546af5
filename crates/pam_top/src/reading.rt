//! Reads the whole input.
ghost use Rattle.std.specs.Prelude.{◌≡◌, false, true, length, IfOk, OnErr, OnOk};
ghost use Rattle.std.specs.Io.KnownBytes.{IsAtEnd};
ghost use Rattle.io_edge.specs.Edge.{faults_after};
ghost use Rattle.pam_top.specs.Answer.{IsInput, IsTooLarge, reads_input};
ghost use Rattle.pam_top.specs.InputRead.{ReadsInput, has_failed};

use io_edge::{Failed, Source};
use std::alloc::{AllocError, Global};
use tool_input::Tool;

/// The most bytes of an input.
const INPUT_LIMIT: usize = 67108864;

/// The most bytes that are asked for at a time.
const CHUNK: usize = 65536;

/// Why the input was not read to its end.
#[derive(Clone, Copy, Debug, PartialEq, Eq)]
pub(crate) enum Stop {
    TooLarge,
    Fault,
    NoMemory,
}

fn empty_chunk(alloc: Global) -> Result<Vec<u8>, AllocError>
    ensures { IfOk result (λ chunk. length chunk.items ≡ 65536) }
{
    vec![in alloc; 0u8; CHUNK]
}

// The whole input.
fn read_input<S: Source>(alloc: Global, source: &mut S) -> Result<Vec<u8>, Stop>
    ensures bytes { ReadsInput (S.left source.old) (S.left source.new) (λ v. v.items) result }
    ensures end { OnOk result ((S.ended source.new ≡ true) × IsAtEnd (S.left source.new)) }
    ensures cause { S.faults source.new ≡ faults_after (has_failed result) (S.faults source.old) }
{
    let Ok(mut chunk) = empty_chunk(alloc) else {
        return Err(Stop::NoMemory);
    };
    let mut input = Vec::new(alloc);
    for _ in 0..INPUT_LIMIT + 1 {
        match source.read(&mut chunk) {
            Ok(0) => return Ok(input),
            Ok(count) => {
                if INPUT_LIMIT - input.len() < count {
                    return Err(Stop::TooLarge);
                }
                if input.extend_from_slice(&chunk[..count]).is_err() {
                    return Err(Stop::NoMemory);
                }
            }
            Err(Failed) => return Err(Stop::Fault),
        }
    }
    Err(Stop::TooLarge)
}

/// Whether a tool reads its input.
pub(crate) fn reads_input(tool: Tool) -> bool
    ensures { result ≡ reads_input tool }
{
    !matches!(tool, Tool::Sample)
}

/// The whole input of a tool, which is nothing for a tool that reads none.
pub(crate) fn input_of<S: Source>(
    alloc: Global,
    tool: Tool,
    source: &mut S,
) -> Result<Vec<u8>, Stop>
    ensures bytes { ReadsInput (S.left source.old) (S.left source.new) (λ v. v.items) result }
    ensures whole { IfOk result (λ v. IsInput tool v.items) }
    ensures stopped { OnErr result (reads_input tool ≡ true) }
    ensures unread { reads_input tool ≡ false → source.new ≡ source.old }
    ensures end { OnOk result (reads_input tool ≡ true → (S.ended source.new ≡ true) × IsAtEnd (S.left source.new)) }
    ensures cause { S.faults source.new ≡ faults_after (has_failed result) (S.faults source.old) }
{
    if reads_input(tool) {
        read_input(alloc, source)
    } else {
        Ok(Vec::new(alloc))
    }
}
