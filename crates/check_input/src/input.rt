//! The commands and the text of an input.
ghost use Rattle.std.specs.Prelude.{◌≡◌, IfOk, IsErr, Some, None};
ghost use Rattle.script.specs.Results.{Gives};
ghost use Rattle.serve_script.specs.Served.{IsServeInput};
ghost use Rattle.check_input.specs.Input.{check_input_of, input_with};
ghost use Rattle.check_input.specs.RunLine as lines;

use crate::finding::run_line;
use aug_monoid::NoMemory;
use script::{BadRecord, Code, Items, ScriptFault};
use serve_script::{Op, ServeCommand, ServeQuery, served_commands};
use std::alloc::Global;

/// The commands of the tool serve, and a text that may be one of theirs.
#[derive(Drop)]
pub struct CheckInput {
    pub list: Items<ServeCommand>,
    pub text: Items<u8>,
}

// A copy of a text.
fn copied(alloc: Global, text: &[u8]) -> Result<Items<u8>, NoMemory>
    ensures { IfOk result (λ copy. copy ≡ text.now) }
{
    let mut copy = Vec::new(alloc);
    copy.extend_from_slice(text)?;
    Ok(Items::new(copy))
}

// The commands before the line `run` at a place, and the text behind it.
fn parted(alloc: Global, bytes: &[u8], at: usize) -> Result<CheckInput, ScriptFault>
    requires { lines.run_line bytes.now ≡ Some at }
    ensures exact { Gives result (input_with bytes.now (Some at)) }
    ensures lawful { IfOk result (λ input. IsServeInput input.list) }
{
    let (before, _) = bytes.split_at(at);
    let (_, text) = bytes.split_at(at + 4);
    let list = served_commands::<Op, ServeQuery>(alloc, before)?;
    let text = copied(alloc, text)?;
    Ok(CheckInput { list, text })
}

// The first bad record of an input without the line `run`, or the record that is missing.
fn fault_of(alloc: Global, bytes: &[u8]) -> Result<CheckInput, ScriptFault>
    ensures exact { Gives result (input_with bytes.now None) }
    ensures fault { IsErr result }
{
    let list = served_commands::<Op, ServeQuery>(alloc, bytes)?;
    Err(ScriptFault::Bad(BadRecord {
        place: list.items().len() as u64 + 1,
        code: Code::Run,
    }))
}

/// The commands before the first line `run` and the text behind it, or the input's first bad record: that of the commands, or, where
/// there is no such line, the record behind the last one. Time is linear in the input.
#[tactic(auto, unfolding(crate::specs::Input::check_input_of))]
pub fn check_input(alloc: Global, bytes: &[u8]) -> Result<CheckInput, ScriptFault>
    ensures exact { Gives result (check_input_of bytes.now) }
    ensures lawful { IfOk result (λ input. IsServeInput input.list) }
{
    match run_line(bytes) {
        Some(at) => parted(alloc, bytes, at),
        None => fault_of(alloc, bytes),
    }
}
