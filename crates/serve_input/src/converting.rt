//! Commands as records, each with its round.
ghost use Rattle.std.specs.Prelude.{◌≡◌, ◌≤◌, ◌++◌, IfOk};
ghost use Rattle.serve_script.specs.Served.{IsServeInput};
ghost use Rattle.serve_input.specs.Converting as converted;
ghost use Rattle.serve_input.specs.Converting.{HasSmallCaller};
ghost use Rattle.serve_text.specs.Determined.{AreNumbered};
ghost use Rattle.serve_text.specs.Histories.{AreInRounds};

use aug_monoid::{NoMemory, Share};
use serve_script::ServedCommand;
use serve_text::{Act, Record};
use std::alloc::Global;
use versions::Batch;

fn batch_of<O: Share>(alloc: Global, ops: &[O]) -> Result<Batch<O>, NoMemory>
    ensures { IfOk result (λ batch. batch ≡ ops.now) }
{
    let mut list = Vec::with_capacity(alloc, ops.len())?;
    for op in ops {
        list.push(op.share(alloc)?)?;
    }
    Batch::new(alloc, list)
}

// Appends the record of a command, or nothing where it is no batch and no read.
fn push_record<O: Share, Q: Copy>(
    alloc: Global,
    round: u64,
    command: &ServedCommand<O, Q>,
    records: &mut Vec<Record<O, Q>>,
) -> Result<(), NoMemory>
    requires { HasSmallCaller command.now }
    ensures { IfOk result (λ _. records.new.items ≡ records.old.items ++ converted.records_by round command.now) }
{
    let (place, caller, act) = match command {
        ServedCommand::Batch { place, c, ops } => {
            let batch = batch_of(alloc, ops.items())?;
            (*place, *c as u32, Act::Submit { batch })
        }
        ServedCommand::Read { place, c, query } => {
            (*place, *c as u32, Act::Read { query: *query })
        }
        ServedCommand::Serve { .. } | ServedCommand::Round { .. } => return Ok(()),
    };
    records.push(Record {
        place,
        caller,
        round,
        act,
    })?;
    Ok(())
}

// How many rounds a command ends.
fn rounds_in<O: Drop, Q: Drop>(command: &ServedCommand<O, Q>) -> u64
    ensures { result ≡ converted.rounds_in command.now }
{
    match command {
        ServedCommand::Round { .. } => 1,
        _ => 0,
    }
}

/// The batches and reads of an input as records, in order, in linear time: their numbers rise. Rounds count from 0, and one
/// without records leaves none.
pub fn records<O: Share, Q: Copy>(
    alloc: Global,
    commands: &[ServedCommand<O, Q>],
) -> Result<Vec<Record<O, Q>>, NoMemory>
    requires { IsServeInput commands.now }
    ensures value { IfOk result (λ records. records.items ≡ converted.records_of commands.now) }
    ensures rounds { IfOk result (λ records. AreInRounds (converted.callers_of commands.now) records.items) }
    ensures numbered { IfOk result (λ records. AreNumbered records.items) }
{
    let _few = commands.len(); // for the proof alone: there are fewer than 2^64 commands
    let mut records = Vec::new(alloc);
    let mut round = 0;
    for command in commands {
        push_record(alloc, round, command, &mut records)?;
        round += rounds_in(command);
    }
    Ok(records)
}

/// How many callers an input has: one where it has no records.
pub fn callers<O: Drop, Q: Drop>(commands: &[ServedCommand<O, Q>]) -> u32
    requires { IsServeInput commands.now }
    ensures value { result ≡ converted.callers_of commands.now }
    ensures few { (1 ≤ result) × (result ≤ 64) }
{
    match commands {
        [ServedCommand::Serve { n, .. }, ..] => *n as u32,
        _ => 1,
    }
}
