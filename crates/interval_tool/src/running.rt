//! Runs the commands of the tool interval.
ghost use Rattle.std.specs.Prelude.{◌≡◌, [], IfOk};
ghost use Rattle.std.specs.List.{AllByRecursion};
ghost use Rattle.interval_tool.specs.Effects.{interval_after, interval_reply};
ghost use Rattle.interval_tool.specs.IntervalRecords.{HasEnds};
ghost use Rattle.script.specs.Replies.{replies};

use crate::IntervalCommand;
use crate::command::run_command;
use aug_monoid::NoMemory;
use interval_map::Intervals;
use std::alloc::Global;

/// The replies to commands that are run in order on the set of no intervals. It refuses only for want of memory.
pub fn run_intervals(alloc: Global, commands: &[IntervalCommand]) -> Result<Vec<u8>, NoMemory>
    requires { AllByRecursion HasEnds commands.now }
    ensures { IfOk result (λ text. text.items ≡ replies interval_reply interval_after [] commands.now) }
{
    let mut intervals = Intervals::new();
    let mut text = Vec::new(alloc);
    for command in commands {
        run_command(alloc, &mut intervals, command, &mut text)?;
    }
    Ok(text)
}
