//! One command of the tool interval.
ghost use Rattle.std.specs.Prelude.{◌≡◌, ◌++◌, OnOk};
ghost use Rattle.interval_map.specs.Intervals.{stab};
ghost use Rattle.interval_tool.specs.Effects.{any_line, count_line, interval_after, interval_reply};
ghost use Rattle.interval_tool.specs.IntervalRecords.{HasEnds};

use crate::IntervalCommand;
use crate::hits::hits_line;
use aug_monoid::NoMemory;
use interval_map::Intervals;
use script::line;
use std::alloc::Global;

// Appends a word and how many intervals there are.
fn count_line(text: &mut Vec<u8>, word: &str, intervals: &Intervals) -> Result<(), NoMemory>
    ensures { OnOk result (text.new.items ≡ text.old.items ++ count_line word.now intervals.now) }
{
    line(text, word, &[intervals.size()])
}

// Appends whether an interval has `p`.
fn any_line(
    alloc: Global,
    text: &mut Vec<u8>,
    intervals: &Intervals,
    p: u64,
) -> Result<(), NoMemory>
    ensures { OnOk result (text.new.items ≡ text.old.items ++ any_line (stab intervals.now p)) }
{
    if intervals.any(alloc, p) {
        line(text, "yes", &[])
    } else {
        line(text, "no", &[])
    }
}

/// Runs a command on the intervals, and appends its reply.
pub(crate) fn run_command(
    alloc: Global,
    intervals: &mut Intervals,
    command: &IntervalCommand,
    text: &mut Vec<u8>,
) -> Result<(), NoMemory>
    requires { HasEnds command.now }
    ensures reply { OnOk result (text.new.items ≡ text.old.items ++ interval_reply intervals.old command.now) }
    ensures after { OnOk result (intervals.new ≡ interval_after intervals.old command.now) }
{
    match command {
        IntervalCommand::Add { l, r, .. } => {
            intervals.add_mut(alloc, *l, *r)?;
            count_line(text, "ok", intervals)
        }
        IntervalCommand::Del { l, r, .. } => {
            intervals.del_mut(alloc, *l, *r)?;
            count_line(text, "ok", intervals)
        }
        IntervalCommand::Size { .. } => count_line(text, "size", intervals),
        IntervalCommand::Any { p, .. } => any_line(alloc, text, intervals, *p),
        IntervalCommand::Stab { p, .. } => {
            let hits = intervals.stab(alloc, *p)?;
            hits_line(alloc, text, &hits)
        }
        IntervalCommand::Over { lo, hi, .. } => {
            let hits = intervals.overlap(alloc, *lo, *hi)?;
            hits_line(alloc, text, &hits)
        }
    }
}
