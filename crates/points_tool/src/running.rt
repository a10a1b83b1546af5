//! Runs the commands of an input.
ghost use Rattle.std.specs.Prelude.{◌≡◌, ◌++◌, [], codes, IfOk, OnOk};
ghost use Rattle.aug_monoid.specs.Exact.{pair64_cmp};
ghost use Rattle.map_model.specs.Operations.{after, dels};
ghost use Rattle.points_tool.specs.Effects.{points_after, points_reply};
ghost use Rattle.script.specs.Lines.{line_of};
ghost use Rattle.script.specs.Replies.{replies};

use crate::PointsCommand;
use crate::asking::{list, rect, total};
use crate::board::Board;
use aug_monoid::{NoMemory, Pair64};
use fork_join::{Gate, On};
use range_tree::Points;
use script::line;
use std::alloc::Global;
use std::marker::Sync;
use std::thread::Threads;

/// The replies to the commands, run in order from no points on. They depend neither on the runtime nor on the gate nor on the
/// cut. Commands in a row that add points are one bulk operation, which forks where the cut allows it.
pub fn run_points<R: Threads + Sync, G: Gate>(
    on: On<R, G>,
    alloc: Global,
    commands: &[PointsCommand],
) -> Result<Vec<u8>, NoMemory>
    ensures { IfOk result (λ text. text.items ≡ replies points_reply points_after [] commands.now) }
{
    let mut board = Board::of(alloc, Points::new());
    let mut text = Vec::new(alloc);
    for command in commands {
        board = run_one(on, alloc, board, command, &mut text)?;
    }
    // The points that still wait are added too, though nothing asks for them any more.
    let _points = board.settled(on, alloc)?;
    Ok(text)
}

// Runs a command, and appends its reply.
fn run_one<R: Threads + Sync, G: Gate>(
    on: On<R, G>,
    alloc: Global,
    board: Board,
    command: &PointsCommand,
    text: &mut Vec<u8>,
) -> Result<Board, NoMemory>
    ensures after { IfOk result (λ next. next ≡ points_after board command.now) }
    ensures reply { OnOk result (text.new.items ≡ text.old.items ++ points_reply board command.now) }
{
    match command {
        PointsCommand::Add { points, .. } => {
            line(text, "ok", &[])?;
            board.with(points.items())
        }
        PointsCommand::Del { places, .. } => {
            let places = places.items();
            remove(on, alloc, board, places, text)
        }
        PointsCommand::Size { .. } => {
            let points = board.settled(on, alloc)?;
            line(text, "size", &[points.size()])?;
            Ok(Board::of(alloc, points))
        }
        PointsCommand::Sum { x1, x2, y1, y2, .. } => {
            let points = board.settled(on, alloc)?;
            total(alloc, &points, rect(*x1, *x2, *y1, *y2), text)?;
            Ok(Board::of(alloc, points))
        }
        PointsCommand::List { x1, x2, y1, y2, .. } => {
            let points = board.settled(on, alloc)?;
            list(alloc, &points, rect(*x1, *x2, *y1, *y2), text)?;
            Ok(Board::of(alloc, points))
        }
    }
}

// Removes the points at these places, and appends the reply.
fn remove<R: Threads + Sync, G: Gate>(
    on: On<R, G>,
    alloc: Global,
    board: Board,
    places: &[Pair64],
    text: &mut Vec<u8>,
) -> Result<Board, NoMemory>
    ensures after { IfOk result (λ next. next ≡ after pair64_cmp board (dels places.now)) }
    ensures reply { OnOk result (text.new.items ≡ text.old.items ++ line_of (codes "ok") []) }
{
    let points = board.settled(on, alloc)?;
    let fewer = points.del(on.rt, alloc, on.gate, on.cut, places)?;
    line(text, "ok", &[])?;
    Ok(Board::of(alloc, fewer))
}
