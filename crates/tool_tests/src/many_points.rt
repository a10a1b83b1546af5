//! Many commands of the tool points in a row.

use fork_join::{Cut, FreeGate, On};
use points_tool::{PointsCommand, Weighed, run_points};
use script::Items;
use std::alloc::Global;
use std::marker::Sync;
use std::process::Abort;
use std::thread::Threads;

/// Adds one point of the weight 1.
fn add_one<R: Abort>(rt: &R, alloc: Global, x: u64) -> PointsCommand {
    let points = Vec::from_slice(alloc, &[Weighed { x, y: 1, w: 1 }]).expect(rt, "memory");
    PointsCommand::Add {
        place: 1,
        points: Items::new(points),
    }
}

/// Adds one point in each of so many columns, and then asks for the sum of ten of them.
fn adds<R: Abort>(rt: &R, alloc: Global, columns: u64) -> Vec<PointsCommand> {
    let mut commands = Vec::new(alloc);
    for x in 0..columns {
        commands.push(add_one(rt, alloc, x)).expect(rt, "memory");
    }
    let sum = PointsCommand::Sum {
        place: 1,
        x1: 5,
        x2: 14,
        y1: 0,
        y2: 9,
    };
    commands.push(sum).expect(rt, "memory");
    commands
}

fn replies<R: Threads + Abort + Sync>(rt: &R, alloc: Global, columns: u64) -> Vec<u8> {
    let commands = adds(rt, alloc, columns);
    let on = On {
        rt,
        gate: &FreeGate,
        cut: Cut::new(2, 1),
    };
    run_points(on, alloc, &commands).expect(rt, "memory")
}

#[test]
fn a_sum_after_20000_adds(rt: HostRuntime) {
    let text = replies(&rt, rt.alloc(), 20000);
    assert!(rt; text.ends_with(b"ok\nsum,10,10\n"));
}
