//! Points, and points that wait to be added to them all at once.
ghost use Rattle.std.specs.Prelude.{◌≡◌, ◌++◌, [], map, IfOk, OnOk};
ghost use Rattle.aug_monoid.specs.Exact.{pair64_cmp};
ghost use Rattle.map_model.specs.Operations.{after, puts};
ghost use Rattle.points_tool.specs.Effects.{weighed_entries};
ghost use Rattle.range_tree.specs.Points.{entry_of};

use crate::Weighed;
use aug_monoid::NoMemory;
use fork_join::{Gate, On};
use range_tree::{Point, Points};
use std::alloc::Global;
use std::marker::{Model, Sync};
use std::thread::Threads;

/// Points, and those that wait to be added. It is seen as all of them.
#[derive(Drop)]
pub(crate) struct Board {
    points: Points,
    waiting: Vec<Point>,
}

impl Model for Board {
    ghost use Rattle.std.specs.Prelude.{List, ℕ, map};
    ghost use Rattle.aug_monoid.specs.declared.pair64.Pair64.{Pair64};
    ghost use Rattle.aug_monoid.specs.Exact.{pair64_cmp};
    ghost use Rattle.map_model.specs.Operations.{after, puts};
    ghost use Rattle.range_tree.specs.Points.{entry_of};

    ghost Value = { List (Pair64 × ℕ) };

    ghost view = { λ b. after pair64_cmp b.points (puts (map entry_of b.waiting.items)) };
}

impl Board {
    /// These points, with none that wait. It takes no memory.
    pub(crate) fn of(alloc: Global, points: Points) -> Board
        ensures { result ≡ points }
    {
        Board {
            points,
            waiting: Vec::new(alloc),
        }
    }

    /// With points that wait to be added.
    #[tactic(auto, using(crate::proofs::Waiting::after_waiting))]
    pub(crate) fn with(self, points: &[Weighed]) -> Result<Board, NoMemory>
        ensures { IfOk result (λ board. board ≡ after pair64_cmp self (puts (weighed_entries points.now))) }
    {
        let mut waiting = self.waiting;
        push_points(&mut waiting, points)?;
        Ok(Board {
            points: self.points,
            waiting,
        })
    }

    /// All points: those that wait are added by one bulk operation.
    pub(crate) fn settled<R: Threads + Sync, G: Gate>(
        self,
        on: On<R, G>,
        alloc: Global,
    ) -> Result<Points, NoMemory>
        ensures { IfOk result (λ points. points ≡ self) }
    {
        if self.waiting.is_empty() {
            return Ok(self.points);
        }
        self.points
            .add_into(on.rt, alloc, on.gate, on.cut, &self.waiting)
    }
}

/// Appends points to a list.
#[tactic(auto, using(crate::proofs::Waiting::weighed_more))]
fn push_points(list: &mut Vec<Point>, points: &[Weighed]) -> Result<(), NoMemory>
    ensures { OnOk result (map entry_of list.new.items ≡ map entry_of list.old.items ++ weighed_entries points.now) }
{
    list.reserve(points.len())?;
    for point in points {
        list.push(Point {
            x: point.x,
            y: point.y,
            weight: point.w,
        })?;
    }
    Ok(())
}
