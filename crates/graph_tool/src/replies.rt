//! Replies to searches and of components.
ghost use Rattle.std.specs.Prelude.{◌≡◌, ◌++◌, OnOk};
ghost use Rattle.graph_tool.specs.Effects.{components_line, label_numbers, reached_line, reached_numbers};

use aug_monoid::NoMemory;
use graph_comp::Labelled;
use graph_snap::Reached;
use script::{Numbers, counted_line};
use std::alloc::Global;

/// A vertex that was reached, and its distance.
pub struct ReachedNumbers;

impl Numbers<Reached, 2> for ReachedNumbers {
    ghost numbers_of = { reached_numbers };

    fn numbers(reached: &Reached) -> [u64; 2] {
        [reached.vertex, reached.distance]
    }
}

// A vertex, and the least vertex of its component.
struct LabelNumbers;

impl Numbers<Labelled, 2> for LabelNumbers {
    ghost numbers_of = { label_numbers };

    fn numbers(labelled: &Labelled) -> [u64; 2] {
        [labelled.vertex, labelled.label]
    }
}

/// Appends the reply to a search.
pub(crate) fn reached(alloc: Global, text: &mut Vec<u8>, found: &[Reached]) -> Result<(), NoMemory>
    ensures { OnOk result (text.new.items ≡ text.old.items ++ reached_line found.now) }
{
    counted_line::<ReachedNumbers, _, _>(alloc, text, "bfs", found)
}

/// Appends the reply that lists components.
pub(crate) fn labelled(
    alloc: Global,
    text: &mut Vec<u8>,
    found: &[Labelled],
) -> Result<(), NoMemory>
    ensures { OnOk result (text.new.items ≡ text.old.items ++ components_line found.now) }
{
    counted_line::<LabelNumbers, _, _>(alloc, text, "comp", found)
}
