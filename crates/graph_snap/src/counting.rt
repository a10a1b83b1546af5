//! How many edges a map of sets has.
ghost use Rattle.std.specs.Prelude.{◌≡◌, ◌-◌, ◌^◌, ◌<◌, length, IfOk};
ghost use Rattle.graph_snap.specs.Edges.{edges_of};

use crate::vertices::Vertices;
use aug_monoid::NoMemory;

// A sum that is not above `u64::MAX`. That it may be is want of memory.
fn exact(total: u64) -> Result<u64, NoMemory>
    ensures { IfOk result (λ n. (n ≡ total) × (n < 2 ^ 64 - 1)) }
{
    if total == u64::MAX {
        Err(NoMemory)
    } else {
        Ok(total)
    }
}

/// How many edges a map has. It takes no walk. That they are `u64::MAX` or more is want of memory.
pub(crate) fn edges_in(vertices: &Vertices) -> Result<u64, NoMemory>
    ensures { IfOk result (λ n. n ≡ length (edges_of vertices.now.entries)) }
{
    match vertices.aug() {
        Some(total) => exact(*total),
        None => Ok(0),
    }
}
