//! Operations cut at their wipes.
ghost use Rattle.std.specs.Prelude.{◌≡◌, ◌++◌};
ghost use Rattle.std.specs.List.{All};
ghost use Rattle.op_runs.specs.Steps.{BeginsWithWipe, IsSingle};

use crate::op::Op;

/// The operations before the first wipe, and those from it on: none where there is no wipe. Linear in the length of the first part.
pub fn split_at_wipe(ops: &[Op]) -> (&[Op], &[Op])
    ensures whole { result.0.now ++ result.1.now ≡ ops.now }
    ensures singles { All IsSingle result.0.now }
    ensures wipe { BeginsWithWipe result.1.now }
{
    let len = ops.iter().position(|op| op.is_wipe()).unwrap_or(ops.len());
    ops.split_at(len)
}
