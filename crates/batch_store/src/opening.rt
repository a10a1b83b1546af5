//! The lanes and the callers of a new store.
ghost use Rattle.std.specs.Prelude.{◌≡◌, ◌<◌, ◌≤◌, [], ◌∷◌, ◌++◌, length, OnOk, IfOk, vec_len};
ghost use Rattle.lanes.specs.Lane.{LaneId};
ghost use Rattle.batch_store.specs.Hearing.{AreConnected};

use crate::caller::Caller;
use crate::submitted::Submitted;
use aug_monoid::NoMemory;
use lanes::{Intake, Lane};
use std::alloc::Global;
use version_root::{Reader, State};

/// One more caller, with a reader and a new lane.
fn connect<S: State>(
    alloc: Global,
    reader: Reader<S>,
    intakes: &mut Vec<Intake<Submitted<S::Op>>>,
    callers: &mut Vec<Caller<S>>,
) -> Result<(), NoMemory>
    requires { vec_len callers.old < 64 }
    ensures { OnOk result ((lane : LaneId) × (intakes.new.items ≡ intakes.old.items ++ (record { lane = lane; received = [] }) ∷ [])
        × (callers.new.items ≡ callers.old.items ++ (record { number = vec_len callers.old; lane = lane; sent = []; reader = reader }) ∷ [])) }
{
    let number = callers.len() as u32;
    let Lane { submitter, intake } = Lane::make(alloc)?;
    intakes.push(intake)?;
    callers.push(Caller {
        number,
        submitter,
        reader,
    })?;
    Ok(())
}

/// A caller for each reader, and the other ends of their lanes.
pub(crate) fn connect_all<S: State>(
    alloc: Global,
    readers: Vec<Reader<S>>,
) -> Result<(Vec<Intake<Submitted<S::Op>>>, Vec<Caller<S>>), NoMemory>
    requires { vec_len readers ≤ 64 }
    ensures { IfOk result (λ ends. AreConnected readers.items ends.0.items ends.1.items) }
{
    let mut intakes = Vec::new(alloc);
    let mut callers = Vec::new(alloc);
    for reader in readers {
        connect(alloc, reader, &mut intakes, &mut callers)?;
    }
    Ok((intakes, callers))
}
