//! Maps made of pairs.

use crate::Map;
use crate::numbers::Numbers;
use crate::timed::{Timed, made, since};
use anyhow::Result;
use std::alloc::{AllocError, Global};
use std::collections::BTreeMap;
use std::rt::Clock;
use std::time::Instant;

/// How a map is made.
#[derive(Clone, Copy)]
pub(crate) enum Making {
    /// By one insertion after another.
    Inserts,
    /// At once.
    Build,
}

/// The map of pairs that are inserted one after another.
fn all_inserted(alloc: Global, pairs: &[(u64, u64)]) -> Result<Map, AllocError> {
    let mut map = BTreeMap::new(alloc);
    for (key, val) in pairs {
        map.insert(*key, *val)?;
    }
    Ok(map)
}

/// The map of pairs that is made at once.
pub(crate) fn built(alloc: Global, pairs: &[(u64, u64)]) -> Result<Map, AllocError> {
    BTreeMap::from_iter(alloc, pairs.iter().copied())
}

pub(crate) fn time<R: Clock>(
    rt: &R,
    alloc: Global,
    making: Making,
    size: u64,
    seed: u64,
) -> Result<Timed> {
    let pairs = Numbers::new(seed).pairs(alloc, size, size.saturating_mul(2))?;
    let start = Instant::now(rt)?;
    match making {
        Making::Inserts => {
            let map = all_inserted(alloc, &pairs)?;
            since(rt, start, map.len() as u64)
        }
        Making::Build => {
            let map = built(alloc, &pairs)?;
            made(rt, start, &map)
        }
    }
}
