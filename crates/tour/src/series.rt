//! A time series: a temperature an hour, its greatest and mean over windows, and two versions of it.

use anyhow::Result;
use aug_monoid::{Pair, Share};
use map_folds::{Greatest, Mean};
use ord_map::OrdMap;
use std::alloc::Global;

/// Values by hour, with the greatest and the mean.
type Series = OrdMap<Pair<Greatest<u64, u64>, Mean<u64>>>;

const HOURS: &[(u64, u64)] = &[
    (6, 11),
    (7, 13),
    (8, 16),
    (9, 18),
    (10, 21),
    (11, 24),
    (12, 22),
];

// What a window of hours comes to.
fn window(alloc: Global, series: &Series, from: u64, to: u64) -> Result<String> {
    let (greatest, all) = series.fold_range(alloc, &from, &to)?;
    let text = format!(in alloc; "{from} to {to}: {greatest:?}, mean {:?}", all.mean())?;
    Ok(text)
}

/// Three windows of a morning, and the hours that a later version has more.
pub(crate) fn page(alloc: Global) -> Result<String> {
    let mut series = Series::from_pairs(alloc, HOURS)?;
    let morning = series.share(alloc)?;
    series.extend(alloc, &[(13, 20), (14, 19)])?;
    let added = series.difference(alloc, &morning)?;
    let text = format!(in alloc;
        "{}\n{}\n{}\nhours added: {:?}\n",
        window(alloc, &morning, 6, 8)?,
        window(alloc, &morning, 9, 12)?,
        window(alloc, &series, 11, 14)?,
        added.keys(alloc)?
    )?;
    Ok(text)
}
