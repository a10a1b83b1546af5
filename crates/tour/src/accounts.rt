//! An account: amounts with a sign by date, and the balance over any time.

use anyhow::Result;
use map_folds::SignedSum;
use ord_map::OrdMap;
use std::alloc::Global;

/// Amounts in cents by date, the year, the month and the day in one number, with their sum.
type Account = OrdMap<SignedSum<u32>>;

const BOOKINGS: &[(u32, i64)] = &[
    (2026_01_02, 250_000),
    (2026_01_15, -82_000),
    (2026_02_01, -19_950),
    (2026_03_30, 12_500),
    (2026_04_02, 250_000),
];

/// The balance of a quarter, of all of it, and of what stands before a day.
pub(crate) fn page(alloc: Global) -> Result<String> {
    let account = Account::from_pairs(alloc, BOOKINGS)?;
    let quarter = account.fold_range(alloc, &2026_01_01, &2026_03_31)?; // made of stored folds
    let until = account.fold_to(alloc, &2026_02_01)?;
    let text = format!(in alloc;
        "the first quarter: {quarter}\nup to the first of February: {until}\nall: {:?}\n",
        account.fold()
    )?;
    Ok(text)
}
