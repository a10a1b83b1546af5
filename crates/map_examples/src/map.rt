//! The map, and what it tells without a walk.
ghost use Rattle.std.specs.Prelude.{◌≡◌, ◌∷◌, [], IfOk, Some, true};

use crate::Sums;
use aug_monoid::{NoMemory, Share};
use std::alloc::Global;

pub fn new() -> Sums
    ensures { result ≡ [] }
{
    Sums::new()
}

pub fn len(alloc: Global) -> Result<u64, NoMemory>
    ensures { IfOk result (λ number. number ≡ 2) }
{
    let map = Sums::from_pairs(alloc, &[(1, 10), (2, 20)])?;
    Ok(map.len())
}

pub fn is_empty() -> bool
    ensures { result ≡ true }
{
    Sums::new().is_empty()
}

pub fn fold(alloc: Global) -> Result<Option<u64>, NoMemory>
    ensures { IfOk result (λ sum. sum ≡ Some 30) }
{
    let map = Sums::from_pairs(alloc, &[(1, 10), (2, 20)])?;
    Ok(map.fold().map(|totals| totals.sum))
}

pub fn iter(alloc: Global) -> Result<Vec<u64>, NoMemory>
    ensures { IfOk result (λ keys. keys.items ≡ 1 ∷ 2 ∷ []) }
{
    let map = Sums::from_pairs(alloc, &[(1, 10), (2, 20)])?;
    let mut keys = Vec::new(alloc);
    for entry in map.iter(alloc) {
        keys.push(entry?.0)?;
    }
    Ok(keys)
}

pub fn iter_ref(alloc: Global) -> Result<Vec<u64>, NoMemory>
    ensures { IfOk result (λ keys. keys.items ≡ 1 ∷ 2 ∷ []) }
{
    let map = Sums::from_pairs(alloc, &[(1, 10), (2, 20)])?;
    let mut keys = Vec::new(alloc);
    for (key, _) in map.iter_ref() {
        keys.push(*key)?;
    }
    Ok(keys)
}

pub fn default() -> Sums
    ensures { result ≡ [] }
{
    Sums::default()
}

pub fn share(alloc: Global) -> Result<(Sums, Sums), NoMemory>
    ensures { IfOk result (λ maps. maps ≡ ((1, 10) ∷ [], (1, 11) ∷ [])) }
{
    let mut map = Sums::from_pairs(alloc, &[(1, 10)])?;
    let before = map.share(alloc)?;
    map.put(alloc, 1, 11)?;
    Ok((before, map))
}
