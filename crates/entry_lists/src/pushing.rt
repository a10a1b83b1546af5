//! Entries shared into a vector.
ghost use Rattle.std.specs.Prelude.{◌≡◌, [], ◌∷◌, ◌++◌, length, take, OnErr, OnOk};

use aug_monoid::{NoMemory, Share};
use std::alloc::Global;

/// Appends another owner of an entry.
pub fn push_shared<K: Share, V: Share>(
    alloc: Global,
    into: &mut Vec<(K, V)>,
    entry: &(K, V),
) -> Result<(), NoMemory>
    ensures appended { OnOk result (into.new.items ≡ into.old.items ++ entry.now ∷ []) }
    ensures refused { OnErr result (into.new.items ≡ into.old.items) }
{
    let key = entry.0.share(alloc)?;
    let val = entry.1.share(alloc)?;
    into.push((key, val))?;
    Ok(())
}

/// Appends another owner of each entry of a slice, in order. What stood there before stands after a refusal too, and some of
/// the entries behind it.
pub fn push_all_shared<K: Share, V: Share>(
    alloc: Global,
    into: &mut Vec<(K, V)>,
    from: &[(K, V)],
) -> Result<(), NoMemory>
    ensures appended { OnOk result (into.new.items ≡ into.old.items ++ from.now) }
    ensures kept { take (length into.old.items) into.new.items ≡ into.old.items }
{
    for entry in from {
        push_shared(alloc, into, entry)?;
    }
    Ok(())
}
