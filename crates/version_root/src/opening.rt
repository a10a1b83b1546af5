//! The ends of a new root.
ghost use Rattle.std.specs.Prelude.{◌≡◌, ℕ, ◌+◌, ◌<◌, ◌≤◌, [], Some, IfOk, slice_get, vec_len};
ghost use Rattle.std.specs.Arc.{arc_value};
ghost use Rattle.versions.specs.History.{history};
ghost use Rattle.version_root.specs.Root.{IsStripe};
ghost use Rattle.version_root.specs.Seats.{IsFirstWriter, IsOpen};
ghost use Rattle.version_root.specs.Answers.{IsStart, AreFresh, fresh_reader};

use crate::reader::Reader;
use crate::steps::{Place, Root, SPACING, enlist};
use crate::view::{Opening, RootRule};
use crate::writer::Writer;
use atomic_table::{Refused, Table};
use aug_monoid::NoMemory;
use std::alloc::Global;
use std::snapshot::Snapshot;
use std::sync::Arc;
use versions::{State, Version};

/// A root has no more stripes than this.
const STRIPES: u32 = 8;

/// Its table has no more words than this.
const WORDS: usize = 64;

/// The writer and the readers of a new root, whose version has this base and an empty journal.
/// It copies the base once for each of the `min(readers, 8)` stripes. O(readers) beside these copies.
pub fn start<S: State>(
    alloc: Global,
    base: S,
    readers: u32,
) -> Result<(Writer<S>, Vec<Reader<S>>), NoMemory>
    requires { (1 ≤ readers) × (readers ≤ 64) }
    ensures { IfOk result (λ ends. IsStart base readers ends.0 ends.1.items) }
{
    let about = Opening {
        base: Snapshot::of(&base),
        readers,
    };
    let version = Version::first(base);
    let (root, mut seat) = open(alloc, &about, &version)?;
    let all = new_readers(alloc, &root, &mut seat, readers)?;
    Ok((
        Writer {
            root,
            seat,
            current: version,
        },
        all,
    ))
}

/// The table of a root, with the version in each slot, and the writer's seat.
fn open<S: State>(
    alloc: Global,
    about: &Opening<S>,
    version: &Version<S>,
) -> Result<(Arc<Root<S>>, Place<S>), NoMemory>
    requires { (1 ≤ about.now.readers) × (version.now ≡ history about.now.base.value []) }
    ensures { IfOk result (λ r. IsOpen (arc_value r.0).shared.table_id (arc_value r.0).shared.key.base.value about.now.base.value about.now.readers r.1) }
{
    let stripes = about.readers.min(STRIPES) as usize;
    let count = SPACING * stripes;
    let slots = slots_of(alloc, version, count)?;
    let words = [0; WORDS];
    match Table::<_, _, _, RootRule, Global>::new(alloc, &words[..count], slots, about) {
        Ok((table, seat)) => Ok((Arc::new(alloc, table)?, seat)),
        Err(Refused { slots: _ }) => Err(NoMemory),
    }
}

/// So many slots, with a copy of the version in each that is a stripe's.
fn slots_of<S: State>(
    alloc: Global,
    version: &Version<S>,
    count: usize,
) -> Result<Vec<Option<Version<S>>>, NoMemory>
    ensures { IfOk result (λ slots. (vec_len slots ≡ count) × ((i : ℕ) → i < count → IsStripe i → slice_get slots.items i ≡ Some (Some version.now))) }
{
    let mut slots = Vec::new(alloc);
    for at in 0..count {
        let slot = slot_of(alloc, version, at)?;
        slots.push(slot)?;
    }
    Ok(slots)
}

/// A copy of the version for a stripe's slot, and nothing for one between two stripes.
fn slot_of<S: State>(
    alloc: Global,
    version: &Version<S>,
    at: usize,
) -> Result<Option<Version<S>>, NoMemory>
    ensures { IfOk result (λ slot. IsStripe at → slot ≡ Some version.now) }
{
    if at % SPACING != 0 {
        return Ok(None);
    }
    let copy = version.apart(alloc)?;
    Ok(Some(copy))
}

/// So many readers, each with a seat of its own.
fn new_readers<S: State>(
    alloc: Global,
    root: &Arc<Root<S>>,
    seat: &mut Place<S>,
    readers: u32,
) -> Result<Vec<Reader<S>>, NoMemory>
    requires count { readers ≤ 64 }
    requires writer { IsFirstWriter (arc_value root.now).shared.table_id (arc_value root.now).shared.key.base.value 0 seat.old }
    ensures readers { IfOk result (λ all. AreFresh (arc_value root.now).shared.table_id (arc_value root.now).shared.key.base.value readers all.items) }
    ensures writer { IfOk result (λ _. IsFirstWriter (arc_value root.now).shared.table_id (arc_value root.now).shared.key.base.value readers seat.new) }
{
    let mut all = Vec::new(alloc);
    for made in 0..readers {
        let reader = new_reader(root, seat, made as u64)?;
        all.push(reader)?;
    }
    Ok(all)
}

/// A reader's seat is split off the writer's.
fn new_reader<S: State>(
    root: &Arc<Root<S>>,
    seat: &mut Place<S>,
    made: u64,
) -> Result<Reader<S>, NoMemory>
    requires { IsFirstWriter (arc_value root.now).shared.table_id (arc_value root.now).shared.key.base.value made seat.old × (made < 64) }
    ensures reader { IfOk result (λ reader. reader ≡ fresh_reader (arc_value root.now).shared.table_id (arc_value root.now).shared.key.base.value made) }
    ensures writer { IfOk result (λ _. IsFirstWriter (arc_value root.now).shared.table_id (arc_value root.now).shared.key.base.value (made + 1) seat.new) }
{
    let owner = Arc::try_clone(root)?;
    let stripes = root.slot_count() / SPACING;
    let stripe = SPACING * (made as usize % stripes);
    let seat = enlist(&root.shared, seat);
    Ok(Reader {
        root: owner,
        seat,
        number: made + 2,
        stripe,
    })
}
