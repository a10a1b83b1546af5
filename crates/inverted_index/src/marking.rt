//! Which documents of a batch are new.
ghost use Rattle.std.specs.Prelude.{◌≡◌, not, is_some, IfOk, OnOk};
ghost use Rattle.std.specs.Ordering.{nat_cmp};
ghost use Rattle.map_model.specs.Entries.{lookup};
ghost use Rattle.inverted_index.specs.Batches.{all_knowing, knowing, marked};
ghost use Rattle.aug_monoid.specs.Fresh.{IsFresh};

use crate::doc::Doc;
use crate::postings::Weights;
use aug_monoid::{NoMemory, Steps};
use std::alloc::Global;
use std::sync::ledger::{Blank, Ledger};

/// A document of a batch, and whether it is new: neither in the index nor earlier in the batch.
#[derive(Clone, Copy)]
pub(crate) struct Marked<'a> {
    pub(crate) doc: u64,
    pub(crate) text: &'a [u8],
    pub(crate) is_new: bool,
}

// Whether a document is new; then it is known.
fn put_new<C: Ledger>(
    alloc: Global,
    known: &mut Weights,
    doc: u64,
    steps: &mut Steps<C>,
) -> Result<bool, NoMemory>
    ensures answer { IfOk result (λ is_new. is_new ≡ not (is_some (lookup nat_cmp known.old.entries doc))) }
    ensures after { OnOk result (known.new.entries ≡ knowing known.old.entries doc) }
{
    if known.get(alloc, &doc, steps)?.is_some() {
        return Ok(false);
    }
    known.put_mut(alloc, doc, 0, steps)?;
    Ok(true)
}

/// Marks the documents of a batch that are new, and makes them known.
pub(crate) fn mark_new<'a, C: Ledger>(
    alloc: Global,
    known: &mut Weights,
    docs: &[Doc<'a>],
    blank: Blank,
) -> Result<Vec<Marked<'a>>, NoMemory>
    requires { IsFresh C.name C.parts blank }
    ensures marks { IfOk result (λ list. list.items ≡ marked known.old.entries docs.now) }
    ensures after { OnOk result (known.new.entries ≡ all_knowing known.old.entries docs.now) }
{
    let mut steps = Steps::<C>::start(blank);
    let mut list = Vec::with_capacity(alloc, docs.len())?;
    for doc in docs {
        let is_new = put_new(alloc, known, doc.doc, &mut steps)?;
        list.push(Marked {
            doc: doc.doc,
            text: doc.text,
            is_new,
        })?;
    }
    Ok(list)
}
