//! The end of a root that gives it versions.
ghost use Rattle.std.specs.Prelude.{◌≡◌, IfOk, OnOk, OnErr, All, Some, vec_len};
ghost use Rattle.std.specs.Arc.{arc_value};
ghost use Rattle.versions.specs.History.{history};
ghost use Rattle.versions.specs.Prefix.{IsPrefix};

use crate::notice::Notice;
use crate::steps::{Place, Root, SPACING, claim_all, hand_all, take_in_first, tell};
use aug_monoid::NoMemory;
use std::alloc::Global;
use std::marker::Model;
use std::sync::{Arc, Wait};
use versions::{State, Version};

/// The one end that gives the root its versions, seen as its root, the root's base, and the journal.
pub struct Writer<S: State> {
    pub(crate) root: Arc<Root<S>>,
    pub(crate) seat: Place<S>,
    pub(crate) current: Version<S>,
}

impl<S: State> Drop for Writer<S> {
    fn drop(self) {
        let Writer {
            root,
            seat,
            current,
        } = self;
        drop(root);
        drop(seat);
        drop(current);
    }
}

impl<S: State> Model for Writer<S> {
    ghost use Rattle.std.specs.Arc.{arc_value};
    ghost use Rattle.version_root.specs.Seats.{Writing, writing, IsWriter};

    ghost Value = { Writing S S.Op };

    ghost view = { λ a. writing (arc_value a.root).shared.table_id (arc_value a.root).shared.key.base.value a.seat.me.0 };

    ghost invariant = { λ a. IsWriter (arc_value a.root).shared.table_id (arc_value a.root).shared.key.base.value a.current a.seat };
}

/// So many copies of the version, each with parts of its own, so that readers of different stripes write to no place in common.
fn copies_of<S: State>(
    alloc: Global,
    version: &Version<S>,
    count: usize,
) -> Result<Vec<Option<Version<S>>>, NoMemory>
    ensures { IfOk result (λ copies. (vec_len copies ≡ count) × All (λ copy. copy ≡ Some version.now) copies.items) }
{
    let mut copies = Vec::with_capacity(alloc, count)?;
    for _ in 0..count {
        copies.push(Some(version.apart(alloc)?))?;
    }
    Ok(copies)
}

impl<S: State> Writer<S> {
    /// Lends the version of the writer's journal. O(1), and it takes no memory.
    pub fn current(&self) -> &Version<S>
        ensures { result.now ≡ history self.now.base self.now.journal }
    {
        &self.current
    }

    /// Makes the version that of the root, and its journal the writer's.
    /// It makes a copy for every stripe (`Version::apart`), at most eight, before it takes a turn, so on a refusal the root is as
    /// before. It may wait for readers.
    pub fn publish<R: Wait>(
        &mut self,
        rt: &R,
        alloc: Global,
        version: Version<S>,
    ) -> Result<(), NoMemory>
        requires base { version.base ≡ self.old.base }
        requires grows { IsPrefix self.old.journal version.journal }
        ensures ok { OnOk result (self.new ≡ record self.old { journal = version.journal }) }
        ensures err { OnErr result (self.new ≡ self.old) }
    {
        let count = self.root.slot_count();
        let copies = copies_of(alloc, &version, count / SPACING)?;
        claim_all(rt, &self.root.shared, &mut self.seat, copies);
        hand_all(&self.root.shared, &mut self.seat, count);
        self.current = version;
        Ok(())
    }

    /// A notice of the writer's journal, for a reader. O(1).
    pub fn tell(&mut self) -> Result<Notice<S>, NoMemory>
        ensures same { self.new ≡ self.old }
        ensures notice { IfOk result (λ notice. notice ≡ record { root = self.old.root; base = self.old.base; seen = self.old.journal }) }
    {
        let root = Arc::try_clone(&self.root)?;
        let seat = tell(&self.root.shared, &mut self.seat);
        Ok(Notice { root, seat })
    }

    /// Takes in a reader's notice: what it tells of is a beginning of the writer's journal. O(1), and it takes no memory.
    pub fn take_in<R: Wait>(&mut self, _rt: &R, notice: Notice<S>)
        requires { notice.root ≡ self.old.root }
        ensures same { self.new ≡ self.old }
        ensures seen { IsPrefix notice.seen self.new.journal }
    {
        let Notice { root: _, seat } = notice;
        take_in_first(&self.root.shared, &mut self.seat, seat);
    }
}
