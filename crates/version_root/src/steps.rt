//! The steps of one seat on the stripes of a root.
ghost use Rattle.std.specs.Prelude.{◌≡◌, ◌≢◌, ◌+◌, ◌*◌, ◌/◌, ◌<◌, ◌≤◌, true, false, List, [], ◌∷◌, Option, Some, IfOk, All, vec_len};
ghost use Rattle.versions.specs.History.{History, history};
ghost use Rattle.versions.specs.declared.batch.Entry.{Entry};
ghost use Rattle.versions.specs.Prefix.{IsPrefix, longer};
ghost use Rattle.version_root.specs.Root.{IsStripe, enlisting, enlisted, notice_of, informed, spent_view};
ghost use Rattle.version_root.specs.Seats.{IsReader, HasVersion, IsWriterSeat, IsTeller, IsNotice, laid, number_of, lost_of, found_of};
ghost use Rattle.atomic_table.specs.Table.{rest};
ghost use Rattle.version_root.specs.Steps.{tried, returned, looked, claimed, handed};

use crate::view::{Opening, RootRule, View};
use atomic_table::{Join, Play, Seat, Shared, Split, Table};
use aug_monoid::{NoMemory, Share};
use std::alloc::Global;
use std::sync::Wait;
use std::thread;
use versions::{State, Version};

pub type Stripes<S> = Shared<Option<Version<S>>, View<S, <S as State>::Op>, Opening<S>, RootRule>;

pub type Root<S> = Table<
    Option<Version<S>>,
    View<S, <S as State>::Op>,
    Opening<S>,
    RootRule,
    Global,
>;

pub type Place<S> = Seat<Option<Version<S>>, View<S, <S as State>::Op>>;

struct Trying;

impl<S: State> Play<Option<Version<S>>, View<S, S::Op>> for Trying {
    ghost then = { tried };
}

struct Returning;

impl<S: State> Play<Option<Version<S>>, View<S, S::Op>> for Returning {
    ghost then = { returned };
}

/// One compare-exchange on the reader's stripe. It answers the word that it found.
pub(crate) fn contend<S: State>(
    stripes: &Stripes<S>,
    seat: &mut Place<S>,
    stripe: usize,
    number: u64,
) -> u64
    requires { IsReader stripes.now.table_id stripes.now.key.base.value number stripe seat.old }
    ensures won { result ≡ 0 → HasVersion stripes.now.table_id stripes.now.key.base.value number stripe seat.new
        × IsPrefix seat.old.me.0.seen seat.new.me.0.seen × (lost_of seat.new.me.0.role ≡ lost_of seat.old.me.0.role) × (found_of seat.new.me.0.role ≡ found_of seat.old.me.0.role) }
    ensures lost { result ≢ 0 → IsReader stripes.now.table_id stripes.now.key.base.value number stripe seat.new
        × (seat.new.me.0.seen ≡ seat.old.me.0.seen) × (lost_of seat.new.me.0.role ≡ lost_of seat.old.me.0.role + 1) × (found_of seat.new.me.0.role ≡ result) × (result ≢ number) }
{
    stripes.compare_exchange::<Trying>(seat, stripe, 0, number)
}

/// A copy of the version that the reader won. It has it afterwards too.
pub(crate) fn copy_held<S: State>(
    stripes: &Stripes<S>,
    seat: &mut Place<S>,
    stripe: usize,
    alloc: Global,
) -> Result<Version<S>, NoMemory>
    requires { HasVersion stripes.now.table_id stripes.now.key.base.value (number_of seat.old.me.0.role) stripe seat.old }
    ensures same { HasVersion stripes.now.table_id stripes.now.key.base.value (number_of seat.old.me.0.role) stripe seat.new × (seat.new.me.0 ≡ seat.old.me.0) }
    ensures copy { IfOk result (λ copy. copy ≡ history stripes.now.key.base.value seat.old.me.0.seen) }
{
    let held = stripes.exchange(seat, stripe, None);
    let copy = match &held {
        Some(version) => version.share(alloc),
        None => unreachable!(),
    };
    stripes.exchange(seat, stripe, held);
    copy
}

pub(crate) fn give_back<S: State>(stripes: &Stripes<S>, seat: &mut Place<S>, stripe: usize)
    requires { HasVersion stripes.now.table_id stripes.now.key.base.value (number_of seat.old.me.0.role) stripe seat.old }
    ensures { IsReader stripes.now.table_id stripes.now.key.base.value (number_of seat.old.me.0.role) stripe seat.new
        × (seat.new.me.0.seen ≡ seat.old.me.0.seen) × (lost_of seat.new.me.0.role ≡ lost_of seat.old.me.0.role) × (found_of seat.new.me.0.role ≡ found_of seat.old.me.0.role) }
{
    stripes.store::<Returning>(seat, stripe, 0);
}

struct Claiming;

impl<S: State> Play<Option<Version<S>>, View<S, S::Op>> for Claiming {
    ghost then = { claimed };
}

struct Handing;

impl<S: State> Play<Option<Version<S>>, View<S, S::Op>> for Handing {
    ghost then = { handed };
}

/// Stripes stand so many words and slots apart, so that no two of them are on one cache line.
pub(crate) const SPACING: usize = 8;

/// The writer takes the turn of the next stripe, and the version in its slot.
fn claim<S: State, R: Wait>(rt: &R, stripes: &Stripes<S>, seat: &mut Place<S>, stripe: usize)
    requires writer { IsWriterSeat stripes.now.table_id stripes.now.key.base.value stripe seat.old.me.1 seat.old }
    requires inside { (stripe < stripes.now.table_id.slots) × IsStripe stripe }
    ensures held { IsWriterSeat stripes.now.table_id stripes.now.key.base.value (stripe + 8) ((stripe, Some (history stripes.now.key.base.value seat.old.me.0.seen)) ∷ seat.old.me.1) seat.new }
    ensures seen { seat.new.me.0.seen ≡ seat.old.me.0.seen }
{
    for _ in rt.forever() {
        if stripes.compare_exchange::<Claiming>(seat, stripe, 0, 1) == 0 {
            return;
        }
        thread::yield_now();
    }
}

/// The writer takes every turn, and puts a copy into every slot.
pub(crate) fn claim_all<S: State, R: Wait>(
    rt: &R,
    stripes: &Stripes<S>,
    seat: &mut Place<S>,
    mut copies: Vec<Option<Version<S>>>,
)
    requires writer { IsWriterSeat stripes.now.table_id stripes.now.key.base.value 0 [] seat.old }
    requires count { 8 * vec_len copies ≡ stripes.now.table_id.slots }
    ensures held { IsWriterSeat stripes.now.table_id stripes.now.key.base.value stripes.now.table_id.slots seat.new.me.1 seat.new }
    ensures copies { (copy : Option (History S S.Op)) → All (λ x. x ≡ copy) copies.items → seat.new.me.1 ≡ laid (stripes.now.table_id.slots / 8) copy }
    ensures seen { seat.new.me.0.seen ≡ seat.old.me.0.seen }
{
    let mut stripe = 0;
    while let Some(copy) = copies.pop() {
        claim(rt, stripes, seat, stripe);
        stripes.exchange(seat, stripe, copy);
        stripe += SPACING;
    }
}

/// The writer gives every turn back, the last one first, in a table of so many slots.
pub(crate) fn hand_all<S: State>(stripes: &Stripes<S>, seat: &mut Place<S>, count: usize)
    requires count { count ≡ stripes.now.table_id.slots }
    requires writer { IsWriterSeat stripes.now.table_id stripes.now.key.base.value count seat.old.me.1 seat.old }
    requires grows { (journal : List (Entry S.Op)) × IsPrefix seat.old.me.0.seen journal × (seat.old.me.1 ≡ laid (count / 8) (Some (history stripes.now.key.base.value journal))) }
    ensures { (journal : List (Entry S.Op)) → seat.old.me.1 ≡ laid (count / 8) (Some (history stripes.now.key.base.value journal))
        → IsWriterSeat stripes.now.table_id stripes.now.key.base.value 0 [] seat.new × (seat.new.me.0.seen ≡ journal) }
{
    let mut held = count;
    while held > 0 {
        held -= SPACING;
        stripes.store::<Handing>(seat, held, 0);
    }
}

/// A notice is split off a seat.
struct Telling;

impl<S, O: Drop> Split<View<S, O>> for Telling {
    ghost left = { λ v. v };

    ghost right = { notice_of };
}

/// A reader's seat is split off the writer's.
struct Enlisting;

impl<S, O: Drop> Split<View<S, O>> for Enlisting {
    ghost left = { enlisting };

    ghost right = { enlisted };
}

/// A notice is joined into a seat.
struct Informing;

impl<S, O: Drop> Join<View<S, O>> for Informing {
    ghost both = { informed };

    ghost spent = { spent_view };
}

/// A look at a word, which tells that what was joined into the seat is a beginning of what it has seen.
struct Looking;

impl<S: State> Play<Option<Version<S>>, View<S, S::Op>> for Looking {
    ghost then = { looked };
}

/// A notice of what the seat has seen.
pub(crate) fn tell<S: State>(stripes: &Stripes<S>, seat: &mut Place<S>) -> Place<S>
    requires { IsTeller stripes.now.table_id stripes.now.key.base.value seat.old }
    ensures same { (seat.new.table_id ≡ seat.old.table_id) × (seat.new.id ≡ seat.old.id) × (seat.new.me ≡ seat.old.me) }
    ensures notice { IsNotice stripes.now.table_id result × (result.me.0.seen ≡ seat.old.me.0.seen) }
{
    stripes.split_seat::<Telling>(seat)
}

/// A reader's seat takes in a notice's, and looks at its stripe's word.
pub(crate) fn take_in<S: State>(
    stripes: &Stripes<S>,
    seat: &mut Place<S>,
    notice: Place<S>,
    stripe: usize,
)
    requires reader { IsReader stripes.now.table_id stripes.now.key.base.value (number_of seat.old.me.0.role) stripe seat.old }
    requires notice { IsNotice stripes.now.table_id notice }
    ensures reader { IsReader stripes.now.table_id stripes.now.key.base.value (number_of seat.old.me.0.role) stripe seat.new }
    ensures seen { IsPrefix seat.old.me.0.seen seat.new.me.0.seen × IsPrefix notice.me.0.seen seat.new.me.0.seen }
    ensures lost { lost_of seat.old.me.0.role ≤ lost_of seat.new.me.0.role }
    ensures longer { seat.new.me.0.seen ≡ longer seat.old.me.0.seen notice.me.0.seen }
{
    stripes.join_seat::<Informing>(seat, notice);
    stripes.load::<Looking>(seat, stripe);
}

/// The writer's seat takes in a notice's, and looks at the first word.
pub(crate) fn take_in_first<S: State>(stripes: &Stripes<S>, seat: &mut Place<S>, notice: Place<S>)
    requires writer { IsWriterSeat stripes.now.table_id stripes.now.key.base.value 0 [] seat.old }
    requires notice { IsNotice stripes.now.table_id notice }
    ensures writer { IsWriterSeat stripes.now.table_id stripes.now.key.base.value 0 [] seat.new }
    ensures seen { (seat.new.me.0.seen ≡ seat.old.me.0.seen) × IsPrefix notice.me.0.seen seat.new.me.0.seen }
{
    stripes.join_seat::<Informing>(seat, notice);
    stripes.load::<Looking>(seat, 0);
}

/// A seat for one more reader.
pub(crate) fn enlist<S: State>(stripes: &Stripes<S>, seat: &mut Place<S>) -> Place<S>
    requires { IsWriterSeat stripes.now.table_id stripes.now.key.base.value 0 [] seat.old }
    ensures writer { (seat.new.table_id ≡ seat.old.table_id) × (seat.new.me ≡ (enlisting seat.old.me.0, seat.old.me.1)) }
    ensures reader { (result.table_id ≡ seat.old.table_id) × (result.me ≡ (enlisted seat.old.me.0, [])) }
{
    stripes.split_seat::<Enlisting>(seat)
}
