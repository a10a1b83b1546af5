//! Sets of out-neighbours.
ghost use Rattle.std.specs.Prelude.{◌≡◌, [], is_some, length, IfOk, IfSome};
ghost use Rattle.std.specs.Map.{keys_of};
ghost use Rattle.std.specs.Ordering.{nat_cmp};
ghost use Rattle.map_model.specs.Entries.{IsIncreasing, lookup};
ghost use Rattle.map_model.specs.SetOperations.{difference};
ghost use Rattle.graph_snap.specs.Batches.{ends, has_elements};
ghost use Rattle.graph_snap.specs.Merging.{IsOnlyElement, merged, with_element};
ghost use Rattle.aug_monoid.specs.Fresh.{IsFresh};

use aug_map::CodedMap;
use aug_monoid::{First, NoMemory, Nothing, Resolve, Share, Steps, Test};
use std::alloc::Global;
use std::marker::{Brand, Model};
use std::sync::ledger::{Blank, Ledger};

/// The set of a vertex's out-neighbours, as the keys of a map.
pub struct Neighbours {
    set: CodedMap<Nothing<u64, ()>>,
}

impl Model for Neighbours {
    ghost use Rattle.std.specs.Prelude.{List, ℕ};

    ghost Value = { List (ℕ × Unit {0}) };

    ghost view = { λ n. n.set.entries };
}

impl Drop for Neighbours {
    fn drop(self) {
        let Neighbours { set } = self;
        drop(set);
    }
}

impl Share for Neighbours {
    ghost never_refuses = { ⊥ };

    /// The same set, in O(1) and in the memory of this one.
    fn share(&self, alloc: Global) -> Result<Neighbours, NoMemory> {
        let set = self.set.share(alloc)?;
        Ok(Neighbours { set })
    }
}

/// The ends of edges, as keys without values.
pub(crate) fn ends_of(alloc: Global, run: &[(u64, u64)]) -> Result<Vec<(u64, ())>, NoMemory>
    ensures { IfOk result (λ keys. keys.items ≡ ends run.now) }
{
    let keys = run.iter().map(|edge| (edge.1, ())).collect(alloc)?;
    Ok(keys)
}

// The set of the ends of edges in order from one vertex.
fn set_of_run(alloc: Global, run: &[(u64, u64)]) -> Result<CodedMap<Nothing<u64, ()>>, NoMemory>
    requires { IsIncreasing nat_cmp (ends run.now) }
    ensures { IfOk result (λ set. set.entries ≡ ends run.now) }
{
    if run.len() == 1 {
        return CodedMap::single(alloc, run[0].1, ());
    }
    let keys = ends_of(alloc, run)?;
    CodedMap::of_slice(alloc, &keys)
}

// A set with the ends of edges in order from one vertex. A single end, as most are in a batch of edges, is put.
fn set_with_run(
    alloc: Global,
    set: &CodedMap<Nothing<u64, ()>>,
    run: &[(u64, u64)],
) -> Result<CodedMap<Nothing<u64, ()>>, NoMemory>
    requires { IsIncreasing nat_cmp (ends run.now) }
    ensures { IfOk result (λ more. more.entries ≡ merged set.now.entries (ends run.now)) }
{
    if run.len() == 1 {
        return put_element::<Brand>(alloc, set, run[0].1, Blank::new(1));
    }
    let more = set_of_run(alloc, run)?;
    set.union_alone(alloc, &more, &First)
}

// The only element, where there is one and no more.
fn only_element(alloc: Global, set: &CodedMap<Nothing<u64, ()>>) -> Result<Option<u64>, NoMemory>
    ensures { IfOk result (λ only. IfSome only (IsOnlyElement set.now.entries)) }
{
    if set.size() != 1 {
        return Ok(None);
    }
    match set.select(alloc, 0)? {
        Some(entry) => Ok(Some(entry.0)),
        None => Ok(None),
    }
}

// The set with one element more, or the same one, with a counter that the caller gives up.
fn put_element<C: Ledger>(
    alloc: Global,
    set: &CodedMap<Nothing<u64, ()>>,
    element: u64,
    blank: Blank,
) -> Result<CodedMap<Nothing<u64, ()>>, NoMemory>
    requires { IsFresh C.name C.parts blank }
    ensures { IfOk result (λ more. more.entries ≡ with_element set.now.entries element) }
{
    let mut steps = Steps::<C>::start(blank);
    set.put(alloc, element, (), &mut steps)
}

// The elements of either set. A second set of one element, as most are that a batch of edges makes, is put.
fn either_of(
    alloc: Global,
    a: &CodedMap<Nothing<u64, ()>>,
    b: &CodedMap<Nothing<u64, ()>>,
) -> Result<CodedMap<Nothing<u64, ()>>, NoMemory>
    ensures { IfOk result (λ both. both.entries ≡ merged a.now.entries b.now.entries) }
{
    match only_element(alloc, b)? {
        Some(element) => put_element::<Brand>(alloc, a, element, Blank::new(1)),
        None => a.union_alone(alloc, b, &First),
    }
}

impl Neighbours {
    /// The set without elements.
    pub(crate) fn none() -> Neighbours
        ensures { result ≡ [] }
    {
        Neighbours {
            set: CodedMap::empty(),
        }
    }

    /// Its elements, as the keys of a map. O(1).
    pub fn map(&self) -> &CodedMap<Nothing<u64, ()>>
        ensures { result.now.entries ≡ self.now }
    {
        &self.set
    }

    /// How many elements there are.
    pub(crate) fn size(&self) -> u64
        ensures value { result ≡ length self.now }
        ensures increasing { IsIncreasing nat_cmp self.now }
    {
        self.set.size()
    }

    /// The elements in order.
    pub(crate) fn elements(&self, alloc: Global) -> Result<Vec<u64>, NoMemory>
        ensures { IfOk result (λ list. list.items ≡ keys_of self.now) }
    {
        let mut list = Vec::new(alloc);
        for entry in self.set.cursor(alloc) {
            let (element, ()) = entry?;
            list.push(element)?;
        }
        Ok(list)
    }

    /// Whether it has an element, with a counter that the caller gives up.
    pub(crate) fn has<C: Ledger>(&self, element: u64, blank: Blank) -> bool
        requires { IsFresh C.name C.parts blank }
        ensures { result ≡ is_some (lookup nat_cmp self.now element) }
    {
        let mut steps = Steps::<C>::start(blank);
        self.set.contains_key(&element, &mut steps)
    }

    /// The set of the ends of edges in order from one vertex.
    pub(crate) fn of_run(alloc: Global, run: &[(u64, u64)]) -> Result<Neighbours, NoMemory>
        requires { IsIncreasing nat_cmp (ends run.now) }
        ensures { IfOk result (λ set. set ≡ ends run.now) }
    {
        let set = set_of_run(alloc, run)?;
        Ok(Neighbours { set })
    }

    /// The set of ends in order.
    pub(crate) fn of_ends(alloc: Global, ends: &[(u64, ())]) -> Result<Neighbours, NoMemory>
        requires { IsIncreasing nat_cmp ends.now }
        ensures { IfOk result (λ set. set ≡ ends.now) }
    {
        let set = CodedMap::of_slice(alloc, ends)?;
        Ok(Neighbours { set })
    }

    /// The set with the ends of edges in order from one vertex.
    pub(crate) fn with_run(&self, alloc: Global, run: &[(u64, u64)]) -> Result<Neighbours, NoMemory>
        requires { IsIncreasing nat_cmp (ends run.now) }
        ensures { IfOk result (λ set. set ≡ merged self.now (ends run.now)) }
    {
        let set = set_with_run(alloc, &self.set, run)?;
        Ok(Neighbours { set })
    }

    /// The elements of either set.
    pub(crate) fn merged(&self, alloc: Global, other: &Neighbours) -> Result<Neighbours, NoMemory>
        ensures { IfOk result (λ set. set ≡ merged self.now other.now) }
    {
        let set = either_of(alloc, &self.set, &other.set)?;
        Ok(Neighbours { set })
    }

    /// The elements that the other set hasn't.
    fn minus(&self, alloc: Global, other: &Neighbours) -> Result<Neighbours, NoMemory>
        ensures { IfOk result (λ set. set ≡ difference nat_cmp self.now other.now) }
    {
        let set = self.set.difference_alone(alloc, &other.set)?;
        Ok(Neighbours { set })
    }
}

/// The elements of either set.
#[derive(Drop)]
pub(crate) struct Merge;

impl Resolve<Neighbours> for Merge {
    ghost resolved = { λ _ a b. merged a b };

    fn resolve(
        &self,
        alloc: Global,
        a: &Neighbours,
        b: &Neighbours,
    ) -> Result<Neighbours, NoMemory> {
        a.merged(alloc, b)
    }
}

/// The elements of the first set that the second hasn't.
#[derive(Drop)]
pub(crate) struct Minus;

impl Resolve<Neighbours> for Minus {
    ghost resolved = { λ _. difference nat_cmp };

    fn resolve(
        &self,
        alloc: Global,
        a: &Neighbours,
        b: &Neighbours,
    ) -> Result<Neighbours, NoMemory> {
        a.minus(alloc, b)
    }
}

/// Whether a set has elements.
#[derive(Drop)]
pub(crate) struct HasElements;

impl Test<u64, Neighbours> for HasElements {
    ghost passes = { λ _ _ ns. has_elements ns };

    fn holds(&self, _key: &u64, val: &Neighbours) -> bool {
        val.size() != 0
    }
}
