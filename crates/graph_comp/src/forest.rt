//! Forests over places: of each place the place of its parent, which is not behind it. A root is its own parent.
ghost use Rattle.std.specs.Prelude.{◌≡◌, ◌≤◌, ◌<◌, ◌↔◌, ℕ, EachIndex, IfOk, length, slice_index};
ghost use Rattle.graph_comp.specs.Forests.{IsFlat, IsForest, KeepsTrees};

use aug_monoid::NoMemory;
use std::alloc::Global;

/// So many roots alone.
pub(crate) fn roots(alloc: Global, count: usize) -> Result<Vec<usize>, NoMemory>
    ensures len { IfOk result (λ parents. length parents.items ≡ count) }
    ensures alone { IfOk result (λ parents. EachIndex parents.items (λ v. slice_index parents.items v ≡ v)) }
{
    let parents = (0..count).collect(alloc)?;
    Ok(parents)
}

// The root of a place's tree. On the way up every other place takes its parent's parent as its own.
fn root(parents: &mut [usize], start: usize) -> usize
    requires forest { IsForest parents.old }
    requires within { start < length parents.old }
    ensures forest { IsForest parents.new }
    ensures len { length parents.new ≡ length parents.old }
    ensures same { (label : ℕ → ℕ) → KeepsTrees label parents.new ↔ KeepsTrees label parents.old }
    ensures roots { (v : ℕ) → slice_index parents.old v ≡ v → slice_index parents.new v ≡ v }
    ensures tree { (label : ℕ → ℕ) → KeepsTrees label parents.new → label result ≡ label start }
    ensures root { slice_index parents.new result ≡ result }
    ensures within { result < length parents.old }
{
    let mut place = start;
    'climb: while parents[place] < place {
        let parent = parents[place];
        let above = parents[parent];
        parents[place] = above;
        place = above;
    }
    place
}

// Gives a root a parent.
fn hang(parents: &mut [usize], root: usize, parent: usize)
    requires forest { IsForest parents.old }
    requires within { root < length parents.old }
    requires root { slice_index parents.old root ≡ root }
    requires low { parent ≤ root }
    ensures forest { IsForest parents.new }
    ensures len { length parents.new ≡ length parents.old }
    ensures hung { (label : ℕ → ℕ) → KeepsTrees label parents.new ↔ (KeepsTrees label parents.old × (label parent ≡ label root)) }
{
    parents[root] = parent;
}

/// Makes the trees of two places one. For n places a call takes O(log n) time, averaged over many.
pub(crate) fn unite(parents: &mut [usize], one: usize, other: usize)
    requires forest { IsForest parents.old }
    requires one { one < length parents.old }
    requires other { other < length parents.old }
    ensures forest { IsForest parents.new }
    ensures len { length parents.new ≡ length parents.old }
    ensures united { (label : ℕ → ℕ) → KeepsTrees label parents.new ↔ (KeepsTrees label parents.old × (label one ≡ label other)) }
{
    let near = root(parents, one);
    let far = root(parents, other);
    if near < far {
        hang(parents, far, near)
    } else {
        hang(parents, near, far)
    }
}

/// Makes those trees one that another forest over the same places makes one.
pub(crate) fn unite_all(parents: &mut [usize], others: &[usize])
    requires forest { IsForest parents.old }
    requires others { IsForest others.now }
    requires len { length others.now ≡ length parents.old }
    ensures forest { IsForest parents.new }
    ensures len { length parents.new ≡ length parents.old }
    ensures united { (label : ℕ → ℕ) → KeepsTrees label parents.new ↔ (KeepsTrees label parents.old × KeepsTrees label others.now) }
{
    for (place, parent) in others.iter().enumerate() {
        unite(parents, place, *parent);
    }
}

/// Makes the root of each place's tree its parent, in linear time.
pub(crate) fn flatten(parents: &mut [usize])
    requires { IsForest parents.old }
    ensures forest { IsForest parents.new }
    ensures len { length parents.new ≡ length parents.old }
    ensures same { (label : ℕ → ℕ) → KeepsTrees label parents.new ↔ KeepsTrees label parents.old }
    ensures flat { IsFlat parents.new }
{
    for place in 0..parents.len() {
        let parent = parents[place];
        parents[place] = parents[parent];
    }
}
