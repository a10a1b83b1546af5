//! The arithmetic of weight-balanced trees: when siblings are balanced, where a join links, and how a node is turned.
//!
//! The weight of a tree is its number of entries plus 1. The balance and the turns are those of weight-balanced trees
//! with the parameter 1/4.
//!
//! Tests: `ground_tests`. Wrong bodies: none here; `tree_join` and `seq_core` prove their balance by these clauses.
#![tactic(auto)]

ghost use Rattle.std.specs.Prelude.{◌≡◌, ◌+◌, ◌*◌, ◌^◌, ◌<◌, ◌≤◌, ◌↔◌, IsTrue};
ghost use Rattle.map_model.specs.Balance.{IsBalanced};
ghost use Rattle.balance.specs.Turns.{IsWeight, SingleBalances, IsRepairable, DoubleBalances};

/// How a node is turned whose near side came back from a join.
#[derive(Clone, Copy, Debug, PartialEq, Eq)]
pub enum Turn {
    /// The node is balanced.
    None,
    /// The near side's inner child goes to the far side.
    Single,
    /// The two children of the near side's inner child part: one goes to the far side.
    Double,
}

/// The test of `balanced`, also for sums of two weights.
fn is_balanced(left: u64, right: u64) -> bool
    requires left_fits { left < 2 ^ 62 }
    requires right_fits { right < 2 ^ 62 }
    ensures { IsTrue result ↔ IsBalanced left right }
{
    left <= 3 * right && right <= 3 * left
}

/// Whether two siblings of these weights are balanced.
pub fn balanced(left: u64, right: u64) -> bool
    requires left_weight { IsWeight left }
    requires right_weight { IsWeight right }
    ensures { IsTrue result ↔ IsBalanced left right }
{
    is_balanced(left, right)
}

/// Whether a join links a near part of the heavy tree with the light tree, or goes on down.
pub fn link_here(near: u64, light: u64) -> bool
    requires near_weight { IsWeight near }
    requires light_weight { IsWeight light }
    ensures { IsTrue result ↔ (near ≤ 3 * light) }
{
    near <= 3 * light
}

/// How a node is turned over a far side of the weight `outer` and a near side whose children have the weights `inner`
/// and `last`, `inner` beside the far side.
pub fn repair(outer: u64, inner: u64, last: u64) -> Turn
    requires outer_weight { IsWeight outer }
    requires inner_weight { IsWeight inner }
    requires last_weight { IsWeight last }
    ensures none { (result ≡ Turn.None) ↔ IsBalanced outer (inner + last) }
    ensures single { (result ≡ Turn.Single) ↔ ((¬ (IsBalanced outer (inner + last))) × SingleBalances outer inner last) }
    ensures double { (result ≡ Turn.Double) ↔ ((¬ (IsBalanced outer (inner + last))) × (¬ (SingleBalances outer inner last))) }
{
    if is_balanced(outer, inner + last) {
        Turn::None
    } else if is_balanced(outer, inner) && is_balanced(outer + inner, last) {
        Turn::Single
    } else {
        Turn::Double
    }
}

/// Whether a double turn leaves its three new nodes balanced, where the inner child has children of the weights `a` and
/// `b`. It does wherever `repair` asks for it.
pub fn double_law(outer: u64, a: u64, b: u64, last: u64) -> bool
    requires outer_weight { IsWeight outer }
    requires a_weight { IsWeight a }
    requires b_weight { IsWeight b }
    requires last_weight { IsWeight last }
    ensures value { IsTrue result ↔ DoubleBalances outer a b last }
    ensures law { IsRepairable outer (a + b) last → IsBalanced a b → (¬ (IsBalanced outer (a + b + last))) → (¬ (SingleBalances outer (a + b) last)) → IsTrue result }
{
    is_balanced(outer, a) && is_balanced(b, last) && is_balanced(outer + a, b + last)
}
