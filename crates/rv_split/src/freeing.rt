//! The first state variable of which a set has both values, read off its diagram alone.

ghost use Rattle.std.specs.Prelude.{◌≡◌, ℕ, ◌+◌, ◌<◌, true, ◌||◌, Bool, length, List, IfOk, MatchOption};
ghost use Rattle.rv_diagram.specs.declared.Triple.{Triple};
ghost use Rattle.rv_diagram.specs.Nodes.{Valuation, IsRef, IsFrom, IsOrdered};
ghost use Rattle.rv_proofs.specs.Scopes.{IsIn};
ghost use Rattle.rv_split.specs.Partitions.{IsStateSet, IsSingle, AreRising};
ghost use Rattle.rv_split.specs.Splits.{IsFirstFree};
ghost use Rattle.rv_split.specs.Steps.{IsMet, AreTold, IsFreeAt, IsForced};

use rv_base::Memory;
use rv_diagram::{Frozen, Triple};
use std::alloc::Global;

/// Whether some valuation makes a reference true, by what is told of the nodes.
fn reaches(told: &[bool], r: u32) -> bool
    requires { r < length told.now + 2 }
    ensures { (nodes : List Triple) → AreTold nodes told.now → IsMet nodes r result }
{
    if r < 2 { r == 1 } else { told[r as usize - 2] }
}

/// The same of a node by its children: it is so where one of them is.
fn either_reaches(told: &[bool], lo: u32, hi: u32) -> bool
    requires lo { lo < length told.now + 2 }
    requires hi { hi < length told.now + 2 }
    ensures { (nodes : List Triple) → AreTold nodes told.now
        → (a : Bool) × (b : Bool) × IsMet nodes lo a × IsMet nodes hi b × (result ≡ (a || b)) }
{
    let first = reaches(told, lo);
    let second = reaches(told, hi);
    if first { true } else { second }
}

/// For each node whether some valuation makes it true.
fn told_of(alloc: Global, nodes: &[Triple]) -> Result<Vec<bool>, Memory>
    requires { IsOrdered nodes.now }
    ensures size { IfOk result (λ told. length told.items ≡ length nodes.now) }
    ensures told { IfOk result (λ told. AreTold nodes.now told.items) }
{
    let mut told = Vec::new(alloc);
    for i in 0..nodes.len() {
        let node = nodes[i];
        let some = either_reaches(told.as_slice(), node.lo, node.hi);
        told.push(some)?;
    }
    Ok(told)
}

/// The child that a reference is where all valuations that make it true have one value of x, or none.
fn forced(nodes: &[Triple], told: &[bool], at: u32, x: u32) -> Option<u32>
    requires ordered { IsOrdered nodes.now }
    requires size { length told.now ≡ length nodes.now }
    requires told { AreTold nodes.now told.now }
    requires found { IsRef nodes.now at }
    requires met { IsMet nodes.now at true }
    requires from { IsFrom nodes.now x at }
    ensures { MatchOption result (IsFreeAt nodes.now at x) (λ child. IsForced nodes.now at x child) }
{
    if at < 2 {
        return None;
    }
    let node = nodes[at as usize - 2];
    if node.var != x {
        return None;
    }
    let low = reaches(told, node.lo);
    let high = reaches(told, node.hi);
    if low {
        if high {
            return None;
        }
        return Some(node.lo);
    }
    Some(node.hi)
}

/// The same by what is told of the nodes: down from the root, as long as all valuations have one value.
fn free_in(nodes: &[Triple], told: &[bool], root: u32, state: &[u32]) -> Option<u32>
    requires set { (m : ℕ) × IsStateSet m state.now (record { nodes = nodes.now; root = root }) }
    requires rising { AreRising state.now }
    requires met { IsMet nodes.now root true }
    requires size { length told.now ≡ length nodes.now }
    requires told { AreTold nodes.now told.now }
    ensures { MatchOption result (IsSingle state.now (record { nodes = nodes.now; root = root }))
        (λ x. IsFirstFree state.now (record { nodes = nodes.now; root = root }) x) }
{
    let mut at = root;
    for x in state {
        match forced(nodes, told, at, *x) {
            Some(child) => at = child,
            None => return Some(*x),
        }
    }
    None
}

/// The first state variable of which a set that is not empty has both values. There is none exactly where it has one control
/// state. One pass over the nodes, and one over the variables.
pub fn first_free(alloc: Global, set: &Frozen, state: &[u32]) -> Result<Option<u32>, Memory>
    requires set { (m : ℕ) × IsStateSet m state.now set.now }
    requires rising { AreRising state.now }
    requires some { (v : Valuation) × IsIn set.now v }
    ensures { IfOk result (λ free. MatchOption free (IsSingle state.now set.now) (λ x. IsFirstFree state.now set.now x)) }
{
    let nodes = set.nodes.as_slice();
    let told = told_of(alloc, nodes)?;
    Ok(free_in(nodes, told.as_slice(), set.root, state))
}
