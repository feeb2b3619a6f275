//! Searches over the vertices of a graph that are allowed.

ghost use Rattle.std.specs.Prelude.{◌≡◌, ◌<◌, ◌↔◌, [], ◌∷◌, ℕ, length, true, false, IsTrue, OnOk, Some};
ghost use Rattle.std.specs.List.{Contains};
ghost use Rattle.rv_calls.specs.Graphs.{IsGraph};
ghost use Rattle.rv_calls.specs.Components.{mark_of, IsReached, IsSpread};

use rv_base::{Many, Memory};
use std::alloc::Global;

/// Marks with a vertex those to which it leads over vertices that are allowed, itself among them: those to which
/// `allowed` gives the mark `wanted`. None has the mark before. Time grows with the number of the vertices that are
/// marked and of their edges.
pub fn reach(
    alloc: Global,
    graph: &Many<Many<u32>>,
    from: u32,
    allowed: &Many<Option<u32>>,
    wanted: Option<u32>,
    marks: &mut Many<Option<u32>>,
) -> Result<(), Memory>
    requires vertices { IsGraph graph.now }
    requires from { from < length graph.now }
    requires allowed { length allowed.now ≡ length graph.now }
    requires start { mark_of allowed.now from ≡ wanted }
    requires marks { length marks.old ≡ length graph.now }
    requires fresh { (k : ℕ) → mark_of marks.old k ≡ Some from → ⊥ }
    ensures { OnOk result (IsReached graph.now allowed.now wanted from marks.old marks.new) }
{
    marks.set(from as usize, Some(from));
    let mut waiting = Many::new(alloc);
    waiting.push(from)?;
    while let Some(v) = waiting.pop() {
        let targets = graph.at(v as usize).as_slice();
        spread(targets, from, allowed, wanted, marks, &mut waiting)?;
    }
    Ok(())
}

/// Marks the targets that are allowed, and lets those wait that were not marked.
fn spread(
    targets: &[u32],
    from: u32,
    allowed: &Many<Option<u32>>,
    wanted: Option<u32>,
    marks: &mut Many<Option<u32>>,
    waiting: &mut Many<u32>,
) -> Result<(), Memory>
    requires allowed { (v : ℕ) → Contains targets.now v → v < length allowed.now }
    requires marks { (v : ℕ) → Contains targets.now v → v < length marks.old }
    ensures { OnOk result (IsSpread allowed.now wanted from targets.now marks.old waiting.old marks.new waiting.new) }
{
    for target in targets {
        mark(*target, from, allowed, wanted, marks, waiting)?;
    }
    Ok(())
}

/// Marks a vertex, and lets it wait, unless it is not allowed or is marked.
fn mark(
    v: u32,
    from: u32,
    allowed: &Many<Option<u32>>,
    wanted: Option<u32>,
    marks: &mut Many<Option<u32>>,
    waiting: &mut Many<u32>,
) -> Result<(), Memory>
    requires allowed { v < length allowed.now }
    requires marks { v < length marks.old }
    ensures { OnOk result (IsSpread allowed.now wanted from (v ∷ []) marks.old waiting.old marks.new waiting.new) }
{
    let own = *allowed.at(v as usize);
    let mark = *marks.at(v as usize);
    if is_new(own, wanted, mark, from) {
        marks.set(v as usize, Some(from));
        waiting.push(v)?;
    }
    Ok(())
}

/// Whether a vertex with these two marks is allowed and not yet marked.
fn is_new(allowed: Option<u32>, wanted: Option<u32>, mark: Option<u32>, from: u32) -> bool
    ensures yes { result ≡ true → (allowed ≡ wanted) × (mark ≡ Some from → ⊥) }
    ensures not { result ≡ false → allowed ≡ wanted → mark ≡ Some from }
{
    are_same(allowed, wanted) && !are_same(mark, Some(from))
}

/// Whether two marks are the same.
pub fn are_same(one: Option<u32>, another: Option<u32>) -> bool
    ensures { IsTrue result ↔ (one ≡ another) }
{
    match (one, another) {
        (None, None) => true,
        (Some(a), Some(b)) => a == b,
        _ => false,
    }
}
