//! A chain of links, of which each follows the one before it by a step.

ghost use Rattle.std.specs.Prelude.{◌≡◌, ◌+◌, ◌*◌, ◌<◌, ◌≤◌, length, IfOk, OnOk};
ghost use Rattle.rv_diagram.specs.Nodes.{IsRef};

use rv_diagram::{Ref, Store, StoreFault};

/// Whether link i after the step is link i - 1 before it. Link i is variable 2 i before and 2 i + 1 after.
fn link(s: &mut Store, i: u32) -> Result<Ref, StoreFault>
    requires some { 0 < i }
    requires low { i + i + 1 < s.old.variables }
    requires few { s.old.variables ≤ 4096 }
    ensures found { IfOk result (λ r. IsRef s.new.nodes r) }
    ensures longer { OnOk result (length s.old.nodes ≤ length s.new.nodes) }
    ensures variables { OnOk result (s.new.variables ≡ s.old.variables) }
{
    let before = s.variable(2 * i - 2)?;
    let after = s.variable(2 * i + 1)?;
    let not_before = s.not(before)?;
    s.ite(after, before, not_before)
}

/// The steps of n links.
fn steps(s: &mut Store, n: u32) -> Result<Ref, StoreFault>
    requires some { 0 < n }
    requires low { n + n ≤ s.old.variables }
    requires few { s.old.variables ≤ 4096 }
    ensures found { IfOk result (λ r. IsRef s.new.nodes r) }
    ensures variables { OnOk result (s.new.variables ≡ s.old.variables) }
{
    let mut whole = s.constant(true);
    for back in 1..n {
        let one = link(s, n - back)?;
        whole = s.and(one, whole)?;
    }
    Ok(whole)
}

/// The steps of n links, and walks over all of them: without the last link before the step, with the last
/// link after it set, and with one link in place of another.
pub fn chain(s: &mut Store, n: u32) -> Result<Ref, StoreFault>
    requires low { n + n ≤ s.old.variables }
    requires few { s.old.variables ≤ 4096 }
    ensures { IfOk result (λ r. IsRef s.new.nodes r) }
{
    if n < 2 {
        return Ok(s.constant(true));
    }
    let whole = steps(s, n)?;
    let other = s.not(whole)?;
    let less = s.exists(whole, 2 * n - 2)?;
    let set = s.restrict(other, 2 * n - 1, true)?;
    let _holds = s.implies(set, less)?;
    let first = s.variable(0)?;
    s.compose(less, 2 * n - 1, first)
}
