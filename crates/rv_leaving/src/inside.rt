//! Where the next control state is in a set.

ghost use Rattle.std.specs.Prelude.{◌≡◌, ℕ, ◌*◌, ◌<◌, ◌≤◌, ◌^◌, List, length, IfOk, IsErrOf};
ghost use Rattle.rv_diagram.specs.declared.Triple.{Triple};
ghost use Rattle.rv_diagram.specs.Nodes.{IsRef, IsOrderedOver};
ghost use Rattle.rv_diagram.specs.Several.{ref_at};
ghost use Rattle.rv_diagram.specs.Growing.{Extends};
ghost use Rattle.rv_symbolic.specs.Linked.{AreRefs};
ghost use Rattle.rv_leaving.specs.Led.{IsLedBy};

use rv_base::Memory;
use rv_diagram::{Frozen, Ref, Store, StoreFault};
use std::alloc::Global;

/// What a variable becomes: a state bit its reference, and each other one the constant false.
fn becomes(next: &[Ref], x: u32) -> Ref
    ensures bit { (i : ℕ) → x ≡ 2 * i → i < length next.now → result ≡ ref_at next.now i }
    ensures found { (nodes : List Triple) → AreRefs nodes next.now → IsRef nodes result }
{
    let i = (x / 2) as usize;
    if x % 2 == 1 {
        return 0;
    }
    if i >= next.len() {
        return 0;
    }
    next[i]
}

/// What each variable becomes.
fn replacements(alloc: Global, next: &[Ref], variables: u32) -> Result<Vec<Ref>, Memory>
    requires { 2 * length next.now ≤ variables }
    ensures size { IfOk result (λ by. length by.items ≡ variables) }
    ensures bits { IfOk result (λ by. (i : ℕ) → i < length next.now → ref_at by.items (2 * i) ≡ ref_at next.now i) }
    ensures found { IfOk result (λ by. (nodes : List Triple) → AreRefs nodes next.now → (x : ℕ) → IsRef nodes (ref_at by.items x)) }
{
    let mut by = Vec::new(alloc);
    for x in 0..variables {
        by.push(becomes(next, x))?;
    }
    Ok(by)
}

/// Where the next control state is in a set, with what was built of it: in the set each state bit is replaced by the reference of what it
/// becomes.
pub fn led(alloc: Global, store: &mut Store, next: &[Ref], to: &Frozen) -> Result<Ref, StoreFault>
    requires next { AreRefs store.old.nodes next.now }
    requires copies { 2 * length next.now ≤ store.old.variables }
    requires to { IsOrderedOver store.old.variables to.now }
    ensures extends { Extends store.old store.new }
    ensures roomy { IsErrOf result StoreFault.Nodes → store.old.limit < 2 ^ (2 ^ store.old.variables) }
    ensures led { IfOk result (IsLedBy store.old store.new next.now to.now) }
{
    let variables = store.variables();
    let by = replacements(alloc, next, variables)?;
    let target = store.thaw(to)?;
    store.compose_each(target, by.as_slice())
}
