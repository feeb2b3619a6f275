//! Conditions under which valuations lead into a set.

ghost use Rattle.std.specs.Prelude.{◌≡◌, ℕ, ◌*◌, ◌<◌, ◌≤◌, ◌^◌, true, length, IfOk, IsErrOf};
ghost use Rattle.rv_diagram.specs.Nodes.{Valuation, value_of, IsRef};
ghost use Rattle.rv_diagram.specs.Several.{ref_at, AreReplacements};
ghost use Rattle.rv_diagram.specs.Growing.{Extends};
ghost use Rattle.rv_symbolic.specs.Linked.{AreRefs};
ghost use Rattle.rv_left.specs.Becoming.{IsBecome, AreBecoming, IsConditionOf};

use rv_diagram::{Frozen, Ref, Store, StoreFault};
use std::alloc::Global;

/// What a variable becomes where `within` is true: a state bit its reference. Each other one becomes the constant false.
fn become_in(store: &mut Store, next: &[Ref], within: Ref, x: u32) -> Result<Ref, StoreFault>
    requires next { AreRefs store.old.nodes next.now }
    requires within { IsRef store.old.nodes within }
    ensures extends { Extends store.old store.new }
    ensures roomy { IsErrOf result StoreFault.Nodes → store.old.limit < 2 ^ (2 ^ store.old.variables) }
    ensures becomes { IfOk result (IsBecome store.old store.new next.now within x) }
{
    let i = (x / 2) as usize;
    let nothing = store.constant(false);
    if x % 2 == 1 {
        return Ok(nothing);
    }
    if i >= next.len() {
        return Ok(nothing);
    }
    store.and(within, next[i])
}

/// What each variable becomes where `within` is true, with what was built of it. Elsewhere all become false, so that little is built.
pub fn replacements(
    alloc: Global,
    store: &mut Store,
    next: &[Ref],
    within: Ref,
) -> Result<Vec<Ref>, StoreFault>
    requires next { AreRefs store.old.nodes next.now }
    requires within { IsRef store.old.nodes within }
    ensures extends { Extends store.old store.new }
    ensures roomy { IsErrOf result StoreFault.Nodes → store.old.limit < 2 ^ (2 ^ store.old.variables) }
    ensures becomes { IfOk result (λ by. AreBecoming store.old store.new next.now within store.old.variables by.items) }
{
    let mut by = Vec::new(alloc);
    let variables = store.variables();
    for x in 0..variables {
        let becomes = become_in(store, next, within, x)?;
        by.push(becomes)?;
    }
    Ok(by)
}

/// Where `within` is true and the target is true of what the variables become, with what was built of it.
fn condition_in(
    store: &mut Store,
    within: Ref,
    target: Ref,
    by: &[Ref],
) -> Result<Frozen, StoreFault>
    requires within { IsRef store.old.nodes within }
    requires target { IsRef store.old.nodes target }
    requires by { AreReplacements store.old.nodes store.old.variables by.now }
    ensures extends { Extends store.old store.new }
    ensures roomy { IsErrOf result StoreFault.Nodes → store.old.limit < 2 ^ (2 ^ store.old.variables) }
    ensures made { IfOk result (IsConditionOf store.old within target by.now) }
{
    let led = store.compose_each(target, by)?;
    let both = store.and(within, led)?;
    Ok(store.freeze(both)?)
}

/// Where `within` is true and the target is true of what the variables become. The store is left as it was.
pub fn condition(
    store: &mut Store,
    within: Ref,
    target: Ref,
    by: &[Ref],
) -> Result<Frozen, StoreFault>
    requires within { IsRef store.old.nodes within }
    requires target { IsRef store.old.nodes target }
    requires by { AreReplacements store.old.nodes store.old.variables by.now }
    ensures made { IfOk result (IsConditionOf store.old within target by.now) }
    ensures same { store.new ≡ store.old }
    ensures roomy { IsErrOf result StoreFault.Nodes → store.old.limit < 2 ^ (2 ^ store.old.variables) }
{
    let mark = store.mark();
    let answer = condition_in(store, within, target, by);
    store.release(mark);
    answer
}
