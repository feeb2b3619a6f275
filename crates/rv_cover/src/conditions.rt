//! Conditions of entries.

ghost use Rattle.std.specs.Prelude.{◌<◌, ◌^◌, ◌≡◌, IfOk, IfSome, IsErrOf};
ghost use Rattle.rv_diagram.specs.Nodes.{IsRef};
ghost use Rattle.rv_diagram.specs.Growing.{Extends};
ghost use Rattle.rv_cases.specs.Conditions.{AreRefs};
ghost use Rattle.rv_cover.specs.Entries.{IsReadable};

use crate::frame::Frame;
use crate::refs::{all_of, both, without};
use rv_base::Memory;
use rv_diagram::{Frozen, Ref, Store, StoreFault};

/// The condition of a step by its answers: also that the valuation is safe, unless each one of the scope is that has the answers.
pub fn step_condition(
    store: &mut Store,
    scope: Ref,
    safe: Ref,
    answers: &[Ref],
) -> Result<Ref, StoreFault>
    requires scope { IsRef store.old.nodes scope }
    requires safe { IsRef store.old.nodes safe }
    requires answers { AreRefs store.old.nodes answers.now }
    ensures extends { Extends store.old store.new }
    ensures roomy { IsErrOf result StoreFault.Nodes → store.old.limit < 2 ^ (2 ^ store.old.variables) }
    ensures found { IfOk result (λ r. IsRef store.new.nodes r) }
{
    let all = all_of(store, answers)?;
    let within = both(store, scope, all)?;
    let rest = without(store, within, safe)?;
    if store.is_false(rest) {
        return Ok(all);
    }
    both(store, all, safe)
}

/// The condition as a diagram that stands by itself, or none where it reads what a condition may not.
pub fn condition_of(store: &Store, frame: &Frame, condition: Ref) -> Result<Option<Frozen>, Memory>
    requires { IsRef store.now.nodes condition }
    ensures { IfOk result (λ o. IfSome o (IsReadable frame.now)) }
{
    let frozen = store.freeze(condition)?;
    if !frozen.ordered(frame.variables) {
        return Ok(None);
    }
    if !frozen.uses_only(frame.read.as_slice()) {
        return Ok(None);
    }
    Ok(Some(frozen))
}
