//! Cases of a system without integers: the valuations at which the observer is true, and the others.

ghost use Rattle.std.specs.Prelude.{◌≡◌, ◌<◌, true, false, [], List, IfOk, OnOk, MatchBool};
ghost use Rattle.rv_diagram.specs.Nodes.{Valuation, value_of, IsRef};
ghost use Rattle.rv_proofs.specs.declared.report.Case.{Case};
ghost use Rattle.rv_symbolic.specs.Parted.{IsAdded};

use rv_base::{Many, Memory};
use rv_diagram::{Ref, Store};
use rv_proofs::Case;
use std::alloc::Global;

/// Whether some valuation makes it true.
pub fn is_met(store: &Store, a: Ref) -> Result<bool, Memory>
    requires { IsRef store.now.nodes a }
    ensures { IfOk result (λ met. MatchBool met ((v : Valuation) × (value_of store.now.nodes a v ≡ true))
        ((v : Valuation) → value_of store.now.nodes a v ≡ false)) }
{
    match store.pick(a)? {
        Some(_) => Ok(true),
        None => Ok(false),
    }
}

/// Adds the case of a condition, unless no valuation makes it true.
fn add_case(
    alloc: Global,
    store: &Store,
    cases: &mut Many<Case>,
    condition: Ref,
    observer: bool,
) -> Result<(), Memory>
    requires { IsRef store.now.nodes condition }
    ensures { OnOk result (IsAdded store.now condition observer cases.old cases.new) }
{
    if !is_met(store, condition)? {
        return Ok(());
    }
    let condition = store.freeze(condition)?;
    cases.push(Case {
        condition,
        tests: Many::new(alloc),
        rows: Many::new(alloc),
        updates: Many::new(alloc),
        observer,
    })?;
    Ok(())
}

/// The cases of both sides.
pub fn both_cases(alloc: Global, store: &Store, good: Ref, bad: Ref) -> Result<Many<Case>, Memory>
    requires good { IsRef store.now.nodes good }
    requires bad { IsRef store.now.nodes bad }
    ensures { IfOk result (λ cases. (first : List Case) × IsAdded store.now good true [] first
        × IsAdded store.now bad false first cases) }
{
    let mut cases = Many::new(alloc);
    add_case(alloc, store, &mut cases, good, true)?;
    add_case(alloc, store, &mut cases, bad, false)?;
    Ok(cases)
}
