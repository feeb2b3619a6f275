//! A bound that depends on the valuation.

ghost use Rattle.std.specs.Prelude.{◌≡◌, ◌↔◌, ◌⊎◌, ℕ, ℤ, ◌<◌, ◌≤◌, ◌^◌, ◌<ℤ◌, ◌≤ℤ◌, true, List, Some, IfOk, IsErrOf, if◌then◌else◌, None as Nothing};
ghost use Rattle.std.specs.Int.RustNames.{unsigned_abs};
ghost use Rattle.rv_diagram.specs.declared.Triple.{Triple};
ghost use Rattle.rv_diagram.specs.Nodes.{Valuation, IsRef, value_of};
ghost use Rattle.rv_diagram.specs.Growing.{Extends};
ghost use Rattle.rv_terms.specs.Parts.{form_at, IsTerm, IsTermOf};
ghost use Rattle.rv_ends.specs.Intervals.{IsAtMost};
ghost use Rattle.rv_ends.specs.Sides.{side_at, IsSide};
ghost use Rattle.rv_ends.specs.Tops.{number_form};

use crate::thresholds::is_below;
use rv_base::{Many, Memory};
use rv_diagram::{Ref, Store, StoreFault};
use rv_rows::Form;
use rv_terms::{Part, Term, choose, leaf};
use std::alloc::Global;

/// An upper bound of a number, where there is one: of a column, or of its opposite.
#[derive(Debug, Drop)]
pub struct Side {
    /// True at the valuations at which there is a bound.
    pub there: Ref,
    /// The bound there, as the constant of a form without columns.
    pub end: Term,
}

/// The form without columns that is a number.
fn constant(alloc: Global, number: i128) -> Form
    ensures { result ≡ number_form number }
{
    Form {
        coefficients: Many::new(alloc),
        constant: number,
    }
}

/// The number at every valuation. Memory comes where there is none.
pub fn number_term(alloc: Global, number: i128) -> Result<Term, Memory>
    ensures { IfOk result (λ t. (nodes : List Triple) → IsTermOf nodes 0 (λ v. number_form number) t.parts) }
{
    let form = constant(alloc, number);
    leaf(alloc, &form)
}

/// No bound at any valuation. Memory comes where there is none.
pub fn no_side(alloc: Global, store: &Store) -> Result<Side, Memory>
    ensures side { IfOk result (IsSide store.now.nodes 0) }
    ensures none { IfOk result (λ s. (v : Valuation) → side_at store.now.nodes s v ≡ Nothing) }
{
    let end = number_term(alloc, 0)?;
    let there = store.constant(false);
    Ok(Side { there, end })
}

/// The same part.
fn copied_part(alloc: Global, part: &Part) -> Result<Part, Memory>
    ensures { IfOk result (λ p. p ≡ part.now) }
{
    let numbers = Vec::from_slice(alloc, part.form.coefficients.as_slice())?;
    Ok(Part {
        under: part.under,
        form: Form {
            coefficients: Many::from_vec(numbers),
            constant: part.form.constant,
        },
    })
}

/// The same side.
pub fn copied(alloc: Global, side: &Side) -> Result<Side, Memory>
    ensures { IfOk result (λ s. s ≡ side.now) }
{
    let mut parts = Many::new(alloc);
    for place in 0..side.end.parts.len() {
        let part = copied_part(alloc, side.end.parts.at(place))?;
        parts.push(part)?;
    }
    Ok(Side {
        there: side.there,
        end: Term { parts },
    })
}

/// Where the first reference is true, or the part holds and its constant is below a number.
fn with_part(store: &mut Store, so_far: Ref, part: &Part, bound: i128) -> Result<Ref, StoreFault>
    requires so_far { IsRef store.old.nodes so_far }
    requires part { IsRef store.old.nodes part.now.under }
    ensures extends { Extends store.old store.new }
    ensures roomy { IsErrOf result StoreFault.Nodes → store.old.limit < 2 ^ (2 ^ store.old.variables) }
    ensures found { IfOk result (IsRef store.new.nodes) }
    ensures exact { IfOk result (λ r. (v : Valuation) → (value_of store.new.nodes r v ≡ true)
        ↔ ((value_of store.old.nodes so_far v ≡ true)
        ⊎ ((value_of store.old.nodes part.now.under v ≡ true) × (part.now.form.constant <ℤ bound)))) }
{
    if !is_below(part.form.constant, bound) {
        return Ok(so_far);
    }
    store.or(so_far, part.under)
}

/// Where the term's constant is below a number, with what was built of it.
fn parts_below(store: &mut Store, term: &Term, bound: i128) -> Result<Ref, StoreFault>
    requires term { IsTerm store.old.nodes 0 term.now.parts }
    ensures extends { Extends store.old store.new }
    ensures roomy { IsErrOf result StoreFault.Nodes → store.old.limit < 2 ^ (2 ^ store.old.variables) }
    ensures found { IfOk result (IsRef store.new.nodes) }
    ensures exact { IfOk result (λ r. (v : Valuation) → (value_of store.new.nodes r v ≡ true)
        ↔ ((form_at store.old.nodes term.now.parts v).constant <ℤ bound)) }
{
    let mut sum = store.constant(false);
    for place in 0..term.parts.len() {
        sum = with_part(store, sum, term.parts.at(place), bound)?;
    }
    Ok(sum)
}

/// Where the side has a bound that is below a number. Nodes comes where the store has no room for what is built, never where its limit holds
/// every function of its variables, and Memory where there is none; what was built is left, after a fault too.
pub fn below(store: &mut Store, side: &Side, bound: i128) -> Result<Ref, StoreFault>
    requires side { (n : ℕ) × IsSide store.old.nodes n side.now }
    ensures extends { Extends store.old store.new }
    ensures roomy { IsErrOf result StoreFault.Nodes → store.old.limit < 2 ^ (2 ^ store.old.variables) }
    ensures found { IfOk result (IsRef store.new.nodes) }
    ensures exact { IfOk result (λ r. (v : Valuation) → (value_of store.new.nodes r v ≡ true)
        ↔ ((b : ℤ) × (side_at store.old.nodes side.now v ≡ Some b) × (b <ℤ bound))) }
{
    let parts = parts_below(store, &side.end, bound)?;
    store.and(side.there, parts)
}

/// Where the reference is true and the side has no bound below a number, with what was built of it.
fn taken_where(store: &mut Store, side: &Side, under: Ref, bound: i128) -> Result<Ref, StoreFault>
    requires side { IsSide store.old.nodes (2 ^ 60) side.now }
    requires under { IsRef store.old.nodes under }
    ensures extends { Extends store.old store.new }
    ensures roomy { IsErrOf result StoreFault.Nodes → store.old.limit < 2 ^ (2 ^ store.old.variables) }
    ensures found { IfOk result (IsRef store.new.nodes) }
    ensures exact { IfOk result (λ r. (v : Valuation) → (value_of store.new.nodes r v ≡ true)
        ↔ ((value_of store.old.nodes under v ≡ true)
        × ((b : ℤ) → side_at store.old.nodes side.now v ≡ Some b → bound ≤ℤ b))) }
{
    let lower = below(store, side, bound)?;
    let fresh = store.not(lower)?;
    store.and(under, fresh)
}

/// The number where the reference is true, else the side's end, with what was built of it.
fn end_with(
    alloc: Global,
    store: &mut Store,
    side: &Side,
    taken: Ref,
    bound: i128,
) -> Result<Term, StoreFault>
    requires side { IsTerm store.old.nodes 0 side.now.end.parts }
    requires taken { IsRef store.old.nodes taken }
    ensures extends { Extends store.old store.new }
    ensures roomy { IsErrOf result StoreFault.Nodes → store.old.limit < 2 ^ (2 ^ store.old.variables) }
    ensures exact { IfOk result (λ t. IsTermOf store.new.nodes 0
        (λ v. if value_of store.old.nodes taken v then number_form bound else form_at store.old.nodes side.now.end.parts v) t.parts) }
{
    let number = number_term(alloc, bound)?;
    choose(alloc, store, taken, &number, &side.end)
}

/// The side, and at the valuations at which the reference is true one bound more: the lesser counts. With what was built of it.
pub fn tighten(
    alloc: Global,
    store: &mut Store,
    side: &Side,
    under: Ref,
    bound: i128,
) -> Result<Side, StoreFault>
    requires side { IsSide store.old.nodes (2 ^ 60) side.now }
    requires under { IsRef store.old.nodes under }
    requires bound { unsigned_abs bound ≤ 2 ^ 60 }
    ensures extends { Extends store.old store.new }
    ensures roomy { IsErrOf result StoreFault.Nodes → store.old.limit < 2 ^ (2 ^ store.old.variables) }
    ensures side { IfOk result (IsSide store.new.nodes (2 ^ 60)) }
    ensures exact { IfOk result (λ s. (v : Valuation) (x : ℤ) → IsAtMost (side_at store.new.nodes s v) x
        ↔ (IsAtMost (side_at store.old.nodes side.now v) x × (value_of store.old.nodes under v ≡ true → x ≤ℤ bound))) }
{
    let taken = taken_where(store, side, under, bound)?;
    let end = end_with(alloc, store, side, taken, bound)?;
    let there = store.or(side.there, under)?;
    Ok(Side { there, end })
}
