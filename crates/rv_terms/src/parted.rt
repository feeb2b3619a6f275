//! Terms, and how one is made: part by part, under references that are true at no common valuation.

ghost use Rattle.std.specs.Prelude.{◌*◌, ◌≡◌, ◌≢◌, ℕ, ◌+◌, ◌<◌, ◌≤◌, ◌^◌, ◌↔◌, ◌&&◌, ◌||◌, true, false, length, IfOk, OnOk, OnErr, IsErrOf};
ghost use Rattle.std.specs.Prelude.{IsTrue, MatchOption};
ghost use Rattle.rv_diagram.specs.Nodes.{value_of, IsRef, Answers};
ghost use Rattle.rv_terms.specs.Growing.{LacksRoom};
ghost use Rattle.rv_diagram.specs.Counting.{count};
ghost use Rattle.rv_diagram.specs.Growing.{Extends};
ghost use Rattle.rv_terms.specs.Parts.{part_at, AreRefs, Adds};

use rv_base::{Many, Memory};
use rv_diagram::{Ref, Store, StoreFault};
use rv_rows::Form;
use std::alloc::Global;

/// A form, and where it holds.
#[derive(Debug, Drop)]
pub struct Part {
    /// True at the valuations at which the form holds.
    pub under: Ref,
    /// The form.
    pub form: Form,
}

/// A form that depends on a valuation: at each one exactly one part holds.
#[derive(Debug, Drop)]
pub struct Term {
    /// The parts, in no particular order.
    pub parts: Many<Part>,
}

/// The same form.
pub fn copy_of(alloc: Global, form: &Form) -> Result<Form, Memory>
    ensures { IfOk result (λ f. f ≡ form.now) }
{
    let numbers = Vec::from_slice(alloc, form.coefficients.as_slice())?;
    Ok(Form {
        coefficients: Many::from_vec(numbers),
        constant: form.constant,
    })
}

/// Whether two lists of numbers are one.
fn same_numbers(a: &[i128], b: &[i128]) -> bool
    ensures { IsTrue result ↔ (a.now ≡ b.now) }
{
    a == b
}

/// Whether two forms are one.
pub fn same_form(a: &Form, b: &Form) -> bool
    ensures { IsTrue result ↔ (a.now ≡ b.now) }
{
    if a.constant != b.constant {
        return false;
    }
    same_numbers(a.coefficients.as_slice(), b.coefficients.as_slice())
}

/// The part that has a form.
pub fn place_of(parts: &[Part], form: &Form) -> Option<usize>
    ensures { MatchOption result ((i : ℕ) → i < length parts.now → (part_at parts.now i).form ≢ form.now)
        (λ i. (i < length parts.now) × ((part_at parts.now i).form ≡ form.now)) }
{
    for (i, part) in parts.iter().enumerate() {
        if same_form(&part.form, form) {
            return Some(i);
        }
    }
    None
}

/// The conjunction: at most m nodes more for each valuation at which it is true.
pub fn both(store: &mut Store, a: Ref, b: Ref) -> Result<Ref, StoreFault>
    requires a { IsRef store.old.nodes a }
    requires b { IsRef store.old.nodes b }
    ensures ok { IfOk result (λ r. Answers store.old store.new (λ v. value_of store.old.nodes a v && value_of store.old.nodes b v) r) }
    ensures few { OnOk result (length store.new.nodes ≤ length store.old.nodes
        + store.old.variables * count store.old.variables (λ v. value_of store.old.nodes a v && value_of store.old.nodes b v)) }
    ensures roomy { IsErrOf result StoreFault.Nodes → store.old.limit < 2 ^ (2 ^ store.old.variables) }
    ensures room { IsErrOf result StoreFault.Nodes → LacksRoom 1 store.old }
    ensures needs { IsErrOf result StoreFault.Nodes → store.old.limit < length store.old.nodes
        + store.old.variables * count store.old.variables (λ v. value_of store.old.nodes a v && value_of store.old.nodes b v) }
    ensures err { OnErr result (store.new ≡ store.old) }
{
    let _count = store.mark();
    store.ite(a, b, 0)
}

/// The disjunction: at most m nodes more for each valuation at which the second is true.
pub fn either(store: &mut Store, a: Ref, b: Ref) -> Result<Ref, StoreFault>
    requires a { IsRef store.old.nodes a }
    requires b { IsRef store.old.nodes b }
    ensures ok { IfOk result (λ r. Answers store.old store.new (λ v. value_of store.old.nodes a v || value_of store.old.nodes b v) r) }
    ensures few { OnOk result (length store.new.nodes
        ≤ length store.old.nodes + store.old.variables * count store.old.variables (value_of store.old.nodes b)) }
    ensures roomy { IsErrOf result StoreFault.Nodes → store.old.limit < 2 ^ (2 ^ store.old.variables) }
    ensures needs { IsErrOf result StoreFault.Nodes
        → store.old.limit < length store.old.nodes + store.old.variables * count store.old.variables (value_of store.old.nodes b) }
    ensures err { OnErr result (store.new ≡ store.old) }
{
    let _count = store.mark();
    store.or(a, b)
}

/// Adds a form where a reference is true, which no part there is yet.
pub fn add_part(
    store: &mut Store,
    parts: &mut Many<Part>,
    under: Ref,
    form: Form,
) -> Result<(), StoreFault>
    requires under { IsRef store.old.nodes under }
    requires parts { AreRefs store.old.nodes parts.old }
    ensures extends { Extends store.old store.new }
    ensures roomy { IsErrOf result StoreFault.Nodes → store.old.limit < 2 ^ (2 ^ store.old.variables) }
    ensures needs { IsErrOf result StoreFault.Nodes
        → store.old.limit < length store.old.nodes + store.old.variables * count store.old.variables (value_of store.old.nodes under) }
    ensures refs { OnOk result (AreRefs store.new.nodes parts.new) }
    ensures few { OnOk result (length store.new.nodes
        ≤ length store.old.nodes + store.old.variables * count store.old.variables (value_of store.old.nodes under)) }
    ensures added { OnOk result (Adds store.old.nodes store.new.nodes (value_of store.old.nodes under) (λ v. form) parts.old parts.new) }
{
    if store.is_false(under) {
        return Ok(());
    }
    match place_of(parts.as_slice(), &form) {
        Some(i) => {
            let before = parts.at(i).under;
            let joined = match either(store, before, under) {
                Ok(joined) => joined,
                Err(fault) => return Err(fault),
            };
            parts.set(
                i,
                Part {
                    under: joined,
                    form,
                },
            );
            Ok(())
        }
        None => {
            parts.push(Part { under, form })?;
            Ok(())
        }
    }
}
