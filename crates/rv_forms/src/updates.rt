//! The updates of the integer memories, and the parts of a term as answers.

ghost use Rattle.std.specs.Prelude.{◌≡◌, ◌<◌, ◌^◌, length, slice_get, Some, IfOk, OnOk, IsErrOf};
ghost use Rattle.rv_diagram.specs.Growing.{Extends};
ghost use Rattle.rv_forms.specs.Choices.{refs_in, forms_in};
ghost use Rattle.rv_forms.specs.Columns.{IsAdded};
ghost use Rattle.rv_forms.specs.Terms.{AreUpdatesRead, IsReady};

use crate::constants::copied_form;
use crate::expressions::after_term;
use crate::over::Wholes;
use rv_base::{Many, Memory};
use rv_bits::Around;
use rv_diagram::{Ref, Store, StoreFault};
use rv_flat::FlatMemory;
use rv_rows::Form;
use rv_terms::Term;
use rv_types::Kind;
use std::alloc::Global;

/// Adds the term of what a memory holds after the instant, where it is one of integers.
fn add_update(
    alloc: Global,
    store: &mut Store,
    around: &Around,
    wholes: &Wholes,
    shown: &mut Many<Option<Many<Ref>>>,
    known: &mut Many<Option<Term>>,
    number: usize,
    memory: &FlatMemory,
    terms: &mut Many<Term>,
) -> Result<(), StoreFault>
    requires ready { IsReady store.old around.now wholes.now shown.old known.old }
    requires all { length wholes.now.flows ≡ length around.now.flat.now.flows }
    requires memory { slice_get around.now.flat.now.memories number ≡ Some memory.now }
    ensures extends { OnOk result (Extends store.old store.new) }
    ensures added { OnOk result (IsAdded around.now.flat.now store.new.nodes number memory.now.kind terms.old terms.new) }
    ensures ready { OnOk result (IsReady store.new around.now wholes.now shown.new known.new) }
    ensures roomy { IsErrOf result StoreFault.Nodes → store.old.limit < 2 ^ (2 ^ store.old.variables) }
{
    match memory.kind {
        Kind::Int => {
            let term = after_term(alloc, store, around, wholes, shown, known, number)?;
            terms.push(term)?;
            Ok(())
        }
        Kind::Bool => Ok(()),
        Kind::Labels(_) => Ok(()),
    }
}

/// The terms of the updates of the integer memories, in order: at each valuation what the memory holds after the instant, its own
/// column where its clock is absent. Before it all flows have been read (`read_wholes`). Where no node is left for the store the error
/// is Nodes, and nodes may be left that nothing names.
pub fn read_updates(
    alloc: Global,
    store: &mut Store,
    around: &Around,
    wholes: &Wholes,
    shown: &mut Many<Option<Many<Ref>>>,
    known: &mut Many<Option<Term>>,
) -> Result<Many<Term>, StoreFault>
    requires ready { IsReady store.old around.now wholes.now shown.old known.old }
    requires all { length wholes.now.flows ≡ length around.now.flat.now.flows }
    ensures ok { IfOk result (AreUpdatesRead around.now.flat.now store.old store.new) }
    ensures ready { OnOk result (IsReady store.new around.now wholes.now shown.new known.new) }
    ensures roomy { IsErrOf result StoreFault.Nodes → store.old.limit < 2 ^ (2 ^ store.old.variables) }
{
    let mut terms = Many::new(alloc);
    for (number, memory) in around.flat.memories.as_slice().iter().enumerate() {
        add_update(
            alloc, store, around, wholes, shown, known, number, memory, &mut terms,
        )?;
    }
    Ok(terms)
}

/// The references under which the parts of a term hold. The only error is want of memory.
pub fn refs_of(alloc: Global, term: &Term) -> Result<Many<Ref>, Memory>
    ensures { IfOk result (λ refs. refs ≡ refs_in term.now.parts) }
{
    let mut refs = Many::new(alloc);
    for part in term.parts.as_slice() {
        refs.push(part.under)?;
    }
    Ok(refs)
}

/// The forms of the parts of a term. The only error is want of memory.
pub fn forms_of(alloc: Global, term: &Term) -> Result<Many<Form>, Memory>
    ensures { IfOk result (λ forms. forms ≡ forms_in term.now.parts) }
{
    let mut forms = Many::new(alloc);
    for part in term.parts.as_slice() {
        forms.push(copied_form(alloc, &part.form)?)?;
    }
    Ok(forms)
}
