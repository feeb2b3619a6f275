//! The terms of the memories, the inputs and the flows.

ghost use Rattle.std.specs.Prelude.{◌≡◌, ◌+◌, ◌<◌, ◌^◌, List, [], ◌∷◌, length, slice_get, Some};
ghost use Rattle.std.specs.Prelude.{IfOk, OnOk, IsErrOf};
ghost use Rattle.rv_diagram.specs.declared.Triple.{Triple as TripleModel};
ghost use Rattle.rv_agreement.specs.Trees.{memory_kinds};
ghost use Rattle.rv_agreement.specs.Valuations.{whole_count};
ghost use Rattle.rv_flat.specs.FlatInstants.{system_of};
ghost use Rattle.rv_bits.specs.Shown.{AreAfter, IsAround};
ghost use Rattle.rv_forms.specs.Columns.{AreColumnTerms};
ghost use Rattle.rv_forms.specs.Terms.{AreKnown, AreWholes, AreWholesRead, IsFlowAs, IsReady};

use crate::constants::{kind_term, zero_term};
use crate::expressions::{term_of, there_or};
use crate::over::Wholes;
use rv_base::{Many, Memory};
use rv_bits::Around;
use rv_diagram::{Ref, Store, StoreFault};
use rv_flat::{Flat, FlatFlow};
use rv_terms::Term;
use rv_types::Kind;
use std::alloc::Global;

/// The types of the memories.
fn memory_types(alloc: Global, flat: &Flat) -> Result<Many<Kind>, Memory>
    ensures { IfOk result (λ kinds. kinds ≡ memory_kinds (system_of flat.now)) }
{
    let mut kinds = Many::new(alloc);
    for memory in flat.memories.as_slice() {
        kinds.push(memory.kind)?;
    }
    Ok(kinds)
}

/// The types of the inputs.
fn input_types(alloc: Global, flat: &Flat) -> Result<Many<Kind>, Memory>
    ensures { IfOk result (λ kinds. kinds ≡ (system_of flat.now).inputs) }
{
    let mut kinds = Many::new(alloc);
    for input in flat.inputs.as_slice() {
        kinds.push(input.kind)?;
    }
    Ok(kinds)
}

/// 1 for the type of integers, else 0.
fn one_of(kind: Kind) -> usize
    ensures { result ≡ whole_count (kind ∷ []) }
{
    match kind {
        Kind::Int => 1,
        Kind::Bool => 0,
        Kind::Labels(_) => 0,
    }
}

/// How many of some types are that of integers.
fn count_integers(kinds: &[Kind]) -> usize
    ensures { result ≡ whole_count kinds.now }
{
    let mut count = 0;
    for kind in kinds {
        count += one_of(*kind);
    }
    count
}

/// The terms of what is of some types, one for each, where the first integer has this column, and the next ones the next.
fn column_terms(
    alloc: Global,
    columns: usize,
    start: usize,
    kinds: &[Kind],
) -> Result<Many<Term>, StoreFault>
    requires { start + whole_count kinds.now < 2 ^ 64 }
    ensures ok { IfOk result (AreColumnTerms columns start kinds.now) }
    ensures never { IsErrOf result StoreFault.Nodes → ⊥ }
{
    let mut terms = Many::new(alloc);
    let mut column = start;
    for kind in kinds {
        terms.push(kind_term(alloc, columns, *kind, column)?)?;
        column += one_of(*kind);
    }
    Ok(terms)
}

/// The terms of the memories and inputs, and of no flow.
fn first_wholes(alloc: Global, flat: &Flat) -> Result<Wholes, StoreFault>
    ensures ok { IfOk result (λ w. (nodes : List TripleModel) → AreWholes flat.now nodes w) }
    ensures none { IfOk result (λ w. w.flows ≡ []) }
    ensures never { IsErrOf result StoreFault.Nodes → ⊥ }
{
    let memories = memory_types(alloc, flat)?;
    let inputs = input_types(alloc, flat)?;
    let first = count_integers(memories.as_slice());
    let columns = first + count_integers(inputs.as_slice());
    let kept = column_terms(alloc, columns, 0, memories.as_slice())?;
    let given = column_terms(alloc, columns, first, inputs.as_slice())?;
    Ok(Wholes {
        columns,
        kept,
        given,
        flows: Many::new(alloc),
    })
}

/// The term of an integer flow: what it has where its clock is there, and the constant 0 elsewhere.
fn integer_flow(
    alloc: Global,
    store: &mut Store,
    around: &Around,
    wholes: &Wholes,
    shown: &mut Many<Option<Many<Ref>>>,
    known: &mut Many<Option<Term>>,
    flow: &FlatFlow,
) -> Result<Term, StoreFault>
    requires ready { IsReady store.old around.now wholes.now shown.old known.old }
    requires flow { slice_get around.now.flat.now.flows (length wholes.now.flows) ≡ Some flow.now }
    requires whole { flow.now.kind ≡ Kind.Int }
    ensures ok { IfOk result (λ t. IsFlowAs around.now.flat.now store.old store.new (length wholes.now.flows) t.parts) }
    ensures ready { OnOk result (IsReady store.new around.now wholes.now shown.new known.new) }
    ensures roomy { IsErrOf result StoreFault.Nodes → store.old.limit < 2 ^ (2 ^ store.old.variables) }
{
    let body = term_of(alloc, store, around, wholes, shown, known, &flow.body)?;
    let zero = zero_term(alloc, wholes.columns)?;
    let on = around.read.on.as_slice();
    there_or(alloc, store, on, flow.clock, body, &zero)
}

/// The term of a flow.
fn flow_term(
    alloc: Global,
    store: &mut Store,
    around: &Around,
    wholes: &Wholes,
    shown: &mut Many<Option<Many<Ref>>>,
    known: &mut Many<Option<Term>>,
    flow: &FlatFlow,
) -> Result<Term, StoreFault>
    requires ready { IsReady store.old around.now wholes.now shown.old known.old }
    requires flow { slice_get around.now.flat.now.flows (length wholes.now.flows) ≡ Some flow.now }
    ensures ok { IfOk result (λ t. IsFlowAs around.now.flat.now store.old store.new (length wholes.now.flows) t.parts) }
    ensures ready { OnOk result (IsReady store.new around.now wholes.now shown.new known.new) }
    ensures roomy { IsErrOf result StoreFault.Nodes → store.old.limit < 2 ^ (2 ^ store.old.variables) }
{
    match flow.kind {
        Kind::Int => integer_flow(alloc, store, around, wholes, shown, known, flow),
        Kind::Bool => zero_term(alloc, wholes.columns),
        Kind::Labels(_) => zero_term(alloc, wholes.columns),
    }
}

/// The terms of all memories, inputs and flows, flow after flow in order. Before it all flows have been read into references. `shown`
/// and `known` keep what has been read of what the memories hold after the instant (`none_known` to begin with). Where no node is left
/// for the store the error is Nodes, and nodes may be left that nothing names.
pub fn read_wholes(
    alloc: Global,
    store: &mut Store,
    around: &Around,
    shown: &mut Many<Option<Many<Ref>>>,
    known: &mut Many<Option<Term>>,
) -> Result<Wholes, StoreFault>
    requires around { IsAround store.old around.now }
    requires complete { length around.now.read.now.on ≡ length around.now.flat.now.flows }
    requires shown { AreAfter around.now.flat.now store.old.nodes shown.old }
    requires known { AreKnown around.now.flat.now store.old.nodes known.old }
    ensures ok { IfOk result (AreWholesRead around.now.flat.now store.old store.new) }
    ensures ready { IfOk result (λ w. IsReady store.new around.now w shown.new known.new) }
    ensures roomy { IsErrOf result StoreFault.Nodes → store.old.limit < 2 ^ (2 ^ store.old.variables) }
{
    let mut wholes = first_wholes(alloc, around.flat)?;
    for flow in around.flat.flows.as_slice() {
        let term = flow_term(alloc, store, around, &wholes, shown, known, flow)?;
        wholes.flows.push(term)?;
    }
    Ok(wholes)
}
