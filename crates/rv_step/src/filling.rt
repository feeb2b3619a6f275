//! What the flows have at an instant, what the memories take, and which assertion is false.

ghost use Rattle.std.specs.Prelude.{◌≡◌, [], cond, length, map, not, IfOk, List, OnOk};
ghost use Rattle.rv_base.specs.declared.value.Value.{Value as ValueModel};
ghost use Rattle.rv_flat.specs.declared.state.State.{State as StateModel};
ghost use Rattle.std.specs.Option.{option_copied};
ghost use Rattle.rv_meaning.specs.Meaning as meaning;
ghost use Rattle.rv_flat.specs.Earliest.{IsPicked};
ghost use Rattle.rv_flat.specs.Filling.{AreShown, IsKept, is_broken};
ghost use Rattle.rv_flat.specs.FlatInstants as instants;
ghost use Rattle.rv_flat.specs.Inlined.{IsTable};
ghost use Rattle.rv_flat.specs.Steps.{AreValues, IsLeastOf, IsState, input_kinds};
ghost use Rattle.rv_step.specs.Surroundings.{AreShownIn, IsReady, tree_in, value_in};

use crate::evaluate::{Surroundings, current_of, is_there, truth, value_of};
use crate::least::sooner;
use rv_base::{Many, Memory, Place, Value};
use rv_flat::{Flat, FlatExpr, FlatFlow, State};
use std::alloc::Global;

/// For each memory, that what it takes at an instant has not been evaluated.
pub fn none_shown(alloc: Global, flat: &Flat) -> Result<Many<Option<Value>>, Memory>
    ensures { IfOk result (λ shown. (now : StateModel) (inputs : List ValueModel) → AreShown flat.now.memories (instants.found_at now inputs) [] shown) }
{
    let mut shown = Many::new(alloc);
    for _ in 0..flat.memories.len() {
        shown.push(None)?;
    }
    Ok(shown)
}

/// What a flow has, none where its clock is not there.
fn flow_value(
    flow: &FlatFlow,
    around: &Surroundings,
    shown: &mut Many<Option<Value>>,
) -> Option<Value>
    requires table { IsTable around.now.memories.now }
    requires ready { IsReady around.now (tree_in around.now flow.now.body) }
    requires shown { AreShownIn around.now shown.old }
    ensures value { result ≡ cond (instants.is_on_at around.now.row.now flow.now.clock) (Some (value_in around.now (tree_in around.now flow.now.body))) None }
    ensures shown { AreShownIn around.now shown.new }
{
    if is_there(around.row, flow.clock) {
        Some(value_of(&flow.body, around, shown))
    } else {
        None
    }
}

/// What each flow has at an instant, in order, none where it is absent. What the memories take that are shown is kept.
pub fn row_of(
    alloc: Global,
    flat: &Flat,
    now: &State,
    input: &Many<Value>,
    shown: &mut Many<Option<Value>>,
) -> Result<Many<Option<Value>>, Memory>
    requires state { IsState flat.now now.now }
    requires inputs { AreValues flat.now (input_kinds flat.now) input.now }
    requires shown { AreShown flat.now.memories (instants.found_at now.now input.now) [] shown.old }
    ensures instant { IfOk result (instants.IsFlatInstant flat.now now.now input.now) }
    ensures shown { IfOk result (λ row. AreShown flat.now.memories (instants.found_at now.now input.now) row shown.new) }
{
    let mut row = Many::new(alloc);
    for flow in flat.flows.as_slice() {
        let around = Surroundings {
            memories: &flat.memories,
            state: now,
            inputs: input,
            row: &row,
        };
        let value = flow_value(flow, &around, shown);
        row.push(value)?;
    }
    Ok(row)
}

/// What the memories hold after an instant: what each takes where its clock is there, and what it held elsewhere.
pub fn kept_after(
    alloc: Global,
    flat: &Flat,
    now: &State,
    input: &Many<Value>,
    row: &Many<Option<Value>>,
    shown: &mut Many<Option<Value>>,
) -> Result<Many<Value>, Memory>
    requires state { IsState flat.now now.now }
    requires inputs { AreValues flat.now (input_kinds flat.now) input.now }
    requires row { instants.IsFlatInstant flat.now now.now input.now row.now }
    requires shown { AreShown flat.now.memories (instants.found_at now.now input.now) row.now shown.old }
    ensures kept { IfOk result (IsKept flat.now now.now input.now row.now (length flat.now.memories)) }
    ensures shown { OnOk result (AreShown flat.now.memories (instants.found_at now.now input.now) row.now shown.new) }
{
    let around = Surroundings {
        memories: &flat.memories,
        state: now,
        inputs: input,
        row,
    };
    let mut kept = Many::new(alloc);
    for number in 0..flat.memories.len() {
        kept.push(current_of(number, &around, shown))?;
    }
    Ok(kept)
}

/// Whether an assertion is false.
fn is_false(e: &FlatExpr, around: &Surroundings, shown: &mut Many<Option<Value>>) -> bool
    requires table { IsTable around.now.memories.now }
    requires ready { IsReady around.now (tree_in around.now e.now) }
    requires shown { AreShownIn around.now shown.old }
    ensures broken { result ≡ not (meaning.is_true (value_in around.now (tree_in around.now e.now))) }
    ensures shown { AreShownIn around.now shown.new }
{
    !truth(&value_of(e, around, shown))
}

/// The least place of an assertion that is false.
pub fn broken_place<'a>(
    flat: &'a Flat,
    now: &State,
    input: &Many<Value>,
    row: &Many<Option<Value>>,
    shown: &mut Many<Option<Value>>,
) -> Option<&'a Place>
    requires state { IsState flat.now now.now }
    requires inputs { AreValues flat.now (input_kinds flat.now) input.now }
    requires row { instants.IsFlatInstant flat.now now.now input.now row.now }
    requires shown { AreShown flat.now.memories (instants.found_at now.now input.now) row.now shown.old }
    ensures { IsLeastOf (IsPicked (is_broken flat.now now.now input.now row.now) (map (λ e. e.at.sites) flat.now.assertions) (length flat.now.assertions))
        (option_copied result) }
{
    let around = Surroundings {
        memories: &flat.memories,
        state: now,
        inputs: input,
        row,
    };
    let mut least = None;
    for assertion in flat.assertions.as_slice() {
        if is_false(assertion, &around, shown) {
            least = Some(sooner(least, &assertion.at));
        }
    }
    least
}
