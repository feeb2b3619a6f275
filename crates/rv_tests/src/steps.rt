//! What is answered on a whole source with start values and inputs: the instants of its flat system.

ghost use Rattle.std.specs.Prelude.{◌≡◌, ◌≤◌, length, map, IsTrue, IfOk, slice_index_or};
ghost use Rattle.rv_agreement.specs.Checks.{constant_fits};
ghost use Rattle.rv_flat.specs.Lists.{tick_places};
ghost use Rattle.rv_flat.specs.Steps.{AreValues, IsInRange, label_counts, input_kinds, memory_kinds, IsState};

use crate::causes::{add_place, cause_text};
use crate::presence::add_presence;
use crate::rows::{fault_text, name_fault_text};
use crate::values::{add_value, instants_in, values_in};
use rv_base::{Many, Memory, Place, Value};
use rv_flat::{Bit, Flat, FlatInput, FlatMemory, State};
use rv_flatten::flatten;
use rv_source::{SourceFault, read_source};
use rv_step::{StepFault, Stepped, start, step};
use rv_syntax::SOURCE_LIMIT;
use rv_types::Kind;
use std::alloc::{AllocError, Global};

/// What is told of an instant: the values and memories, or which comparisons are present.
#[derive(Clone, Copy)]
pub enum Telling {
    Values,
    Presence,
}

/// The answer on start values, inputs and a source, which stand between `~`. Values are separated by spaces and instants
/// by semicolons. As values, each instant is told by the values of the main node's flows, whether the observer is true, the place of
/// an assertion that is false, and the memories after it; or by the place of an integer that leaves the range.
pub fn stepped(alloc: Global, fields: &str, telling: Telling) -> Result<String, Memory> {
    let Some((starts, rest)) = fields.split_once('~') else {
        return no_values(alloc);
    };
    let Some((inputs, text)) = rest.split_once('~') else {
        return no_values(alloc);
    };
    if text.len() > SOURCE_LIMIT {
        return Err(Memory::Memory);
    }
    match read_source(alloc, text.as_bytes(), "m") {
        Ok(source) => {
            let flat = flatten(alloc, &source)?;
            told_instants(alloc, &flat, starts, inputs, telling)
        }
        Err(SourceFault::Text(fault)) => fault_text(alloc, fault),
        Err(SourceFault::Names(fault)) => name_fault_text(alloc, fault),
        Err(SourceFault::Cause(fault)) => cause_text(alloc, fault),
        Err(SourceFault::Memory) => Err(Memory::Memory),
    }
}

fn no_values(alloc: Global) -> Result<String, Memory> {
    Ok(String::from_str(alloc, "no values")?)
}

/// The answer on a flat system.
fn told_instants(
    alloc: Global,
    flat: &Flat,
    starts: &str,
    inputs: &str,
    telling: Telling,
) -> Result<String, Memory> {
    let Some(starts) = values_in(alloc, starts)? else {
        return no_values(alloc);
    };
    let Some(instants) = instants_in(alloc, inputs)? else {
        return no_values(alloc);
    };
    if !are_kept(alloc, flat, &starts)? {
        return no_values(alloc);
    }
    let state = start(alloc, flat, &starts)?;
    told_from(alloc, flat, state, instants.as_slice(), telling)
}

/// The instants from a state.
fn told_from(
    alloc: Global,
    flat: &Flat,
    first: State,
    instants: &[Many<Value>],
    telling: Telling,
) -> Result<String, Memory> {
    let mut state = first;
    let mut text = String::new(alloc);
    let mut mark = "";
    for inputs in instants {
        text.push_str(mark)?;
        match instant(alloc, flat, &state, inputs) {
            Ok(Some(stepped)) => {
                match telling {
                    Telling::Values => add_instant(alloc, flat, &stepped, &mut text)?,
                    Telling::Presence => {
                        add_presence(alloc, flat, stepped.values.as_slice(), &mut text)?
                    }
                }
                state = stepped.next;
            }
            Ok(None) => return no_values(alloc),
            Err(StepFault::Outgrown(place)) => {
                text.push_str("outgrown")?;
                add_place(alloc, " ", &place, &mut text)?;
                return Ok(text);
            }
            Err(StepFault::Memory) => return Err(Memory::Memory),
        }
        mark = " ; ";
    }
    Ok(text)
}

/// The instant from a state at these inputs; none where they are no state and inputs of the flat system.
fn instant(
    alloc: Global,
    flat: &Flat,
    state: &State,
    inputs: &Many<Value>,
) -> Result<Option<Stepped>, StepFault> {
    let stands = is_state(alloc, flat, state)?;
    let fits = are_inputs(alloc, flat, inputs)?;
    if stands && fits {
        let stepped = step(alloc, flat, state, inputs)?;
        return Ok(Some(stepped));
    }
    Ok(None)
}

/// Whether this is a state of the flat system.
fn is_state(alloc: Global, flat: &Flat, state: &State) -> Result<bool, Memory>
    ensures { IfOk result (λ b. IsTrue b → IsState flat.now state.now) }
{
    let fits = are_kept(alloc, flat, &state.kept)?;
    Ok(fits && state.ticked.len() == 1 + tick_count(flat.variables.as_slice()))
}

/// Whether there is one value for each memory, of its type and within the range.
fn are_kept(alloc: Global, flat: &Flat, values: &Many<Value>) -> Result<bool, Memory>
    ensures { IfOk result (λ b. IsTrue b → AreValues flat.now (memory_kinds flat.now) values.now) }
{
    let kinds = memory_kinds_of(alloc, flat.memories.as_slice())?;
    Ok(are_values(flat, kinds.as_slice(), values.as_slice()))
}

/// Whether there is one value for each input of the main node, of its type and within the range.
fn are_inputs(alloc: Global, flat: &Flat, values: &Many<Value>) -> Result<bool, Memory>
    ensures { IfOk result (λ b. IsTrue b → AreValues flat.now (input_kinds flat.now) values.now) }
{
    let kinds = input_kinds_of(alloc, flat.inputs.as_slice())?;
    Ok(are_values(flat, kinds.as_slice(), values.as_slice()))
}

fn memory_kinds_of(alloc: Global, memories: &[FlatMemory]) -> Result<Vec<Kind>, AllocError>
    ensures { IfOk result (λ kinds. kinds.items ≡ map (λ m. m.kind) memories.now) }
{
    let mut kinds = Vec::new(alloc);
    for memory in memories {
        kinds.push(memory.kind)?;
    }
    Ok(kinds)
}

fn input_kinds_of(alloc: Global, inputs: &[FlatInput]) -> Result<Vec<Kind>, AllocError>
    ensures { IfOk result (λ kinds. kinds.items ≡ map (λ i. i.kind) inputs.now) }
{
    inputs.iter().map(|input| input.kind).collect(alloc)
}

/// How many ticks stand among the variables, the main tick left out.
fn tick_count(variables: &[Bit]) -> usize
    ensures counted { result ≡ length (tick_places variables.now) }
    ensures few { result ≤ length variables.now }
{
    let mut count = 0;
    for variable in variables {
        if matches!(variable, Bit::Tick(_)) {
            count += 1;
        }
    }
    count
}

/// Whether there is one value of each type, within the range.
fn are_values(flat: &Flat, kinds: &[Kind], values: &[Value]) -> bool
    ensures { IsTrue result → AreValues flat.now kinds.now values.now }
{
    if values.len() != kinds.len() {
        return false;
    }
    for (place, kind) in kinds.iter().enumerate() {
        if !is_value(flat, *kind, values[place]) {
            return false;
        }
    }
    true
}

/// Whether a value is of a type and within the range.
fn is_value(flat: &Flat, kind: Kind, value: Value) -> bool
    ensures fits { IsTrue result → IsTrue (constant_fits (label_counts flat.now) kind value) }
    ensures within { IsTrue result → IsInRange value }
{
    match value {
        Value::Flag(_) => kind == Kind::Bool,
        Value::Label(number) => is_label(flat, kind, number),
        Value::Whole(number) => kind == Kind::Int && is_within(number),
    }
}

/// Whether a type has a label with this number.
fn is_label(flat: &Flat, kind: Kind, number: u32) -> bool
    ensures { IsTrue result → IsTrue (constant_fits (label_counts flat.now) kind (Value.Label number)) }
{
    match kind {
        Kind::Labels(declaration) => (number as usize) < label_count(flat, declaration),
        _ => false,
    }
}

/// How many labels a declaration has.
fn label_count(flat: &Flat, declaration: u32) -> usize
    ensures { result ≡ slice_index_or (label_counts flat.now) declaration 0 }
{
    match flat.labels.get(declaration as usize) {
        Some(labels) => labels.len(),
        None => 0,
    }
}

/// Whether a number is from -2^63 to 2^63 - 1.
fn is_within(number: i128) -> bool
    ensures { IsTrue result → IsInRange (Value.Whole number) }
{
    -9_223_372_036_854_775_808 <= number && number < 9_223_372_036_854_775_808
}

/// Adds an instant.
fn add_instant(
    alloc: Global,
    flat: &Flat,
    stepped: &Stepped,
    text: &mut String,
) -> Result<(), Memory> {
    add_flows(alloc, flat, stepped.values.as_slice(), text)?;
    text.push_str(if stepped.observer { "ok" } else { "no" })?;
    if let Some(place) = &stepped.broken {
        add_place(alloc, " !", place, text)?;
    }
    text.push_str(" |")?;
    for value in stepped.next.kept.as_slice() {
        text.push_str(" ")?;
        add_value(alloc, *value, text)?;
    }
    Ok(())
}

/// Adds the values of the main node's flows in the order of their sites, with a space after each, and `-` where one is
/// absent.
fn add_flows(
    alloc: Global,
    flat: &Flat,
    row: &[Option<Value>],
    text: &mut String,
) -> Result<(), Memory> {
    for site in 0..flat.flows.len() {
        let Some(number) = flow_at(flat, site) else {
            return Ok(());
        };
        match row.get(number) {
            Some(Some(value)) => add_value(alloc, *value, text)?,
            _ => text.push_str("-")?,
        }
        text.push_str(" ")?;
    }
    Ok(())
}

/// The number of the main node's flow at a site.
fn flow_at(flat: &Flat, site: usize) -> Option<usize> {
    for (number, flow) in flat.flows.as_slice().iter().enumerate() {
        if is_at(&flow.place, site) {
            return Some(number);
        }
    }
    None
}

/// Whether a place is that of the main node's flow at a site.
fn is_at(place: &Place, site: usize) -> bool {
    match place.sites.get(0) {
        Some(first) => place.sites.len() == 1 && first as usize == site,
        None => false,
    }
}
