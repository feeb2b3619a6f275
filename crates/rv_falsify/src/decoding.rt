//! A trace from the words of a run, by the order of the diagram variables.

ghost use Rattle.std.specs.Prelude.{◌≡◌, ◌+◌, ◌*◌, ◌<◌, ◌≤◌, ◌^◌, pos, cond, false, [], map, length, slice_index_or, IfOk, IsTrue};
ghost use Rattle.rv_tree.specs.Tree.{ProgramTree};
ghost use Rattle.rv_tree.specs.Places.{Identifier};
ghost use Rattle.rv_meaning.specs.Codes.{code};
ghost use Rattle.rv_agreement.specs.Agreement.{bit_count};
ghost use Rattle.rv_diagram.specs.Nodes.{valuation_of};
ghost use Rattle.rv_flat.specs.Facts.{all_few};
ghost use Rattle.rv_flat.specs.FlatOf.{IsFlatOf};
ghost use Rattle.rv_flat.specs.Steps.{memory_kinds as kinds_of_memories, input_kinds as kinds_of_inputs};
ghost use Rattle.rv_control.specs.Spelled.{value_at, decoded, spelled_starts, spelled_inputs};
ghost use Rattle.rv_falsify.specs.Decoding.{bits_before, bit_behind, bits_along};

use rv_base::{Many, Memory, Text, Trace, Value};
use rv_bits::bits_of_kind;
use rv_flat::Flat;
use rv_types::Kind;
use std::alloc::Global;

/// The truth at a position of a word; false past its end.
fn truth_at(word: &[bool], at: usize) -> bool
    ensures { result ≡ slice_index_or word.now at false }
{
    match word.get(at) {
        Some(truth) => *truth,
        None => false,
    }
}

/// What a bit adds to a code.
fn weight(truth: bool, place: u32) -> u32
    ensures { result ≡ cond truth place 0 }
{
    if truth { place } else { 0 }
}

/// The number that some bits of a word spell, the least significant first, each a step behind the one before.
fn code_at(word: &[bool], first: usize, step: usize, count: u32) -> u32
    requires few { count ≤ 8 }
    requires end { first + step * count < 2 ^ 63 }
    ensures { result ≡ code count (bit_behind word.now first step) }
{
    let mut number = 0;
    let mut place = 1;
    for bit in 0..count {
        let at = first + step * bit as usize;
        number += weight(truth_at(word, at), place);
        place *= 2;
    }
    number
}

/// The value of a type that bits of a word spell, the least significant first, each a step behind the one before; 0 of an integer.
fn value_from(
    labels: &Many<Many<Text>>,
    kind: Kind,
    word: &[bool],
    first: usize,
    step: usize,
) -> Value
    requires few { IsTrue (all_few 256 labels.now) }
    requires end { first + step * bit_count (map (λ ls. length ls) labels.now) kind < 2 ^ 63 }
    ensures { result ≡ value_at (map (λ ls. length ls) labels.now) kind (bit_behind word.now first step) (pos 0) }
{
    match kind {
        Kind::Bool => Value::Flag(truth_at(word, first)),
        Kind::Int => Value::Whole(0),
        Kind::Labels(_) => Value::Label(code_at(word, first, step, bits_of_kind(labels, kind))),
    }
}

/// The values of some types that bits of a word spell, one after the other. Time grows with the bits.
fn values_from(
    alloc: Global,
    labels: &Many<Many<Text>>,
    kinds: &[Kind],
    word: &[bool],
    first: usize,
    step: usize,
) -> Result<Many<Value>, Memory>
    requires few { IsTrue (all_few 256 labels.now) }
    requires step { step ≤ 2 }
    requires end { first + step * bits_before (map (λ ls. length ls) labels.now) kinds.now (length kinds.now) < 2 ^ 63 }
    ensures { IfOk result (λ values. values ≡ decoded (map (λ ls. length ls) labels.now) kinds.now
        (bits_along (map (λ ls. length ls) labels.now) kinds.now word.now first step) []) }
{
    let mut values = Many::new(alloc);
    let mut at = first;
    for kind in kinds {
        values.push(value_from(labels, *kind, word, at, step))?;
        at += step * bits_of_kind(labels, *kind) as usize;
    }
    Ok(values)
}

/// How many bits values of some types have together.
fn bits_of_kinds(labels: &Many<Many<Text>>, kinds: &[Kind]) -> usize
    requires few { IsTrue (all_few 256 labels.now) }
    requires end { bits_before (map (λ ls. length ls) labels.now) kinds.now (length kinds.now) < 2 ^ 63 }
    ensures { result ≡ bits_before (map (λ ls. length ls) labels.now) kinds.now (length kinds.now) }
{
    let mut bits = 0;
    for kind in kinds {
        bits += bits_of_kind(labels, *kind) as usize;
    }
    bits
}

/// The types of the memories.
pub fn memory_kinds(alloc: Global, flat: &Flat) -> Result<Many<Kind>, Memory>
    ensures { IfOk result (λ kinds. kinds ≡ kinds_of_memories flat.now) }
{
    let mut kinds = Many::new(alloc);
    for memory in flat.memories.as_slice() {
        kinds.push(memory.kind)?;
    }
    Ok(kinds)
}

/// The types of the inputs.
pub fn input_kinds(alloc: Global, flat: &Flat) -> Result<Many<Kind>, Memory>
    ensures { IfOk result (λ kinds. kinds ≡ kinds_of_inputs flat.now) }
{
    let mut kinds = Many::new(alloc);
    for input in flat.inputs.as_slice() {
        kinds.push(input.kind)?;
    }
    Ok(kinds)
}

/// The inputs that words spell, one list for each word, where the bits of the inputs stand together from a position on.
fn inputs_from(
    alloc: Global,
    labels: &Many<Many<Text>>,
    kinds: &[Kind],
    words: &[Many<bool>],
    first: usize,
) -> Result<Many<Many<Value>>, Memory>
    requires few { IsTrue (all_few 256 labels.now) }
    requires end { first + bits_before (map (λ ls. length ls) labels.now) kinds.now (length kinds.now) < 2 ^ 63 }
    ensures { IfOk result (λ instants. instants ≡ map (λ word. decoded (map (λ ls. length ls) labels.now) kinds.now
        (bits_along (map (λ ls. length ls) labels.now) kinds.now word first 1) []) words.now) }
{
    let mut instants = Many::new(alloc);
    for instant in 0..words.len() {
        let word = words[instant].as_slice();
        instants.push(values_from(alloc, labels, kinds, word, first, 1)?)?;
    }
    Ok(instants)
}

/// The trace that words spell, each a list of truth values by the order of the diagram variables of a flat system: the start values
/// are those of the first word, and each word gives the inputs of its instant. An integer is 0. The bits of the memories stand
/// together behind those of the ticks, each with its next copy, and those of the inputs behind them, so each word is read once.
/// More words than a trace counts instants find no memory.
pub fn trace_of(alloc: Global, flat: &Flat, words: &Many<Many<bool>>) -> Result<Trace, Memory>
    requires program { (program : ProgramTree) × (main : Identifier) × IsFlatOf program main flat.now }
    requires some { 0 < length words.now }
    ensures starts { IfOk result (λ t. t.starts ≡ spelled_starts flat.now (valuation_of (slice_index_or words.now 0 [])) []) }
    ensures instants { IfOk result (λ t. t.instants ≡ map (λ word. spelled_inputs flat.now (valuation_of word) []) words.now) }
    ensures count { IfOk result (λ t. length t.instants < 2 ^ 32) }
{
    if words.len() > 4_294_967_295 {
        return Err(Memory::Memory);
    }
    let memories = memory_kinds(alloc, flat)?;
    let inputs = input_kinds(alloc, flat)?;
    let first = 2 * (1 + flat.tick_flows.len());
    let word = words.at(0);
    let starts = values_from(
        alloc,
        &flat.labels,
        memories.as_slice(),
        word.as_slice(),
        first,
        2,
    )?;
    let behind = first + 2 * bits_of_kinds(&flat.labels, memories.as_slice());
    let instants = inputs_from(
        alloc,
        &flat.labels,
        inputs.as_slice(),
        words.as_slice(),
        behind,
    )?;
    Ok(Trace { starts, instants })
}
