//! The same certificate, its steps of a location to itself taken as turns of a loop.

ghost use Rattle.std.specs.Prelude.{◌≡◌, ◌*◌, IfOk, IfSome, length};
ghost use Rattle.rv_diagram.specs.Nodes.{IsRef, IsOrderedOver};
ghost use Rattle.rv_diagram.specs.Growing.{Extends};
ghost use Rattle.rv_proofs.specs.Systems.{System, IsSystem};
ghost use Rattle.rv_proofs.specs.Accepted.{IsAccepted};
ghost use Rattle.rv_cases.specs.Questions.{AreQuestions};
ghost use Rattle.rv_rise.specs.Rounds.{IsGiven};

use crate::building::{is_some_set, with_flags};
use crate::judging::judged;
use rv_base::{Many, Memory};
use rv_cases::Questions;
use rv_cover::{told_forms, told_rows};
use rv_diagram::{Frozen, Ref, Store, StoreFault};
use rv_proofs::{Certificate, Entry, EntryKind, Location};
use rv_rows::{Form, Multipliers, Row, number_at};
use rv_symbolic::Relation;
use std::alloc::Global;

/// Whether some row has the memory.
fn is_named(rows: &Many<Row>, memory: usize) -> bool {
    for place in 0..rows.len() {
        if number_at(&rows.at(place).coefficients, memory) != 0 {
            return true;
        }
    }
    false
}

/// Whether no number but that of one column is other than 0.
fn is_zero_beside(numbers: &Many<i128>, only: usize) -> bool {
    for column in 0..numbers.len() {
        if column != only && *numbers.at(column) != 0 {
            return false;
        }
    }
    true
}

/// Whether the form is the memory itself and a constant: no reset, and no input.
fn is_shifted(form: &Form, memory: usize) -> bool {
    number_at(&form.coefficients, memory) == 1 && is_zero_beside(&form.coefficients, memory)
}

/// Whether each memory that some row has becomes itself and a constant.
fn are_shifted(forms: &Many<Form>, rows: &Many<Row>) -> bool {
    for memory in 0..forms.len() {
        if is_named(rows, memory) && !is_shifted(forms.at(memory), memory) {
            return false;
        }
    }
    true
}

/// Whether the constant of some memory that some row has is other than 0.
fn is_moved(forms: &Many<Form>, rows: &Many<Row>) -> bool {
    for memory in 0..forms.len() {
        if forms.at(memory).constant != 0 && is_named(rows, memory) {
            return true;
        }
    }
    false
}

/// Whether the row has an input: a column after those of the memories.
fn has_input(row: &Row, memories: usize) -> bool {
    for column in memories..row.coefficients.len() {
        if number_at(&row.coefficients, column) != 0 {
            return true;
        }
    }
    false
}

/// Whether the premise is a test whose row has an input. Premise `first` is the first test.
fn is_input(rows: &Many<Row>, memories: usize, first: usize, premise: usize) -> bool {
    if premise < first {
        return false;
    }
    let place = premise - first;
    place < rows.len() && has_input(rows.at(place), memories)
}

/// Whether the multipliers name such a premise.
fn names_input(rows: &Many<Row>, memories: usize, first: usize, by: &Multipliers) -> bool {
    for place in 0..by.weights.len() {
        let premise = by.weights.at(place).premise as usize;
        if is_input(rows, memories, first, premise) {
            return true;
        }
    }
    false
}

/// Whether some of the multipliers do.
fn name_inputs(rows: &Many<Row>, memories: usize, first: usize, reach: &Many<Multipliers>) -> bool {
    for place in 0..reach.len() {
        if names_input(rows, memories, first, reach.at(place)) {
            return true;
        }
    }
    false
}

/// Whether what proves the entry, a step, names such a premise.
fn takes_input(rows: &Many<Row>, memories: usize, first: usize, entry: &Entry) -> bool {
    match &entry.kind {
        EntryKind::Go { reach, .. } => name_inputs(rows, memories, first, reach),
        _ => false,
    }
}

/// Whether the entry is a step into the location with this number.
fn goes_to(entry: &Entry, place: usize) -> bool {
    match &entry.kind {
        EntryKind::Go { target, .. } => *target as usize == place,
        _ => false,
    }
}

/// Whether the location has no loop, and what holds at its entry always holds, with nothing besides.
fn has_one_list(location: &Location) -> bool {
    !location.has_loop()
        && location.first.is_empty()
        && location.around.is_empty()
        && location.entry == location.state
}

/// The valuations of a reference that are in a set too, with what was built of them.
fn within(store: &mut Store, whole: Ref, set: &Frozen) -> Result<Ref, StoreFault>
    requires whole { IsRef store.old.nodes whole }
    requires set { IsOrderedOver store.old.variables set.now }
    ensures extends { Extends store.old store.new }
    ensures found { IfOk result (λ r. IsRef store.new.nodes r) }
{
    let one = store.thaw(set)?;
    store.and(whole, one)
}

/// Those that are in both sets, with what was built of them.
fn within_both(
    store: &mut Store,
    whole: Ref,
    one: &Frozen,
    other: &Frozen,
) -> Result<Ref, StoreFault>
    requires whole { IsRef store.old.nodes whole }
    requires one { IsOrderedOver store.old.variables one.now }
    requires other { IsOrderedOver store.old.variables other.now }
    ensures extends { Extends store.old store.new }
    ensures found { IfOk result (λ r. IsRef store.new.nodes r) }
{
    let met = within(store, whole, one)?;
    within(store, met, other)
}

/// Whether the step moves some memory that the location's rows have, at a valuation, and each such memory by a constant, and what proves it names no
/// test with an input. The only error is want of memory.
fn shifts(
    alloc: Global,
    store: &Store,
    questions: &Questions,
    sample: &Many<bool>,
    location: &Location,
    entry: &Entry,
) -> Result<bool, Memory>
    requires given { (s : System) × IsSystem s × AreQuestions s store.now questions.now }
    requires sized { length sample.now ≡ store.now.variables }
{
    let forms = told_forms(alloc, store, sample, questions)?;
    if !are_shifted(&forms, &location.entry) || !is_moved(&forms, &location.entry) {
        return Ok(false);
    }
    let rows = told_rows(alloc, store, sample, questions)?;
    Ok(!takes_input(&rows, forms.len(), location.state.len(), entry))
}

/// Whether the step does so at the least valuation of its scope, with what was built of that.
fn is_turn_in(
    alloc: Global,
    store: &mut Store,
    relation: &Relation,
    questions: &Questions,
    location: &Location,
    entry: &Entry,
) -> Result<bool, StoreFault>
    requires given { (s : System) × IsGiven s store.old relation.now questions.now }
    ensures extends { Extends store.old store.new }
{
    let variables = store.variables();
    if !location.control.ordered(variables) {
        return Ok(false);
    }
    if !entry.condition.ordered(variables) {
        return Ok(false);
    }
    let allowed = relation.parts().allowed;
    let scope = within_both(store, allowed, &location.control, &entry.condition)?;
    match store.pick(scope)? {
        Some(sample) => Ok(shifts(alloc, store, questions, &sample, location, entry)?),
        None => Ok(false),
    }
}

/// Whether the entry is a step of its location to itself that does. The store is left as it was.
fn is_turn(
    alloc: Global,
    store: &mut Store,
    relation: &Relation,
    questions: &Questions,
    location: &Location,
    place: usize,
    entry: &Entry,
) -> Result<bool, StoreFault>
    requires given { (s : System) × IsGiven s store.old relation.now questions.now }
    ensures same { store.new ≡ store.old }
{
    if !goes_to(entry, place) {
        return Ok(false);
    }
    let mark = store.mark();
    let answer = is_turn_in(alloc, store, relation, questions, location, entry);
    store.release(mark);
    answer
}

/// For each entry of the location whether it is such a step, or no flags where the location's lists differ. The store is left as it was.
fn turns_in(
    alloc: Global,
    store: &mut Store,
    relation: &Relation,
    questions: &Questions,
    location: &Location,
    place: usize,
) -> Result<Many<bool>, StoreFault>
    requires given { (s : System) × IsGiven s store.old relation.now questions.now }
    ensures same { store.new ≡ store.old }
{
    let mut flags = Many::new(alloc);
    if !has_one_list(location) {
        return Ok(flags);
    }
    for number in 0..location.entries.len() {
        let entry = location.entries.at(number);
        let turn = is_turn(alloc, store, relation, questions, location, place, entry)?;
        flags.push(turn)?;
    }
    Ok(flags)
}

/// The flags of each location. The store is left as it was.
fn all_turns(
    alloc: Global,
    store: &mut Store,
    relation: &Relation,
    questions: &Questions,
    certificate: &Certificate,
) -> Result<Many<Many<bool>>, StoreFault>
    requires given { (s : System) × IsGiven s store.old relation.now questions.now }
    ensures same { store.new ≡ store.old }
    ensures many { IfOk result (λ flags. length flags ≡ length certificate.now.locations) }
{
    let mut flags = Many::new(alloc);
    for number in 0..certificate.locations.len() {
        let location = certificate.locations.at(number);
        let turns = turns_in(alloc, store, relation, questions, location, number)?;
        flags.push(turns)?;
    }
    Ok(flags)
}

/// Whether some location has a flag that is set.
fn has_turns(flags: &Many<Many<bool>>) -> bool {
    for place in 0..flags.len() {
        if is_some_set(flags.at(place)) {
            return true;
        }
    }
    false
}

/// An accepted certificate with the turns that are found, or none. The store is left as it was.
fn turned(
    alloc: Global,
    store: &mut Store,
    relation: &Relation,
    questions: &Questions,
    certificate: &Certificate,
) -> Result<Option<Certificate>, StoreFault>
    requires given { (s : System) × IsGiven s store.old relation.now questions.now }
    ensures accepted { (s : System) → IsGiven s store.old relation.now questions.now → IfOk result (λ o. IfSome o (IsAccepted s)) }
    ensures same { store.new ≡ store.old }
{
    let flags = all_turns(alloc, store, relation, questions, certificate)?;
    if !has_turns(&flags) {
        return Ok(None);
    }
    let candidate = with_flags(alloc, certificate, &flags)?;
    judged(alloc, store, relation, questions, candidate)
}

/// The same, also none where the store has no room. The store is left as it was.
fn turned_or_none(
    alloc: Global,
    store: &mut Store,
    relation: &Relation,
    questions: &Questions,
    certificate: &Certificate,
) -> Result<Option<Certificate>, Memory>
    requires given { (s : System) × IsGiven s store.old relation.now questions.now }
    ensures accepted { (s : System) → IsGiven s store.old relation.now questions.now → IfOk result (λ o. IfSome o (IsAccepted s)) }
    ensures same { store.new ≡ store.old }
{
    match turned(alloc, store, relation, questions, certificate) {
        Ok(found) => Ok(found),
        Err(StoreFault::Nodes) => Ok(None),
        Err(StoreFault::Memory) => Err(Memory::Memory),
    }
}

/// An accepted certificate of the same partition, in which steps of a location to itself are turns of a loop where that is found: it is the
/// given certificate where there are none. The store is left as it was, after a fault too. The only error is want of memory.
pub fn with_turns(
    alloc: Global,
    store: &mut Store,
    relation: &Relation,
    questions: &Questions,
    certificate: Certificate,
) -> Result<Certificate, Memory>
    requires given { (s : System) × IsGiven s store.old relation.now questions.now × IsAccepted s certificate }
    ensures accepted { (s : System) → IsGiven s store.old relation.now questions.now → IsAccepted s certificate → IfOk result (IsAccepted s) }
    ensures same { store.new ≡ store.old }
{
    match turned_or_none(alloc, store, relation, questions, &certificate)? {
        Some(found) => Ok(found),
        None => Ok(certificate),
    }
}
