//! Which order tests the multipliers of an entry name, and which integer memories are in the rows that it has to prove after the updates.

ghost use Rattle.std.specs.Prelude.{◌≡◌, ◌≢◌, ℕ, ◌+◌, ◌<◌, ◌^◌, ◌++◌, pos, true, false, List, All, IfOk, length};
ghost use Rattle.rv_rows.specs.Rows.{coefficient};
ghost use Rattle.rv_proofs.specs.Systems.{System};
ghost use Rattle.rv_proofs.specs.Ranges.{IsRecord};
ghost use Rattle.rv_proofs.specs.Scopes.{implications, each, before, after};
ghost use Rattle.rv_proofs.specs.declared.certificate.Certificate.{Certificate};
ghost use Rattle.rv_rows.specs.declared.farkas.Multipliers.{Multipliers};
ghost use Rattle.rv_accept.specs.Passing.{AreKindAsked};
ghost use Rattle.rv_accept.specs.Needs.{SomeAt, IsNamed, IsNeeded, Names, IsMarked, AreFlags, flag_at};

use rv_base::{Many, Memory};
use rv_proofs::{Certificate, Entry, EntryKind, Location};
use rv_rows::{Multipliers, Row};
use std::alloc::Global;

/// As many flags, none of them marked.
pub fn unmarked(alloc: Global, many: usize) -> Result<Vec<bool>, Memory>
    ensures size { IfOk result (λ flags. length flags.items ≡ many) }
    ensures none { IfOk result (λ flags. (t : ℕ) → flag_at flags.items t ≡ false) }
{
    let mut flags = Vec::new(alloc);
    for _ in 0..many {
        flags.push(false)?;
    }
    Ok(flags)
}

/// Marks the test of a premise, unless it is one of the first `given` premises, which are rows.
fn mark_premise(flags: &mut [bool], given: usize, premise: usize)
    requires { premise < given + length flags.old }
    ensures { IsMarked (λ t. premise ≡ given + t) flags.old flags.new }
{
    if premise < given {
        return;
    }
    flags[premise - given] = true;
}

/// Marks the tests that the multipliers name.
fn mark_weights(flags: &mut [bool], given: usize, by: &Multipliers)
    requires { All (λ w. w.premise < given + length flags.old) by.now.weights }
    ensures { IsMarked (Names given by.now) flags.old flags.new }
{
    for i in 0..by.weights.len() {
        let weight = by.weights.at(i);
        mark_premise(flags, given, weight.premise as usize);
    }
}

/// Marks the tests that a list of multipliers names.
fn mark_all_weights(flags: &mut [bool], given: usize, by: &Many<Multipliers>)
    requires { All (λ m. All (λ w. w.premise < given + length flags.old) m.weights) by.now }
    ensures { IsMarked (λ t. SomeAt (λ m. Names given m t) by.now) flags.old flags.new }
{
    for i in 0..by.len() {
        mark_weights(flags, given, by.at(i));
    }
}

/// Marks a number where that is asked.
fn mark_if(flags: &mut [bool], k: usize, asked: bool)
    requires { k < length flags.old }
    ensures { IsMarked (λ t. (t ≡ k) × (asked ≡ true)) flags.old flags.new }
{
    if !asked {
        return;
    }
    flags[k] = true;
}

/// Marks the memories that are in a row.
fn mark_row(flags: &mut [bool], row: &Row)
    requires { length row.now.coefficients ≡ length flags.old }
    ensures { IsMarked (λ k. coefficient k row.now ≢ pos 0) flags.old flags.new }
{
    for k in 0..row.coefficients.len() {
        let asked = *row.coefficients.at(k) != 0;
        mark_if(flags, k, asked);
    }
}

/// Marks the memories that are in some row.
fn mark_rows(flags: &mut [bool], rows: &Many<Row>)
    requires { All (λ r. length r.coefficients ≡ length flags.old) rows.now }
    ensures { IsMarked (λ k. SomeAt (λ r. coefficient k r ≢ pos 0) rows.now) flags.old flags.new }
{
    for i in 0..rows.len() {
        mark_row(flags, rows.at(i));
    }
}

/// Marks the tests that the multipliers of a turn of a loop name.
fn mark_turn_tests(
    flags: &mut [bool],
    location: &Location,
    first: &Many<Multipliers>,
    before_all: &Many<Multipliers>,
    around: &Many<Multipliers>,
    state: &Many<Multipliers>,
)
    requires many_first { length first.now ≡ length location.now.first }
    requires many_before { length before_all.now ≡ length location.now.around }
    requires many_around { length around.now ≡ length location.now.around }
    requires many_state { length state.now ≡ length location.now.state }
    requires first { All (IsRecord (length location.now.entry + length flags.old)) first.now }
    requires before_all { All (IsRecord (length location.now.first + length flags.old)) before_all.now }
    requires around { All (IsRecord (length location.now.around + length location.now.state + length flags.old)) around.now }
    requires state { All (IsRecord (length location.now.around + length location.now.state + length flags.old)) state.now }
    requires few { length location.now.around + length location.now.state < 2 ^ 32 }
    ensures { IsMarked (IsNamed (each after location.now.entry location.now.first first.now
        ++ (each before location.now.first location.now.around before_all.now
        ++ (each after (location.now.around ++ location.now.state) location.now.around around.now
        ++ each after (location.now.around ++ location.now.state) location.now.state state.now)))) flags.old flags.new }
{
    mark_all_weights(flags, location.entry.len(), first);
    mark_all_weights(flags, location.first.len(), before_all);
    let given = location.around.len() + location.state.len();
    mark_all_weights(flags, given, around);
    mark_all_weights(flags, given, state);
}

/// Marks the tests that the multipliers of an entry name.
fn mark_tests(flags: &mut [bool], location: &Location, kind: &EntryKind)
    requires { (s : System) × (c : Certificate) × (length flags.old ≡ s.tests) × AreKindAsked s c location.now kind.now }
    ensures { (s : System) (c : Certificate) → AreKindAsked s c location.now kind.now
        → IsMarked (IsNamed (implications c location.now kind.now)) flags.old flags.new }
{
    match kind {
        EntryKind::Dead(by) => mark_weights(flags, location.state.len(), by),
        EntryKind::Go { reach, .. } => mark_all_weights(flags, location.state.len(), reach),
        EntryKind::Loop {
            first,
            before: before_all,
            around,
            state,
        } => mark_turn_tests(flags, location, first, before_all, around, state),
    }
}

/// The tests that the multipliers of an entry name.
pub fn named_tests(
    alloc: Global,
    location: &Location,
    entry: &Entry,
    tests: usize,
) -> Result<Vec<bool>, Memory>
    requires { (s : System) × (c : Certificate) × (tests ≡ s.tests) × AreKindAsked s c location.now entry.now.kind }
    ensures { IfOk result (λ flags. (s : System) (c : Certificate) → AreKindAsked s c location.now entry.now.kind
        → AreFlags tests (IsNamed (implications c location.now entry.now.kind)) flags.items) }
{
    let mut flags = unmarked(alloc, tests)?;
    mark_tests(flags.as_mut_slice(), location, &entry.kind);
    Ok(flags)
}

/// Marks the memories that are in the rows which a turn of a loop proves after the updates.
fn mark_turn_memories(flags: &mut [bool], location: &Location)
    requires first { All (λ r. length r.coefficients ≡ length flags.old) location.now.first }
    requires around { All (λ r. length r.coefficients ≡ length flags.old) location.now.around }
    requires state { All (λ r. length r.coefficients ≡ length flags.old) location.now.state }
    ensures { (first before_all around state : List Multipliers) → length first ≡ length location.now.first → length before_all ≡ length location.now.around
        → length around ≡ length location.now.around → length state ≡ length location.now.state
        → IsMarked (IsNeeded (each after location.now.entry location.now.first first
        ++ (each before location.now.first location.now.around before_all
        ++ (each after (location.now.around ++ location.now.state) location.now.around around
        ++ each after (location.now.around ++ location.now.state) location.now.state state)))) flags.old flags.new }
{
    mark_rows(flags, &location.first);
    mark_rows(flags, &location.around);
    mark_rows(flags, &location.state);
}

/// Marks the memories that are in the rows which an entry proves after the updates.
fn mark_memories(
    flags: &mut [bool],
    certificate: &Certificate,
    location: &Location,
    kind: &EntryKind,
)
    requires { (s : System) × (length flags.old ≡ s.memories) × AreKindAsked s certificate.now location.now kind.now }
    ensures { IsMarked (IsNeeded (implications certificate.now location.now kind.now)) flags.old flags.new }
{
    match kind {
        EntryKind::Dead(_) => (),
        EntryKind::Go { target, .. } => {
            let into = certificate.locations.at(*target as usize);
            mark_rows(flags, &into.entry);
        }
        EntryKind::Loop { .. } => mark_turn_memories(flags, location),
    }
}

/// The memories that are in the rows which an entry proves after the updates.
pub fn needed_memories(
    alloc: Global,
    certificate: &Certificate,
    location: &Location,
    entry: &Entry,
    memories: usize,
) -> Result<Vec<bool>, Memory>
    requires { (s : System) × (memories ≡ s.memories) × AreKindAsked s certificate.now location.now entry.now.kind }
    ensures { IfOk result (λ flags. AreFlags memories (IsNeeded (implications certificate.now location.now entry.now.kind)) flags.items) }
{
    let mut flags = unmarked(alloc, memories)?;
    mark_memories(flags.as_mut_slice(), certificate, location, &entry.kind);
    Ok(flags)
}
