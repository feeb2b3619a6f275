//! The implications of an entry, in order, with the rows and forms that are settled there.

ghost use Rattle.std.specs.Prelude.{◌≡◌, ℕ, ◌+◌, ◌<◌, ◌^◌, List, [], ◌∷◌, ◌++◌, pos, All, IfOk, IfSome, OnOk, MatchOption, length};
ghost use Rattle.rv_rows.specs.Rows.{RowWithin};
ghost use Rattle.rv_rows.specs.declared.linear.Row.{Row};
ghost use Rattle.rv_rows.specs.declared.linear.Form.{Form};
ghost use Rattle.rv_proofs.specs.Systems.{System, IsSystem};
ghost use Rattle.rv_proofs.specs.Ranges.{IsInRange, IsRecord};
ghost use Rattle.rv_proofs.specs.Scopes.{refutation, before, after, each, Implication, implications};
ghost use Rattle.rv_proofs.specs.Accepted.{AreImplied, IsEntry};
ghost use Rattle.rv_accept.specs.Passing.{AreFacts, IsFirstUnimplied, AreJudged, AreLimited, AreAsked, AreKindAsked};

use crate::facts::Facts;
use crate::settling::copy_row;
use crate::showing::{first_unshown, first_untrue};
use rv_base::{Many, Memory};
use rv_proofs::{Certificate, Entry, EntryKind, Location};
use rv_rows::{Multipliers, Row, refutes};
use std::alloc::Global;

/// Adds copies of rows.
fn add_rows(alloc: Global, rows: &mut Many<Row>, more: &Many<Row>) -> Result<(), Memory>
    ensures { OnOk result (rows.new ≡ rows.old ++ more.now) }
{
    for i in 0..more.len() {
        let row = copy_row(alloc, more.at(i))?;
        rows.push(row)?;
    }
    Ok(())
}

/// The rows of both lists.
fn joined(alloc: Global, a: &Many<Row>, b: &Many<Row>) -> Result<Many<Row>, Memory>
    ensures { IfOk result (λ rows. rows ≡ a.now ++ b.now) }
{
    let mut rows = Many::new(alloc);
    add_rows(alloc, &mut rows, a)?;
    add_rows(alloc, &mut rows, b)?;
    Ok(rows)
}

/// Whether the multipliers do not refute the rows of a list and of the tests: then the number of that one implication.
fn unrefuted(
    alloc: Global,
    given: &Many<Row>,
    by: &Multipliers,
    facts: &Facts,
) -> Result<Option<usize>, Memory>
    requires given { All (RowWithin (2 ^ 60)) given.now }
    requires tests { All (RowWithin (2 ^ 60)) facts.now.rows }
    requires by { IsRecord (length given.now + length facts.now.rows) by.now }
    requires divisor { by.now.divisor ≡ pos 1 }
    ensures { IfOk result (λ o. AreJudged facts.now.rows facts.now.forms (record { given = given.now; wanted = refutation; by = by.now } ∷ []) o) }
{
    let premises = joined(alloc, given, &facts.rows)?;
    if refutes(&premises, by) {
        Ok(None)
    } else {
        Ok(Some(0))
    }
}

/// The first row that is not proved after the updates from the rows of a list and of the tests, or none.
fn first_after(
    alloc: Global,
    given: &Many<Row>,
    wanted: &Many<Row>,
    by: &Many<Multipliers>,
    facts: &Facts,
) -> Result<Option<usize>, Memory>
    requires { (s : System) × IsSystem s × AreLimited s facts.now.rows facts.now.forms × AreAsked s given.now wanted.now by.now }
    ensures { IfOk result (λ o. AreJudged facts.now.rows facts.now.forms (each after given.now wanted.now by.now) o) }
{
    let premises = joined(alloc, given, &facts.rows)?;
    first_unshown(alloc, &premises, &facts.forms, wanted, by)
}

/// The first row that is not proved before the updates from the rows of a list and of the tests, or none.
fn first_before(
    alloc: Global,
    given: &Many<Row>,
    wanted: &Many<Row>,
    by: &Many<Multipliers>,
    facts: &Facts,
) -> Result<Option<usize>, Memory>
    requires { (s : System) × IsSystem s × AreLimited s facts.now.rows facts.now.forms × AreAsked s given.now wanted.now by.now }
    ensures { IfOk result (λ o. AreJudged facts.now.rows facts.now.forms (each before given.now wanted.now by.now) o) }
{
    let premises = joined(alloc, given, &facts.rows)?;
    Ok(first_untrue(&premises, wanted, by))
}

/// The place in a list that begins with `many` others, all of which are proved.
fn later(many: usize, found: Option<usize>) -> Option<usize>
    requires many { many < 2 ^ 32 }
    requires found { IfSome found (λ n. n < 2 ^ 32) }
    ensures { (rows : List Row) (forms : List Form) (xs ys : List Implication) → length xs ≡ many → AreJudged rows forms xs None
        → AreJudged rows forms ys found → AreJudged rows forms (xs ++ ys) result }
{
    match found {
        Some(n) => Some(many + n),
        None => None,
    }
}

/// The first implication of later turns that is not proved, or none: `around` and `state` lead into `around`, and then into `state`.
fn first_in_turns(
    alloc: Global,
    location: &Location,
    around: &Many<Multipliers>,
    state: &Many<Multipliers>,
    facts: &Facts,
) -> Result<Option<usize>, Memory>
    requires { (s : System) × IsSystem s × AreLimited s facts.now.rows facts.now.forms
        × AreAsked s (location.now.around ++ location.now.state) location.now.around around.now
        × AreAsked s (location.now.around ++ location.now.state) location.now.state state.now }
    ensures { IfOk result (λ o. AreJudged facts.now.rows facts.now.forms
        (each after (location.now.around ++ location.now.state) location.now.around around.now
        ++ each after (location.now.around ++ location.now.state) location.now.state state.now) o) }
{
    let given = joined(alloc, &location.around, &location.state)?;
    if let Some(n) = first_after(alloc, &given, &location.around, around, facts)? {
        return Ok(Some(n));
    }
    let found = first_after(alloc, &given, &location.state, state, facts)?;
    Ok(later(location.around.len(), found))
}

/// The first implication after the first turn that is not proved, or none: `first` is in `around`, and later turns.
fn first_in_rest(
    alloc: Global,
    location: &Location,
    before_all: &Many<Multipliers>,
    around: &Many<Multipliers>,
    state: &Many<Multipliers>,
    facts: &Facts,
) -> Result<Option<usize>, Memory>
    requires { (s : System) × IsSystem s × AreLimited s facts.now.rows facts.now.forms
        × AreAsked s location.now.first location.now.around before_all.now
        × AreAsked s (location.now.around ++ location.now.state) location.now.around around.now
        × AreAsked s (location.now.around ++ location.now.state) location.now.state state.now }
    ensures { IfOk result (λ o. AreJudged facts.now.rows facts.now.forms
        (each before location.now.first location.now.around before_all.now
        ++ (each after (location.now.around ++ location.now.state) location.now.around around.now
        ++ each after (location.now.around ++ location.now.state) location.now.state state.now)) o) }
{
    if let Some(n) = first_before(alloc, &location.first, &location.around, before_all, facts)? {
        return Ok(Some(n));
    }
    let found = first_in_turns(alloc, location, around, state, facts)?;
    Ok(later(location.around.len(), found))
}

/// The first implication of a loop that is not proved, or none: `entry` leads into `first`, and the rest.
fn first_in_loop(
    alloc: Global,
    location: &Location,
    first: &Many<Multipliers>,
    before_all: &Many<Multipliers>,
    around: &Many<Multipliers>,
    state: &Many<Multipliers>,
    facts: &Facts,
) -> Result<Option<usize>, Memory>
    requires { (s : System) × IsSystem s × AreLimited s facts.now.rows facts.now.forms
        × AreAsked s location.now.entry location.now.first first.now
        × AreAsked s location.now.first location.now.around before_all.now
        × AreAsked s (location.now.around ++ location.now.state) location.now.around around.now
        × AreAsked s (location.now.around ++ location.now.state) location.now.state state.now }
    ensures { IfOk result (λ o. AreJudged facts.now.rows facts.now.forms
        (each after location.now.entry location.now.first first.now
        ++ (each before location.now.first location.now.around before_all.now
        ++ (each after (location.now.around ++ location.now.state) location.now.around around.now
        ++ each after (location.now.around ++ location.now.state) location.now.state state.now))) o) }
{
    if let Some(n) = first_after(alloc, &location.entry, &location.first, first, facts)? {
        return Ok(Some(n));
    }
    let found = first_in_rest(alloc, location, before_all, around, state, facts)?;
    Ok(later(location.first.len(), found))
}

/// The first implication of an entry that is not proved with these rows and forms, or none.
fn first_of_kind(
    alloc: Global,
    certificate: &Certificate,
    location: &Location,
    kind: &EntryKind,
    facts: &Facts,
) -> Result<Option<usize>, Memory>
    requires { (s : System) × IsSystem s × AreLimited s facts.now.rows facts.now.forms × AreKindAsked s certificate.now location.now kind.now }
    ensures { IfOk result (λ o. AreJudged facts.now.rows facts.now.forms (implications certificate.now location.now kind.now) o) }
{
    match kind {
        EntryKind::Dead(by) => unrefuted(alloc, &location.state, by, facts),
        EntryKind::Go { target, reach } => {
            let into = certificate.locations.at(*target as usize);
            first_after(alloc, &location.state, &into.entry, reach, facts)
        }
        EntryKind::Loop {
            first,
            before: before_all,
            around,
            state,
        } => first_in_loop(alloc, location, first, before_all, around, state, facts),
    }
}

/// The first implication of an entry that does not hold by its multipliers, or none.
pub fn first_unimplied(
    alloc: Global,
    certificate: &Certificate,
    location: &Location,
    entry: &Entry,
    facts: &Facts,
) -> Result<Option<u32>, Memory>
    requires given { (s : System) × IsSystem s × IsInRange s certificate.now
        × AreFacts s certificate.now location.now entry.now facts.now.rows facts.now.forms }
    requires entry { (k j : ℕ) × IsEntry certificate.now k j location.now entry.now }
    ensures { IfOk result (λ o. (s : System) → IsSystem s → IsInRange s certificate.now
        → AreFacts s certificate.now location.now entry.now facts.now.rows facts.now.forms
        → MatchOption o (AreImplied s certificate.now location.now entry.now) (λ n. IsFirstUnimplied s certificate.now location.now entry.now n)) }
{
    match first_of_kind(alloc, certificate, location, &entry.kind, facts)? {
        Some(n) => Ok(Some(n as u32)),
        None => Ok(None),
    }
}
