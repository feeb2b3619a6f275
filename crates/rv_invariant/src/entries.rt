//! Reading the entries of a location.

ghost use Rattle.std.specs.Prelude.{◌≡◌, ◌+◌, ◌<◌, ◌≤◌, ◌^◌, [], length, false, IfOk, IsErrOf, IsOk};
ghost use Rattle.rv_invfile.specs.Ahead.{here};
ghost use Rattle.rv_invfile.specs.Parts.{turns};
ghost use Rattle.rv_invfile.specs.Readers.{Reads, run};
ghost use Rattle.rv_invariant.specs.Certificates as spec;
ghost use Rattle.rv_invariant.specs.Continues.{Continues};
ghost use Rattle.rv_invariant.specs.Outlines.{IsSmall};
ghost use Rattle.rv_invariant.specs.Pieces as pieces;

use crate::counts::Shape;
use crate::diagrams::read_diagram;
use crate::groups::has_groups;
use crate::multipliers::{read_proof, read_proofs};
use crate::numbers::below;
use crate::outlines::{Kinds, Outline, kinds_at, needs_after, takes};
use crate::turns::{has_turn, read_turn};
use rv_base::Many;
use rv_invfile::{FileFault, Records, read_exactly};
use rv_proofs::{Entry, EntryKind};
use rv_rows::Multipliers;
use std::alloc::Global;

/// As many proofs as stand here, and at most 1,024.
fn read_open(
    alloc: Global,
    records: &mut Records<'_>,
    premises: u64,
) -> Result<Many<Multipliers>, FileFault>
    ensures read { Continues (λ next. run (turns 1024 (pieces.a_proof (2 ^ 30) premises) (λ reach. next reach [])) records.old) result [] records.new }
    ensures few { IfOk result (λ reach. length reach ≤ 1024) }
{
    let mut found = Many::new(alloc);
    for turn in 0..1024u32 {
        if !has_groups(records, b"by", 2) {
            return Ok(found);
        }
        found.push(read_proof(alloc, records, 1 << 30, premises)?)?;
    }
    Ok(found)
}

/// The proofs of a step into a location of which nothing is known yet; then their number is.
fn read_unknown(
    alloc: Global,
    records: &mut Records<'_>,
    premises: u64,
    target: u32,
    known: &mut Many<Option<u32>>,
) -> Result<Many<Multipliers>, FileFault>
    requires { target < length known.old }
    ensures read { Continues (λ next. run (spec.reach_rule premises target None next known.old) records.old) result known.new records.new }
    ensures same { length known.new ≡ length known.old }
{
    let reach = read_open(alloc, records, premises)?;
    known.set(target as usize, Some(reach.len() as u32));
    Ok(reach)
}

/// The proofs of a step, one for each row of the target's `entry`.
fn read_reach(
    alloc: Global,
    records: &mut Records<'_>,
    premises: u64,
    target: u32,
    known: &mut Many<Option<u32>>,
) -> Result<Many<Multipliers>, FileFault>
    requires { target < length known.old }
    ensures read { Continues (λ next. run (spec.reach_rule premises target (spec.known_at known.old target) next known.old) records.old)
        result known.new records.new }
    ensures same { length known.new ≡ length known.old }
{
    let count = *known.at(target as usize);
    match count {
        Some(count) => read_proofs(alloc, records, premises, u64::from(count)),
        None => read_unknown(alloc, records, premises, target, known),
    }
}

/// `go` and the number of a location. Want of memory is told only where they stand here.
fn read_target(records: &mut Records<'_>, locations: u64) -> Result<u32, FileFault>
    ensures read { Reads (λ t. t) (run (spec.a_target locations) records.old) result records.new }
    ensures memory { IsErrOf result FileFault.Memory → IsOk (run (spec.a_target locations) records.old) }
    ensures below { IfOk result (λ t. t < locations) }
{
    records.expect(b"go", 2)?;
    let Some(target) = below(records.field(1), locations) else {
        return Err(FileFault::BadNumber(records.number(), 1));
    };
    records.advance()?;
    Ok(target)
}

/// A step into a location.
fn read_go(
    alloc: Global,
    records: &mut Records<'_>,
    shape: Shape,
    state: u64,
    known: &mut Many<Option<u32>>,
) -> Result<Entry, FileFault>
    requires { state ≤ 1024 }
    ensures read { Continues (λ next. run (spec.whole_go shape (length known.old) state next known.old) records.old) result known.new records.new }
    ensures same { length known.new ≡ length known.old }
{
    let target = read_target(records, known.len() as u64)?;
    let condition = read_diagram(alloc, records, shape, b"when", false)?;
    let reach = read_reach(
        alloc,
        records,
        state + u64::from(shape.tests),
        target,
        known,
    )?;
    let kind = EntryKind::Go { target, reach };
    Ok(Entry { condition, kind })
}

/// An entry where nothing happens.
fn read_dead(
    alloc: Global,
    records: &mut Records<'_>,
    shape: Shape,
    state: u64,
    known: &Many<Option<u32>>,
) -> Result<Entry, FileFault>
    requires { state ≤ 1024 }
    ensures { Continues (λ next. run (spec.whole_dead shape state next known.now) records.old) result known.now records.new }
{
    read_exactly(records, &[b"dead"])?;
    let condition = read_diagram(alloc, records, shape, b"when", false)?;
    let by = read_proof(alloc, records, 1, state + u64::from(shape.tests))?;
    let kind = EntryKind::Dead(by);
    Ok(Entry { condition, kind })
}

/// A step or a dead entry of a location with so many rows in `state`.
fn read_plain(
    alloc: Global,
    records: &mut Records<'_>,
    shape: Shape,
    state: u64,
    known: &mut Many<Option<u32>>,
) -> Result<Entry, FileFault>
    requires { state ≤ 1024 }
    ensures read { Continues (λ next. run (spec.plain_rule shape (length known.old) state next known.old) records.old) result known.new records.new }
    ensures same { length known.new ≡ length known.old }
{
    if records.is_word(b"go") {
        read_go(alloc, records, shape, state, known)
    } else {
        read_dead(alloc, records, shape, state, known)
    }
}

/// One entry, of these kinds.
fn read_entry(
    alloc: Global,
    records: &mut Records<'_>,
    shape: Shape,
    outline: Outline,
    kinds: Kinds,
    known: &mut Many<Option<u32>>,
) -> Result<Entry, FileFault>
    requires { IsSmall outline }
    ensures read { Continues (λ next. run (spec.entry_rule shape (length known.old) outline kinds next known.old) records.old) result known.new records.new }
    ensures same { length known.new ≡ length known.old }
{
    let here = has_turn(records);
    if takes(kinds, here) {
        read_turn(alloc, records, shape, outline)
    } else {
        read_plain(alloc, records, shape, outline.state, known)
    }
}

/// So many entries, of which one is a turn of a loop where that is needed.
pub fn read_entries(
    alloc: Global,
    records: &mut Records<'_>,
    shape: Shape,
    outline: Outline,
    needed: bool,
    count: u64,
    known: &mut Many<Option<u32>>,
) -> Result<Many<Entry>, FileFault>
    requires { IsSmall outline }
    ensures read { Continues (λ next. run (spec.entries_rule shape (length known.old) outline needed count [] next known.old) records.old)
        result known.new records.new }
    ensures same { length known.new ≡ length known.old }
{
    let mut entries = Many::new(alloc);
    let mut still = needed;
    for done in 0..count {
        let kinds = kinds_at(outline.turns, still, count - done - 1);
        let entry = read_entry(alloc, records, shape, outline, kinds, known)?;
        still = needs_after(still, &entry);
        entries.push(entry)?;
    }
    Ok(entries)
}
