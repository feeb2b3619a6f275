//! Whether entries have the ranges of a document.

ghost use Rattle.std.specs.Prelude.{◌↔◌, All, IsTrue};
ghost use Rattle.rv_proofs.specs.Ranges.{IsRecord};
ghost use Rattle.rv_ranges.specs.Documents.{IsKind, IsRangedEntry, AreRangedEntries};

use crate::bounds::Bounds;
use crate::records::{are_records, is_record};
use crate::sets::is_condition;
use rv_base::Many;
use rv_proofs::{Entry, EntryKind};
use rv_rows::Multipliers;

/// How many premises there are for the lists of multipliers of a location's entries: rows of the location, and then one row for each test.
#[derive(Clone, Copy, Debug)]
pub struct Premises {
    /// With the rows of its entry, for a first turn of a loop.
    pub entry: usize,
    /// With the rows after a first turn, for those around its loop.
    pub first: usize,
    /// With the rows of its state, for a refutation and for steps into others.
    pub state: usize,
    /// With the rows around its loop and those of its state, for a later turn.
    pub later: usize,
}

/// Whether the multipliers of a turn have the ranges of a document over these premises.
fn is_turn(
    first: &Many<Multipliers>,
    before: &Many<Multipliers>,
    around: &Many<Multipliers>,
    state: &Many<Multipliers>,
    premises: Premises,
) -> bool
    ensures { IsTrue result
        ↔ (All (IsRecord premises.entry) first.now × All (IsRecord premises.first) before.now × All (IsRecord premises.later) around.now
        × All (IsRecord premises.later) state.now) }
{
    are_records(first, premises.entry)
        && are_records(before, premises.first)
        && are_records(around, premises.later)
        && are_records(state, premises.later)
}

/// Whether the multipliers of what happens have the ranges of a document over these premises. The divisor of a refutation is 1.
fn is_kind(kind: &EntryKind, premises: Premises) -> bool
    ensures { IsTrue result ↔ IsKind premises kind.now }
{
    match kind {
        EntryKind::Dead(by) => by.divisor == 1 && is_record(by, premises.state),
        EntryKind::Go { reach, .. } => are_records(reach, premises.state),
        EntryKind::Loop {
            first,
            before,
            around,
            state,
        } => is_turn(first, before, around, state, premises),
    }
}

/// Whether the entry has the ranges of a document over these premises.
fn is_entry(entry: &Entry, premises: Premises, bounds: &Bounds) -> bool
    ensures { IsTrue result ↔ IsRangedEntry bounds.now premises entry.now }
{
    is_condition(&entry.condition, bounds) && is_kind(&entry.kind, premises)
}

/// Whether each of the entries does.
pub fn are_entries(entries: &Many<Entry>, premises: Premises, bounds: &Bounds) -> bool
    ensures { IsTrue result ↔ AreRangedEntries bounds.now premises entries.now }
{
    for entry in entries.as_slice() {
        if !is_entry(entry, premises, bounds) {
            return false;
        }
    }
    true
}
