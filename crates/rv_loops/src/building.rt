//! A certificate made anew, in which some steps of locations to themselves are turns of a loop.

ghost use Rattle.std.specs.Prelude.{◌≡◌, length};

use rv_base::{Many, Memory};
use rv_cover::copy_set;
use rv_proofs::{Certificate, Entry, EntryKind, Location};
use rv_rows::{Multipliers, Row};
use std::alloc::Global;

/// Whether the flag is there and set.
fn is_set(flags: &Many<bool>, place: usize) -> bool {
    place < flags.len() && *flags.at(place)
}

/// Whether some flag is set.
pub fn is_some_set(flags: &Many<bool>) -> bool {
    for place in 0..flags.len() {
        if *flags.at(place) {
            return true;
        }
    }
    false
}

/// The same row.
fn copy_row(alloc: Global, row: &Row) -> Result<Row, Memory> {
    let numbers = Vec::from_slice(alloc, row.coefficients.as_slice())?;
    Ok(Row {
        coefficients: Many::from_vec(numbers),
        bound: row.bound,
    })
}

/// The same rows.
fn copy_rows(alloc: Global, rows: &Many<Row>) -> Result<Many<Row>, Memory> {
    let mut copies = Many::new(alloc);
    for place in 0..rows.len() {
        let copy = copy_row(alloc, rows.at(place))?;
        copies.push(copy)?;
    }
    Ok(copies)
}

/// The same multipliers.
fn copy_multipliers(alloc: Global, by: &Multipliers) -> Result<Multipliers, Memory> {
    let weights = Vec::from_slice(alloc, by.weights.as_slice())?;
    Ok(Multipliers {
        divisor: by.divisor,
        weights: Many::from_vec(weights),
    })
}

/// The same list of multipliers.
fn copy_list(alloc: Global, list: &Many<Multipliers>) -> Result<Many<Multipliers>, Memory> {
    let mut copies = Many::new(alloc);
    for place in 0..list.len() {
        let copy = copy_multipliers(alloc, list.at(place))?;
        copies.push(copy)?;
    }
    Ok(copies)
}

/// The turn that a step into its own location is, where what holds at the entry, after the first turn and always are the same rows. Nothing else is
/// kept around, so nothing else is to be proved: the step's proofs are those of the first turn and of the later ones.
fn turn_of(alloc: Global, reach: &Many<Multipliers>) -> Result<EntryKind, Memory> {
    let first = copy_list(alloc, reach)?;
    let state = copy_list(alloc, reach)?;
    Ok(EntryKind::Loop {
        first,
        before: Many::new(alloc),
        around: Many::new(alloc),
        state,
    })
}

/// The same turn.
fn same_turn(
    alloc: Global,
    first: &Many<Multipliers>,
    before: &Many<Multipliers>,
    around: &Many<Multipliers>,
    state: &Many<Multipliers>,
) -> Result<EntryKind, Memory> {
    let first = copy_list(alloc, first)?;
    let before = copy_list(alloc, before)?;
    let around = copy_list(alloc, around)?;
    let state = copy_list(alloc, state)?;
    Ok(EntryKind::Loop {
        first,
        before,
        around,
        state,
    })
}

/// The same step.
fn same_step(alloc: Global, target: u32, reach: &Many<Multipliers>) -> Result<EntryKind, Memory> {
    let reach = copy_list(alloc, reach)?;
    Ok(EntryKind::Go { target, reach })
}

/// What happens, a step as a turn where that is asked.
fn kind_of(alloc: Global, kind: &EntryKind, turned: bool) -> Result<EntryKind, Memory> {
    match kind {
        EntryKind::Dead(by) => {
            let by = copy_multipliers(alloc, by)?;
            Ok(EntryKind::Dead(by))
        }
        EntryKind::Go { target, reach } => {
            if turned {
                turn_of(alloc, reach)
            } else {
                same_step(alloc, *target, reach)
            }
        }
        EntryKind::Loop {
            first,
            before,
            around,
            state,
        } => same_turn(alloc, first, before, around, state),
    }
}

/// The entry, a step as a turn where that is asked.
fn entry_of(alloc: Global, entry: &Entry, turned: bool) -> Result<Entry, Memory> {
    let condition = copy_set(alloc, &entry.condition)?;
    let kind = kind_of(alloc, &entry.kind, turned)?;
    Ok(Entry { condition, kind })
}

/// The entries, steps as turns where their flags are there and set.
fn entries_of(
    alloc: Global,
    entries: &Many<Entry>,
    flags: &Many<bool>,
) -> Result<Many<Entry>, Memory> {
    let mut list = Many::new(alloc);
    for place in 0..entries.len() {
        let entry = entry_of(alloc, entries.at(place), is_set(flags, place))?;
        list.push(entry)?;
    }
    Ok(list)
}

/// The location with turns where the flags of its entries are there and set: what holds after the first turn is what holds at the entry, with the same
/// proofs of what always holds.
fn turned(alloc: Global, location: &Location, flags: &Many<bool>) -> Result<Location, Memory> {
    let control = copy_set(alloc, &location.control)?;
    let entry = copy_rows(alloc, &location.entry)?;
    let first = copy_rows(alloc, &location.entry)?;
    let state = copy_rows(alloc, &location.state)?;
    let by_entry = copy_list(alloc, &location.by_entry)?;
    let by_first = copy_list(alloc, &location.by_entry)?;
    let entries = entries_of(alloc, &location.entries, flags)?;
    Ok(Location {
        control,
        entry,
        first,
        around: Many::new(alloc),
        state,
        by_entry,
        by_first,
        entries,
    })
}

/// The same location.
fn unturned(alloc: Global, location: &Location) -> Result<Location, Memory> {
    let control = copy_set(alloc, &location.control)?;
    let entry = copy_rows(alloc, &location.entry)?;
    let first = copy_rows(alloc, &location.first)?;
    let around = copy_rows(alloc, &location.around)?;
    let state = copy_rows(alloc, &location.state)?;
    let by_entry = copy_list(alloc, &location.by_entry)?;
    let by_first = copy_list(alloc, &location.by_first)?;
    let none = Many::new(alloc);
    let entries = entries_of(alloc, &location.entries, &none)?;
    Ok(Location {
        control,
        entry,
        first,
        around,
        state,
        by_entry,
        by_first,
        entries,
    })
}

/// The location with turns where some flag is set, and else the same.
fn location_of(alloc: Global, location: &Location, flags: &Many<bool>) -> Result<Location, Memory> {
    if is_some_set(flags) {
        turned(alloc, location, flags)
    } else {
        unturned(alloc, location)
    }
}

/// The certificate whose steps of a location to itself are turns of a loop where the location's flag for the entry is there and set. The flags are asked
/// for such steps alone, in locations without a loop whose rows at the entry are those that always hold. The only error is want of memory.
pub fn with_flags(
    alloc: Global,
    certificate: &Certificate,
    flags: &Many<Many<bool>>,
) -> Result<Certificate, Memory>
    requires { length flags.now ≡ length certificate.now.locations }
{
    let mut locations = Many::new(alloc);
    for place in 0..certificate.locations.len() {
        let location = location_of(alloc, certificate.locations.at(place), flags.at(place))?;
        locations.push(location)?;
    }
    Ok(Certificate { locations })
}
