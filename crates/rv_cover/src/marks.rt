//! Which premises multipliers name.

ghost use Rattle.std.specs.Prelude.{◌≡◌, All, IfOk, length, false};
ghost use Rattle.rv_cover.specs.Marks.{AreMarked, Names, NamesAny, EntryNames, EntriesName};

use rv_base::{Many, Memory};
use rv_proofs::{Entry, EntryKind};
use rv_rows::Multipliers;
use std::alloc::Global;

/// As many flags, none of them set. The only error is want of memory.
pub fn unset(alloc: Global, many: usize) -> Result<Many<bool>, Memory>
    ensures size { IfOk result (λ flags. length flags ≡ many) }
    ensures none { IfOk result (λ flags. All (λ flag. flag ≡ false) flags) }
{
    let mut flags = Many::new(alloc);
    for _place in 0..many {
        flags.push(false)?;
    }
    Ok(flags)
}

/// Whether the flag is there and set.
pub fn is_set(flags: &Many<bool>, place: usize) -> bool {
    place < flags.len() && *flags.at(place)
}

/// Sets the flag of a premise, where it has one: premise `first` has the first flag. It answers whether that was not set.
pub fn mark_premise(flags: &mut Many<bool>, first: usize, premise: usize) -> bool
    ensures { AreMarked flags.old flags.new first (λ p. premise ≡ p) }
{
    if premise < first {
        return false;
    }
    let place = premise - first;
    if place >= flags.len() {
        return false;
    }
    let known = *flags.at(place);
    flags.set(place, true);
    !known
}

/// Sets the flags of the premises that multipliers name, of which premise `first` has the first flag, and answers whether one was not set. A
/// premise without a flag is passed over.
pub fn mark_named(flags: &mut Many<bool>, first: usize, by: &Multipliers) -> bool
    ensures { AreMarked flags.old flags.new first (Names by.now) }
{
    let mut more = false;
    for place in 0..by.weights.len() {
        let new = mark_premise(flags, first, by.weights.at(place).premise as usize);
        more = more || new;
    }
    more
}

/// The same for each of a list of multipliers.
pub fn mark_each(flags: &mut Many<bool>, first: usize, reach: &Many<Multipliers>) -> bool
    ensures { AreMarked flags.old flags.new first (NamesAny reach.now) }
{
    let mut more = false;
    for place in 0..reach.len() {
        let new = mark_named(flags, first, reach.at(place));
        more = more || new;
    }
    more
}

/// The same for the multipliers of an entry that is no turn of a loop.
fn mark_entry(flags: &mut Many<bool>, first: usize, entry: &Entry) -> bool
    ensures { AreMarked flags.old flags.new first (EntryNames entry.now) }
{
    match &entry.kind {
        EntryKind::Dead(by) => mark_named(flags, first, by),
        EntryKind::Go { reach, .. } => mark_each(flags, first, reach),
        EntryKind::Loop { .. } => false,
    }
}

/// Sets the flags of the premises that the multipliers of a location's entries name, of which premise `first` has the first flag, and answers
/// whether one was not set. A premise without a flag is passed over, and so are turns of a loop.
pub fn mark_entries(flags: &mut Many<bool>, first: usize, entries: &Many<Entry>) -> bool
    ensures { AreMarked flags.old flags.new first (EntriesName entries.now) }
{
    let mut more = false;
    for place in 0..entries.len() {
        let new = mark_entry(flags, first, entries.at(place));
        more = more || new;
    }
    more
}

/// The first place whose flag is set in the one list and not in the other.
pub fn next_place(flags: &Many<bool>, known: &Many<bool>) -> Option<usize> {
    for place in 0..flags.len() {
        if *flags.at(place) && !is_set(known, place) {
            return Some(place);
        }
    }
    None
}
