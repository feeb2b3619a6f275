//! Reading locations.

ghost use Rattle.std.specs.Prelude.{◌≡◌, ◌<◌, ◌≤◌, [], length, replicate, IfOk, None};
ghost use Rattle.rv_invfile.specs.Readers.{Reads, run};
ghost use Rattle.rv_invariant.specs.Certificates as spec;
ghost use Rattle.rv_invariant.specs.Continues.{Continues};

use crate::counts::Shape;
use crate::entries::read_entries;
use crate::fronts::{Front, read_front};
use crate::outlines::{needs_turn, outline_of};
use rv_base::Many;
use rv_invfile::{FileFault, Records, read_exactly};
use rv_proofs::{Certificate, Entry, Location};
use std::alloc::{AllocError, Global};

/// The location of this front with these entries.
fn location_of(front: Front, entries: Many<Entry>) -> Location
    ensures { result ≡ spec.location_of front entries }
{
    let Front {
        control,
        lists,
        by_entry,
        by_first,
        cases: _,
    } = front;
    Location {
        control,
        entry: lists.entry,
        first: lists.first,
        around: lists.around,
        state: lists.state,
        by_entry,
        by_first,
        entries,
    }
}

/// The least number of entry rows by what is known of it.
fn low_of(known: Option<u32>) -> u64
    ensures { result ≡ spec.low_of known }
{
    match known {
        Some(count) => u64::from(count),
        None => 0,
    }
}

/// The greatest number of entry rows by what is known of it.
fn high_of(known: Option<u32>) -> u64
    ensures exact { result ≡ spec.high_of known }
    ensures few { result ≤ 4294967295 }
{
    match known {
        Some(count) => u64::from(count),
        None => 1024,
    }
}

/// The location with this number.
fn read_location(
    alloc: Global,
    records: &mut Records<'_>,
    shape: Shape,
    index: usize,
    known: &mut Many<Option<u32>>,
) -> Result<Location, FileFault>
    requires there { index < length known.old }
    requires memories { shape.memories ≤ 4096 }
    ensures read { Continues (λ next. run (spec.location_rule shape (length known.old) index next known.old) records.old) result known.new records.new }
    ensures same { length known.new ≡ length known.old }
{
    let count = *known.at(index);
    let front = read_front(alloc, records, shape, low_of(count), high_of(count))?;
    known.set(index, Some(front.lists.entry.len() as u32));
    let outline = outline_of(&front);
    let needed = needs_turn(&front);
    let entries = read_entries(alloc, records, shape, outline, needed, front.cases, known)?;
    Ok(location_of(front, entries))
}

/// So many locations of which nothing is known.
fn none_known(alloc: Global, count: u64) -> Result<Many<Option<u32>>, AllocError>
    ensures { IfOk result (λ known. known ≡ replicate count None) }
{
    let mut known = Many::new(alloc);
    for index in 0..count {
        known.push(None)?;
    }
    Ok(known)
}

/// So many locations, and the end.
pub fn read_locations(
    alloc: Global,
    records: &mut Records<'_>,
    shape: Shape,
    count: u64,
) -> Result<Certificate, FileFault>
    requires { shape.memories ≤ 4096 }
    ensures { Reads (λ c. c) (run (spec.locations_rule shape count count [] (replicate count None)) records.old) result records.new }
{
    let mut known = none_known(alloc, count)?;
    let mut locations = Many::new(alloc);
    for index in 0..count {
        let location = read_location(alloc, records, shape, locations.len(), &mut known)?;
        locations.push(location)?;
    }
    read_exactly(records, &[b"end"])?;
    Ok(Certificate { locations })
}
