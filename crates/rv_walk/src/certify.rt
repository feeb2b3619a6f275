//! The certificate of one location that holds what is reached.

ghost use Rattle.std.specs.Prelude.{◌≡◌, map, IfOk};
ghost use Rattle.rv_walk.specs.Walks.{entry_of, certificate_of};

use rv_base::{Many, Memory};
use rv_diagram::Frozen;
use rv_proofs::{Case, Certificate, Entry, EntryKind, Location};
use std::alloc::Global;

/// The entries of cases, each of which stays in the one location.
fn entries(alloc: Global, cases: Many<Case>) -> Result<Many<Entry>, Memory>
    ensures { IfOk result (λ es. es ≡ map entry_of cases) }
{
    let mut entries = Many::new(alloc);
    for case in cases.into_vec() {
        entries.push(Entry {
            condition: case.condition,
            kind: EntryKind::Go {
                target: 0,
                reach: Many::new(alloc),
            },
        })?;
    }
    Ok(entries)
}

/// The certificate of the location that holds a set of control states, whose cases lead into it.
pub fn certify(alloc: Global, control: Frozen, cases: Many<Case>) -> Result<Certificate, Memory>
    ensures { IfOk result (λ c. c ≡ certificate_of control cases) }
{
    let entries = entries(alloc, cases)?;
    let mut locations = Many::new(alloc);
    locations.push(Location {
        control,
        entry: Many::new(alloc),
        first: Many::new(alloc),
        around: Many::new(alloc),
        state: Many::new(alloc),
        by_entry: Many::new(alloc),
        by_first: Many::new(alloc),
        entries,
    })?;
    Ok(Certificate { locations })
}
