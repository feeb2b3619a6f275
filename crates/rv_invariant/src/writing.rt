//! Writing certificates.

ghost use Rattle.std.specs.Prelude.{◌≡◌, flat_map, IfOk, OnOk};
ghost use Rattle.rv_control.specs.Control.{control_of};
ghost use Rattle.rv_invfile.specs.Csv.{records_of};
ghost use Rattle.rv_invfile.specs.Rules.{IsDocument};
ghost use Rattle.rv_invfile.specs.Told.{IsTold};
ghost use Rattle.rv_invfile.specs.Writes.{Adds, lines};
ghost use Rattle.rv_proofs.specs.Counts.{HasFree};
ghost use Rattle.rv_proofs.specs.Ranges.{IsInRange};
ghost use Rattle.rv_proofs.specs.declared.certificate.EntryKind.TheVariants as kind;
ghost use Rattle.rv_invariant.specs.Certificates as spec;
ghost use Rattle.rv_invariant.specs.Certificates.{IsHeld};
ghost use Rattle.rv_invariant.specs.Pieces as pieces;
ghost use Rattle.rv_invariant.specs.Writes.{AllHeld, HasHeld, HaveHeld};

use crate::lines::{write_diagram, write_list, write_proof, write_proofs, write_texts};
use crate::naming::{bit_texts, column_texts};
use csv::Writer;
use rv_base::{Many, Memory};
use rv_diagram::Frozen;
use rv_flat::Flat;
use rv_invfile::{finish, new_writer, put, put_count};
use rv_proofs::{Certificate, Entry, EntryKind, Location};
use rv_rows::Multipliers;
use std::alloc::Global;
use std::io::Write;

/// Writes an entry where nothing happens.
fn write_dead(
    alloc: Global,
    writer: &mut Writer<Vec<u8>>,
    condition: &Frozen,
    by: &Multipliers,
) -> Result<(), Memory>
    ensures added { OnOk result (Adds (⟦<Vec<u8> as Write>⟧.contents) writer.old writer.new (spec.kind_records condition.now (kind.Dead by.now))) }
    ensures held { OnOk result (IsHeld condition.now) }
{
    put(writer, &[b"dead"])?;
    write_diagram(alloc, writer, b"when", condition)?;
    write_proof(alloc, writer, by)
}

/// Writes a step into a location.
fn write_go(
    alloc: Global,
    writer: &mut Writer<Vec<u8>>,
    condition: &Frozen,
    target: u32,
    reach: &Many<Multipliers>,
) -> Result<(), Memory>
    ensures added { OnOk result (Adds (⟦<Vec<u8> as Write>⟧.contents) writer.old writer.new (spec.kind_records condition.now (kind.Go target reach.now))) }
    ensures held { OnOk result (IsHeld condition.now) }
{
    put_count(alloc, writer, b"go", u64::from(target))?;
    write_diagram(alloc, writer, b"when", condition)?;
    write_proofs(alloc, writer, reach)
}

/// Writes a turn of a loop.
fn write_turn(
    alloc: Global,
    writer: &mut Writer<Vec<u8>>,
    condition: &Frozen,
    first: &Many<Multipliers>,
    before: &Many<Multipliers>,
    around: &Many<Multipliers>,
    state: &Many<Multipliers>,
) -> Result<(), Memory>
    ensures added { OnOk result (Adds (⟦<Vec<u8> as Write>⟧.contents) writer.old writer.new
        (spec.kind_records condition.now (kind.Loop first.now before.now around.now state.now))) }
    ensures held { OnOk result (IsHeld condition.now) }
{
    put(writer, &[b"loop"])?;
    write_diagram(alloc, writer, b"when", condition)?;
    write_proofs(alloc, writer, first)?;
    write_proofs(alloc, writer, before)?;
    write_proofs(alloc, writer, around)?;
    write_proofs(alloc, writer, state)
}

/// Writes an entry.
fn write_entry(alloc: Global, writer: &mut Writer<Vec<u8>>, entry: &Entry) -> Result<(), Memory>
    ensures added { OnOk result (Adds (⟦<Vec<u8> as Write>⟧.contents) writer.old writer.new (spec.entry_records entry.now)) }
    ensures held { OnOk result (IsHeld entry.now.condition) }
{
    match &entry.kind {
        EntryKind::Dead(by) => write_dead(alloc, writer, &entry.condition, by),
        EntryKind::Go { target, reach } => write_go(
            alloc,
            writer,
            &entry.condition,
            *target,
            reach,
        ),
        EntryKind::Loop {
            first,
            before,
            around,
            state,
        } => write_turn(
            alloc,
            writer,
            &entry.condition,
            first,
            before,
            around,
            state,
        ),
    }
}

/// Writes the count of these entries, and the entries.
fn write_entries(
    alloc: Global,
    writer: &mut Writer<Vec<u8>>,
    entries: &Many<Entry>,
) -> Result<(), Memory>
    ensures added { OnOk result (Adds (⟦<Vec<u8> as Write>⟧.contents) writer.old writer.new (spec.cases_records entries.now)) }
    ensures held { OnOk result (HaveHeld entries.now) }
{
    put_count(alloc, writer, b"cases", entries.len() as u64)?;
    for index in 0..entries.len() {
        write_entry(alloc, writer, entries.at(index))?;
    }
    Ok(())
}

/// Writes the four lists of rows of a location.
fn write_lists(
    alloc: Global,
    writer: &mut Writer<Vec<u8>>,
    location: &Location,
) -> Result<(), Memory>
    ensures { OnOk result (Adds (⟦<Vec<u8> as Write>⟧.contents) writer.old writer.new (spec.rows_of location.now)) }
{
    write_list(alloc, writer, b"entry", &location.entry)?;
    write_list(alloc, writer, b"first", &location.first)?;
    write_list(alloc, writer, b"around", &location.around)?;
    write_list(alloc, writer, b"state", &location.state)
}

/// Writes a location.
fn write_location(
    alloc: Global,
    writer: &mut Writer<Vec<u8>>,
    location: &Location,
) -> Result<(), Memory>
    ensures added { OnOk result (Adds (⟦<Vec<u8> as Write>⟧.contents) writer.old writer.new (spec.location_records location.now)) }
    ensures held { OnOk result (HasHeld location.now) }
{
    write_diagram(alloc, writer, b"control", &location.control)?;
    write_lists(alloc, writer, location)?;
    write_proofs(alloc, writer, &location.by_entry)?;
    write_proofs(alloc, writer, &location.by_first)?;
    write_entries(alloc, writer, &location.entries)
}

/// Writes these locations, in order.
fn write_locations(
    alloc: Global,
    writer: &mut Writer<Vec<u8>>,
    locations: &Many<Location>,
) -> Result<(), Memory>
    ensures added { OnOk result (Adds (⟦<Vec<u8> as Write>⟧.contents) writer.old writer.new (flat_map spec.location_records locations.now)) }
    ensures held { OnOk result (AllHeld locations.now) }
{
    for index in 0..locations.len() {
        write_location(alloc, writer, locations.at(index))?;
    }
    Ok(())
}

/// Writes what names the flat system.
fn write_names(alloc: Global, writer: &mut Writer<Vec<u8>>, flat: &Flat) -> Result<(), Memory>
    ensures { OnOk result (Adds (⟦<Vec<u8> as Write>⟧.contents) writer.old writer.new (spec.name_records flat.now)) }
{
    let bits = bit_texts(alloc, flat)?;
    let columns = column_texts(alloc, flat)?;
    put(writer, &[b"main", flat.main.as_str().as_bytes()])?;
    write_texts(alloc, writer, b"bits", &bits)?;
    write_texts(alloc, writer, b"columns", &columns)
}

/// Writes the records of a certificate from the name of the node on.
pub fn write_body(
    alloc: Global,
    writer: &mut Writer<Vec<u8>>,
    flat: &Flat,
    certificate: &Certificate,
) -> Result<(), Memory>
    ensures added { OnOk result (Adds (⟦<Vec<u8> as Write>⟧.contents) writer.old writer.new (spec.body_records flat.now certificate.now)) }
    ensures held { OnOk result (AllHeld certificate.now.locations) }
{
    write_names(alloc, writer, flat)?;
    put_count(
        alloc,
        writer,
        b"locations",
        certificate.locations.len() as u64,
    )?;
    write_locations(alloc, writer, &certificate.locations)?;
    put(writer, &[b"end"])
}

/// Writes the records of a certificate.
fn write_records(
    alloc: Global,
    writer: &mut Writer<Vec<u8>>,
    flat: &Flat,
    certificate: &Certificate,
) -> Result<(), Memory>
    ensures added { OnOk result (Adds (⟦<Vec<u8> as Write>⟧.contents) writer.old writer.new (spec.certificate_records flat.now certificate.now)) }
    ensures held { OnOk result (AllHeld certificate.now.locations) }
{
    put(writer, &[b"reaver", b"invariant", b"1"])?;
    write_body(alloc, writer, flat, certificate)
}

/// Writes the document of a certificate: the bytes of its records, each a line of fields with commas between them. `flat` is the
/// answer of `flatten` for some source, and the certificate has the counts and ranges of one of it, and no rows in `first` and `around`
/// where a location has no turn of a loop. Fails for want of memory alone.
pub fn write_certificate(
    alloc: Global,
    flat: &Flat,
    certificate: &Certificate,
) -> Result<Vec<u8>, Memory>
    requires told { IsTold flat.now }
    requires range { IsInRange (control_of flat.now) certificate.now }
    requires free { HasFree certificate.now }
    // The bytes are the lines of the certificate's records.
    ensures text { IfOk result (λ bytes. bytes.items ≡ lines (spec.certificate_records flat.now certificate.now)) }
    // The bytes are the document of the certificate.
    ensures document { IfOk result (λ bytes. IsDocument (spec.certificate_rule flat.now) (records_of bytes.items) certificate.now) }
    // Read as records, they are those of the certificate.
    ensures written { IfOk result (λ bytes. records_of bytes.items ≡ spec.certificate_records flat.now certificate.now) }
{
    let mut writer = new_writer(alloc);
    write_records(alloc, &mut writer, flat, certificate)?;
    finish(writer)
}
