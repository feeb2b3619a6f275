//! Writing unknown reports.

ghost use Rattle.std.specs.Prelude.{◌≡◌, ◌∷◌, [], drop, IfOk, OnOk};
ghost use Rattle.rv_control.specs.Control.{control_of};
ghost use Rattle.rv_invfile.specs.Csv.{records_of};
ghost use Rattle.rv_invfile.specs.Rules.{IsDocument};
ghost use Rattle.rv_invfile.specs.Told.{IsTold};
ghost use Rattle.rv_invfile.specs.Writes.{Adds, lines};
ghost use Rattle.rv_proofs.specs.Counts.{HasFree};
ghost use Rattle.rv_proofs.specs.Ranges.{IsInRange};
ghost use Rattle.rv_invariant.specs.Certificates.{certificate_rule, first_record};
ghost use Rattle.rv_invariant.specs.Unknown as spec;
ghost use Rattle.rv_invariant.specs.Writes.{AllHeld};

use crate::lines::write_numbers;
use crate::writing::write_body;
use csv::Writer;
use itoa::Buffer;
use rv_base::Memory;
use rv_flat::Flat;
use rv_invfile::{finish, new_writer, put};
use rv_proofs::{LeftReport, Why};
use std::alloc::Global;
use std::io::Write;

/// Writes that there are as many locations as there may be.
fn write_limit(writer: &mut Writer<Vec<u8>>, count: u32) -> Result<(), Memory>
    ensures { OnOk result (Adds (⟦<Vec<u8> as Write>⟧.contents) writer.old writer.new (spec.why_record (Why.Locations count) ∷ [])) }
{
    let mut buffer = Buffer::new();
    let text = buffer.format(count);
    put(writer, &[b"why", b"locations", text.as_bytes()])
}

/// Writes why nothing more was split.
fn write_why(writer: &mut Writer<Vec<u8>>, why: Why) -> Result<(), Memory>
    ensures { OnOk result (Adds (⟦<Vec<u8> as Write>⟧.contents) writer.old writer.new (spec.why_record why ∷ [])) }
{
    match why {
        Why::Locations(count) => write_limit(writer, count),
        Why::Stuck => put(writer, &[b"why", b"stuck"]),
    }
}

/// Writes what stands before the partition.
fn write_reason(
    alloc: Global,
    writer: &mut Writer<Vec<u8>>,
    report: &LeftReport,
) -> Result<(), Memory>
    ensures { OnOk result (Adds (⟦<Vec<u8> as Write>⟧.contents) writer.old writer.new (spec.reason_records report.now)) }
{
    put(writer, &[b"reaver", b"unknown", b"1"])?;
    write_why(writer, report.why)?;
    write_numbers(alloc, writer, b"left", &report.left)
}

/// Writes the records of an unknown report.
fn write_report(
    alloc: Global,
    writer: &mut Writer<Vec<u8>>,
    flat: &Flat,
    report: &LeftReport,
) -> Result<(), Memory>
    ensures added { OnOk result (Adds (⟦<Vec<u8> as Write>⟧.contents) writer.old writer.new (spec.left_records flat.now report.now)) }
    ensures held { OnOk result (AllHeld report.now.partition.locations) }
{
    write_reason(alloc, writer, report)?;
    write_body(alloc, writer, flat, &report.partition)
}

/// Writes the document of an unknown report: the bytes of its records, each a line of fields with commas between them. First why nothing
/// more was split, and the numbers of the locations that are left; then the partition, as in the document of a certificate from the name
/// of the node on. `flat` is the answer of `flatten` for some source, and the partition has the counts and ranges of a certificate of it,
/// and no rows in `first` and `around` where a location has no turn of a loop. No call reads such a document. Fails for want of memory
/// alone.
pub fn write_left(alloc: Global, flat: &Flat, report: &LeftReport) -> Result<Vec<u8>, Memory>
    requires told { IsTold flat.now }
    requires range { IsInRange (control_of flat.now) report.now.partition }
    requires free { HasFree report.now.partition }
    // The bytes are the lines of the report's records.
    ensures text { IfOk result (λ bytes. bytes.items ≡ lines (spec.left_records flat.now report.now)) }
    // Read as records, they are those of the report.
    ensures written { IfOk result (λ bytes. records_of bytes.items ≡ spec.left_records flat.now report.now) }
    // With the first record of a certificate in place of the three that stand before the partition, they are the document of the partition.
    ensures partition { IfOk result (λ bytes.
        IsDocument (certificate_rule flat.now) (first_record ∷ drop 3 (records_of bytes.items)) report.now.partition) }
{
    let mut writer = new_writer(alloc);
    write_report(alloc, &mut writer, flat, report)?;
    finish(writer)
}
