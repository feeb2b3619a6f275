//! Reading certificates.

ghost use Rattle.std.specs.Prelude.{◌≤◌, length, IfOk, IfErr};
ghost use Rattle.rv_invfile.specs.Csv.{records_of};
ghost use Rattle.rv_invfile.specs.Faults.{IsFirstFault};
ghost use Rattle.rv_invfile.specs.Readers.{Gives, Reads, run, whole};
ghost use Rattle.rv_invfile.specs.Rules.{IsDocument};
ghost use Rattle.rv_invfile.specs.Tells.{Explains, Finds, Refuses};
ghost use Rattle.rv_invfile.specs.declared.fault.FileFault.{FileFault as FaultModel};
ghost use Rattle.rv_proofs.specs.declared.certificate.Certificate.{Certificate as CertificateModel};
ghost use Rattle.rv_invariant.specs.Certificates as spec;

use crate::counts::shape_of;
use crate::locations::read_locations;
use crate::naming::{bit_texts, column_texts, read_texts};
use rv_flat::Flat;
use rv_invfile::{FileFault, Records, expect_nothing, read_count, read_exactly, read_name};
use rv_proofs::Certificate;
use std::alloc::Global;

/// The record of the texts of the variables.
fn read_bits(alloc: Global, records: &mut Records<'_>, flat: &Flat) -> Result<(), FileFault>
    ensures { Reads (λ u. u) (run (spec.bits_rule flat.now) records.old) result records.new }
{
    let names = bit_texts(alloc, flat)?;
    read_texts(records, b"bits", names.as_slice())
}

/// The record of the texts of the columns.
fn read_columns(alloc: Global, records: &mut Records<'_>, flat: &Flat) -> Result<(), FileFault>
    ensures { Reads (λ u. u) (run (spec.columns_rule flat.now) records.old) result records.new }
{
    let names = column_texts(alloc, flat)?;
    read_texts(records, b"columns", names.as_slice())
}

/// What stands before the locations, and how many there are.
fn read_head(alloc: Global, records: &mut Records<'_>, flat: &Flat) -> Result<u64, FileFault>
    ensures { Reads (λ n. n) (run (spec.head_rule flat.now) records.old) result records.new }
{
    read_exactly(records, &[b"reaver", b"invariant", b"1"])?;
    read_name(records, b"main", flat.main.as_str().as_bytes())?;
    read_bits(alloc, records, flat)?;
    read_columns(alloc, records, flat)?;
    read_count(records, b"locations", 0, 4096)
}

/// The whole of a certificate.
fn read_all(alloc: Global, records: &mut Records<'_>, flat: &Flat) -> Result<Certificate, FileFault>
    ensures { Reads (λ c. c) (run (spec.certificate_rule flat.now) records.old) result records.new }
{
    let count = read_head(alloc, records, flat)?;
    read_locations(alloc, records, shape_of(flat), count)
}

/// What the records of the bytes are.
fn read_whole(alloc: Global, flat: &Flat, bytes: &[u8]) -> Result<Certificate, FileFault>
    requires { length bytes.now ≤ 67108864 }
    ensures { Gives (whole (spec.certificate_rule flat.now) (records_of bytes.now)) result }
{
    let mut records = Records::new(alloc, bytes)?;
    let certificate = read_all(alloc, &mut records, flat)?;
    expect_nothing(&records)?;
    Ok(certificate)
}

/// Reads the records of the bytes as a certificate of this flat system. `flat` is the answer of `flatten` for some source. `Ok` exactly
/// where the records are the document of a certificate. Otherwise the fault of the first record that is not awaited after those before
/// it: `NotRecords` for a byte outside 32 to 126, else `WrongKind` for another kind of record, else `WrongProgram` for a name or texts
/// that are not those of the flat system, else `BadNumber` with the first field that is no number in its range, or that is a count which
/// the records before it do not allow; `Ends` where more records are awaited. `Memory` comes where memory runs out.
pub fn read_certificate(alloc: Global, flat: &Flat, bytes: &[u8]) -> Result<Certificate, FileFault>
    requires { length bytes.now ≤ 67108864 }
    // What is read is a document with this value.
    ensures document { IfOk result (λ c. IsDocument (spec.certificate_rule flat.now) (records_of bytes.now) c) }
    // A document is read, unless memory runs out.
    ensures only { (c : CertificateModel) → IsDocument (spec.certificate_rule flat.now) (records_of bytes.now) c → Finds c result }
    // A fault is the first one.
    ensures refused { IfErr result (λ e. Explains (spec.certificate_rule flat.now) (records_of bytes.now) e) }
    // The first fault is told, unless memory runs out.
    ensures only_refused { (f : FaultModel) → IsFirstFault (spec.certificate_rule flat.now) (records_of bytes.now) f → Refuses f result }
{
    read_whole(alloc, flat, bytes)
}
