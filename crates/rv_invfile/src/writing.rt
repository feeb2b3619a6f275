//! Writing records as lines.

ghost use Rattle.std.specs.Prelude.{◌≡◌, ◌++◌, ◌∷◌, ◌<◌, ℕ, List, [], map, IfOk, OnOk, decimal, string_bytes};
ghost use Rattle.csv.specs.Records.{fields_of};
ghost use Rattle.csv.specs.Writing.{row_text};
ghost use Rattle.rv_invfile.specs.Writes.{IsWriting, Adds, any_width};

use csv::{ByteRecord, Writer, WriterBuilder};
use rv_base::Memory;
use std::alloc::Global;
use std::io::Write;

/// A writer of records of any number of fields, into memory.
pub fn new_writer(alloc: Global) -> Writer<Vec<u8>>
    ensures { IsWriting (⟦<Vec<u8> as Write>⟧.contents) result [] }
{
    WriterBuilder::new()
        .flexible(true)
        .from_writer(Vec::new(alloc))
}

/// Writes a record of these fields.
pub fn put_fields<W: Write + Drop>(writer: &mut Writer<W>, fields: &[&[u8]]) -> Result<(), Memory>
    ensures { (text : List ℕ) → IsWriting W.contents writer.old text → OnOk result
        (IsWriting W.contents writer.new (text ++ row_text any_width (map (λ f. f.now) fields.now))) }
{
    match writer.write_fields(fields) {
        Ok(()) => Ok(()),
        Err(_) => Err(Memory::Memory),
    }
}

/// Writes a record.
pub fn put_record<W: Write + Drop>(writer: &mut Writer<W>, row: &ByteRecord) -> Result<(), Memory>
    ensures { (text : List ℕ) → IsWriting W.contents writer.old text → OnOk result
        (IsWriting W.contents writer.new (text ++ row_text any_width (fields_of row.now))) }
{
    match writer.write_byte_record(row) {
        Ok(()) => Ok(()),
        Err(_) => Err(Memory::Memory),
    }
}

/// All that was written.
pub fn finish(writer: Writer<Vec<u8>>) -> Result<Vec<u8>, Memory>
    ensures { (text : List ℕ) → IsWriting (⟦<Vec<u8> as Write>⟧.contents) writer text → IfOk result (λ v. v.items ≡ text) }
{
    match writer.into_inner() {
        Ok(bytes) => Ok(bytes),
        Err(_) => Err(Memory::Memory),
    }
}

/// Writes a record of these fields into memory.
pub fn put(writer: &mut Writer<Vec<u8>>, fields: &[&[u8]]) -> Result<(), Memory>
    ensures { OnOk result (Adds (⟦<Vec<u8> as Write>⟧.contents) writer.old writer.new (map (λ f. f.now) fields.now ∷ [])) }
{
    put_fields(writer, fields)
}

/// Writes a record into memory.
pub fn put_row(writer: &mut Writer<Vec<u8>>, row: &ByteRecord) -> Result<(), Memory>
    ensures { OnOk result (Adds (⟦<Vec<u8> as Write>⟧.contents) writer.old writer.new (fields_of row.now ∷ [])) }
{
    put_record(writer, row)
}

/// Writes a record of a word and a count.
pub fn put_count(
    alloc: Global,
    writer: &mut Writer<Vec<u8>>,
    word: &[u8],
    count: u64,
) -> Result<(), Memory>
    ensures { OnOk result (Adds (⟦<Vec<u8> as Write>⟧.contents) writer.old writer.new ((word.now ∷ decimal count ∷ []) ∷ [])) }
{
    let text = decimal_text(alloc, count)?;
    put(writer, &[word, text.as_bytes()])
}

/// The digits of a number.
fn decimal_text(alloc: Global, number: u64) -> Result<String, Memory>
    ensures { IfOk result (λ s. string_bytes s ≡ decimal number) }
{
    Ok(format!(in alloc; "{number}")?)
}
