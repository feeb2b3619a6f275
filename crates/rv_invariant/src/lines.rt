//! Writing the single records of certificates: diagrams, rows, multipliers and lists of numbers.

ghost use Rattle.std.specs.Prelude.{◌<◌, ◌^◌, ◌∷◌, [], map, flat_map, decimal, IfOk, OnOk};
ghost use Rattle.std.specs.Fmt.{signed_decimal};
ghost use Rattle.rv_invfile.specs.Writes.{Adds};
ghost use Rattle.rv_invariant.specs.Certificates.{IsHeld};
ghost use Rattle.rv_invariant.specs.Pieces as pieces;
ghost use Rattle.rv_invariant.specs.Writes.{AreHeld, Extends, HasFields};

use csv::{ByteRecord, Writer};
use itoa::Buffer;
use rv_base::{Many, Memory, Text};
use rv_diagram::{Frozen, Triple};
use rv_invfile::{put_count, put_row};
use rv_rows::{Multipliers, Row, Weight};
use std::alloc::Global;
use std::io::Write;

/// A record of this word.
fn new_row(alloc: Global, word: &[u8]) -> Result<ByteRecord, Memory>
    ensures { IfOk result (λ row. HasFields row (word.now ∷ [])) }
{
    let mut row = ByteRecord::new(alloc);
    row.push_field(word)?;
    Ok(row)
}

/// Adds a number as a field.
fn add_number(row: &mut ByteRecord, number: u32) -> Result<(), Memory>
    ensures { OnOk result (Extends row.old row.new (decimal number ∷ [])) }
{
    let mut buffer = Buffer::new();
    let text = buffer.format(number);
    row.push_field(text.as_bytes())?;
    Ok(())
}

/// Adds a whole number as a field.
fn add_whole(row: &mut ByteRecord, number: i128) -> Result<(), Memory>
    ensures { OnOk result (Extends row.old row.new (signed_decimal number ∷ [])) }
{
    let mut buffer = Buffer::new();
    let text = buffer.format(number);
    row.push_field(text.as_bytes())?;
    Ok(())
}

/// Adds these numbers, in order.
fn add_numbers(row: &mut ByteRecord, numbers: &Many<u32>) -> Result<(), Memory>
    ensures { OnOk result (Extends row.old row.new (map decimal numbers.now)) }
{
    for index in 0..numbers.len() {
        add_number(row, *numbers.at(index))?;
    }
    Ok(())
}

/// Writes a record of this word and these numbers.
pub fn write_numbers(
    alloc: Global,
    writer: &mut Writer<Vec<u8>>,
    word: &[u8],
    numbers: &Many<u32>,
) -> Result<(), Memory>
    ensures { OnOk result (Adds (⟦<Vec<u8> as Write>⟧.contents) writer.old writer.new ((word.now ∷ map decimal numbers.now) ∷ [])) }
{
    let mut row = new_row(alloc, word)?;
    add_numbers(&mut row, numbers)?;
    put_row(writer, &row)
}

/// Adds the three numbers of a node.
fn add_node(row: &mut ByteRecord, node: Triple) -> Result<(), Memory>
    ensures fields { OnOk result (Extends row.old row.new (pieces.triple_texts node)) }
    ensures held { OnOk result ((node.lo < 2 ^ 32) × (node.hi < 2 ^ 32)) }
{
    add_number(row, node.var)?;
    add_number(row, node.lo)?;
    add_number(row, node.hi)
}

/// Adds the numbers of these nodes, in order.
fn add_nodes(row: &mut ByteRecord, nodes: &Many<Triple>) -> Result<(), Memory>
    ensures fields { OnOk result (Extends row.old row.new (flat_map pieces.triple_texts nodes.now)) }
    ensures held { OnOk result (AreHeld nodes.now) }
{
    for index in 0..nodes.len() {
        let node = *nodes.at(index);
        add_node(row, node)?;
    }
    Ok(())
}

/// Writes a diagram as a record of this word.
pub fn write_diagram(
    alloc: Global,
    writer: &mut Writer<Vec<u8>>,
    word: &[u8],
    diagram: &Frozen,
) -> Result<(), Memory>
    ensures added { OnOk result (Adds (⟦<Vec<u8> as Write>⟧.contents) writer.old writer.new (pieces.diagram_record word.now diagram.now ∷ [])) }
    ensures held { OnOk result (IsHeld diagram.now) }
{
    let mut row = new_row(alloc, word)?;
    add_number(&mut row, diagram.root)?;
    add_nodes(&mut row, &diagram.nodes)?;
    put_row(writer, &row)
}

/// Adds these whole numbers, in order.
fn add_wholes(row: &mut ByteRecord, numbers: &Many<i128>) -> Result<(), Memory>
    ensures { OnOk result (Extends row.old row.new (map signed_decimal numbers.now)) }
{
    for index in 0..numbers.len() {
        add_whole(row, *numbers.at(index))?;
    }
    Ok(())
}

/// Writes a row as a record.
fn write_row(alloc: Global, writer: &mut Writer<Vec<u8>>, numbers: &Row) -> Result<(), Memory>
    ensures { OnOk result (Adds (⟦<Vec<u8> as Write>⟧.contents) writer.old writer.new (pieces.row_record numbers.now ∷ [])) }
{
    let mut row = new_row(alloc, b"row")?;
    add_whole(&mut row, numbers.bound)?;
    add_wholes(&mut row, &numbers.coefficients)?;
    put_row(writer, &row)
}

/// Writes the count of these rows, in a record of this word, and the rows.
pub fn write_list(
    alloc: Global,
    writer: &mut Writer<Vec<u8>>,
    word: &[u8],
    rows: &Many<Row>,
) -> Result<(), Memory>
    ensures { OnOk result (Adds (⟦<Vec<u8> as Write>⟧.contents) writer.old writer.new (pieces.list_records word.now rows.now)) }
{
    put_count(alloc, writer, word, rows.len() as u64)?;
    for index in 0..rows.len() {
        write_row(alloc, writer, rows.at(index))?;
    }
    Ok(())
}

/// Adds a premise and its weight.
fn add_weight(row: &mut ByteRecord, weight: Weight) -> Result<(), Memory>
    ensures { OnOk result (Extends row.old row.new (pieces.weight_texts weight)) }
{
    add_number(row, weight.premise)?;
    add_whole(row, weight.by)
}

/// Adds these premises with their weights, in order.
fn add_weights(row: &mut ByteRecord, weights: &Many<Weight>) -> Result<(), Memory>
    ensures { OnOk result (Extends row.old row.new (flat_map pieces.weight_texts weights.now)) }
{
    for index in 0..weights.len() {
        let weight = *weights.at(index);
        add_weight(row, weight)?;
    }
    Ok(())
}

/// Writes multipliers as a record.
pub fn write_proof(
    alloc: Global,
    writer: &mut Writer<Vec<u8>>,
    proof: &Multipliers,
) -> Result<(), Memory>
    ensures { OnOk result (Adds (⟦<Vec<u8> as Write>⟧.contents) writer.old writer.new (pieces.by_record proof.now ∷ [])) }
{
    let mut row = new_row(alloc, b"by")?;
    add_whole(&mut row, proof.divisor)?;
    add_weights(&mut row, &proof.weights)?;
    put_row(writer, &row)
}

/// Writes a record for each of these proofs.
pub fn write_proofs(
    alloc: Global,
    writer: &mut Writer<Vec<u8>>,
    proofs: &Many<Multipliers>,
) -> Result<(), Memory>
    ensures { OnOk result (Adds (⟦<Vec<u8> as Write>⟧.contents) writer.old writer.new (map pieces.by_record proofs.now)) }
{
    for index in 0..proofs.len() {
        write_proof(alloc, writer, proofs.at(index))?;
    }
    Ok(())
}

/// Adds these texts as fields, in order.
fn add_texts(row: &mut ByteRecord, texts: &Many<Text>) -> Result<(), Memory>
    ensures { OnOk result (Extends row.old row.new texts.now) }
{
    for index in 0..texts.len() {
        row.push_field(texts.at(index).as_str().as_bytes())?;
    }
    Ok(())
}

/// Writes a record of this word and these texts.
pub fn write_texts(
    alloc: Global,
    writer: &mut Writer<Vec<u8>>,
    word: &[u8],
    texts: &Many<Text>,
) -> Result<(), Memory>
    ensures { OnOk result (Adds (⟦<Vec<u8> as Write>⟧.contents) writer.old writer.new ((word.now ∷ texts.now) ∷ [])) }
{
    let mut row = new_row(alloc, word)?;
    add_texts(&mut row, texts)?;
    put_row(writer, &row)
}
