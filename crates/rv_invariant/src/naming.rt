//! The texts by which documents name variables and columns.

ghost use Rattle.std.specs.Prelude.{◌≡◌, ◌↔◌, ◌+◌, ◌++◌, ◌∷◌, length, string_bytes, codes, decimal, IfOk, IsErrOf, IsOk, IsTrue};
ghost use Rattle.rv_invfile.specs.Ahead.{here};
ghost use Rattle.rv_invfile.specs.Forms as forms;
ghost use Rattle.rv_invfile.specs.Readers.{Reads, run};
ghost use Rattle.rv_invfile.specs.Texts as texts;
ghost use Rattle.rv_invfile.specs.Texts.{same_fields};
ghost use Rattle.rv_invariant.specs.Naming as spec;

use rv_base::{Many, Sites, Text};
use rv_flat::{Bit, Column, Flat, FlatInput, Side};
use rv_invfile::{FileFault, Records, dotted};
use std::alloc::{AllocError, Global};

/// The name of the input with this number, or nothing.
fn name_at(inputs: &Many<FlatInput>, number: u32) -> &str
    ensures { result.now ≡ spec.name_at inputs.now number }
{
    match inputs.get(number as usize) {
        Some(input) => input.name.as_str(),
        None => "",
    }
}

fn side_text(side: Side) -> &'static str
    ensures { result.now ≡ spec.side_text side }
{
    match side {
        Side::AtMost => "le",
        Side::AtLeast => "ge",
    }
}

/// The text of a variable.
fn bit_text(alloc: Global, inputs: &Many<FlatInput>, bit: &Bit) -> Result<String, AllocError>
    ensures { IfOk result (λ text. string_bytes text ≡ spec.bit_text inputs.now bit.now) }
{
    match bit {
        Bit::MainTick => String::from_str(alloc, "tick"),
        Bit::Tick(place) => tick_text(alloc, &place.sites),
        Bit::Kept(place, number) => memory_text(alloc, &place.sites, *number),
        Bit::Next => String::from_str(alloc, "next"),
        Bit::Input(input, number) => input_text(alloc, name_at(inputs, *input), *number),
        Bit::Test(place, side) => test_text(alloc, &place.sites, *side),
    }
}

fn tick_text(alloc: Global, sites: &Sites) -> Result<String, AllocError>
    ensures { IfOk result (λ text. string_bytes text ≡ codes "tick:" ++ texts.dotted sites.now) }
{
    let place = dotted(alloc, sites)?;
    format!(in alloc; "tick:{place}")
}

fn memory_text(alloc: Global, sites: &Sites, bit: u32) -> Result<String, AllocError>
    ensures { IfOk result (λ text. string_bytes text ≡ codes "memory:" ++ (texts.dotted sites.now ++ (codes ":" ++ decimal bit))) }
{
    let place = dotted(alloc, sites)?;
    format!(in alloc; "memory:{place}:{bit}")
}

fn input_text(alloc: Global, name: &str, bit: u32) -> Result<String, AllocError>
    ensures { IfOk result (λ text. string_bytes text ≡ codes "input:" ++ (name.now ++ (codes ":" ++ decimal bit))) }
{
    format!(in alloc; "input:{name}:{bit}")
}

fn test_text(alloc: Global, sites: &Sites, side: Side) -> Result<String, AllocError>
    ensures { IfOk result (λ text. string_bytes text ≡ codes "test:" ++ (texts.dotted sites.now ++ (codes ":" ++ spec.side_text side))) }
{
    let place = dotted(alloc, sites)?;
    let end = side_text(side);
    format!(in alloc; "test:{place}:{end}")
}

/// The text of a column.
fn column_text(
    alloc: Global,
    inputs: &Many<FlatInput>,
    column: &Column,
) -> Result<String, AllocError>
    ensures { IfOk result (λ text. string_bytes text ≡ spec.column_text inputs.now column.now) }
{
    match column {
        Column::Kept(place) => kept_text(alloc, &place.sites),
        Column::Input(input) => {
            let name = name_at(inputs, *input);
            format!(in alloc; "input:{name}")
        }
    }
}

fn kept_text(alloc: Global, sites: &Sites) -> Result<String, AllocError>
    ensures { IfOk result (λ text. string_bytes text ≡ codes "memory:" ++ texts.dotted sites.now) }
{
    let place = dotted(alloc, sites)?;
    format!(in alloc; "memory:{place}")
}

/// The texts of all variables, in order.
pub fn bit_texts(alloc: Global, flat: &Flat) -> Result<Many<Text>, AllocError>
    ensures { IfOk result (λ names. names ≡ spec.bit_texts flat.now) }
{
    let mut names = Many::new(alloc);
    for index in 0..flat.variables.len() {
        let text = bit_text(alloc, &flat.inputs, flat.variables.at(index))?;
        names.push(Text::from_str(alloc, text.as_str())?)?;
    }
    Ok(names)
}

/// The texts of all columns, in order.
pub fn column_texts(alloc: Global, flat: &Flat) -> Result<Many<Text>, AllocError>
    ensures { IfOk result (λ names. names ≡ spec.column_texts flat.now) }
{
    let mut names = Many::new(alloc);
    for index in 0..flat.columns.len() {
        let text = column_text(alloc, &flat.inputs, flat.columns.at(index))?;
        names.push(Text::from_str(alloc, text.as_str())?)?;
    }
    Ok(names)
}

fn is_same(left: &[u8], right: &[u8]) -> bool
    ensures { IsTrue result ↔ (left.now ≡ right.now) }
{
    left == right
}

/// Whether the record that stands here has a word and so many fields more.
fn has_fields(records: &Records<'_>, count: usize) -> bool
    ensures { IsTrue result ↔ (length (here records.now) ≡ count + 1) }
{
    let fields = records.len();
    if fields == 0 {
        return false;
    }
    fields - 1 == count
}

/// Whether the record that stands here has this word and these texts.
fn are_texts(records: &Records<'_>, word: &[u8], names: &[Text]) -> bool
    ensures { result ≡ same_fields (here records.now) (word.now ∷ names.now) }
{
    if !has_fields(records, names.len()) || !records.is_word(word) {
        return false;
    }
    for index in 0..names.len() {
        if !is_same(records.field(index + 1), names[index].as_str().as_bytes()) {
            return false;
        }
    }
    true
}

/// The record with this word and these texts of the program. Want of memory is told only where it stands here.
pub fn read_texts(records: &mut Records<'_>, word: &[u8], names: &[Text]) -> Result<(), FileFault>
    ensures read { Reads (λ u. u) (run (forms.lists word.now names.now) records.old) result records.new }
    ensures memory { IsErrOf result FileFault.Memory → IsOk (run (forms.lists word.now names.now) records.old) }
{
    records.expect_plain()?;
    if !records.is_word(word) {
        return Err(FileFault::WrongKind(records.number()));
    }
    if !are_texts(records, word, names) {
        return Err(FileFault::WrongProgram(records.number()));
    }
    records.advance()
}
