//! Single records. Want of memory is told only of a record that is right, as the next one is read.

ghost use Rattle.std.specs.Prelude.{◌≡◌, ◌∷◌, map, IsErrOf, IsOk, IsTrue, ◌↔◌};
ghost use Rattle.rv_invfile.specs.Readers.{Reads, run};
ghost use Rattle.rv_invfile.specs.Forms as forms;
ghost use Rattle.rv_invfile.specs.Ahead.{here};
ghost use Rattle.rv_invfile.specs.Texts.{same_fields};

use crate::fault::FileFault;
use crate::numbers::natural_in;
use crate::records::Records;
use rv_flat::FlatInput;

/// A record with this word and a count of this range, which it gives.
pub fn read_count(
    records: &mut Records<'_>,
    word: &[u8],
    low: u64,
    high: u64,
) -> Result<u64, FileFault>
    ensures read { Reads (λ n. n) (run (forms.counts word.now low high) records.old) result records.new }
    ensures memory { IsErrOf result FileFault.Memory → IsOk (run (forms.counts word.now low high) records.old) }
{
    records.expect(word, 2)?;
    let Some(count) = natural_in(records.field(1), low, high) else {
        return Err(FileFault::BadNumber(records.number(), 1));
    };
    records.advance()?;
    Ok(count)
}

/// A record with this word and this text of the program.
pub fn read_name(records: &mut Records<'_>, word: &[u8], text: &[u8]) -> Result<(), FileFault>
    ensures read { Reads (λ u. u) (run (forms.names word.now text.now) records.old) result records.new }
    ensures memory { IsErrOf result FileFault.Memory → IsOk (run (forms.names word.now text.now) records.old) }
{
    records.expect(word, 2)?;
    if records.field(1) != text {
        return Err(FileFault::WrongProgram(records.number()));
    }
    records.advance()
}

/// The one record with these fields.
pub fn read_exactly(records: &mut Records<'_>, fields: &[&[u8]]) -> Result<(), FileFault>
    ensures read { Reads (λ u. u) (run (forms.exactly (map (λ f. f.now) fields.now)) records.old) result records.new }
    ensures memory { IsErrOf result FileFault.Memory → IsOk (run (forms.exactly (map (λ f. f.now) fields.now)) records.old) }
{
    records.expect_plain()?;
    if !is_row(records, fields) {
        return Err(FileFault::WrongKind(records.number()));
    }
    records.advance()
}

/// Whether two texts have the same bytes.
fn is_same(left: &[u8], right: &[u8]) -> bool
    ensures { IsTrue result ↔ (left.now ≡ right.now) }
{
    left == right
}

/// Whether the record that stands here has these fields.
fn is_row(records: &Records<'_>, fields: &[&[u8]]) -> bool
    ensures { result ≡ same_fields (here records.now) (map (λ f. f.now) fields.now) }
{
    if records.len() != fields.len() {
        return false;
    }
    for index in 0..fields.len() {
        if !is_same(records.field(index), fields[index]) {
            return false;
        }
    }
    true
}

/// The record with this word and the names of the inputs.
pub fn read_inputs(
    records: &mut Records<'_>,
    word: &[u8],
    inputs: &[FlatInput],
) -> Result<(), FileFault>
    ensures read { Reads (λ u. u) (run (forms.lists word.now (map (λ i. i.name) inputs.now)) records.old) result records.new }
    ensures memory { IsErrOf result FileFault.Memory → IsOk (run (forms.lists word.now (map (λ i. i.name) inputs.now)) records.old) }
{
    records.expect_plain()?;
    if !records.is_word(word) {
        return Err(FileFault::WrongKind(records.number()));
    }
    if !are_inputs(records, word, inputs) {
        return Err(FileFault::WrongProgram(records.number()));
    }
    records.advance()
}

/// Whether the record that stands here has this word and the names of these inputs.
fn are_inputs(records: &Records<'_>, word: &[u8], inputs: &[FlatInput]) -> bool
    ensures { result ≡ same_fields (here records.now) (word.now ∷ map (λ i. i.name) inputs.now) }
{
    if records.len() != inputs.len() + 1 || !records.is_word(word) {
        return false;
    }
    for index in 0..inputs.len() {
        if !is_same(
            records.field(index + 1),
            inputs[index].name.as_str().as_bytes(),
        ) {
            return false;
        }
    }
    true
}
