//! Records of groups of fields.

ghost use Rattle.std.specs.Prelude.{◌≡◌, ◌<◌};
ghost use Rattle.rv_invfile.specs.Ahead.{here, Expects};
ghost use Rattle.rv_invariant.specs.Groups.{is_grouped};

use rv_invfile::{Fault, Records};

/// Whether the record that stands here has this word, one more field, and groups of so many fields.
pub fn has_groups(records: &Records<'_>, word: &[u8], width: usize) -> bool
    requires { 0 < width }
    ensures { result ≡ is_grouped word.now width (here records.now) }
{
    if !records.is_word(word) {
        return false;
    }
    let fields = records.len();
    if fields < 2 {
        return false;
    }
    (fields - 2) % width == 0
}

/// Whether a record of this word and of groups of so many fields stands here, and otherwise the fault.
pub fn expect_groups(records: &Records<'_>, word: &[u8], width: usize) -> Result<(), Fault>
    requires { 0 < width }
    ensures { Expects (is_grouped word.now width) records.now result }
{
    records.expect_plain()?;
    if has_groups(records, word, width) {
        Ok(())
    } else {
        Err(Fault::WrongKind(records.number()))
    }
}
