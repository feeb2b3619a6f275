//! Values in fields.

ghost use Rattle.std.specs.Prelude.{◌≡◌, ◌<◌, MatchOption, true, false, []};
ghost use Rattle.rv_invfile.specs.Texts as texts;
ghost use Rattle.rv_types.specs.declared.typed.Kind.TheVariants as kind;

use crate::numbers::natural_in;
use rv_base::{Many, Text, Value};
use rv_types::Kind;

/// The whole number that a text writes, from -2^63 to 2^63 - 1.
pub fn whole_of(text: &[u8]) -> Option<i128>
    ensures { MatchOption result (texts.is_whole texts.least texts.greatest text.now ≡ false)
        (λ z. (texts.is_whole texts.least texts.greatest text.now ≡ true) × (z ≡ texts.whole text.now)) }
{
    if !text.is_empty() && text[0] == b'-' {
        match natural_in(&text[1..], 1, 1 << 63) {
            Some(n) => Some(-i128::from(n)),
            None => None,
        }
    } else {
        match natural_in(text, 0, (1 << 63) - 1) {
            Some(n) => Some(i128::from(n)),
            None => None,
        }
    }
}

/// The number of the first of these labels that the text is.
fn label_of(labels: &[Text], text: &[u8]) -> Option<u32>
    requires { texts.few labels.now }
    ensures { result ≡ texts.label_from 0 labels.now text.now }
{
    for index in 0..labels.len() {
        if labels[index].as_str().as_bytes() == text {
            return Some(index as u32);
        }
    }
    None
}

/// The value of this type that a text writes.
pub fn value_of(labels: &Many<Many<Text>>, kind: Kind, text: &[u8]) -> Option<Value>
    requires { texts.all_few labels.now }
    ensures { result ≡ texts.value_of labels.now kind text.now }
{
    match kind {
        Kind::Bool => flag_of(text),
        Kind::Int => match whole_of(text) {
            Some(number) => Some(Value::Whole(number)),
            None => None,
        },
        Kind::Labels(number) => match labels.get(number as usize) {
            Some(names) => match label_of(names.as_slice(), text) {
                Some(label) => Some(Value::Label(label)),
                None => None,
            },
            None => None,
        },
    }
}

/// The Boolean that a text writes.
fn flag_of(text: &[u8]) -> Option<Value>
    ensures { result ≡ texts.value_of [] kind.Bool text.now }
{
    if text == b"true".as_slice() {
        Some(Value::Flag(true))
    } else if text == b"false".as_slice() {
        Some(Value::Flag(false))
    } else {
        None
    }
}
