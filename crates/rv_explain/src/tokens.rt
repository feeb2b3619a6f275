//! The token at an offset of a source.

use crate::lines::shown;
use rv_base::Memory;

/// The most letters of a token that are shown.
const LONGEST: usize = 40;

/// The symbols of two letters.
const PAIRS: [&[u8]; 8] = [b"->", b"=>", b"<>", b"<=", b">=", b"<<", b">>", b"::"];

/// Whether a byte may stand in a name.
fn is_letter(byte: u8) -> bool {
    byte.is_ascii_alphanumeric() || byte == b'_'
}

/// How many bytes the token at the front has.
fn length_of(bytes: &[u8]) -> usize {
    let letters = bytes.iter().take_while(|byte| is_letter(**byte)).count();
    if letters > 0 {
        return letters;
    }
    for pair in PAIRS {
        if bytes.starts_with(pair) {
            return 2;
        }
    }
    1
}

/// The token at the front.
pub fn token_of(bytes: &[u8]) -> &[u8] {
    let length = length_of(bytes);
    if length <= bytes.len() {
        &bytes[..length]
    } else {
        &[]
    }
}

/// Adds the token at the front, between two marks.
pub fn put_word(text: &mut String, bytes: &[u8]) -> Result<(), Memory> {
    text.push('`')?;
    let token = token_of(bytes);
    for byte in token.iter().take(LONGEST) {
        text.push(shown(*byte))?;
    }
    if token.len() > LONGEST {
        text.push_str("..")?;
    }
    text.push('`')?;
    Ok(())
}
