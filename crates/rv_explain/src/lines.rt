//! Where an offset of a source lies: its line, its column, and the text of the line.

use rv_base::Memory;
use std::alloc::Global;

/// How many columns of a line of the source are shown.
const SHOWN: usize = 90;

/// The lines of a source: for each offset the number of its line, and for each line the offset of its first byte.
#[derive(Drop)]
pub struct Lines<'a> {
    bytes: &'a [u8],
    numbers: Vec<u32>,
    starts: Vec<u32>,
}

/// Where an offset lies: its line and its column, both from 1.
#[derive(Clone, Copy, Debug, PartialEq, Eq)]
pub struct Spot {
    /// The number of the line.
    pub line: u32,
    /// The number of the byte in the line.
    pub column: u32,
}

impl<'a> Lines<'a> {
    /// The lines of these bytes.
    pub fn new(alloc: Global, bytes: &'a [u8]) -> Result<Lines<'a>, Memory> {
        let mut numbers = Vec::new(alloc);
        let mut starts = Vec::new(alloc);
        starts.push(0)?;
        let mut line: u32 = 0;
        let mut at: u32 = 0;
        for byte in bytes {
            numbers.push(line)?;
            at = at.saturating_add(1);
            if *byte == b'\n' {
                line = line.saturating_add(1);
                starts.push(at)?;
            }
        }
        numbers.push(line)?;
        Ok(Lines {
            bytes,
            numbers,
            starts,
        })
    }

    /// The offset of the first byte of the line with this number, from 0.
    fn start(&self, line: u32) -> u32 {
        match self.starts.get(line as usize) {
            Some(start) => *start,
            None => 0,
        }
    }

    /// The number of the line of this offset, from 0.
    fn number(&self, at: u32) -> u32 {
        match self.numbers.get(at as usize) {
            Some(line) => *line,
            None => 0,
        }
    }

    /// Where this offset lies.
    pub fn spot(&self, at: u32) -> Spot {
        let line = self.number(at);
        Spot {
            line: line.saturating_add(1),
            column: at.saturating_sub(self.start(line)).saturating_add(1),
        }
    }

    /// The bytes from this offset on.
    pub fn rest(&self, at: u32) -> &'a [u8] {
        let at = at as usize;
        if at < self.bytes.len() {
            &self.bytes[at..]
        } else {
            &[]
        }
    }

    /// Adds the line of this offset, and a caret below it. Of a long line that part is shown in which the offset lies.
    pub fn put_line(&self, text: &mut String, at: u32) -> Result<(), Memory> {
        let start = self.start(self.number(at));
        let behind = at.saturating_sub(start) as usize;
        let left_out = if behind < SHOWN {
            0
        } else {
            behind - SHOWN / 2
        };
        text.push_str("    ")?;
        put_front(text, self.rest(start), left_out)?;
        text.push_str("\n    ")?;
        for _ in 0..behind.saturating_sub(left_out) {
            text.push(' ')?;
        }
        text.push_str("^\n")?;
        Ok(())
    }
}

/// Adds what stands before the first line feed, without as many bytes as are left out and no more than is shown. A byte that is no
/// letter, sign or blank of ASCII is shown as `?`, and a tab as a blank.
fn put_front(text: &mut String, bytes: &[u8], left_out: usize) -> Result<(), Memory> {
    for byte in bytes.iter().skip(left_out).take(SHOWN) {
        if *byte == b'\n' || *byte == b'\r' {
            return Ok(());
        }
        text.push(shown(*byte))?;
    }
    Ok(())
}

/// Adds the front of a line of bytes, on a line of its own.
pub fn put_shown(text: &mut String, bytes: &[u8]) -> Result<(), Memory> {
    text.push_str("    ")?;
    put_front(text, bytes, 0)?;
    text.push('\n')?;
    Ok(())
}

/// How a byte is shown.
pub fn shown(byte: u8) -> char {
    match byte {
        b'\t' => ' ',
        32..=126 => char::from(byte),
        _ => '?',
    }
}
