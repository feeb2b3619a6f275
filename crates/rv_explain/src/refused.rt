//! What sentences on a refused source are made over.

use crate::lines::Lines;
use crate::request::Asked;
use crate::table::put_wrapped;
use rv_base::Memory;
use std::alloc::Global;

/// What a refusal is told over: the words, the lines of the source, and its nodes.
#[derive(Clone, Copy)]
pub struct Refused<'a, 'b> {
    /// The allocator.
    pub alloc: Global,
    /// The words.
    pub asked: &'b Asked<'b>,
    /// The lines of the source.
    pub lines: &'b Lines<'a>,
}

impl Refused<'_, '_> {
    /// Adds `FILE:LINE:COLUMN: `.
    pub fn put_where(&self, text: &mut String, at: u32) -> Result<(), Memory> {
        let spot = self.lines.spot(at);
        text.push_str(self.asked.file)?;
        text.push(':')?;
        write!(text, "{}", spot.line)?;
        text.push(':')?;
        write!(text, "{}", spot.column)?;
        text.push_str(": ")?;
        Ok(())
    }

    /// Adds `FILE: `, where no place is told.
    pub fn put_file(&self, text: &mut String) -> Result<(), Memory> {
        text.push_str(self.asked.file)?;
        text.push_str(": ")?;
        Ok(())
    }

    /// Ends the sentence that the text is so far, and breaks it into lines.
    pub fn put_stop(&self, text: &mut String) -> Result<(), Memory> {
        text.push('.')?;
        let sentence = text.clone()?;
        text.clear();
        put_wrapped(text, 0, sentence.as_str())
    }

    /// Ends the sentence that the text is so far, and adds the line that it speaks of.
    pub fn put_end(&self, text: &mut String, at: u32) -> Result<(), Memory> {
        self.put_stop(text)?;
        self.lines.put_line(text, at)
    }

    /// Adds the line of an offset in words.
    pub fn put_line_number(&self, text: &mut String, at: u32) -> Result<(), Memory> {
        let line = self.lines.spot(at).line;
        write!(text, "line {line}")?;
        Ok(())
    }
}
