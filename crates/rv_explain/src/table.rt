//! Tables: rows of texts, laid out in columns.

use rv_base::Memory;
use std::alloc::Global;

/// The most columns of a line.
pub const WIDTH: usize = 100;

/// Adds a text in so many columns, with blanks behind it. Where it is longer its end is left out, which two points show.
pub fn put_cell(text: &mut String, cell: &str, width: usize) -> Result<(), Memory> {
    let length = cell.chars().count();
    if length > width {
        if width < 2 {
            return put_blanks(text, width);
        }
        for letter in cell.chars().take(width.saturating_sub(2)) {
            text.push(letter)?;
        }
        text.push_str("..")?;
        return Ok(());
    }
    text.push_str(cell)?;
    put_blanks(text, width - length)
}

/// The front of a text: no more of it than a line has.
pub fn front_of(alloc: Global, whole: &str) -> Result<String, Memory> {
    let mut text = String::new(alloc);
    for letter in whole.chars().take(WIDTH) {
        text.push(letter)?;
    }
    Ok(text)
}

/// The end of a text, behind two points where it has more than so many letters.
pub fn end_of(alloc: Global, whole: &str, most: usize) -> Result<String, Memory> {
    let length = whole.chars().count();
    let mut text = String::new(alloc);
    if length <= most {
        text.push_str(whole)?;
        return Ok(text);
    }
    text.push_str("..")?;
    let passed = length.saturating_sub(most).saturating_add(2);
    for letter in whole.chars().skip(passed) {
        text.push(letter)?;
    }
    Ok(text)
}

/// Adds blanks.
pub fn put_blanks(text: &mut String, count: usize) -> Result<(), Memory> {
    for _ in 0..count {
        text.push(' ')?;
    }
    Ok(())
}

/// The width of each column: that of its longest text, and at most what is given for it. The last given holds for all others too.
fn widths_of(alloc: Global, rows: &[Vec<String>], most: &[usize]) -> Result<Vec<usize>, Memory> {
    let mut widths: Vec<usize> = Vec::new(alloc);
    for row in rows {
        let mut column: usize = 0;
        for cell in row.as_slice() {
            let limit = most.get(column).copied().unwrap_or(WIDTH);
            let width = cell.chars().count().min(limit);
            match widths.get_mut(column) {
                Some(widest) => *widest = width.max(*widest),
                None => widths.push(width)?,
            }
            column = column.saturating_add(1);
        }
    }
    Ok(widths)
}

/// Adds rows, each column as wide as its longest text but no wider than what is given for it, two blanks between columns, and no line
/// longer than a hundred columns.
pub fn put_table(
    alloc: Global,
    text: &mut String,
    rows: &[Vec<String>],
    most: &[usize],
) -> Result<(), Memory> {
    let widths = widths_of(alloc, rows, most)?;
    for row in rows {
        let mut line = String::new(alloc);
        let mut column: usize = 0;
        for cell in row.as_slice() {
            if column > 0 {
                line.push_str("  ")?;
            }
            let width = widths.get(column).copied().unwrap_or(0);
            let room = WIDTH.saturating_sub(line.len());
            put_cell(&mut line, cell.as_str(), width.min(room))?;
            column = column.saturating_add(1);
        }
        text.push_str(line.as_str().trim_end())?;
        text.push('\n')?;
    }
    Ok(())
}

/// What stands in the place of a blank at which no line is to be broken, if a line has room for what it joins.
pub const JOINT: char = '\u{1}';

/// A text whose blanks are no places to break a line at.
pub fn joined(alloc: Global, whole: &str) -> Result<String, Memory> {
    let mut text = String::new(alloc);
    for letter in whole.chars() {
        text.push(if letter == ' ' { JOINT } else { letter })?;
    }
    Ok(text)
}

/// Adds a text in lines of at most a hundred columns, broken at blanks: the first at an indent, the others two columns further in. What is
/// longer than a line is broken at its joints, and where that is not enough anywhere. A line feed stands at the end.
pub fn put_wrapped(text: &mut String, indent: usize, whole: &str) -> Result<(), Memory> {
    put_blanks(text, indent)?;
    let mut lines = Wrapped {
        inner: indent.saturating_add(2).min(WIDTH / 2),
        column: indent,
        is_first: true,
    };
    for word in whole.split(' ') {
        lines.put(text, word)?;
    }
    text.push('\n')?;
    Ok(())
}

/// How far a text in lines is.
#[derive(Clone, Copy)]
struct Wrapped {
    inner: usize,
    column: usize,
    is_first: bool,
}

impl Wrapped {
    /// Adds a word, in parts where it is longer than a line.
    fn put(&mut self, text: &mut String, word: &str) -> Result<(), Memory> {
        if self.inner.saturating_add(word.chars().count()) < WIDTH {
            return self.put_whole(text, word);
        }
        for part in word.split(JOINT) {
            self.put_whole(text, part)?;
        }
        Ok(())
    }

    /// Adds a word behind a blank, or on a new line where the line has no room for it.
    fn put_whole(&mut self, text: &mut String, word: &str) -> Result<(), Memory> {
        let length = word.chars().count();
        if !self.is_first {
            if self.column.saturating_add(length) < WIDTH {
                text.push(' ')?;
                self.column = self.column.saturating_add(1);
            } else {
                self.put_break(text)?;
            }
        }
        self.is_first = false;
        for letter in word.chars() {
            if self.column >= WIDTH {
                self.put_break(text)?;
            }
            text.push(if letter == JOINT { ' ' } else { letter })?;
            self.column = self.column.saturating_add(1);
        }
        Ok(())
    }

    /// Begins a new line.
    fn put_break(&mut self, text: &mut String) -> Result<(), Memory> {
        text.push('\n')?;
        put_blanks(text, self.inner)?;
        self.column = self.inner;
        Ok(())
    }
}
