//! What is told of sources and of documents about them.

use crate::rows::with_line_feeds;
use crate::runs::replayed;
use rv_base::Memory;
use rv_explain::{Answer, Asked, explain};
use std::alloc::Global;

/// The answer on a row of one of these kinds. Its source, whose main node is `m`, and its document stand between `~`, with a backtick for a
/// line feed; in the answer `|` stands for it.
/// `told`: the text on the source, or on the document where the row has one, with its steps;
/// `ended`: how a trace ends by its text, and what its replay reports.
pub fn told(alloc: Global, kind: &str, fields: &str) -> Result<Option<String>, Memory> {
    match kind {
        "told" => {
            let text = text_on(alloc, fields)?;
            Ok(Some(with_bars(alloc, text.as_str().trim_end())?))
        }
        "ended" => {
            let mut text = ending_of(alloc, text_on(alloc, fields)?.as_str())?;
            if let Some(report) = replayed(alloc, fields)? {
                text.push_str(" / ")?;
                text.push_str(report.as_str())?;
            }
            Ok(Some(text))
        }
        _ => Ok(None),
    }
}

/// The text on a source, or on the document behind it.
fn text_on(alloc: Global, fields: &str) -> Result<String, Memory> {
    let asked = Asked {
        file: "f",
        node: "m",
        all: false,
        entries: true,
    };
    let answer = match fields.split_once('~') {
        Some((source, document)) => {
            let source = with_line_feeds(alloc, source)?;
            let document = with_line_feeds(alloc, document)?;
            explain(alloc, &asked, source.as_bytes(), Some(document.as_bytes()))?
        }
        None => {
            let source = with_line_feeds(alloc, fields)?;
            explain(alloc, &asked, source.as_bytes(), None)?
        }
    };
    match answer {
        Answer::Explained(text) => Ok(text),
        Answer::Refused(why) => Ok(format!(in alloc; "refused: {why}")?),
    }
}

/// The line of a text that tells how a trace ends.
fn ending_of(alloc: Global, text: &str) -> Result<String, Memory> {
    for line in text.split('\n') {
        if line.starts_with("At instant ") || line.starts_with("The observer is true") {
            return Ok(String::from_str(alloc, line)?);
        }
    }
    Ok(String::from_str(alloc, "no end")?)
}

/// A text with `|` in the place of line feeds.
fn with_bars(alloc: Global, text: &str) -> Result<String, Memory> {
    let mut whole = String::new(alloc);
    for letter in text.chars() {
        whole.push(if letter == '\n' { '|' } else { letter })?;
    }
    Ok(whole)
}
