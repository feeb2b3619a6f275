//! What is answered on files and sinks in memory. What cannot be read has no answer.

use rv_base::{
    Files, LoadFault, Memory, MemoryFiles, MemorySink, PutFault, Sink, SureFiles, SureSink,
};
use std::alloc::{AllocError, Global};

/// The answer on a row of one of these kinds:
/// `files`: names with their bytes, as `a=12,b=34`, the numbers of the loads that fail, and what loads answer, each by
/// its name and its limit, as `a 1;b 5`;
/// `sure_files`: bytes, and what a load of them answers with each of these limits, where no load fails;
/// `sink`: the numbers of the puts that fail, pieces with commas between them, and what the puts answer, with what was
/// shown at the end;
/// `sure_sink`: the same without puts that fail.
pub fn outside(alloc: Global, kind: &str, fields: &str) -> Result<Option<String>, Memory> {
    match kind {
        "files" => loads(alloc, fields),
        "sure_files" => sure_loads(alloc, fields),
        "sink" => puts(alloc, fields),
        "sure_sink" => sure_puts(alloc, fields),
        _ => Ok(None),
    }
}

/// The numbers of calls, with spaces between them.
pub fn calls_in(alloc: Global, text: &str) -> Result<Option<Vec<u32>>, AllocError> {
    let mut calls = Vec::new(alloc);
    for word in text.split_whitespace() {
        match word.parse::<u32>() {
            Ok(call) => calls.push(call)?,
            Err(_) => return Ok(None),
        }
    }
    Ok(Some(calls))
}

fn loads(alloc: Global, fields: &str) -> Result<Option<String>, Memory> {
    let mut parts = fields.split('~');
    let mut files = MemoryFiles::new(alloc);
    for entry in parts.next().unwrap_or("").split(',') {
        let (name, bytes) = entry.split_once('=').unwrap_or((entry, ""));
        files.add(name, bytes.as_bytes())?;
    }
    let Some(failing) = calls_in(alloc, parts.next().unwrap_or(""))? else {
        return Ok(None);
    };
    files.fail_calls(&failing)?;
    let mut text = String::new(alloc);
    for call in parts.next().unwrap_or("").split(';') {
        let (name, limit) = call.split_once(' ').unwrap_or((call, "0"));
        let limit = limit.parse::<u64>().unwrap_or(0);
        let loaded = files.load(alloc, name, limit);
        add_loaded(&loaded, &mut text)?;
    }
    Ok(Some(text))
}

/// Adds what a load answered, and a space.
fn add_loaded(loaded: &Result<Vec<u8>, LoadFault>, text: &mut String) -> Result<(), Memory> {
    match loaded {
        Ok(bytes) => {
            text.push_str("[")?;
            add_bytes(bytes, text)?;
            text.push_str("] ")?;
        }
        Err(LoadFault::Failed) => text.push_str("failed ")?,
        Err(LoadFault::Memory) => return Err(Memory::Memory),
    }
    Ok(())
}

/// Adds bytes as a text, with a backtick for a line feed and `?` for what is no text.
pub fn add_bytes(bytes: &[u8], text: &mut String) -> Result<(), AllocError> {
    match str::from_utf8(bytes) {
        Ok(shown) => {
            for c in shown.chars() {
                text.push(if c == '\n' { '`' } else { c })?;
            }
            Ok(())
        }
        Err(_) => text.push_str("?"),
    }
}

fn sure_loads(alloc: Global, fields: &str) -> Result<Option<String>, Memory> {
    let Some((bytes, limits)) = fields.split_once('~') else {
        return Ok(None);
    };
    let mut text = String::new(alloc);
    for limit in limits.split_whitespace() {
        let loaded = load_surely(alloc, bytes, limit.parse::<u64>().unwrap_or(0));
        add_loaded(&loaded, &mut text)?;
    }
    Ok(Some(text))
}

/// What a load gives of a file that is held in place of another.
fn load_surely(alloc: Global, bytes: &str, limit: u64) -> Result<Vec<u8>, LoadFault> {
    let mut files = SureFiles::new(alloc);
    files.add("f", b"other")?;
    files.add("f", bytes.as_bytes())?;
    files.load(alloc, "f", limit)
}

fn puts(alloc: Global, fields: &str) -> Result<Option<String>, Memory> {
    let Some((failing, pieces)) = fields.split_once('~') else {
        return Ok(None);
    };
    let Some(failing) = calls_in(alloc, failing)? else {
        return Ok(None);
    };
    let mut sink = MemorySink::new(alloc);
    sink.fail_calls(&failing)?;
    let mut text = put_all(alloc, &mut sink, pieces)?;
    add_bytes(sink.bytes(), &mut text)?;
    Ok(Some(text))
}

fn sure_puts(alloc: Global, fields: &str) -> Result<Option<String>, Memory> {
    let mut sink = SureSink::new(alloc);
    let mut text = put_all(alloc, &mut sink, fields)?;
    add_bytes(sink.bytes(), &mut text)?;
    Ok(Some(text))
}

/// What the puts of these pieces answer, with a space after each.
fn put_all<S: Sink>(alloc: Global, sink: &mut S, pieces: &str) -> Result<String, Memory> {
    let mut text = String::new(alloc);
    for piece in pieces.split(',') {
        match sink.put(piece.as_bytes()) {
            Ok(()) => text.push_str("whole ")?,
            Err(PutFault::Failed) => text.push_str("failed ")?,
            Err(PutFault::Memory) => return Err(Memory::Memory),
        }
    }
    Ok(text)
}
