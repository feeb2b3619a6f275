//! The probes of a source: whether one of them falsifies it, and how far it goes.

use rv_base::Memory;
use rv_flatten::flatten;
use rv_probe::probe;
use rv_source::read_source;
use rv_syntax::SOURCE_LIMIT;
use std::alloc::Global;

/// How many instants the first probe that falsifies the source has, whose node is `m`; `none` where no probe falsifies it.
pub fn probed(alloc: Global, text: &str) -> Result<String, Memory> {
    if text.len() > SOURCE_LIMIT {
        return Err(Memory::Memory);
    }
    let Ok(source) = read_source(alloc, text.as_bytes(), "m") else {
        return Ok(String::from_str(alloc, "no source")?);
    };
    let flat = flatten(alloc, &source)?;
    match probe(alloc, &source, &flat)? {
        Some(trace) => {
            let count = trace.instants.len();
            Ok(format!(in alloc; "{count} instants")?)
        }
        None => Ok(String::from_str(alloc, "none")?),
    }
}
