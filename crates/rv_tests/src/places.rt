//! What is answered on a whole source: the places of its memories, with their types.

ghost use Rattle.std.specs.Prelude.{◌≡◌, map, IfOk};
ghost use Rattle.rv_tree.specs.Tree.{program_tree};
ghost use Rattle.rv_instances.specs.Fitting.{Fits};

use crate::causes::{add_place, cause_text};
use crate::rows::{fault_text, name_fault_text};
use rv_base::{Many, Memory};
use rv_instances::{Instance, Source};
use rv_meaning::{kind_of, memories};
use rv_source::{SourceFault, read_source};
use rv_syntax::SOURCE_LIMIT;
use rv_types::Kind;
use std::alloc::Global;

/// The places of the memories of all instances in order, each with its type; or the first fault.
pub fn remembered(alloc: Global, text: &str) -> Result<String, Memory> {
    if text.len() > SOURCE_LIMIT {
        return Err(Memory::Memory);
    }
    match read_source(alloc, text.as_bytes(), "m") {
        Ok(source) => memory_text(alloc, &source),
        Err(SourceFault::Text(fault)) => fault_text(alloc, fault),
        Err(SourceFault::Names(fault)) => name_fault_text(alloc, fault),
        Err(SourceFault::Cause(fault)) => cause_text(alloc, fault),
        Err(SourceFault::Memory) => Err(Memory::Memory),
    }
}

fn memory_text(alloc: Global, source: &Source) -> Result<String, Memory>
    requires { Fits (program_tree source.now.program) source.now.typed source.now.order }
{
    let paths = paths_of(alloc, source.order.instances.as_slice())?;
    let places = memories(alloc, &source.program, &source.typed, &paths)?;
    let mut text = String::from_str(alloc, "memories")?;
    for place in places.as_slice() {
        add_place(alloc, " ", place, &mut text)?;
        let kind = kind_of(&source.program, &source.typed, place);
        text.push_str(kind_name(kind))?;
    }
    Ok(text)
}

/// The paths of instances.
fn paths_of(alloc: Global, instances: &[Instance]) -> Result<Many<Many<u32>>, Memory>
    ensures { IfOk result (λ paths. paths ≡ map (λ i. i.path) instances.now) }
{
    let mut paths = Many::new(alloc);
    for instance in instances {
        let path = Vec::from_slice(alloc, instance.path.as_slice())?;
        paths.push(Many::from_vec(path))?;
    }
    Ok(paths)
}

fn kind_name(kind: Option<Kind>) -> &'static str {
    match kind {
        None => ":none",
        Some(Kind::Bool) => ":bool",
        Some(Kind::Int) => ":int",
        Some(Kind::Labels(_)) => ":labels",
    }
}
