//! A row of the table: what kind of text it is, the text, and what is answered on it.

use crate::accelerated::accelerated;
use crate::cased::cased;
use crate::causes::ordered;
use crate::covered::covered;
use crate::diagrams::diagram;
use crate::linear::linear;
use crate::outside::outside;
use crate::partitions::partitioned;
use crate::places::remembered;
use crate::polyhedra::polyhedral;
use crate::probed::probed;
use crate::runs::ran;
use crate::shapes::write_shape;
use crate::sited::{counted, sited};
use crate::small::small;
use crate::steps::{Telling, stepped};
use crate::told::told;
use rv_base::{Memory, Value};
use rv_syntax::{Program, SOURCE_LIMIT, TextFault, parse};
use rv_types::{NameFault, settle};
use std::alloc::{AllocError, Global};

/// The front of a text with one node up to its locals, of 36 bytes.
const HEADER: &str = "node m(a: bool) returns (ok: bool); ";

/// The front of a text with one node up to its locals, which has two inputs of each of two types.
const TYPED: &str = "node m(a, b: bool; i, j: int) returns (ok: bool); ";

/// The front of a text with a node of two outputs and one more node, up to its locals.
const SEVERAL: &str =
    "node d(u: bool; v: int) returns (x: bool; y: int); let x = u; y = v; tel node m(a: bool; i: int) returns (ok: bool); ";

/// The front of a text with one node up to its locals, with inputs that may be clocks.
const CLOCKED: &str = "node m(a, c, e: bool; i: int) returns (ok: bool); ";

/// The answer on a row. Its fields stand between `~`, the kind first.
pub fn answer(alloc: Global, row: &str) -> Result<String, Memory> {
    let Some((kind, fields)) = row.split_once('~') else {
        return Ok(String::from_str(alloc, "no row")?);
    };
    if let Some(text) = on_text(alloc, kind, fields)? {
        return Ok(text);
    }
    let found = match kind {
        "diagram" => diagram(alloc, fields)?,
        "cover" => covered(alloc, fields)?,
        _ => on_call(alloc, kind, fields)?,
    };
    match found {
        Some(text) => Ok(text),
        None => Ok(String::from_str(alloc, "no kind")?),
    }
}

/// The answer on calls of the small crates, and of the whole program.
fn on_call(alloc: Global, kind: &str, fields: &str) -> Result<Option<String>, Memory> {
    if let Some(text) = small(alloc, kind, fields)? {
        return Ok(Some(text));
    }
    if let Some(text) = outside(alloc, kind, fields)? {
        return Ok(Some(text));
    }
    if let Some(text) = linear(alloc, kind, fields)? {
        return Ok(Some(text));
    }
    if let Some(text) = polyhedral(alloc, kind, fields)? {
        return Ok(Some(text));
    }
    match kind {
        "accelerate" => accelerated(alloc, fields),
        "partition" => partitioned(alloc, fields),
        "told" | "ended" => told(alloc, kind, fields),
        _ => ran(alloc, kind, fields),
    }
}

/// The answer on a text, or a part of one, of one of these kinds:
/// `program`: a whole text, in which a backtick stands for a line feed;
/// `local`: what stands behind `var`, from offset 40 on;
/// `body`: what stands behind `let`, from offset 40 on;
/// `right`: the right side of an equation, from offset 45 on;
/// `tree`: the same, of which the tree is told;
/// `nested`: a right side by its front, a part, how often it is repeated, and the back;
/// `deep`: a right side by how many brackets begin chains of left operands;
/// `sited`: a whole text as `program`, of whose first node the offsets and the sites are told;
/// `counted`: the same, of which is told how many parts it has;
/// `settle`: a whole program with the main node `m`, whose names, types and clocks are judged;
/// `typed`, `several`, `clocked`: as `settle` by what stands behind the header, up to `tel`, of nodes as above;
/// `values`: whole declarations of types and constants, and what the constants are;
/// `source`: a whole program with the main node `m`, and its order of evaluation;
/// `steps`: what the memories start with, what the inputs are at each instant, and a whole program with the main node `m`;
/// `presence`: the same, told by the comparisons that are present at each instant;
/// `memories`: a whole program with the main node `m`, and the places of its memories with their types;
/// `cases`: a whole program with the main node `m`, and its cases;
/// `probe`: a whole program with the main node `m`, and how many instants the first probe that falsifies it has.
fn on_text(alloc: Global, kind: &str, text: &str) -> Result<Option<String>, Memory> {
    let told = match kind {
        "program" => verdict(alloc, &with_line_feeds(alloc, text)?),
        "local" => verdict(alloc, &framed(alloc, "var ", text, " let ok = a; tel")?),
        "body" => verdict(alloc, &framed(alloc, "let ", text, " tel")?),
        "right" => verdict(alloc, &framed(alloc, "let ok = ", text, "; tel")?),
        "tree" => shape(alloc, &framed(alloc, "let ok = ", text, "; tel")?),
        "nested" => nested(alloc, text),
        "deep" => deep(alloc, text),
        "sited" => sited(alloc, &with_line_feeds(alloc, text)?),
        "counted" => counted(alloc, &with_line_feeds(alloc, text)?),
        _ => return on_program(alloc, kind, text),
    };
    Ok(Some(told?))
}

/// The answer on a whole program, or a part of one.
fn on_program(alloc: Global, kind: &str, text: &str) -> Result<Option<String>, Memory> {
    let told = match kind {
        "settle" => judged(alloc, &String::from_str(alloc, text)?),
        "typed" => judged(alloc, &format!(in alloc; "{TYPED}{text} tel")?),
        "several" => judged(alloc, &format!(in alloc; "{SEVERAL}{text} tel")?),
        "clocked" => judged(alloc, &format!(in alloc; "{CLOCKED}{text} tel")?),
        "values" => values(alloc, &format!(in alloc; "{text}{HEADER}let ok = a; tel")?),
        "source" => ordered(alloc, text),
        "steps" => stepped(alloc, text, Telling::Values),
        "presence" => stepped(alloc, text, Telling::Presence),
        "memories" => remembered(alloc, text),
        "cases" => cased(alloc, text),
        "probe" => probed(alloc, text),
        _ => return Ok(None),
    };
    Ok(Some(told?))
}

/// The text with line feeds in place of backticks.
pub fn with_line_feeds(alloc: Global, text: &str) -> Result<String, AllocError> {
    let mut whole = String::new(alloc);
    for c in text.chars() {
        whole.push(if c == '`' { '\n' } else { c })?;
    }
    Ok(whole)
}

/// A node with this in it.
fn framed(alloc: Global, front: &str, text: &str, back: &str) -> Result<String, AllocError> {
    format!(in alloc; "{HEADER}{front}{text}{back}")
}

/// `ok`, or the fault and its offset.
fn verdict(alloc: Global, text: &String) -> Result<String, Memory> {
    match read(alloc, text) {
        Ok(_) => Ok(String::from_str(alloc, "ok")?),
        Err(fault) => fault_text(alloc, fault),
    }
}

/// What the parser answers. A text that is too long is told as a want of memory.
pub fn read(alloc: Global, text: &String) -> Result<Program, TextFault> {
    if text.len() > SOURCE_LIMIT {
        return Err(TextFault::Memory);
    }
    parse(alloc, text.as_bytes())
}

pub fn fault_text(alloc: Global, fault: TextFault) -> Result<String, Memory> {
    match fault {
        TextFault::BadText(at) => Ok(format!(in alloc; "badtext {at}")?),
        TextFault::TooDeep(at) => Ok(format!(in alloc; "toodeep {at}")?),
        TextFault::LeftOut(at) => Ok(format!(in alloc; "leftout {at}")?),
        TextFault::Memory => Err(Memory::Memory),
    }
}

/// The tree of the right side of the first equation, or the fault.
fn shape(alloc: Global, text: &String) -> Result<String, Memory> {
    let mut found = String::new(alloc);
    match read(alloc, text) {
        Ok(program) => {
            if let Some(node) = program.nodes.get(0) {
                if let Some(equation) = node.equations.get(0) {
                    write_shape(alloc, &mut found, &equation.right)?;
                }
            }
            Ok(found)
        }
        Err(fault) => fault_text(alloc, fault),
    }
}

/// The answer on a right side that is told by its front, a part, how often it is repeated, and the back.
fn nested(alloc: Global, fields: &str) -> Result<String, Memory> {
    let mut parts = fields.split('~');
    let front = parts.next().unwrap_or("");
    let part = parts.next().unwrap_or("");
    let times = parts.next().unwrap_or("").parse::<u16>().unwrap_or(0);
    let back = parts.next().unwrap_or("");
    let mut right = String::from_str(alloc, front)?;
    for _ in 0..times {
        right.push_str(part)?;
    }
    right.push_str(back)?;
    verdict(alloc, &framed(alloc, "let ok = ", right.as_str(), "; tel")?)
}

/// The answer on a right side of so many brackets, each of which begins a chain of left operands: one more in each chain
/// than in the one within, and 200 of them in the outermost.
fn deep(alloc: Global, brackets: &str) -> Result<String, Memory> {
    let brackets = brackets.parse::<u16>().unwrap_or(0);
    let mut right = String::new(alloc);
    for _ in 0..brackets {
        right.push_str("(")?;
    }
    right.push_str("a")?;
    for operators in 0..brackets {
        add_operands(operators.saturating_add(1), &mut right)?;
        right.push_str(")")?;
    }
    add_operands(200, &mut right)?;
    verdict(alloc, &framed(alloc, "let ok = ", right.as_str(), "; tel")?)
}

/// Adds so many operators with their right operands.
fn add_operands(count: u16, text: &mut String) -> Result<(), AllocError> {
    for _ in 0..count {
        text.push_str(" or a")?;
    }
    Ok(())
}

/// `accepted`, or the first fault of text, names, types or clocks, and its offset.
fn judged(alloc: Global, text: &String) -> Result<String, Memory> {
    if text.len() > SOURCE_LIMIT {
        return Err(Memory::Memory);
    }
    match parse(alloc, text.as_bytes()) {
        Ok(program) => match settle(alloc, &program, "m") {
            Ok(_) => Ok(String::from_str(alloc, "accepted")?),
            Err(fault) => name_fault_text(alloc, fault),
        },
        Err(fault) => fault_text(alloc, fault),
    }
}

/// The values of the constants of a program, or its first fault.
fn values(alloc: Global, text: &String) -> Result<String, Memory> {
    if text.len() > SOURCE_LIMIT {
        return Err(Memory::Memory);
    }
    match parse(alloc, text.as_bytes()) {
        Ok(program) => match settle(alloc, &program, "m") {
            Ok(typed) => listed(alloc, typed.constants.as_slice()),
            Err(fault) => name_fault_text(alloc, fault),
        },
        Err(fault) => fault_text(alloc, fault),
    }
}

/// Values with a space after each. A number is told where it has at most 64 bits.
fn listed(alloc: Global, values: &[Value]) -> Result<String, Memory> {
    let mut found = String::new(alloc);
    for value in values {
        let text = match value {
            Value::Flag(flag) => format!(in alloc; "{flag} ")?,
            Value::Label(number) => format!(in alloc; "label:{number} ")?,
            Value::Whole(number) => match i64::try_from(*number) {
                Ok(number) => format!(in alloc; "{number} ")?,
                Err(_) => String::from_str(alloc, "large ")?,
            },
        };
        found.push_str(text.as_str())?;
    }
    Ok(found)
}

pub fn name_fault_text(alloc: Global, fault: NameFault) -> Result<String, Memory> {
    match fault {
        NameFault::NoNode => Ok(String::from_str(alloc, "nonode")?),
        NameFault::UnknownName(at) => Ok(format!(in alloc; "unknownname {at}")?),
        NameFault::DefinedTwice(at) => Ok(format!(in alloc; "definedtwice {at}")?),
        NameFault::Undefined(at) => Ok(format!(in alloc; "undefined {at}")?),
        NameFault::TypeClash(at) => Ok(format!(in alloc; "typeclash {at}")?),
        NameFault::Nonlinear(at) => Ok(format!(in alloc; "nonlinear {at}")?),
        NameFault::ClockClash(at) => Ok(format!(in alloc; "clockclash {at}")?),
        NameFault::NotObserver(at) => Ok(format!(in alloc; "notobserver {at}")?),
        NameFault::Memory => Err(Memory::Memory),
    }
}
