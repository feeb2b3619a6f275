//! The cases of a source: what its program can do in one instant, read from its flat system.

ghost use Rattle.std.specs.Prelude.{◌≡◌};
ghost use Rattle.rv_tree.specs.Tree.{ProgramTree};
ghost use Rattle.rv_tree.specs.Places.{Identifier};
ghost use Rattle.rv_types.specs.Instances.{IsNode};
ghost use Rattle.rv_types.specs.WellFormed.{AreWell};
ghost use Rattle.rv_flat.specs.FlatOf.{IsFlatOf};
ghost use Rattle.rv_proofs.specs.Ranges.{IsControlSet};
ghost use Rattle.rv_reading.specs.Read.{system_read, IsRead};

use rv_base::{Many, Memory};
use rv_diagram::{Frozen, StoreFault};
use rv_flat::Flat;
use rv_flatten::flatten;
use rv_proofs::Case;
use rv_reading::Reading;
use rv_rows::{Form, Row};
use rv_source::read_source;
use rv_syntax::SOURCE_LIMIT;
use rv_types::well_formed_programs;
use std::alloc::{AllocError, Global};

/// How many nodes the diagrams may have.
const NODES: u32 = 1_000_000;

/// The cases of the initial control states of the source, whose node is `m`, and, behind ` | `, of all control states, each list in the order
/// of the least valuations. A case is told by its least valuation, a digit for each diagram variable, its order tests with their rows, the
/// forms of the integer memories, and whether the observer is true.
pub fn cased(alloc: Global, text: &str) -> Result<String, Memory> {
    if text.len() > SOURCE_LIMIT {
        return Err(Memory::Memory);
    }
    well_formed_programs();
    let Ok(source) = read_source(alloc, text.as_bytes(), "m") else {
        return Ok(String::from_str(alloc, "no source")?);
    };
    let flat = flatten(alloc, &source)?;
    match told(alloc, &flat) {
        Ok(text) => Ok(text),
        Err(StoreFault::Nodes) => Ok(String::from_str(alloc, "nodes")?),
        Err(StoreFault::Memory) => Err(Memory::Memory),
    }
}

/// The cases of a flat system.
fn told(alloc: Global, flat: &Flat) -> Result<String, StoreFault>
    requires program { (program : ProgramTree) × (main : Identifier) × AreWell program × IsNode program main × IsFlatOf program main flat.now }
{
    let mut reading = Reading::new(alloc, flat, NODES)?;
    let variables = flat.variables.len();
    let mut text = String::new(alloc);
    let initial = reading.initial()?;
    add_cases(alloc, &mut reading, &initial, variables, &mut text)?;
    text.push_str(" | ")?;
    let all = Frozen {
        nodes: Many::new(alloc),
        root: 1,
    };
    add_cases(alloc, &mut reading, &all, variables, &mut text)?;
    Ok(text)
}

/// Adds the cases of a set of control states.
fn add_cases(
    alloc: Global,
    reading: &mut Reading,
    from: &Frozen,
    variables: usize,
    text: &mut String,
) -> Result<(), StoreFault>
    requires read { IsRead reading.old }
    requires from { IsControlSet (system_read reading.old) from.now }
    ensures same { reading.new ≡ reading.old }
{
    let cases = reading.cases(from)?;
    add_listed(alloc, cases.as_slice(), variables, text)?;
    Ok(())
}

/// Adds cases in the order of their least valuations.
fn add_listed(
    alloc: Global,
    cases: &[Case],
    variables: usize,
    text: &mut String,
) -> Result<(), AllocError> {
    let mut words = Vec::new(alloc);
    for (number, case) in cases.iter().enumerate() {
        words.push((least_word(alloc, &case.condition, variables)?, number))?;
    }
    words.sort()?;
    let mut mark = "";
    for (word, number) in &words {
        if let Some(case) = cases.get(*number) {
            text.push_str(mark)?;
            mark = " / ";
            add_case(alloc, case, word.as_str(), text)?;
        }
    }
    Ok(())
}

/// Adds a case with its least valuation.
fn add_case(alloc: Global, case: &Case, word: &str, text: &mut String) -> Result<(), AllocError> {
    text.push_str(word)?;
    add_rows(alloc, case, text)?;
    for form in case.updates.as_slice() {
        text.push(' ')?;
        add_form(alloc, form, text)?;
    }
    text.push_str(if case.observer { " true" } else { " false" })
}

/// Adds the order tests of a case, each with its row.
fn add_rows(alloc: Global, case: &Case, text: &mut String) -> Result<(), AllocError> {
    for number in 0..case.tests.len() {
        if let Some(row) = case.rows.get(number) {
            let test = case.tests.at(number);
            text.push_str(format!(in alloc; " {test}:")?.as_str())?;
            add_row(alloc, row, text)?;
        }
    }
    Ok(())
}

fn add_row(alloc: Global, row: &Row, text: &mut String) -> Result<(), AllocError> {
    add_numbers(alloc, row.coefficients.as_slice(), text)?;
    let bound = row.bound;
    text.push_str(format!(in alloc; "<={bound}")?.as_str())
}

fn add_form(alloc: Global, form: &Form, text: &mut String) -> Result<(), AllocError> {
    add_numbers(alloc, form.coefficients.as_slice(), text)?;
    let constant = form.constant;
    text.push_str(format!(in alloc; "+{constant}")?.as_str())
}

/// Adds numbers with commas between them.
fn add_numbers(alloc: Global, numbers: &[i128], text: &mut String) -> Result<(), AllocError> {
    let mut mark = "";
    for number in numbers {
        text.push_str(format!(in alloc; "{mark}{number}")?.as_str())?;
        mark = ",";
    }
    Ok(())
}

/// The least valuation of which the diagram is true, a digit for each variable; where there is none, as if there were one.
fn least_word(alloc: Global, set: &Frozen, variables: usize) -> Result<String, AllocError> {
    let mut digits = String::new(alloc);
    let mut at = set.root;
    for variable in 0..variables {
        let (digit, next) = step(set, at, variable);
        digits.push(digit)?;
        at = next;
    }
    Ok(digits)
}

/// The truth of a variable on the least way from a reference, and where the way goes on.
fn step(set: &Frozen, at: u32, variable: usize) -> (char, u32) {
    if at < 2 {
        return ('0', at);
    }
    match set.nodes.get(at as usize - 2) {
        Some(node) if node.var as usize == variable => {
            if node.lo == 0 {
                ('1', node.hi)
            } else {
                ('0', node.lo)
            }
        }
        _ => ('0', at),
    }
}
