//! What flows need at the same instant.

ghost use Rattle.std.specs.Prelude.{◌≡◌, ◌++◌, ◌∷◌, [], map, unwrap_or, OnOk};
ghost use Rattle.rv_tree.specs.Tree.{tree_of, trees};
ghost use Rattle.rv_instances.specs.NumberedNeeds.{IsReader, listed, node_read, numbers_of};
ghost use Rattle.rv_sequence.specs.Needed.{told_needed, told_needed_by_all};

use crate::shown::add_current;
use rv_base::{Many, Memory};
use rv_instances::Reader;
use rv_tree::{Expr, ExprForm};

/// Adds the numbers of the flows that an expression needs beside the flow of its own clock. Each part is looked at once.
/// It calls itself for each operand, so as deep as the tree is: 20,301 levels at most.
#[cycle(needs)]
pub fn add_needs(reader: &Reader, e: &Expr, found: &mut Many<u32>) -> Result<(), Memory>
    requires { IsReader reader.now }
    ensures { OnOk result (found.new ≡ found.old ++ told_needed (node_read reader.now) (numbers_of reader.now) (tree_of e.now)) }
{
    match &e.form {
        ExprForm::True | ExprForm::False | ExprForm::Number(_) | ExprForm::Pre(_) => Ok(()),
        ExprForm::Named(name) => add_flow(reader.flow(name), found),
        ExprForm::Not(operand) | ExprForm::Minus(operand) => add_needs(reader, operand, found),
        ExprForm::Current(operand) => {
            add_current(reader, operand, found)?;
            Ok(())
        }
        ExprForm::When(operand, name) => {
            add_needs(reader, operand, found)?;
            add_flow(reader.clock_of_flow(&name.text), found)
        }
        ExprForm::Binary(_, left, right) => {
            add_needs(reader, left, found)?;
            add_needs(reader, right, found)
        }
        ExprForm::If(condition, first, second) => {
            add_needs(reader, condition, found)?;
            add_needs(reader, first, found)?;
            add_needs(reader, second, found)
        }
        ExprForm::AtMostOne(operands) => add_all(reader, operands.as_slice(), found),
        ExprForm::Call(_, _) => add_output(reader, e.site, found),
    }
}

/// Adds what the expressions need.
#[cycle(needs)]
fn add_all(reader: &Reader, expressions: &[Expr], found: &mut Many<u32>) -> Result<(), Memory>
    requires { IsReader reader.now }
    ensures { OnOk result (found.new ≡ found.old ++ told_needed_by_all (node_read reader.now) (numbers_of reader.now) (trees (map tree_of expressions.now))) }
{
    for e in expressions {
        add_needs(reader, e, found)?;
    }
    Ok(())
}

/// Adds the first output of the call with a site.
#[inline(never)]
pub fn add_output(reader: &Reader, site: Option<u32>, found: &mut Many<u32>) -> Result<(), Memory>
    requires { IsReader reader.now }
    ensures { OnOk result (found.new ≡ found.old ++ (numbers_of reader.now).output (unwrap_or site 0) ∷ []) }
{
    found.push(reader.output(site.unwrap_or(0)))?;
    Ok(())
}

/// Adds a flow, if there is one.
#[inline(never)]
pub fn add_flow(flow: Option<u32>, found: &mut Many<u32>) -> Result<(), Memory>
    ensures { OnOk result (found.new ≡ found.old ++ listed flow) }
{
    match flow {
        None => {}
        Some(flow) => found.push(flow)?,
    }
    Ok(())
}
