//! What gives each flow its value, what each memory takes, and what is assumed, as flat expressions.

ghost use Rattle.std.specs.Prelude.{◌≡◌, ◌<◌, List, length, IfOk};
ghost use Rattle.std.specs.List.{Contains};
ghost use Rattle.rv_tree.specs.Tree.{ProgramTree, assertion_tree, tree_of};
ghost use Rattle.rv_tree.specs.Delays.{Delay, node_delays};
ghost use Rattle.rv_tree.specs.Places.{Sites};
ghost use Rattle.rv_types.specs.Instances.{Instance, IsInstance};
ghost use Rattle.rv_types.specs.Lists.{AreTicks};
ghost use Rattle.rv_types.specs.Needs.{Giver as GiverTree, Gives};
ghost use Rattle.rv_types.specs.Scopes.{constant_value};
ghost use Rattle.rv_types.specs.ValueTables.{value_by};
ghost use Rattle.rv_instances.specs.declared.answer.Instance.{Instance as Numbered};
ghost use Rattle.rv_instances.specs.declared.givers.Giver.TheVariants as giver;
ghost use Rattle.rv_instances.specs.Expanded.{IsKnown, main_of, program_of};
ghost use Rattle.rv_instances.specs.Givers.{StandsFor};
ghost use Rattle.rv_instances.specs.Layouts.{IsLayout, IsNumberOf, node_at};
ghost use Rattle.rv_instances.specs.NumberedNeeds.{IsGiver, clock_of_expression, site_in};
ghost use Rattle.rv_instances.specs.Weights.{AreLight};
ghost use Rattle.rv_flatten.specs.Frames.{IsNumbering};
ghost use Rattle.rv_flat.specs.RawTree.{Node, If, raw_tree};
ghost use Rattle.rv_flatten.specs.Items.{made_item};
ghost use Rattle.rv_flatten.specs.NodeReaders.{AreOwnTables};
ghost use Rattle.rv_flatten.specs.Readings as readings;
ghost use Rattle.rv_agreement.specs.Translation.{Numbers};

use crate::expressions::{
    clock_number, flat_of, made_constant, made_flow, made_presence, number_at, spot_of,
};
use crate::frame::Frame;
use crate::node_reader::own_at;
use crate::numbering::Numbering;
use rv_base::{Box, Many, Memory, Place, Sites, Value};
use rv_flat::{FlatExpr, FlatForm};
use rv_instances::{BodyOf, Expanded, Giver, Layout, OutputOf, Reader, instance_numbers};
use rv_tree::{Assertion, Expr};
use rv_types::{Clock, NamedValues, NodeTables, ProgramTables};
use std::alloc::Global;

/// The number of the flow of a clock, none for the main node's base clock, and what a flow or memory takes where that is
/// there.
#[derive(Debug, Drop)]
pub struct FlatItem {
    pub clock: Option<u32>,
    pub body: FlatExpr,
}

/// What gives a flow its value.
pub fn giver_item(
    alloc: Global,
    expanded: &Expanded,
    layout: &Layout,
    tables: &ProgramTables,
    owns: &Many<NodeTables>,
    values: &NamedValues,
    numbering: &Numbering,
    giver: &Giver,
) -> Result<FlatItem, Memory>
    requires known { IsKnown expanded.now }
    requires layout { IsLayout (program_of expanded.now) (main_of expanded.now) expanded.now.instances.now layout.now }
    requires owns { AreOwnTables (program_of expanded.now) tables.now owns.now }
    requires values { value_by values.now ≡ constant_value (program_of expanded.now) }
    requires giver { IsGiver (program_of expanded.now) (main_of expanded.now) expanded.now.instances.now giver.now }
    ensures { (numbers : Numbers) (q : Sites) (g : GiverTree) → AreLight (program_of expanded.now) (main_of expanded.now)
        → AreTicks (program_of expanded.now) (main_of expanded.now) numbers.ticks
        → IsNumbering (program_of expanded.now) (main_of expanded.now) expanded.now.instances.now numbers numbering.now
        → Gives (program_of expanded.now) (main_of expanded.now) q g → StandsFor (program_of expanded.now) expanded.now.instances.now giver.now g
        → IfOk result (λ x. made_item x ≡ readings.raw_giver (program_of expanded.now) numbers g) }
{
    match giver {
        Giver::Input(number) => Ok(input_item(*number)),
        Giver::Body(body) => body_item(
            alloc, expanded, layout, tables, owns, values, numbering, body,
        ),
        Giver::Output(output) => output_item(
            alloc, expanded, layout, tables, owns, values, numbering, output,
        ),
    }
}

/// An input of the main node.
fn input_item(number: u32) -> FlatItem
    ensures { (p : ProgramTree) (instances : List Numbered) (numbers : Numbers) (g : GiverTree) → StandsFor p instances (giver.Input number) g
        → made_item result ≡ readings.raw_giver p numbers g }
{
    FlatItem {
        clock: None,
        body: FlatExpr {
            at: Place {
                sites: Sites::empty(),
            },
            form: FlatForm::Input(number),
        },
    }
}

/// An expression of an instance.
fn body_item(
    alloc: Global,
    expanded: &Expanded,
    layout: &Layout,
    tables: &ProgramTables,
    owns: &Many<NodeTables>,
    values: &NamedValues,
    numbering: &Numbering,
    body: &BodyOf,
) -> Result<FlatItem, Memory>
    requires known { IsKnown expanded.now }
    requires layout { IsLayout (program_of expanded.now) (main_of expanded.now) expanded.now.instances.now layout.now }
    requires owns { AreOwnTables (program_of expanded.now) tables.now owns.now }
    requires values { value_by values.now ≡ constant_value (program_of expanded.now) }
    requires giver { IsGiver (program_of expanded.now) (main_of expanded.now) expanded.now.instances.now (giver.Body body.now) }
    ensures { (numbers : Numbers) (q : Sites) (g : GiverTree) → AreLight (program_of expanded.now) (main_of expanded.now)
        → AreTicks (program_of expanded.now) (main_of expanded.now) numbers.ticks
        → IsNumbering (program_of expanded.now) (main_of expanded.now) expanded.now.instances.now numbers numbering.now
        → Gives (program_of expanded.now) (main_of expanded.now) q g → StandsFor (program_of expanded.now) expanded.now.instances.now (giver.Body body.now) g
        → IfOk result (λ x. made_item x ≡ readings.raw_giver (program_of expanded.now) numbers g) }
{
    instance_numbers();
    let reader = Reader::new(expanded, layout, body.instance);
    let own = own_at(expanded, tables, owns, body.instance);
    let frame = Frame {
        expanded,
        reader,
        tables,
        own,
        values,
        numbering,
    };
    let made = flat_of(alloc, &frame, body.body)?;
    let clock = frame.reader.clock(body.clock);
    Ok(FlatItem {
        clock: clock_number(&frame, clock),
        body: made,
    })
}

/// An output of a call of an instance.
fn output_item(
    alloc: Global,
    expanded: &Expanded,
    layout: &Layout,
    tables: &ProgramTables,
    owns: &Many<NodeTables>,
    values: &NamedValues,
    numbering: &Numbering,
    output: &OutputOf,
) -> Result<FlatItem, Memory>
    requires known { IsKnown expanded.now }
    requires layout { IsLayout (program_of expanded.now) (main_of expanded.now) expanded.now.instances.now layout.now }
    requires owns { AreOwnTables (program_of expanded.now) tables.now owns.now }
    requires values { value_by values.now ≡ constant_value (program_of expanded.now) }
    requires giver { IsGiver (program_of expanded.now) (main_of expanded.now) expanded.now.instances.now (giver.Output output.now) }
    ensures { (numbers : Numbers) (q : Sites) (g : GiverTree) → AreLight (program_of expanded.now) (main_of expanded.now)
        → AreTicks (program_of expanded.now) (main_of expanded.now) numbers.ticks
        → IsNumbering (program_of expanded.now) (main_of expanded.now) expanded.now.instances.now numbers numbering.now
        → Gives (program_of expanded.now) (main_of expanded.now) q g → StandsFor (program_of expanded.now) expanded.now.instances.now (giver.Output output.now)
        g → IfOk result (λ x. made_item x ≡ readings.raw_giver (program_of expanded.now) numbers g) }
{
    instance_numbers();
    let reader = Reader::new(expanded, layout, output.instance);
    let own = own_at(expanded, tables, owns, output.instance);
    let frame = Frame {
        expanded,
        reader,
        tables,
        own,
        values,
        numbering,
    };
    let site = site_of(output.call);
    let first = frame.reader.output(site);
    let flow = number_at(&numbering.flows, first as usize + output.output);
    let made = made_flow(alloc, flow)?;
    let clock = frame.reader.clock(output.clock);
    Ok(FlatItem {
        clock: clock_number(&frame, clock),
        body: made.into_inner(),
    })
}

/// The site of an expression that has one.
fn site_of(e: &Expr) -> u32
    ensures { result ≡ site_in (tree_of e.now) }
{
    e.site.unwrap_or(0)
}

/// What the memory of a `pre` or `current` of an instance takes, of its operand and the clock of that.
pub fn delay_item(
    alloc: Global,
    expanded: &Expanded,
    layout: &Layout,
    tables: &ProgramTables,
    owns: &Many<NodeTables>,
    values: &NamedValues,
    numbering: &Numbering,
    instance: u32,
    operand: &Expr,
    clock: Clock,
) -> Result<FlatItem, Memory>
    requires known { IsKnown expanded.now }
    requires layout { IsLayout (program_of expanded.now) (main_of expanded.now) expanded.now.instances.now layout.now }
    requires owns { AreOwnTables (program_of expanded.now) tables.now owns.now }
    requires values { value_by values.now ≡ constant_value (program_of expanded.now) }
    requires within { instance < length expanded.now.instances.now }
    requires clock { clock ≡ clock_of_expression (node_at (program_of expanded.now) expanded.now.instances.now instance) (tree_of operand.now) }
    ensures { (numbers : Numbers) (i : Instance) (d : Delay) → AreLight (program_of expanded.now) (main_of expanded.now)
        → AreTicks (program_of expanded.now) (main_of expanded.now) numbers.ticks
        → IsNumbering (program_of expanded.now) (main_of expanded.now) expanded.now.instances.now numbers numbering.now
        → IsInstance (program_of expanded.now) (main_of expanded.now) i → IsNumberOf (program_of expanded.now) expanded.now.instances.now instance i
        → Contains (node_delays i.node) d → tree_of operand.now ≡ d.operand
        → IfOk result (λ x. made_item x ≡ readings.raw_delay (program_of expanded.now) numbers i d) }
{
    instance_numbers();
    let reader = Reader::new(expanded, layout, instance);
    let own = own_at(expanded, tables, owns, instance);
    let frame = Frame {
        expanded,
        reader,
        tables,
        own,
        values,
        numbering,
    };
    let made = flat_of(alloc, &frame, operand)?;
    let number = frame.reader.clock(clock);
    Ok(FlatItem {
        clock: clock_number(&frame, number),
        body: made,
    })
}

/// What an assertion of an instance assumes, which is true where its clock is not there.
pub fn flat_assertion(
    alloc: Global,
    expanded: &Expanded,
    layout: &Layout,
    tables: &ProgramTables,
    owns: &Many<NodeTables>,
    values: &NamedValues,
    numbering: &Numbering,
    instance: u32,
    assertion: &Assertion,
) -> Result<FlatExpr, Memory>
    requires known { IsKnown expanded.now }
    requires layout { IsLayout (program_of expanded.now) (main_of expanded.now) expanded.now.instances.now layout.now }
    requires owns { AreOwnTables (program_of expanded.now) tables.now owns.now }
    requires values { value_by values.now ≡ constant_value (program_of expanded.now) }
    requires within { instance < length expanded.now.instances.now }
    ensures { (numbers : Numbers) (i : Instance) → AreLight (program_of expanded.now) (main_of expanded.now)
        → AreTicks (program_of expanded.now) (main_of expanded.now) numbers.ticks
        → IsNumbering (program_of expanded.now) (main_of expanded.now) expanded.now.instances.now numbers numbering.now
        → IsInstance (program_of expanded.now) (main_of expanded.now) i → IsNumberOf (program_of expanded.now) expanded.now.instances.now instance i
        → Contains i.node.assertions (assertion_tree assertion.now) → IfOk result
        (λ f. raw_tree f ≡ readings.assertion_of (program_of expanded.now) numbers i (assertion_tree assertion.now)) }
{
    instance_numbers();
    let reader = Reader::new(expanded, layout, instance);
    let own = own_at(expanded, tables, owns, instance);
    let frame = Frame {
        expanded,
        reader,
        tables,
        own,
        values,
        numbering,
    };
    let made = flat_of(alloc, &frame, &assertion.body)?;
    let body = Box::new(alloc, made)?;
    let clock = frame.reader.clock_of(&assertion.body);
    let there = made_presence(alloc, clock_number(&frame, clock))?;
    let absent = made_constant(alloc, Value::Flag(true))?;
    let at = spot_of(alloc, &frame, Some(assertion.site))?;
    Ok(assumed(at, there, body, absent))
}

/// What is assumed at a place: the second expression, where the first is true.
fn assumed(at: Place, there: Box<FlatExpr>, body: Box<FlatExpr>, absent: Box<FlatExpr>) -> FlatExpr
    ensures { raw_tree result ≡ Node at.sites (If (raw_tree there) (raw_tree body) (raw_tree absent)) }
{
    FlatExpr {
        at,
        form: FlatForm::If(there, body, absent),
    }
}
