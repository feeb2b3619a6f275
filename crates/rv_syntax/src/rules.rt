//! Reading the rules of a program's text.

ghost use Rattle.std.specs.Prelude.{◌≡◌, ◌++◌, [], ◌∷◌, List, Option, None, IfOk, OnOk, map};
ghost use Rattle.rv_syntax.specs.Parse.{maybe, starts};
ghost use Rattle.rv_syntax.specs.Marks.{is_mark};
ghost use Rattle.rv_syntax.specs.ProgramText.{all_flows, joined};
ghost use Rattle.rv_tree.specs.Groups.{flows_of};
ghost use Rattle.rv_tree.specs.declared.tree.Decl.{Decl as DeclModel};
ghost use Rattle.rv_syntax.specs.declared.rules.Signature.{Signature as SignatureModel};
ghost use Rattle.rv_syntax.specs.Reading as spec;
ghost use Rattle.rv_syntax.specs.Reads.{Reads, same};
ghost use Rattle.rv_tree.specs.Tree.{constant_tree, node_tree, program_tree, tree_of};

use crate::fault::Stop;
use crate::parser::Parser;
use crate::token::Mark;
use rv_base::Many;
use rv_tree::{
    Assertion, ConstDecl, Decls, Equation, Expr, Name, Node, Program, TypeBody, TypeDecl, TypeName,
};
use std::alloc::{AllocError, Global};

/// Names of flows, and their type.
#[derive(Drop)]
pub struct Group {
    pub names: Many<Name>,
    pub kind: TypeName,
}

/// Names of local flows, their type, and their clock where it is written.
#[derive(Drop)]
pub struct Local {
    pub group: Group,
    pub clock: Option<Name>,
}

/// What the body of a node is made of.
#[derive(Drop)]
pub enum Statement {
    Equation(Equation),
    Assertion(Assertion),
}

/// The body of a node.
#[derive(Drop)]
pub struct Body {
    pub equations: Many<Equation>,
    pub assertions: Many<Assertion>,
}

/// What stands of a node before its local flows.
#[derive(Drop)]
pub struct Signature {
    pub name: Name,
    pub inputs: Decls,
    pub outputs: Decls,
}

/// The list of one element.
fn only<T: Drop>(alloc: Global, element: T) -> Result<Many<T>, AllocError>
    ensures { IfOk result (λ many. many ≡ element ∷ []) }
{
    let mut many = Many::new(alloc);
    many.push(element)?;
    Ok(many)
}

/// A comma and a name.
#[tactic(auto, unfolding(crate::specs::Reading::next_name))]
fn read_next_name(alloc: Global, parser: &mut Parser<'_>) -> Result<Name, Stop>
    ensures { Reads (same {A = Name}) (spec.next_name parser.old.rest) result parser.new.rest }
{
    parser.expect(Mark::Comma)?;
    parser.name(alloc)
}

/// Commas and names, as long as there is a comma, after the names that were found before.
fn read_next_names(
    alloc: Global,
    parser: &mut Parser<'_>,
    found: Many<Name>,
) -> Result<Many<Name>, Stop>
    ensures { Reads (same {A = List Name}) (spec.with_front found (spec.next_names parser.old.rest)) result parser.new.rest }
{
    let mut found = found;
    'more: while parser.sees(Mark::Comma) {
        found.push(read_next_name(alloc, parser)?)?;
    }
    Ok(found)
}

/// Names with commas between them.
#[tactic(auto, unfolding(crate::specs::Reading::names))]
fn read_names(alloc: Global, parser: &mut Parser<'_>) -> Result<Many<Name>, Stop>
    ensures { Reads (same {A = List Name}) (spec.names parser.old.rest) result parser.new.rest }
{
    let first = parser.name(alloc)?;
    let found = only(alloc, first)?;
    read_next_names(alloc, parser, found)
}

/// `bool`, `int` or the name of a type.
#[tactic(auto, unfolding(crate::specs::Reading::kind))]
fn read_kind(alloc: Global, parser: &mut Parser<'_>) -> Result<TypeName, Stop>
    ensures { Reads (same {A = TypeName}) (spec.kind parser.old.rest) result parser.new.rest }
{
    if parser.sees(Mark::Bool) {
        parser.expect(Mark::Bool)?;
        Ok(TypeName::Bool)
    } else if parser.sees(Mark::Int) {
        parser.expect(Mark::Int)?;
        Ok(TypeName::Int)
    } else {
        Ok(TypeName::Named(parser.name(alloc)?))
    }
}

/// `enum` and the labels in braces.
#[tactic(auto, unfolding(crate::specs::Reading::enumeration))]
fn read_enumeration(alloc: Global, parser: &mut Parser<'_>) -> Result<TypeBody, Stop>
    ensures { Reads (same {A = TypeBody}) (spec.enumeration parser.old.rest) result parser.new.rest }
{
    parser.expect(Mark::Enum)?;
    parser.expect(Mark::OpenBrace)?;
    let labels = read_names(alloc, parser)?;
    parser.expect(Mark::CloseBrace)?;
    Ok(TypeBody::Labels(labels))
}

/// An enumeration, or another name for a type.
#[tactic(auto, unfolding(crate::specs::Reading::type_body))]
fn read_type_body(alloc: Global, parser: &mut Parser<'_>) -> Result<TypeBody, Stop>
    ensures { Reads (same {A = TypeBody}) (spec.type_body parser.old.rest) result parser.new.rest }
{
    if parser.sees(Mark::Enum) {
        read_enumeration(alloc, parser)
    } else {
        Ok(TypeBody::Alias(read_kind(alloc, parser)?))
    }
}

/// The declaration of one type.
#[tactic(auto, unfolding(crate::specs::Reading::one_type))]
fn read_type(alloc: Global, parser: &mut Parser<'_>) -> Result<TypeDecl, Stop>
    ensures { Reads (same {A = TypeDecl}) (spec.one_type parser.old.rest) result parser.new.rest }
{
    let name = parser.name(alloc)?;
    parser.expect(Mark::Equal)?;
    let body = read_type_body(alloc, parser)?;
    parser.expect(Mark::Semi)?;
    Ok(TypeDecl { name, body })
}

/// Declarations of types, as long as there is a name, after those that were found before.
fn read_next_types(
    alloc: Global,
    parser: &mut Parser<'_>,
    found: Many<TypeDecl>,
) -> Result<Many<TypeDecl>, Stop>
    ensures { Reads (same {A = List TypeDecl}) (spec.with_front found (spec.next_types parser.old.rest)) result parser.new.rest }
{
    let mut found = found;
    'more: while parser.sees_name() {
        found.push(read_type(alloc, parser)?)?;
    }
    Ok(found)
}

/// `type` and declarations of types, after those that were found before.
#[tactic(auto, unfolding(crate::specs::Reading::types))]
fn read_types(
    alloc: Global,
    parser: &mut Parser<'_>,
    found: Many<TypeDecl>,
) -> Result<Many<TypeDecl>, Stop>
    ensures { Reads (same {A = List TypeDecl}) (spec.with_front found (spec.types parser.old.rest)) result parser.new.rest }
{
    parser.expect(Mark::Type)?;
    let mut found = found;
    found.push(read_type(alloc, parser)?)?;
    read_next_types(alloc, parser, found)
}

/// `=`, an expression and a semicolon.
#[tactic(auto, unfolding(crate::specs::Reading::right))]
fn read_right(alloc: Global, parser: &mut Parser<'_>) -> Result<Expr, Stop>
    ensures { Reads tree_of (spec.right parser.old.rest) result parser.new.rest }
{
    parser.expect(Mark::Equal)?;
    let right = parser.expression(alloc)?;
    parser.expect(Mark::Semi)?;
    Ok(right)
}

/// A colon and a type, where there is a colon.
#[tactic(auto, unfolding(crate::specs::Reading::written_kind))]
fn read_written_kind(alloc: Global, parser: &mut Parser<'_>) -> Result<Option<TypeName>, Stop>
    ensures { Reads (same {A = Option TypeName}) (spec.written_kind parser.old.rest) result parser.new.rest }
{
    if parser.sees(Mark::Colon) {
        parser.expect(Mark::Colon)?;
        Ok(Some(read_kind(alloc, parser)?))
    } else {
        Ok(None)
    }
}

/// The declaration of one constant.
#[tactic(auto, unfolding(crate::specs::Reading::constant))]
fn read_constant(alloc: Global, parser: &mut Parser<'_>) -> Result<ConstDecl, Stop>
    ensures { Reads constant_tree (spec.constant parser.old.rest) result parser.new.rest }
{
    let name = parser.name(alloc)?;
    let kind = read_written_kind(alloc, parser)?;
    let body = read_right(alloc, parser)?;
    Ok(ConstDecl { name, kind, body })
}

/// Declarations of constants, as long as there is a name, after those that were found before.
fn read_next_constants(
    alloc: Global,
    parser: &mut Parser<'_>,
    found: Many<ConstDecl>,
) -> Result<Many<ConstDecl>, Stop>
    ensures { Reads (map constant_tree) (spec.with_front (map constant_tree found) (spec.next_constants parser.old.rest)) result parser.new.rest }
{
    let mut found = found;
    'more: while parser.sees_name() {
        found.push(read_constant(alloc, parser)?)?;
    }
    Ok(found)
}

/// `const` and declarations of constants, after those that were found before.
#[tactic(auto, unfolding(crate::specs::Reading::constants))]
fn read_constants(
    alloc: Global,
    parser: &mut Parser<'_>,
    found: Many<ConstDecl>,
) -> Result<Many<ConstDecl>, Stop>
    ensures { Reads (map constant_tree) (spec.with_front (map constant_tree found) (spec.constants parser.old.rest)) result parser.new.rest }
{
    parser.expect(Mark::Const)?;
    let mut found = found;
    found.push(read_constant(alloc, parser)?)?;
    read_next_constants(alloc, parser, found)
}

/// The flows of a group on this clock where it has one, behind those that were found before.
fn with_flows(found: Decls, group: Group, clock: Option<Name>) -> Result<Decls, AllocError>
    ensures { IfOk result (λ flows. flows ≡ found ++ flows_of (spec.group_of group) clock) }
{
    let Group { names, kind } = group;
    let mut found = found;
    found.push_group(names, &kind, &clock)?;
    Ok(found)
}

/// Names, a colon and a type.
#[tactic(auto, unfolding(crate::specs::Reading::group))]
fn read_group(alloc: Global, parser: &mut Parser<'_>) -> Result<Group, Stop>
    ensures { Reads spec.group_of (spec.group parser.old.rest) result parser.new.rest }
{
    let names = read_names(alloc, parser)?;
    parser.expect(Mark::Colon)?;
    let kind = read_kind(alloc, parser)?;
    Ok(Group { names, kind })
}

/// A semicolon, and a group where there is a name.
#[tactic(auto, unfolding(crate::specs::Reading::next_group))]
fn read_next_group(alloc: Global, parser: &mut Parser<'_>) -> Result<Option<Group>, Stop>
    ensures { Reads spec.some_group (spec.next_group parser.old.rest) result parser.new.rest }
{
    parser.expect(Mark::Semi)?;
    if parser.sees_name() {
        Ok(Some(read_group(alloc, parser)?))
    } else {
        Ok(None)
    }
}

/// The flows of groups behind semicolons, after those that were found before. A semicolon may end them.
fn read_next_groups(alloc: Global, parser: &mut Parser<'_>, found: Decls) -> Result<Decls, Stop>
    ensures { Reads (same {A = List DeclModel}) (spec.mapped (λ more. found ++ all_flows more) (spec.next_groups parser.old.rest)) result parser.new.rest }
{
    let mut found = found;
    'more: while parser.sees(Mark::Semi) {
        match read_next_group(alloc, parser)? {
            Some(group) => found = with_flows(found, group, None)?,
            None => return Ok(found),
        }
    }
    Ok(found)
}

/// The flows of groups with semicolons between them.
#[tactic(auto, unfolding(crate::specs::Reading::decls))]
fn read_decls(alloc: Global, parser: &mut Parser<'_>) -> Result<Decls, Stop>
    ensures { Reads (same {A = List DeclModel}) (spec.decls parser.old.rest) result parser.new.rest }
{
    let group = read_group(alloc, parser)?;
    let found = with_flows(Decls::new(alloc), group, None)?;
    read_next_groups(alloc, parser, found)
}

/// `when` and the name of a clock.
#[tactic(auto, unfolding(crate::specs::Reading::clock))]
fn read_clock(alloc: Global, parser: &mut Parser<'_>) -> Result<Name, Stop>
    ensures { Reads (same {A = Name}) (spec.clock parser.old.rest) result parser.new.rest }
{
    parser.expect(Mark::When)?;
    parser.name(alloc)
}

/// The clock of local flows, where there is a `when`.
fn read_written_clock(alloc: Global, parser: &mut Parser<'_>) -> Result<Option<Name>, Stop>
    ensures { Reads (same {A = Option Name}) (maybe (is_mark Mark.When) spec.clock parser.old.rest) result parser.new.rest }
{
    if parser.sees(Mark::When) {
        Ok(Some(read_clock(alloc, parser)?))
    } else {
        Ok(None)
    }
}

/// Local flows without brackets.
#[tactic(auto, unfolding(crate::specs::Reading::plain_local))]
fn read_plain_local(alloc: Global, parser: &mut Parser<'_>) -> Result<Local, Stop>
    ensures { Reads spec.flows (spec.plain_local parser.old.rest) result parser.new.rest }
{
    let group = read_group(alloc, parser)?;
    let clock = read_written_clock(alloc, parser)?;
    parser.expect(Mark::Semi)?;
    Ok(Local { group, clock })
}

/// Local flows in brackets, and their clock.
#[tactic(auto, unfolding(crate::specs::Reading::bracketed_local))]
fn read_bracketed_local(alloc: Global, parser: &mut Parser<'_>) -> Result<Local, Stop>
    ensures { Reads spec.flows (spec.bracketed_local parser.old.rest) result parser.new.rest }
{
    parser.expect(Mark::Open)?;
    let group = read_group(alloc, parser)?;
    parser.expect(Mark::Close)?;
    let clock = read_clock(alloc, parser)?;
    parser.expect(Mark::Semi)?;
    let clock = Some(clock);
    Ok(Local { group, clock })
}

/// The declaration of local flows.
#[tactic(auto, unfolding(crate::specs::Reading::local))]
fn read_local(alloc: Global, parser: &mut Parser<'_>) -> Result<Local, Stop>
    ensures { Reads spec.flows (spec.local parser.old.rest) result parser.new.rest }
{
    if parser.sees_name() {
        read_plain_local(alloc, parser)
    } else {
        read_bracketed_local(alloc, parser)
    }
}

/// Whether the next token begins a declaration of local flows.
fn sees_local(parser: &Parser<'_>) -> bool
    ensures { result ≡ starts spec.begins_local parser.now.rest }
{
    parser.sees_name() || parser.sees(Mark::Open)
}

/// Local flows, as long as a token begins some, after those that were found before.
fn read_next_locals(alloc: Global, parser: &mut Parser<'_>, found: Decls) -> Result<Decls, Stop>
    ensures { Reads (same {A = List DeclModel}) (spec.mapped (λ more. found ++ joined more) (spec.next_locals parser.old.rest)) result parser.new.rest }
{
    let mut found = found;
    'more: while sees_local(parser) {
        let local = read_local(alloc, parser)?;
        found = with_flows(found, local.group, local.clock)?;
    }
    Ok(found)
}

/// `var` and local flows, after those that were found before.
#[tactic(auto, unfolding(crate::specs::Reading::var))]
fn read_var(alloc: Global, parser: &mut Parser<'_>, found: Decls) -> Result<Decls, Stop>
    ensures { Reads (same {A = List DeclModel}) (spec.with_front found (spec.var parser.old.rest)) result parser.new.rest }
{
    parser.expect(Mark::Var)?;
    let local = read_local(alloc, parser)?;
    let found = with_flows(found, local.group, local.clock)?;
    read_next_locals(alloc, parser, found)
}

/// The local flows of a node, as long as there is a `var`.
fn read_vars(alloc: Global, parser: &mut Parser<'_>) -> Result<Decls, Stop>
    ensures { Reads (same {A = List DeclModel}) (spec.mapped joined (spec.vars parser.old.rest)) result parser.new.rest }
{
    let mut found = Decls::new(alloc);
    'more: while parser.sees(Mark::Var) {
        found = read_var(alloc, parser, found)?;
    }
    Ok(found)
}

/// The left sides of an equation, with or without brackets.
#[tactic(auto, unfolding(crate::specs::Reading::lefts))]
fn read_lefts(alloc: Global, parser: &mut Parser<'_>) -> Result<Many<Name>, Stop>
    ensures { Reads (same {A = List Name}) (spec.lefts parser.old.rest) result parser.new.rest }
{
    if parser.sees_name() {
        return read_names(alloc, parser);
    }
    parser.expect(Mark::Open)?;
    let lefts = read_names(alloc, parser)?;
    parser.expect(Mark::Close)?;
    Ok(lefts)
}

/// An equation.
#[tactic(auto, unfolding(crate::specs::Reading::equation))]
fn read_equation(alloc: Global, parser: &mut Parser<'_>) -> Result<Statement, Stop>
    ensures { Reads spec.item_of (spec.equation parser.old.rest) result parser.new.rest }
{
    let lefts = read_lefts(alloc, parser)?;
    let right = read_right(alloc, parser)?;
    Ok(Statement::Equation(Equation { lefts, right }))
}

/// An assertion, which has no site yet.
#[tactic(auto, unfolding(crate::specs::Reading::assertion))]
fn read_assertion(alloc: Global, parser: &mut Parser<'_>) -> Result<Statement, Stop>
    ensures { Reads spec.item_of (spec.assertion parser.old.rest) result parser.new.rest }
{
    let at = parser.mark(Mark::Assert)?;
    let body = parser.expression(alloc)?;
    parser.expect(Mark::Semi)?;
    Ok(Statement::Assertion(Assertion { at, site: 0, body }))
}

/// An equation or an assertion.
#[tactic(auto, unfolding(crate::specs::Reading::item))]
fn read_statement(alloc: Global, parser: &mut Parser<'_>) -> Result<Statement, Stop>
    ensures { Reads spec.item_of (spec.item parser.old.rest) result parser.new.rest }
{
    if parser.sees(Mark::Assert) {
        read_assertion(alloc, parser)
    } else {
        read_equation(alloc, parser)
    }
}

/// Whether the next token begins an equation or an assertion.
fn sees_statement(parser: &Parser<'_>) -> bool
    ensures { result ≡ starts spec.begins_item parser.now.rest }
{
    sees_local(parser) || parser.sees(Mark::Assert)
}

/// The statements that were found before, and one more.
fn with_statement(body: Body, statement: Statement) -> Result<Body, AllocError>
    ensures { IfOk result (λ all. spec.statements all ≡ spec.with_item (spec.statements body) (spec.item_of statement)) }
{
    let mut body = body;
    match statement {
        Statement::Equation(equation) => body.equations.push(equation)?,
        Statement::Assertion(assertion) => body.assertions.push(assertion)?,
    }
    Ok(body)
}

/// Equations and assertions, as long as a token begins one.
fn read_statements(alloc: Global, parser: &mut Parser<'_>) -> Result<Body, Stop>
    ensures { Reads spec.statements (spec.mapped spec.statements_of (spec.items parser.old.rest)) result parser.new.rest }
{
    let mut body = Body {
        equations: Many::new(alloc),
        assertions: Many::new(alloc),
    };
    'more: while sees_statement(parser) {
        let statement = read_statement(alloc, parser)?;
        body = with_statement(body, statement)?;
    }
    Ok(body)
}

/// `node` and a name.
#[tactic(auto, unfolding(crate::specs::Reading::title))]
fn read_title(alloc: Global, parser: &mut Parser<'_>) -> Result<Name, Stop>
    ensures { Reads (same {A = Name}) (spec.title parser.old.rest) result parser.new.rest }
{
    parser.expect(Mark::Node)?;
    parser.name(alloc)
}

/// The inputs in their brackets.
#[tactic(auto, unfolding(crate::specs::Reading::inputs))]
fn read_inputs(alloc: Global, parser: &mut Parser<'_>) -> Result<Decls, Stop>
    ensures { Reads (same {A = List DeclModel}) (spec.inputs parser.old.rest) result parser.new.rest }
{
    parser.expect(Mark::Open)?;
    let inputs = read_decls(alloc, parser)?;
    parser.expect(Mark::Close)?;
    Ok(inputs)
}

/// Takes a semicolon where there is one, and answers whether there was.
fn take_semi(parser: &mut Parser<'_>) -> Result<bool, Stop>
    ensures { Reads spec.taken (maybe (is_mark Mark.Semi) (spec.only Mark.Semi) parser.old.rest) result parser.new.rest }
{
    if parser.sees(Mark::Semi) {
        parser.expect(Mark::Semi)?;
        Ok(true)
    } else {
        Ok(false)
    }
}

/// `returns`, the outputs in their brackets, and a semicolon where there is one.
#[tactic(auto, unfolding(crate::specs::Reading::outputs))]
fn read_outputs(alloc: Global, parser: &mut Parser<'_>) -> Result<Decls, Stop>
    ensures { Reads (same {A = List DeclModel}) (spec.outputs parser.old.rest) result parser.new.rest }
{
    parser.expect(Mark::Returns)?;
    let outputs = read_inputs(alloc, parser)?;
    take_semi(parser)?;
    Ok(outputs)
}

/// Takes a semicolon or a point where there is one, and answers whether there was.
#[tactic(auto, unfolding(crate::specs::Reading::node_end))]
fn take_node_end(parser: &mut Parser<'_>) -> Result<bool, Stop>
    ensures { Reads spec.taken (spec.node_end parser.old.rest) result parser.new.rest }
{
    if parser.sees(Mark::Semi) {
        parser.expect(Mark::Semi)?;
        Ok(true)
    } else if parser.sees(Mark::Dot) {
        parser.expect(Mark::Dot)?;
        Ok(true)
    } else {
        Ok(false)
    }
}

/// `let`, the statements, `tel`, and a semicolon or a point where there is one.
#[tactic(auto, unfolding(crate::specs::Reading::body))]
fn read_body(alloc: Global, parser: &mut Parser<'_>) -> Result<Body, Stop>
    ensures { Reads spec.statements (spec.mapped spec.statements_of (spec.body parser.old.rest)) result parser.new.rest }
{
    parser.expect(Mark::Let)?;
    let body = read_statements(alloc, parser)?;
    parser.expect(Mark::Tel)?;
    take_node_end(parser)?;
    Ok(body)
}

/// The title of a node, its inputs and its outputs.
#[tactic(auto, unfolding(crate::specs::Reading::signature))]
fn read_signature(alloc: Global, parser: &mut Parser<'_>) -> Result<Signature, Stop>
    ensures { Reads (same {A = SignatureModel}) (spec.signature parser.old.rest) result parser.new.rest }
{
    let name = read_title(alloc, parser)?;
    let inputs = read_inputs(alloc, parser)?;
    let outputs = read_outputs(alloc, parser)?;
    Ok(Signature {
        name,
        inputs,
        outputs,
    })
}

/// A node.
fn read_node(alloc: Global, parser: &mut Parser<'_>) -> Result<Node, Stop>
    ensures { Reads node_tree (spec.node parser.old.rest) result parser.new.rest }
{
    let signature = read_signature(alloc, parser)?;
    let locals = read_vars(alloc, parser)?;
    let body = read_body(alloc, parser)?;
    Ok(Node {
        name: signature.name,
        inputs: signature.inputs,
        outputs: signature.outputs,
        locals,
        equations: body.equations,
        assertions: body.assertions,
    })
}

/// Types, constants or a node, after what was found before.
#[tactic(auto, unfolding(crate::specs::Reading::section))]
fn read_section(alloc: Global, parser: &mut Parser<'_>, found: Program) -> Result<Program, Stop>
    ensures { Reads program_tree (spec.mapped (spec.with_section (program_tree found)) (spec.section parser.old.rest)) result parser.new.rest }
{
    let mut found = found;
    if parser.sees(Mark::Type) {
        found.types = read_types(alloc, parser, found.types)?;
    } else if parser.sees(Mark::Const) {
        found.constants = read_constants(alloc, parser, found.constants)?;
    } else {
        found.nodes.push(read_node(alloc, parser)?)?;
    }
    Ok(found)
}

/// Reads a program up to the end of the text. Its expressions and assertions have no sites yet.
#[tactic(auto, unfolding(crate::specs::Reading::program))]
pub fn read_program(alloc: Global, parser: &mut Parser<'_>) -> Result<Program, Stop>
    ensures reads { Reads program_tree (spec.program parser.old.rest) result parser.new.rest }
    ensures whole { OnOk result (parser.new.rest ≡ []) }
{
    let mut found = Program {
        types: Many::new(alloc),
        constants: Many::new(alloc),
        nodes: Many::new(alloc),
    };
    'more: while !parser.is_at_end() {
        found = read_section(alloc, parser, found)?;
    }
    Ok(found)
}
