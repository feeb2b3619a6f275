//! The types of the expressions of a program whose names are right.

ghost use Rattle.std.specs.Prelude.{◌≡◌, [], Some, is_some, map, reverse, IfOk, IfSome};
ghost use Rattle.rv_tree.specs.Bounded.{IsBounded};
ghost use Rattle.rv_tree.specs.Places.{index_of, flows};
ghost use Rattle.rv_tree.specs.Tree.{ProgramTree, node_tree, program_tree, tree_of};
ghost use Rattle.rv_types.specs.ConstantTables.{AreTablesOf, AreNodeTablesOf};
ghost use Rattle.rv_types.specs.Heads.{head_kind as told_by_head};
ghost use Rattle.rv_types.specs.Known.{first_spaces, flow_names};
ghost use Rattle.rv_types.specs.Names.{is_declared, name_faults, repeated, texts};
ghost use Rattle.rv_types.specs.Readings.{AreTables, view_of};
ghost use Rattle.rv_types.specs.Scopes.{node_scope, constant_kinds_of, signature_of};
ghost use Rattle.rv_types.specs.Tables.{scope_of};
ghost use Rattle.rv_types.specs.Types.{kind_of};
ghost use Rattle.rv_types.specs.declared.typed.Kind.{Kind as AnyKind};

use crate::constants::{Globals, constants_of};
use crate::heads::head;
use crate::kinds::{TypeTables, flow_kinds, signatures, type_tables};
use crate::names::flows_of;
use crate::space::Space;
use crate::spaces::{Declared, Spaces, spaces_of};
use crate::typed::Kind;
use crate::view::{Label, Signature, Values, View};
use rv_base::{Many, Memory, Text};
use rv_tree::{Expr, Node, Program};
use std::alloc::Global;

/// What the names of a program stand for: types, constants, labels and nodes.
#[derive(Drop)]
pub struct ProgramTables {
    pub(crate) spaces: Spaces,
    types: Many<Kind>,
    pub(crate) places: Many<Label>,
    constant_kinds: Many<Option<Kind>>,
    signatures: Many<Signature>,
}

/// The flows of a node, and their types.
#[derive(Drop)]
pub struct NodeTables {
    flows: Space,
    kinds: Many<Kind>,
}

/// The types of a program's constants, and what its nodes take and give.
#[derive(Drop)]
struct BodyTables {
    constant_kinds: Many<Option<Kind>>,
    signatures: Many<Signature>,
}

/// The types of a program's constants, and what its nodes take and give.
fn body_tables(alloc: Global, globals: &Globals, p: &Program) -> Result<BodyTables, Memory>
    requires { AreTablesOf (program_tree p.now) globals.now.types.now globals.now.type_kinds.now globals.now.constants.now globals.now.labels.now
        globals.now.places.now }
    ensures constants { IfOk result (λ b. b.constant_kinds ≡ constant_kinds_of (program_tree p.now) (reverse (program_tree p.now).constants)) }
    ensures signatures { IfOk result (λ b. b.signatures ≡ map (signature_of (program_tree p.now)) (program_tree p.now).nodes) }
{
    let signatures = signatures(alloc, globals.types, globals.type_kinds, p.nodes.as_slice())?;
    let constant_kinds = constants_of(alloc, globals, p)?.kinds;
    Ok(BodyTables {
        constant_kinds,
        signatures,
    })
}

/// What the types and the labels of a program mean, the types of its constants, and what its nodes take and give.
#[derive(Drop)]
struct Meanings {
    types: Many<Kind>,
    places: Many<Label>,
    constant_kinds: Many<Option<Kind>>,
    signatures: Many<Signature>,
}

/// What is declared in a program whose names are right, by its spaces.
fn meanings_of(alloc: Global, spaces: &Spaces, p: &Program) -> Result<Meanings, Memory>
    requires bounded { IsBounded (program_tree p.now) }
    requires spaces { spaces.now ≡ first_spaces (program_tree p.now) }
    requires names { name_faults (program_tree p.now) ≡ [] }
    ensures globals { IfOk result (λ m. AreTablesOf (program_tree p.now) spaces.now.types m.types spaces.now.constants spaces.now.labels m.places) }
    ensures nodes { IfOk result (λ m. AreNodeTablesOf (program_tree p.now) m.constant_kinds spaces.now.nodes m.signatures) }
{
    let TypeTables {
        kinds: types,
        places,
    } = type_tables(alloc, &spaces.types, p.types.as_slice())?;
    let globals = Globals {
        types: &spaces.types,
        type_kinds: types.as_slice(),
        constants: &spaces.constants,
        labels: &spaces.labels,
        places: places.as_slice(),
    };
    let BodyTables {
        constant_kinds,
        signatures,
    } = body_tables(alloc, &globals, p)?;
    Ok(Meanings {
        types,
        places,
        constant_kinds,
        signatures,
    })
}

/// The tables of a program whose names are right.
pub fn program_tables(alloc: Global, p: &Program) -> Result<ProgramTables, Memory>
    requires bounded { IsBounded (program_tree p.now) }
    requires names { name_faults (program_tree p.now) ≡ [] }
    ensures { IfOk result (AreTables (program_tree p.now)) }
{
    let Declared { spaces, fault: _ } = spaces_of(alloc, p)?;
    let Meanings {
        types,
        places,
        constant_kinds,
        signatures,
    } = meanings_of(alloc, &spaces, p)?;
    Ok(ProgramTables {
        spaces,
        types,
        places,
        constant_kinds,
        signatures,
    })
}

/// The tables of a node, whose flows have different names.
pub fn node_tables(alloc: Global, tables: &ProgramTables, node: &Node) -> Result<NodeTables, Memory>
    ensures scope { (p : ProgramTree) → AreTables p tables.now → repeated [] (flow_names (node_tree node.now)) ≡ []
        → IfOk result (λ n. scope_of (view_of tables.now n) ≡ node_scope p (node_tree node.now)) }
    ensures flows { repeated [] (flow_names (node_tree node.now)) ≡ [] → IfOk result (λ n. texts n.flows ≡ flows (node_tree node.now)) }
{
    let kinds = flow_kinds(alloc, &tables.spaces.types, tables.types.as_slice(), node)?;
    let flows = flows_of(alloc, node)?.space;
    Ok(NodeTables { flows, kinds })
}

/// The tables of a program and of one of its nodes together.
pub(crate) fn view<'a>(tables: &'a ProgramTables, node: &'a NodeTables) -> View<'a>
    ensures { result ≡ view_of tables.now node.now }
{
    View {
        flows: &node.flows,
        flow_kinds: node.kinds.as_slice(),
        values: Values {
            constants: &tables.spaces.constants,
            kinds: tables.constant_kinds.as_slice(),
            labels: &tables.spaces.labels,
            places: tables.places.as_slice(),
        },
        nodes: &tables.spaces.nodes,
        signatures: tables.signatures.as_slice(),
        moves: true,
    }
}

/// The type of an expression of a node that has one, as each has in a program whose types are right. It is read off the
/// head: of an expression without a type nothing is said.
pub fn head_kind(tables: &ProgramTables, node: &NodeTables, e: &Expr) -> Kind
    // What is answered is the type of the whole expression.
    ensures whole { (k : AnyKind) → kind_of (scope_of (view_of tables.now node.now)) (tree_of e.now) ≡ Some k → result ≡ k }
    ensures head { result ≡ told_by_head (scope_of (view_of tables.now node.now)) (tree_of e.now) }
{
    head(&view(tables, node), e)
}

/// The site of a flow of a node, none for another name.
pub fn flow_site(node: &NodeTables, name: &Text) -> Option<usize>
    ensures found { is_some result ≡ is_declared node.now.flows name.now }
    ensures site { IfSome result (λ k. k ≡ index_of (texts node.now.flows) name.now) }
{
    node.flows.number(name)
}
