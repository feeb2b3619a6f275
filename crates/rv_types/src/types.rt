//! The types of all flows, the values of all constants, and the first fault of types.

ghost use Rattle.std.specs.Prelude.{◌≡◌, [], map, IfOk};
ghost use Rattle.rv_tree.specs.Bounded.{IsBounded};
ghost use Rattle.rv_tree.specs.Tree.{node_tree, program_tree, ProgramTree};
ghost use Rattle.rv_types.specs.ConstantTables.{AreTablesOf, AreNodeTablesOf};
ghost use Rattle.rv_types.specs.Earliest.{first};
ghost use Rattle.rv_types.specs.Kinds.{flow_kinds};
ghost use Rattle.rv_types.specs.Known.{first_spaces, flow_names};
ghost use Rattle.rv_types.specs.Names.{name_faults, repeated};
ghost use Rattle.rv_types.specs.Scopes.{constant_values, types_in_node, type_faults};
ghost use Rattle.std.specs.Prelude.{flat_map};

use crate::constants::{Constants, Globals, constants_of};
use crate::fault::NameFault;
use crate::first::sooner_of;
use crate::kinds::{TypeTables, flow_kinds, signatures, type_tables};
use crate::names::{Flows, flows_of};
use crate::sides::type_fault;
use crate::space::Space;
use crate::spaces::Spaces;
use crate::typed::Kind;
use crate::view::{Signature, Values, View};
use rv_base::{Many, Memory, Value};
use rv_tree::{Node, Program};
use std::alloc::Global;

/// The types of a node's flows, in the order of their sites, and its first fault of types.
#[derive(Debug, Drop)]
struct NodeTypes {
    kinds: Many<Kind>,
    fault: Option<NameFault>,
}

/// The tables by which nodes are read.
#[derive(Drop)]
struct Nodes<'a> {
    names: &'a Space,
    signatures: &'a [Signature],
    constant_kinds: &'a [Option<Kind>],
}

/// The types of a node, whose flows have different names.
fn node_types(
    alloc: Global,
    globals: &Globals,
    nodes: &Nodes,
    node: &Node,
) -> Result<NodeTypes, Memory>
    ensures kinds { (p : ProgramTree) → AreTablesOf p globals.now.types.now globals.now.type_kinds.now globals.now.constants.now globals.now.labels.now
        globals.now.places.now → IfOk result (λ t. t.kinds ≡ flow_kinds p (node_tree node.now)) }
    ensures fault { (p : ProgramTree) → AreTablesOf p globals.now.types.now globals.now.type_kinds.now globals.now.constants.now globals.now.labels.now
        globals.now.places.now → AreNodeTablesOf p nodes.now.constant_kinds.now nodes.now.names.now nodes.now.signatures.now
        → repeated [] (flow_names (node_tree node.now)) ≡ [] → IfOk result (λ t. t.fault ≡ first (types_in_node p (node_tree node.now))) }
{
    let kinds = flow_kinds(alloc, globals.types, globals.type_kinds, node)?;
    let Flows { space, fault: _ } = flows_of(alloc, node)?;
    let view = View {
        flows: &space,
        flow_kinds: kinds.as_slice(),
        values: Values {
            constants: globals.constants,
            kinds: nodes.constant_kinds,
            labels: globals.labels,
            places: globals.places,
        },
        nodes: nodes.names,
        signatures: nodes.signatures,
        moves: true,
    };
    let fault = type_fault(&view, node);
    Ok(NodeTypes { kinds, fault })
}

/// The types of all flows, node by node, and the first fault of types in them.
#[derive(Debug, Drop)]
struct FlowTypes {
    kinds: Many<Many<Kind>>,
    fault: Option<NameFault>,
}

fn flow_types(
    alloc: Global,
    p: &Program,
    globals: &Globals,
    nodes: &Nodes,
) -> Result<FlowTypes, Memory>
    requires tables { AreTablesOf (program_tree p.now) globals.now.types.now globals.now.type_kinds.now globals.now.constants.now globals.now.labels.now
        globals.now.places.now }
    requires node_tables { AreNodeTablesOf (program_tree p.now) nodes.now.constant_kinds.now nodes.now.names.now nodes.now.signatures.now }
    requires names { name_faults (program_tree p.now) ≡ [] }
    ensures kinds { IfOk result (λ t. t.kinds ≡ map (flow_kinds (program_tree p.now)) (program_tree p.now).nodes) }
    ensures fault { IfOk result (λ t. t.fault ≡ first (flat_map (types_in_node (program_tree p.now)) (program_tree p.now).nodes)) }
{
    let mut kinds = Many::new(alloc);
    let mut fault = None;
    let all = p.nodes.as_slice();
    for node in all {
        let NodeTypes {
            kinds: own,
            fault: found,
        } = node_types(alloc, globals, nodes, node)?;
        kinds.push(own)?;
        fault = sooner_of(fault, found);
    }
    Ok(FlowTypes { kinds, fault })
}

/// The types of all flows, the values of all constants, and the first fault of types.
#[derive(Debug, Drop)]
pub struct ProgramTypes {
    pub kinds: Many<Many<Kind>>,
    pub constants: Many<Value>,
    pub fault: Option<NameFault>,
}

/// The types of a program whose names are right.
pub fn types_of(alloc: Global, p: &Program, spaces: &Spaces) -> Result<ProgramTypes, Memory>
    requires bounded { IsBounded (program_tree p.now) }
    requires spaces { spaces.now ≡ first_spaces (program_tree p.now) }
    requires names { name_faults (program_tree p.now) ≡ [] }
    ensures kinds { IfOk result (λ t. t.kinds ≡ map (flow_kinds (program_tree p.now)) (program_tree p.now).nodes) }
    ensures constants { IfOk result (λ t. t.constants ≡ constant_values (program_tree p.now)) }
    ensures fault { IfOk result (λ t. t.fault ≡ first (type_faults (program_tree p.now))) }
{
    let TypeTables {
        kinds: types,
        places,
    } = type_tables(alloc, &spaces.types, p.types.as_slice())?;
    let known = signatures(alloc, &spaces.types, types.as_slice(), p.nodes.as_slice())?;
    let globals = Globals {
        types: &spaces.types,
        type_kinds: types.as_slice(),
        constants: &spaces.constants,
        labels: &spaces.labels,
        places: places.as_slice(),
    };
    let Constants {
        kinds: constant_kinds,
        values,
        fault,
    } = constants_of(alloc, &globals, p)?;
    let nodes = Nodes {
        names: &spaces.nodes,
        signatures: known.as_slice(),
        constant_kinds: constant_kinds.as_slice(),
    };
    let FlowTypes {
        kinds,
        fault: in_nodes,
    } = flow_types(alloc, p, &globals, &nodes)?;
    Ok(ProgramTypes {
        kinds,
        constants: values,
        fault: sooner_of(fault, in_nodes),
    })
}
