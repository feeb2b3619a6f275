//! Whether the main node is an observer: one output, which is Boolean.

ghost use Rattle.std.specs.Prelude.{◌≡◌, ◌<◌, map, length};
ghost use Rattle.rv_tree.specs.Places.{Identifier, index_of};
ghost use Rattle.rv_tree.specs.Tree.{node_tree, program_tree, ProgramTree};
ghost use Rattle.rv_types.specs.Earliest.{first};
ghost use Rattle.rv_types.specs.Kinds.{decl_kinds, flow_kinds};
ghost use Rattle.rv_types.specs.Names.{texts, node_names};
ghost use Rattle.rv_types.specs.Scopes.{is_observer, observer_faults};
ghost use Rattle.rv_types.specs.NodeTypes.{observer_fault_of};

use crate::fault::NameFault;
use crate::rules::is_same;
use crate::typed::Kind;
use rv_base::Many;
use rv_tree::{Node, Program};

/// Whether a node has one output, which is Boolean, by the types of its flows.
fn is_observing(node: &Node, kinds: &[Kind]) -> bool
    ensures { (p : ProgramTree) → kinds.now ≡ flow_kinds p (node_tree node.now) → result ≡ is_observer (decl_kinds p (node_tree node.now).outputs) }
{
    match node.outputs.as_slice() {
        [_] => match kinds.get(node.inputs.len()) {
            None => false,
            Some(kind) => is_same(*kind, Kind::Bool),
        },
        _ => false,
    }
}

fn node_fault(node: &Node, kinds: &[Kind]) -> Option<NameFault>
    ensures { (p : ProgramTree) → kinds.now ≡ flow_kinds p (node_tree node.now) → result ≡ first (observer_fault_of p (node_tree node.now)) }
{
    if is_observing(node, kinds) {
        None
    } else {
        Some(NameFault::NotObserver(node.name.at))
    }
}

/// The fault of the main node, by its number and the types of all flows.
pub fn observer_fault(p: &Program, kinds: &Many<Many<Kind>>, main: usize) -> Option<NameFault>
    requires { main < length p.now.nodes }
    ensures { (x : Identifier) → main ≡ index_of (texts (node_names (program_tree p.now))) x
        → kinds.now ≡ map (flow_kinds (program_tree p.now)) (program_tree p.now).nodes → result ≡ first (observer_faults (program_tree p.now) x) }
{
    let node = p.nodes.at(main);
    match kinds.get(main) {
        None => None,
        Some(own) => node_fault(node, own.as_slice()),
    }
}
