//! What declarations alone tell of the size of a program: its inputs and its enumerations.

ghost use Rattle.std.specs.Prelude.{◌≡◌, ◌≤◌, cond, length, map};
ghost use Rattle.rv_tree.specs.Tree.{ProgramTree, node_tree};
ghost use Rattle.rv_types.specs.Kinds.{flow_kinds};
ghost use Rattle.rv_instances.specs.Counts.{integer_inputs};
ghost use Rattle.rv_sizes.specs.Sizes.{first_above};
ghost use Rattle.rv_types.specs.Variables.{total, is_integer};
ghost use Rattle.rv_types.specs.Values.{label_count};

use rv_instances::labels_in;
use rv_tree::{Node, TypeDecl};
use rv_types::Kind;

/// The most labels of an enumeration.
const MOST_LABELS: u64 = 256;

/// The number of integer inputs of a node, whose flows have these types in the order of their sites.
pub fn integer_inputs_of(node: &Node, kinds: &[Kind]) -> u64
    requires { length node.now.inputs ≤ length kinds.now }
    ensures { (p : ProgramTree) → kinds.now ≡ flow_kinds p (node_tree node.now) → result ≡ integer_inputs p (node_tree node.now) }
{
    integers_among(&kinds[..node.inputs.len()])
}

/// How many types are that of the integers.
pub fn integers_among(kinds: &[Kind]) -> u64
    ensures { result ≡ total (λ k. cond (is_integer k) 1 0) kinds.now }
{
    let mut count = 0;
    for kind in kinds {
        count += one_if_integer(*kind);
    }
    count
}

/// One for the type of the integers, none for another.
fn one_if_integer(kind: Kind) -> u64
    ensures value { result ≡ cond (is_integer kind) 1 0 }
    ensures small { result ≤ 1 }
{
    match kind {
        Kind::Int => 1,
        Kind::Bool | Kind::Labels(_) => 0,
    }
}

/// The number of labels of the first enumeration that has too many, 0 where none has.
pub fn labels_above(types: &[TypeDecl]) -> u64
    ensures { result ≡ first_above 256 (map label_count types.now) }
{
    for declared in types {
        let count = labels_in(declared);
        if count > MOST_LABELS {
            return count;
        }
    }
    0
}
