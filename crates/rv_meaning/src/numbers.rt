//! Names by their numbers.

ghost use Rattle.std.specs.Prelude.{◌≡◌, ◌≤◌, ◌+◌, ◌<◌, ℕ, List, length, map, OnOk, IfOk};
ghost use Rattle.std.specs.HashMap.{get};
ghost use Rattle.rv_tree.specs.Bounded.{most};
ghost use Rattle.rv_tree.specs.Places.{flows, is_same, names};
ghost use Rattle.rv_tree.specs.Tree.{node_tree};
ghost use Rattle.rv_meaning.specs.Leading.{node_texts};
ghost use Rattle.rv_meaning.specs.Numbers.{entered, number_in, AreNumbers};

use rv_base::{Memory, Text};
use rv_tree::{Decl, Node};
use std::alloc::Global;
use std::collections::HashMap;

/// Some names by their numbers. Of equal ones the first counts. A name is found by its hash.
#[derive(Drop)]
pub struct Numbers {
    pub numbers: HashMap<Text, u32>,
    pub count: u32,
}

impl Numbers {
    /// The number of a name; how many there are where it is not among them.
    pub fn number(&self, name: &Text) -> u32
        ensures { result ≡ number_in self.now name.now }
    {
        match self.numbers.get(name) {
            Some(number) => *number,
            None => self.count,
        }
    }
}

/// The numbers of nodes by their names.
pub fn node_numbers(alloc: Global, nodes: &[Node]) -> Result<Numbers, Memory>
    requires { length nodes.now ≤ most }
    ensures { IfOk result (AreNumbers (node_texts (map node_tree nodes.now))) }
{
    let mut numbers = HashMap::new(alloc);
    let mut left = nodes.len();
    while left > 0 {
        left -= 1;
        numbers.insert(nodes[left].name.text.clone()?, left as u32)?;
    }
    Ok(Numbers {
        numbers,
        count: nodes.len() as u32,
    })
}

/// The sites of the flows of a node by their names.
pub fn flow_numbers(alloc: Global, node: &Node) -> Result<Numbers, Memory>
    requires { length (flows (node_tree node.now)) ≤ most }
    ensures { IfOk result (AreNumbers (flows (node_tree node.now))) }
{
    let outputs = node.inputs.len();
    let locals = outputs + node.outputs.len();
    let mut numbers = HashMap::new(alloc);
    enter(&mut numbers, locals, node.locals.as_slice())?;
    enter(&mut numbers, outputs, node.outputs.as_slice())?;
    enter(&mut numbers, 0, node.inputs.as_slice())?;
    Ok(Numbers {
        numbers,
        count: (locals + node.locals.len()) as u32,
    })
}

/// Enters declared names, of which the first has this number. They are entered from the last on, so that of equal ones
/// the first counts.
fn enter(numbers: &mut HashMap<Text, u32>, first: usize, decls: &[Decl]) -> Result<(), Memory>
    requires { first + length decls.now ≤ most }
    ensures { OnOk result ((x : List ℕ) → get is_same numbers.new x ≡ entered first (names decls.now) (get is_same numbers.old x) x) }
{
    let mut left = decls.len();
    while left > 0 {
        left -= 1;
        numbers.insert(decls[left].name.text.clone()?, (first + left) as u32)?;
    }
    Ok(())
}
