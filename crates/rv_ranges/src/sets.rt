//! Whether diagrams are sets of control states, and conditions of entries.

ghost use Rattle.std.specs.Prelude.{◌↔◌, IsTrue};
ghost use Rattle.rv_ranges.specs.Documents.{IsStateBit, IsNoCopy, ReadsStatesAlone, ReadsNoCopies, IsStateSet, IsReadSet};

use crate::bounds::Bounds;
use rv_diagram::{Frozen, Triple};

/// Whether the variable is a state bit.
fn is_state(variable: u32, states: u32) -> bool
    ensures { IsTrue result ↔ IsStateBit states variable }
{
    variable % 2 == 0 && variable / 2 < states
}

/// Whether the variable is no next copy.
fn is_no_copy(variable: u32, states: u32) -> bool
    ensures { IsTrue result ↔ IsNoCopy states variable }
{
    variable % 2 == 0 || variable / 2 >= states
}

/// Whether each node's variable is a state bit.
fn read_states_alone(nodes: &[Triple], states: u32) -> bool
    ensures { IsTrue result ↔ ReadsStatesAlone states nodes.now }
{
    for i in 0..nodes.len() {
        if !is_state(nodes[i].var, states) {
            return false;
        }
    }
    true
}

/// Whether no node's variable is a next copy.
fn read_no_copies(nodes: &[Triple], states: u32) -> bool
    ensures { IsTrue result ↔ ReadsNoCopies states nodes.now }
{
    for i in 0..nodes.len() {
        if !is_no_copy(nodes[i].var, states) {
            return false;
        }
    }
    true
}

/// Whether the diagram is a set of control states: ordered, of state bits alone.
pub fn is_control_set(set: &Frozen, bounds: &Bounds) -> bool
    ensures { IsTrue result ↔ IsStateSet bounds.now set.now }
{
    set.ordered(bounds.variables) && read_states_alone(set.nodes.as_slice(), bounds.states)
}

/// Whether the diagram is a condition: ordered, without next copies.
pub fn is_condition(set: &Frozen, bounds: &Bounds) -> bool
    ensures { IsTrue result ↔ IsReadSet bounds.now set.now }
{
    set.ordered(bounds.variables) && read_no_copies(set.nodes.as_slice(), bounds.states)
}
