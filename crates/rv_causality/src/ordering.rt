//! The rules of recursion, size, cycles and weights, in turn.

ghost use Rattle.std.specs.Prelude.{IfOk, IfErr};
ghost use Rattle.rv_tree.specs.SourceTrees.{IsSourceTree};
ghost use Rattle.rv_tree.specs.Tree.{program_tree};
ghost use Rattle.rv_types.specs.Instances.{name_at};
ghost use Rattle.rv_types.specs.Settled.{IsAnswer};
ghost use Rattle.rv_calls.specs.declared.fault.CauseFault.{CauseFault};
ghost use Rattle.rv_causality.specs.Causes.{IsAccepted, IsOrder, IsCause, HasCause, Orders, Refuses};

use rv_calls::{CauseFault, check, instances};
use rv_instances::Order;
use rv_sequence::sequence_of;
use rv_sizes::check_sizes;
use rv_tree::Program;
use rv_types::{Typed, sited_programs, well_formed_programs};
use std::alloc::Global;

/// Expands the instances of the main node of a program whose names, types and clocks are right, checks that it can be
/// evaluated, and answers an order of evaluation. The program is to be the tree of a source.
///
/// Otherwise it answers the first fault: recursion of nodes, then sizes, cycles and weights. `Memory` comes where
/// memory runs out. Time grows with the number of expressions of all instances and with the length of the places in
/// the answer, up to look-ups of names.
pub fn order(alloc: Global, p: &Program, t: &Typed) -> Result<Order, CauseFault>
    requires tree { IsSourceTree (program_tree p.now) }
    requires settled { IsAnswer (program_tree p.now) t.now }
    // What is answered is an order of an accepted program.
    ensures found { IfOk result (IsOrder (program_tree p.now) (name_at (program_tree p.now) t.now.main)) }
    // An accepted program has an answer, unless memory runs out.
    ensures only { IsAccepted (program_tree p.now) (name_at (program_tree p.now) t.now.main) → Orders result }
    // A fault that is answered is the first.
    ensures refused { IfErr result (HasCause (program_tree p.now) (name_at (program_tree p.now) t.now.main)) }
    // Where a fault is the first it is answered, or another cycle where it is one, unless memory runs out.
    ensures only_refused { (f : CauseFault) → IsCause (program_tree p.now) (name_at (program_tree p.now) t.now.main) f → Refuses f result }
{
    sited_programs();
    well_formed_programs();
    let nodes = match check(alloc, p) {
        Ok(nodes) => nodes,
        Err(fault) => return Err(fault),
    };
    let expanded = match check_sizes(alloc, p, t, &nodes) {
        Ok(expanded) => expanded,
        Err(fault) => return Err(fault),
    };
    let instances = instances(alloc, p, t.main, &nodes)?;
    match sequence_of(alloc, p, t, &instances) {
        Ok(sequence) => Ok(Order {
            instances,
            sequence,
            expanded,
        }),
        Err(fault) => Err(fault),
    }
}
