//! Laws of traces, each the contract of a function that does nothing.

ghost use Rattle.rv_base.specs.declared.value.Trace.{Trace as TraceModel};
ghost use Rattle.rv_tree.specs.Tree.{ProgramTree};
ghost use Rattle.rv_tree.specs.Places.{Identifier};
ghost use Rattle.rv_types.specs.Instances.{IsNode};
ghost use Rattle.rv_types.specs.WellFormed.{AreWell};
ghost use Rattle.rv_flat.specs.declared.flat.Flat.{Flat as FlatModel};
ghost use Rattle.rv_flat.specs.FlatOf.{IsFlatOf};
ghost use Rattle.rv_replay.specs.Traces.{IsFlatTrace, IsTrace};

use rv_flat::flat_states;

/// A trace of a well formed program is one of its flat system, and the other way: who reads a trace by the memories, inputs and
/// labels of a flat system has one of the program.
pub fn flat_traces()
    ensures flat { (program : ProgramTree) (main : Identifier) (f : FlatModel) (t : TraceModel)
        → AreWell program → IsNode program main → IsFlatOf program main f → IsTrace program main t → IsFlatTrace f t }
    ensures back { (program : ProgramTree) (main : Identifier) (f : FlatModel) (t : TraceModel)
        → AreWell program → IsNode program main → IsFlatOf program main f → IsFlatTrace f t → IsTrace program main t }
{
    flat_states();
}
