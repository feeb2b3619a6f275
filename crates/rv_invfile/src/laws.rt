//! Laws of documents, each the contract of a function that does nothing.

ghost use Rattle.std.specs.Prelude.{◌≡◌, ◌<◌, ◌^◌, ◌++◌, ◌∷◌, [], ◌↔◌, List, None, length};
ghost use Rattle.rv_base.specs.declared.value.Trace.{Trace as TraceModel};
ghost use Rattle.rv_tree.specs.Tree.{ProgramTree};
ghost use Rattle.rv_tree.specs.Places.{Identifier};
ghost use Rattle.rv_tree.specs.SourceTrees.{IsSourceTree};
ghost use Rattle.rv_types.specs.declared.typed.Typed.{Typed as TypedModel};
ghost use Rattle.rv_types.specs.Instances.{IsNode};
ghost use Rattle.rv_types.specs.Settled.{IsSettled};
ghost use Rattle.rv_flat.specs.declared.flat.Flat.{Flat as FlatModel};
ghost use Rattle.rv_flat.specs.FlatOf.{IsFlatOf};
ghost use Rattle.rv_invfile.specs.Rules.{Fields, HasNoFault, fault_after};
ghost use Rattle.rv_invfile.specs.Spells.{BeginsDocument};
ghost use Rattle.rv_invfile.specs.Told.{HasValues, IsTold};
ghost use Rattle.rv_tree.specs.Words.{HasPlainNames};
ghost use Rattle.rv_invfile.specs.Traces.{Fits, IsTraceOf, trace_rule};

/// After records at which no fault is, a record is awaited exactly where those and it begin the document of a trace.
pub fn awaited_records()
    ensures { (f : FlatModel) → IsTold f → HasValues f → (before : List Fields) (r : Fields) → HasNoFault (trace_rule f) before
        → (fault_after (trace_rule f) before r ≡ None) ↔ BeginsDocument (trace_rule f) (before ++ r ∷ []) }
{}

/// What documents ask of a flat system is so of that of a program which keeps the rules of names, types and clocks, where the
/// names in its text are letters, digits and `_`. No list that is held has 2^64 elements.
pub fn told_systems()
    ensures { (p : ProgramTree) (main other : Identifier) (t : TypedModel) (f : FlatModel)
        → IsSourceTree p → HasPlainNames p → IsSettled p other t → IsNode p main → IsFlatOf p main f → length f.memories < 2 ^ 64 → IsTold f }
{}

/// A trace has the counts and ranges of the document of a flat system exactly where its values are such as the system takes: a
/// start value of each memory, and a value of each input at each instant, of their types and within the range.
pub fn fitting_traces()
    ensures { (f : FlatModel) (t : TraceModel) → Fits f t ↔ IsTraceOf f t }
{}

/// All flat systems of one program await the same records: whether bytes are the document of a trace of the program, of which trace,
/// and what their first fault is, is the same by each.
pub fn one_trace_rule()
    ensures { (p : ProgramTree) (main : Identifier) (f g : FlatModel) → IsFlatOf p main f → IsFlatOf p main g → trace_rule f ≡ trace_rule g }
{}
