//! Laws, each the contract of a function that does nothing.

ghost use Rattle.std.specs.Prelude.{◌≡◌, map};
ghost use Rattle.rv_base.specs.declared.value.Trace.{Trace};
ghost use Rattle.rv_tree.specs.Tree.{ProgramTree};
ghost use Rattle.rv_tree.specs.Places.{Identifier};
ghost use Rattle.rv_types.specs.Instances.{IsNode};
ghost use Rattle.rv_types.specs.WellFormed.{AreWell};
ghost use Rattle.rv_proofs.specs.declared.certificate.Certificate.{Certificate};
ghost use Rattle.rv_flat.specs.declared.flat.Flat.{Flat as FlatModel};
ghost use Rattle.rv_flat.specs.FlatOf.{IsFlatOf};
ghost use Rattle.rv_flat.specs.Systems.{memory_of};
ghost use Rattle.rv_control.specs.Control.{control_of};
ghost use Rattle.rv_invfile.specs.Traces.{trace_rule, trace_records};
ghost use Rattle.rv_invariant.specs.Certificates.{certificate_rule, certificate_records};

use rv_agreement::{one_symbolic_instant, same_symbolic_instants, translated_expressions};
use rv_rows::tightened_rows;

/// Two flat systems of one program have the same main node, diagram variables, inputs, columns, labels and thresholds, and memories
/// at the same places with the same types.
pub fn alike_names()
    ensures main { (program : ProgramTree) (main : Identifier) (f g : FlatModel) → AreWell program → IsNode program main
        → IsFlatOf program main f → IsFlatOf program main g → f.main ≡ g.main }
    ensures variables { (program : ProgramTree) (main : Identifier) (f g : FlatModel) → AreWell program → IsNode program main
        → IsFlatOf program main f → IsFlatOf program main g → f.variables ≡ g.variables }
    ensures inputs { (program : ProgramTree) (main : Identifier) (f g : FlatModel) → AreWell program → IsNode program main
        → IsFlatOf program main f → IsFlatOf program main g → f.inputs ≡ g.inputs }
    ensures columns { (program : ProgramTree) (main : Identifier) (f g : FlatModel) → AreWell program → IsNode program main
        → IsFlatOf program main f → IsFlatOf program main g → f.columns ≡ g.columns }
    ensures labels { (program : ProgramTree) (main : Identifier) (f g : FlatModel) → AreWell program → IsNode program main
        → IsFlatOf program main f → IsFlatOf program main g → f.labels ≡ g.labels }
    ensures memories { (program : ProgramTree) (main : Identifier) (f g : FlatModel) → AreWell program → IsNode program main
        → IsFlatOf program main f → IsFlatOf program main g → map memory_of f.memories ≡ map memory_of g.memories }
    ensures thresholds { (program : ProgramTree) (main : Identifier) (f g : FlatModel) → AreWell program → IsNode program main
        → IsFlatOf program main f → IsFlatOf program main g → f.thresholds ≡ g.thresholds }
{}

/// Two flat systems of one program are one system of valuations: they have the same counts, initial and allowed valuations, rows of
/// tests, updates, observer and next control states.
pub fn alike_systems()
    ensures { (program : ProgramTree) (main : Identifier) (f g : FlatModel) → AreWell program → IsNode program main
        → IsFlatOf program main f → IsFlatOf program main g → control_of f ≡ control_of g }
{
    same_symbolic_instants();
    one_symbolic_instant();
    translated_expressions();
    tightened_rows();
}

/// Two flat systems of one program have the same documents of certificates and of traces: by one rule these are read, and a
/// certificate or a trace is written as the same records.
pub fn alike_documents()
    ensures certificate_rules { (program : ProgramTree) (main : Identifier) (f g : FlatModel) → AreWell program → IsNode program main
        → IsFlatOf program main f → IsFlatOf program main g → certificate_rule f ≡ certificate_rule g }
    ensures certificates { (program : ProgramTree) (main : Identifier) (f g : FlatModel) (c : Certificate) → AreWell program → IsNode program main
        → IsFlatOf program main f → IsFlatOf program main g → certificate_records f c ≡ certificate_records g c }
    ensures trace_rules { (program : ProgramTree) (main : Identifier) (f g : FlatModel) → AreWell program → IsNode program main
        → IsFlatOf program main f → IsFlatOf program main g → trace_rule f ≡ trace_rule g }
    ensures traces { (program : ProgramTree) (main : Identifier) (f g : FlatModel) (t : Trace) → AreWell program → IsNode program main
        → IsFlatOf program main f → IsFlatOf program main g → trace_records f t ≡ trace_records g t }
{
    alike_names();
    alike_systems();
}
