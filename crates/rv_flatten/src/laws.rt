//! What follows for every accepted source, as the contract of a function that does nothing.

ghost use Rattle.rv_tree.specs.Tree.{program_tree};
ghost use Rattle.rv_instances.specs.Fitting.{Fits};
ghost use Rattle.rv_instances.specs.declared.source.Source.{Source as SourceModel};

use rv_types::{sited_programs, well_formed_programs};

/// The parts of every source fit. A source keeps this as a truth alone; that there is one way at most in which each part of it holds, or
/// that a search of the tree finds one, gives it again.
pub fn fitting_sources()
    ensures { (s : SourceModel) → Fits (program_tree s.program) s.typed s.order }
{
    well_formed_programs();
    sited_programs();
}
