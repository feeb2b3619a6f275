//! What follows from the definitions alone.

ghost use Rattle.std.specs.Prelude.{◌≡◌, ◌<◌, ◌≤◌, [], ℕ, List, length, slice_index_or, true};
ghost use Rattle.std.specs.List.{Contains};
ghost use Rattle.rv_tree.specs.Bounded.{IsBounded};
ghost use Rattle.rv_tree.specs.Places.{Identifier, Sites, is_among};
ghost use Rattle.rv_tree.specs.Tree.{ProgramTree};
ghost use Rattle.rv_types.specs.Names.{name_faults};
ghost use Rattle.rv_types.specs.WellFormed.{AreWell, AreSited};
ghost use Rattle.rv_instances.specs.AllInstances.{names_of, AreFed, AreInstances};
ghost use Rattle.rv_instances.specs.Counts.{instance_count};
ghost use Rattle.rv_types.specs.Instances.{Instance as InstanceTree, IsInstance, all_instances, name_at};
ghost use Rattle.rv_instances.specs.declared.answer.Instance.{Instance as InstanceModel};
ghost use Rattle.rv_instances.specs.Expanded.{IsExpanded};
ghost use Rattle.rv_calls.specs.Reach.{HasNoRecursion};
ghost use Rattle.rv_types.specs.Needs.{IsSequence, IsCycle};
ghost use Rattle.rv_tree.specs.SourceTrees.{IsSourceTree};
ghost use Rattle.rv_types.specs.declared.typed.Typed.{Typed as TypedModel};
ghost use Rattle.rv_types.specs.Settled.{IsAnswer};
ghost use Rattle.rv_instances.specs.declared.answer.Order.{Order as OrderModel};
ghost use Rattle.rv_instances.specs.Fitting.{Fits};
ghost use Rattle.rv_causality.specs.Causes.{IsOrder};

use rv_types::{sited_programs, well_formed_programs};

/// Where no node reaches itself, the instances over which sizes are counted are all instances of the program. Each of them
/// is counted once: no two have one path.
pub fn counted_instances()
    ensures all { (p : ProgramTree) (main : Identifier) (i : InstanceTree) → name_faults p ≡ [] → HasNoRecursion p → is_among (names_of p) main ≡ true
        → IsInstance p main i → Contains (all_instances p main) i }
    ensures only { (p : ProgramTree) (main : Identifier) (i : InstanceTree) → Contains (all_instances p main) i → IsInstance p main i }
    ensures once { (p : ProgramTree) (main : Identifier) (j k : ℕ) (i : InstanceTree) → name_faults p ≡ [] → AreSited p → j < k
        → k < length (all_instances p main) → (slice_index_or (all_instances p main) j i).path ≡ (slice_index_or (all_instances p main) k i).path → ⊥ }
{}

/// Where there is an order of evaluation, no flow needs itself at one instant.
pub fn no_cycle()
    ensures { (p : ProgramTree) (main : Identifier) (sequence cycle : List Sites) → name_faults p ≡ [] → is_among (names_of p) main ≡ true → AreFed p
        → IsSequence p main sequence → IsCycle p main cycle → ⊥ }
{}

/// A program whose names, types and clocks are right is known with its instances, where these are no more than they may
/// be.
pub fn expanded_program()
    ensures { (p : ProgramTree) (main : ℕ) (instances : List InstanceModel) → IsBounded p → name_faults p ≡ [] → AreSited p → AreWell p → HasNoRecursion p
        → main < length p.nodes → AreInstances p (name_at p main) instances → instance_count p (name_at p main) ≤ 4000
        → IsExpanded p (name_at p main) instances }
{}

/// What is answered of an accepted program fits it: the instances are known and few, the sequence is one, expressions are light,
/// and each quantity is within the limits of a flat system.
pub fn ordered_fits()
    ensures { (p : ProgramTree) (t : TypedModel) (o : OrderModel) → IsSourceTree p → IsAnswer p t → IsOrder p (name_at p t.main) o → Fits p t o }
{
    sited_programs();
    well_formed_programs();
    counted_instances();
    expanded_program();
}
