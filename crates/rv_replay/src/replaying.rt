//! The replay of a trace over an accepted source.

ghost use Rattle.std.specs.Prelude.{◌≡◌, ℕ};
ghost use Rattle.rv_base.specs.declared.value.Place.{Place as PlaceModel};
ghost use Rattle.rv_tree.specs.Tree.{program_tree};
ghost use Rattle.rv_types.specs.Instances.{name_at};
ghost use Rattle.rv_flat.specs.FlatOf.{IsFlatOf};
ghost use Rattle.rv_replay.specs.Replays.{FailsAt, IsFalsifiedAt, IsUnlessMemory, NeverEnds, OutgrowsAt};
ghost use Rattle.rv_replay.specs.Traces.{IsTrace};

use crate::playing::play;
use crate::replayed::{ReplayFault, Replayed};
use rv_base::Trace;
use rv_flat::{Flat, flat_states, steps_give_run};
use rv_flatten::{fitting_sources, flatten};
use rv_instances::Source;
use rv_meaning::{run_is_instants, some_run, states_of_run};
use rv_types::well_formed_programs;
use std::alloc::Global;

/// What a trace does to the program of an accepted source: one start value for each memory, in the order of their places, and at
/// each instant one value for each input of the main node, all of their types and the integers within -2^63 to 2^63 - 1.
/// Instants are taken in order, and the first that ends the replay decides. At an instant `Outgrown` comes first, with the least
/// place at which an integer leaves that range, then `AssertionFails` with the least place of a false assertion, then `Falsified`
/// where the observer is false; `NeverFalse` comes where no instant ends it, and `Memory` where memory runs out. Time grows with
/// the instants times the flat system, and nothing is kept of earlier instants but the state.
pub fn replay(alloc: Global, source: &Source, trace: &Trace) -> Result<Replayed, ReplayFault>
    requires trace { IsTrace (program_tree source.now.program) (name_at (program_tree source.now.program) source.now.typed.main) trace.now }
    ensures falsified { (k : ℕ) → result ≡ Ok (Replayed.Falsified k)
        → IsFalsifiedAt (program_tree source.now.program) (name_at (program_tree source.now.program) source.now.typed.main) trace.now k }
    ensures only_falsified { (k : ℕ)
        → IsFalsifiedAt (program_tree source.now.program) (name_at (program_tree source.now.program) source.now.typed.main) trace.now k
        → IsUnlessMemory (Ok (Replayed.Falsified k)) result }
    ensures fails { (k : ℕ) (p : PlaceModel) → result ≡ Ok (Replayed.AssertionFails k p)
        → FailsAt (program_tree source.now.program) (name_at (program_tree source.now.program) source.now.typed.main) trace.now k p }
    ensures only_fails { (k : ℕ) (p : PlaceModel)
        → FailsAt (program_tree source.now.program) (name_at (program_tree source.now.program) source.now.typed.main) trace.now k p
        → IsUnlessMemory (Ok (Replayed.AssertionFails k p)) result }
    ensures never { result ≡ Ok Replayed.NeverFalse
        → NeverEnds (program_tree source.now.program) (name_at (program_tree source.now.program) source.now.typed.main) trace.now }
    ensures only_never { NeverEnds (program_tree source.now.program) (name_at (program_tree source.now.program) source.now.typed.main) trace.now
        → IsUnlessMemory (Ok Replayed.NeverFalse) result }
    ensures outgrown { (k : ℕ) (p : PlaceModel) → result ≡ Err (ReplayFault.Outgrown k p)
        → OutgrowsAt (program_tree source.now.program) (name_at (program_tree source.now.program) source.now.typed.main) trace.now k p }
    ensures only_outgrown { (k : ℕ) (p : PlaceModel)
        → OutgrowsAt (program_tree source.now.program) (name_at (program_tree source.now.program) source.now.typed.main) trace.now k p
        → IsUnlessMemory (Err (ReplayFault.Outgrown k p)) result }
{
    let flat = flatten(alloc, source)?;
    replay_flat(alloc, source, &flat, trace)
}

/// The same of an accepted source with its flat system, which is handed in: who replays many traces flattens the source once.
pub fn replay_flat(
    alloc: Global,
    source: &Source,
    flat: &Flat,
    trace: &Trace,
) -> Result<Replayed, ReplayFault>
    requires flat { IsFlatOf (program_tree source.now.program) (name_at (program_tree source.now.program) source.now.typed.main) flat.now }
    requires trace { IsTrace (program_tree source.now.program) (name_at (program_tree source.now.program) source.now.typed.main) trace.now }
    ensures falsified { (k : ℕ) → result ≡ Ok (Replayed.Falsified k)
        → IsFalsifiedAt (program_tree source.now.program) (name_at (program_tree source.now.program) source.now.typed.main) trace.now k }
    ensures only_falsified { (k : ℕ)
        → IsFalsifiedAt (program_tree source.now.program) (name_at (program_tree source.now.program) source.now.typed.main) trace.now k
        → IsUnlessMemory (Ok (Replayed.Falsified k)) result }
    ensures fails { (k : ℕ) (p : PlaceModel) → result ≡ Ok (Replayed.AssertionFails k p)
        → FailsAt (program_tree source.now.program) (name_at (program_tree source.now.program) source.now.typed.main) trace.now k p }
    ensures only_fails { (k : ℕ) (p : PlaceModel)
        → FailsAt (program_tree source.now.program) (name_at (program_tree source.now.program) source.now.typed.main) trace.now k p
        → IsUnlessMemory (Ok (Replayed.AssertionFails k p)) result }
    ensures never { result ≡ Ok Replayed.NeverFalse
        → NeverEnds (program_tree source.now.program) (name_at (program_tree source.now.program) source.now.typed.main) trace.now }
    ensures only_never { NeverEnds (program_tree source.now.program) (name_at (program_tree source.now.program) source.now.typed.main) trace.now
        → IsUnlessMemory (Ok Replayed.NeverFalse) result }
    ensures outgrown { (k : ℕ) (p : PlaceModel) → result ≡ Err (ReplayFault.Outgrown k p)
        → OutgrowsAt (program_tree source.now.program) (name_at (program_tree source.now.program) source.now.typed.main) trace.now k p }
    ensures only_outgrown { (k : ℕ) (p : PlaceModel)
        → OutgrowsAt (program_tree source.now.program) (name_at (program_tree source.now.program) source.now.typed.main) trace.now k p
        → IsUnlessMemory (Err (ReplayFault.Outgrown k p)) result }
{
    fitting_sources();
    well_formed_programs();
    run_is_instants();
    states_of_run();
    some_run();
    steps_give_run();
    flat_states();
    play(alloc, flat, trace)
}
