//! The rules of names, types and clocks, in turn.

ghost use Rattle.std.specs.Prelude.{◌≡◌, ◌<◌, [], map, length, IfOk, IfErr};
ghost use Rattle.rv_tree.specs.Places.{Identifier};
ghost use Rattle.rv_types.specs.Names.{name_faults};
ghost use Rattle.rv_types.specs.Kinds.{flow_kinds};
ghost use Rattle.rv_types.specs.Scopes.{constant_values, type_faults, observer_faults};
ghost use Rattle.rv_types.specs.Clocks.{flow_clocks, clock_faults};
ghost use Rattle.rv_tree.specs.Bounded.{IsBounded};
ghost use Rattle.rv_tree.specs.SourceTrees.{IsSourceTree};
ghost use Rattle.rv_tree.specs.Tree.{program_tree};
ghost use Rattle.rv_types.specs.declared.fault.NameFault.{NameFault};
ghost use Rattle.rv_types.specs.declared.typed.Typed.{Typed};
ghost use Rattle.rv_types.specs.Earliest.{first};
ghost use Rattle.rv_types.specs.Known.{first_spaces};
ghost use Rattle.rv_types.specs.Settled.{node_number, IsNamed, IsFaultOf, IsSettled, IsFirstFault, HasCause, Answers, Refuses};

use crate::clocks::time_nodes;
use crate::fault::NameFault;
use crate::names::name_all;
use crate::observer::observer_fault;
use crate::spaces::{Declared, Spaces};
use crate::typed::{Clock, Kind, Typed};
use crate::types::{ProgramTypes, types_of};
use rv_base::{Many, Text};
use rv_tree::Program;
use std::alloc::Global;

/// The types of a program and the number of its main node.
#[derive(Drop)]
struct Judged {
    types: ProgramTypes,
    main: u32,
}

/// The types of all flows and the values of all constants of a program in which no rule of types is broken, beside the
/// number of its main node.
fn check_types(alloc: Global, p: &Program, spaces: &Spaces, main: u32) -> Result<Judged, NameFault>
    requires bounded { IsBounded (program_tree p.now) }
    requires spaces { spaces.now ≡ first_spaces (program_tree p.now) }
    requires names { name_faults (program_tree p.now) ≡ [] }
    ensures named { (x : Identifier) → IsNamed (program_tree p.now) x main → IfOk result (λ j. IsNamed (program_tree p.now) x j.main) }
    ensures kinds { IfOk result (λ j. j.types.kinds ≡ map (flow_kinds (program_tree p.now)) (program_tree p.now).nodes) }
    ensures constants { IfOk result (λ j. j.types.constants ≡ constant_values (program_tree p.now)) }
    ensures right { IfOk result (λ j. type_faults (program_tree p.now) ≡ []) }
    ensures refused { (x : Identifier) → IsNamed (program_tree p.now) x main → IfErr result (HasCause (program_tree p.now) x) }
{
    let types = types_of(alloc, p, spaces)?;
    match types.fault {
        Some(fault) => Err(fault),
        None => Ok(Judged { types, main }),
    }
}

/// The types of a program in which there is the main node and no rule of names or types is broken, by its spaces and
/// the first fault of names.
fn check_declared(
    alloc: Global,
    p: &Program,
    declared: &Declared,
    main: &Text,
) -> Result<Judged, NameFault>
    requires bounded { IsBounded (program_tree p.now) }
    requires spaces { declared.now.spaces ≡ first_spaces (program_tree p.now) }
    requires fault { declared.now.fault ≡ first (name_faults (program_tree p.now)) }
    ensures named { IfOk result (λ j. IsNamed (program_tree p.now) main.now j.main) }
    ensures kinds { IfOk result (λ j. j.types.kinds ≡ map (flow_kinds (program_tree p.now)) (program_tree p.now).nodes) }
    ensures constants { IfOk result (λ j. j.types.constants ≡ constant_values (program_tree p.now)) }
    ensures right { IfOk result (λ j. type_faults (program_tree p.now) ≡ []) }
    ensures refused { IfErr result (HasCause (program_tree p.now) main.now) }
{
    match declared.spaces.nodes.number(main) {
        None => Err(NameFault::NoNode),
        Some(number) => match declared.fault {
            Some(fault) => Err(fault),
            None => check_types(alloc, p, &declared.spaces, number as u32),
        },
    }
}

/// The types of a program in which there is the main node and no rule of names or types is broken.
fn check_names_and_types(alloc: Global, p: &Program, main: &Text) -> Result<Judged, NameFault>
    requires { IsBounded (program_tree p.now) }
    ensures named { IfOk result (λ j. IsNamed (program_tree p.now) main.now j.main) }
    ensures kinds { IfOk result (λ j. j.types.kinds ≡ map (flow_kinds (program_tree p.now)) (program_tree p.now).nodes) }
    ensures constants { IfOk result (λ j. j.types.constants ≡ constant_values (program_tree p.now)) }
    ensures right { IfOk result (λ j. type_faults (program_tree p.now) ≡ []) }
    ensures refused { IfErr result (HasCause (program_tree p.now) main.now) }
{
    let declared = name_all(alloc, p)?;
    check_declared(alloc, p, &declared, main)
}

/// The clocks of all flows of a program in which no rule of clocks is broken.
fn check_clocks(alloc: Global, p: &Program) -> Result<Many<Many<Clock>>, NameFault>
    requires bounded { IsBounded (program_tree p.now) }
    requires names { name_faults (program_tree p.now) ≡ [] }
    ensures clocks { IfOk result (λ c. c ≡ map flow_clocks (program_tree p.now).nodes) }
    ensures right { IfOk result (λ c. clock_faults (program_tree p.now) ≡ []) }
    ensures refused { IfErr result (IsFaultOf (clock_faults (program_tree p.now))) }
{
    let times = time_nodes(alloc, p.nodes.as_slice())?;
    match times.fault {
        Some(fault) => Err(fault),
        None => Ok(times.clocks),
    }
}

/// Whether the main node is an observer.
fn check_observer(p: &Program, kinds: &Many<Many<Kind>>, main: u32) -> Result<(), NameFault>
    requires within { main < length p.now.nodes }
    requires kinds { kinds.now ≡ map (flow_kinds (program_tree p.now)) (program_tree p.now).nodes }
    ensures right { (x : Identifier) → main ≡ node_number (program_tree p.now) x → IfOk result (λ done. observer_faults (program_tree p.now) x ≡ []) }
    ensures refused { (x : Identifier) → main ≡ node_number (program_tree p.now) x → IfErr result (IsFaultOf (observer_faults (program_tree p.now) x)) }
{
    match observer_fault(p, kinds, main as usize) {
        Some(fault) => Err(fault),
        None => Ok(()),
    }
}

/// The clocks of all flows of a program in which no rule of clocks is broken and the main node is an observer.
fn check_times(
    alloc: Global,
    p: &Program,
    kinds: &Many<Many<Kind>>,
    main: u32,
) -> Result<Many<Many<Clock>>, NameFault>
    requires bounded { IsBounded (program_tree p.now) }
    requires names { name_faults (program_tree p.now) ≡ [] }
    requires types { type_faults (program_tree p.now) ≡ [] }
    requires within { main < length p.now.nodes }
    requires kinds { kinds.now ≡ map (flow_kinds (program_tree p.now)) (program_tree p.now).nodes }
    ensures clocks { IfOk result (λ c. c ≡ map flow_clocks (program_tree p.now).nodes) }
    ensures right { IfOk result (λ c. clock_faults (program_tree p.now) ≡ []) }
    ensures observer { (x : Identifier) → main ≡ node_number (program_tree p.now) x → IfOk result (λ c. observer_faults (program_tree p.now) x ≡ []) }
    ensures refused { (x : Identifier) → IsNamed (program_tree p.now) x main → IfErr result (HasCause (program_tree p.now) x) }
{
    let clocks = check_clocks(alloc, p)?;
    check_observer(p, kinds, main)?;
    Ok(clocks)
}

/// The types, clocks and constants of a program, or its first fault.
fn settled(alloc: Global, p: &Program, main: &Text) -> Result<Typed, NameFault>
    requires { IsBounded (program_tree p.now) }
    ensures found { IfOk result (λ t. IsSettled (program_tree p.now) main.now t) }
    ensures refused { IfErr result (HasCause (program_tree p.now) main.now) }
{
    let Judged {
        types,
        main: number,
    } = check_names_and_types(alloc, p, main)?;
    let clocks = check_times(alloc, p, &types.kinds, number)?;
    Ok(Typed {
        main: number,
        kinds: types.kinds,
        clocks,
        constants: types.constants,
    })
}

/// Checks the rules of names, types and clocks, and that the main node is an observer: it has one output, which is
/// Boolean. It answers the types and clocks of all flows and the values of all constants.
///
/// Otherwise it answers the first fault. `NoNode` comes before all others, then the faults of names, of types, of
/// clocks and of the observer; within one of these the least offset decides, and at one offset the least number.
/// The program is to be the tree of a source. `Memory` comes where memory runs out. Time grows with the
/// length of the source and its logarithm, since the type and the clock of a group of flows are looked up once. Names
/// are found by hashes with a fixed seed: those that are chosen to collide take longer.
pub fn settle(alloc: Global, p: &Program, main: &str) -> Result<Typed, NameFault>
    requires { IsSourceTree (program_tree p.now) }
    // What is answered meets every rule, with these types, clocks and constants.
    ensures found { IfOk result (λ t. IsSettled (program_tree p.now) main.now t) }
    // Where every rule is met that is answered, unless memory runs out.
    ensures only { (t : Typed) → IsSettled (program_tree p.now) main.now t → Answers t result }
    // A fault that is answered is the first.
    ensures refused { IfErr result (HasCause (program_tree p.now) main.now) }
    // Where a fault is the first it is answered, unless memory runs out.
    ensures only_refused { (f : NameFault) → IsFirstFault (program_tree p.now) main.now f → Refuses f result }
{
    let main = Text::from_str(alloc, main)?;
    settled(alloc, p, &main)
}
