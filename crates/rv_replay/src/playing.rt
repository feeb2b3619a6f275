//! The replay of a trace over a flat system: one step for each instant, and nothing kept but the state.

ghost use Rattle.std.specs.Prelude.{◌≡◌, cond, IfOk, IfErr, List};
ghost use Rattle.rv_base.specs.declared.value.Value.{Value as ValueModel};
ghost use Rattle.rv_tree.specs.Tree.{ProgramTree};
ghost use Rattle.rv_tree.specs.Places.{Identifier};
ghost use Rattle.rv_flat.specs.declared.flat.Flat.{Flat as FlatModel};
ghost use Rattle.rv_flat.specs.declared.state.State.{State as StateModel};
ghost use Rattle.rv_flat.specs.Steps.{AreValues, IsState, input_kinds};
ghost use Rattle.rv_step.specs.Stepping.{IsStepped};
ghost use Rattle.rv_replay.specs.Observers.{HasTruth, IsObserved};
ghost use Rattle.rv_replay.specs.Playing.{AnswersUnlessMemory, IsEndFault, IsPlayedOf, IsTurn};
ghost use Rattle.rv_replay.specs.Traces.{IsFlatTrace};

use crate::replayed::{ReplayFault, Replayed};
use rv_base::{Many, Trace, Value};
use rv_flat::{Flat, State, flat_states};
use rv_meaning::typed_instants;
use rv_step::{StepFault, Stepped, start, step};
use std::alloc::Global;

/// What one instant of a replay comes to: its end, or the state after the instant.
#[derive(Debug, Drop)]
pub enum Turn {
    /// The replay ends with this.
    Ends(Replayed),
    /// It goes on from this state.
    GoesOn(State),
}

/// What an instant at which no assertion is false comes to, by its observer and the state after it.
fn seen(number: u32, observer: bool, next: State) -> Turn
    ensures { result ≡ cond observer (Turn.GoesOn next) (Turn.Ends (Replayed.Falsified number)) }
{
    if observer {
        Turn::GoesOn(next)
    } else {
        Turn::Ends(Replayed::Falsified(number))
    }
}

/// What the instant with this number comes to, by what it gives: a false assertion is told before a false observer.
fn turn_of(number: u32, stepped: Stepped) -> Turn
    ensures { (f : FlatModel) (now : StateModel) (inputs : List ValueModel) → IsStepped f now inputs stepped
        → HasTruth f stepped.values → IsTurn f number now inputs result }
{
    let Stepped {
        next,
        observer,
        broken,
        ..
    } = stepped;
    match broken {
        Some(place) => Turn::Ends(Replayed::AssertionFails(number, place)),
        None => seen(number, observer, next),
    }
}

/// What the instant with this number comes to, from a state and inputs. A value that leaves the range is told first.
fn take_turn(
    alloc: Global,
    flat: &Flat,
    number: u32,
    now: &State,
    input: &Many<Value>,
) -> Result<Turn, ReplayFault>
    requires program { (program : ProgramTree) × (main : Identifier) × IsObserved program main flat.now }
    requires state { IsState flat.now now.now }
    requires inputs { AreValues flat.now (input_kinds flat.now) input.now }
    ensures turn { IfOk result (IsTurn flat.now number now.now input.now) }
    ensures fault { IfErr result (IsEndFault flat.now number now.now input.now) }
{
    typed_instants();
    flat_states();
    match step(alloc, flat, now, input) {
        Ok(stepped) => Ok(turn_of(number, stepped)),
        Err(StepFault::Outgrown(place)) => Err(ReplayFault::Outgrown(number, place)),
        Err(StepFault::Memory) => Err(ReplayFault::Memory),
    }
}

/// The replay of a trace over the flat system of a well formed program, instant by instant up to the first that ends it.
pub fn play(alloc: Global, flat: &Flat, trace: &Trace) -> Result<Replayed, ReplayFault>
    requires program { (program : ProgramTree) × (main : Identifier) × IsObserved program main flat.now }
    requires trace { IsFlatTrace flat.now trace.now }
    ensures { AnswersUnlessMemory (IsPlayedOf flat.now trace.now) result }
{
    let mut now = start(alloc, flat, &trace.starts)?;
    for number in 0..trace.instants.len() {
        let input = trace.instants.at(number);
        match take_turn(alloc, flat, number as u32, &now, input) {
            Ok(Turn::Ends(end)) => return Ok(end),
            Ok(Turn::GoesOn(next)) => now = next,
            Err(fault) => return Err(fault),
        }
    }
    Ok(Replayed::NeverFalse)
}
