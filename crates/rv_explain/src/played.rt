//! A trace, played instant by instant up to the first that ends it.

ghost use Rattle.std.specs.Prelude.{◌≡◌};
ghost use Rattle.rv_flat.specs.declared.state.State.{State as StateModel};
ghost use Rattle.rv_flat.specs.Steps.{AreValues, IsState, input_kinds};
ghost use Rattle.rv_invfile.specs.Traces.{IsTraceOf};

use rv_base::{Many, Memory, Place, Trace, Value};
use rv_flat::{Flat, State};
use rv_step::{StepFault, Stepped, start, step};
use std::alloc::Global;
use std::collections::VecDeque;

/// The most instants of which the values are shown, and the most values of all of them; of a longer trace these are the last.
const SHOWN: usize = 1_000;

const VALUES: usize = 200_000;

/// How a trace ends.
#[derive(Debug, Drop)]
pub enum Ending {
    /// The observer is false.
    Falsified,
    /// An assertion is false; the least place of one.
    AssertionFails(Place),
    /// An integer leaves the range; the least place of a flow or memory.
    Outgrown(Place),
    /// No instant ends it.
    NeverFalse,
}

/// The last instant of a trace: the state before it and after it, and what each flow has.
#[derive(Debug, Drop)]
pub struct Last {
    /// The state before the instant.
    pub before: State,
    /// The state after it.
    pub after: State,
    /// What each flow has.
    pub values: Many<Option<Value>>,
}

/// What a trace does: for each instant that is shown what each chosen flow has, how it ends, the number of the instant that ends it, or of
/// instants where none does, and that instant where it has values.
#[derive(Drop)]
pub struct Played {
    /// For each instant that is shown what each chosen flow has.
    pub shown: VecDeque<Vec<Option<Value>>>,
    /// How it ends.
    pub ending: Ending,
    /// The number of the instant that ends it, from 0.
    pub at: usize,
    /// That instant.
    pub last: Option<Last>,
}

/// What the chosen flows have.
fn chosen_of(
    alloc: Global,
    chosen: &[u32],
    values: &Many<Option<Value>>,
) -> Result<Vec<Option<Value>>, Memory> {
    let mut row = Vec::new(alloc);
    for number in chosen {
        match values.get(*number as usize) {
            Some(value) => row.push(*value)?,
            None => row.push(None)?,
        }
    }
    Ok(row)
}

/// Adds what the chosen flows have at an instant, and lets the first go where there are too many.
fn keep(
    alloc: Global,
    shown: &mut VecDeque<Vec<Option<Value>>>,
    chosen: &[u32],
    values: &Many<Option<Value>>,
) -> Result<(), Memory> {
    shown.push_back(chosen_of(alloc, chosen, values)?)?;
    if shown.len() > SHOWN || shown.len().saturating_mul(chosen.len()) > VALUES {
        let _ = shown.pop_front();
    }
    Ok(())
}

/// What one instant of a trace comes to: its end, with the state after it and what each flow has there, or the state after it.
#[derive(Drop)]
enum Turn {
    /// The trace ends with this; the state after it and the values stand beside it where there are some.
    Ends(Ending, Option<(State, Many<Option<Value>>)>),
    /// It goes on from this state.
    GoesOn(State),
}

/// What an instant comes to at which no assertion is false, by its observer.
fn turn_of(observer: bool, next: State, values: Many<Option<Value>>) -> Turn
    ensures { (n : StateModel) → result ≡ Turn.GoesOn n → next ≡ n }
{
    if observer {
        Turn::GoesOn(next)
    } else {
        Turn::Ends(Ending::Falsified, Some((next, values)))
    }
}

/// What an instant comes to, by what it gives: a false assertion is told before a false observer.
fn seen(stepped: Stepped) -> Turn
    ensures { (n : StateModel) → result ≡ Turn.GoesOn n → stepped.next ≡ n }
{
    let Stepped {
        next,
        values,
        observer,
        broken,
    } = stepped;
    match broken {
        Some(place) => Turn::Ends(Ending::AssertionFails(place), Some((next, values))),
        None => turn_of(observer, next, values),
    }
}

/// What one instant of a trace comes to from a state. What the chosen flows have is kept.
fn take_turn(
    alloc: Global,
    flat: &Flat,
    before: &State,
    input: &Many<Value>,
    chosen: &[u32],
    shown: &mut VecDeque<Vec<Option<Value>>>,
) -> Result<Turn, Memory>
    requires state { IsState flat.now before.now }
    requires inputs { AreValues flat.now (input_kinds flat.now) input.now }
    ensures { (n : StateModel) → result ≡ Ok (Turn.GoesOn n) → IsState flat.now n }
{
    match step(alloc, flat, before, input) {
        Ok(stepped) => {
            keep(alloc, shown, chosen, &stepped.values)?;
            Ok(seen(stepped))
        }
        Err(StepFault::Outgrown(place)) => Ok(Turn::Ends(Ending::Outgrown(place), None)),
        Err(StepFault::Memory) => Err(Memory::Memory),
    }
}

/// The instant that ends a trace, where it has values.
fn last_of(before: State, given: Option<(State, Many<Option<Value>>)>) -> Option<Last> {
    match given {
        Some((after, values)) => Some(Last {
            before,
            after,
            values,
        }),
        None => None,
    }
}

/// Plays a trace of a flat system, with the numbers of the flows whose values are to be shown.
pub fn play(alloc: Global, flat: &Flat, trace: &Trace, chosen: &[u32]) -> Result<Played, Memory>
    requires { IsTraceOf flat.now trace.now }
{
    let mut before = start(alloc, flat, &trace.starts)?;
    let mut shown = VecDeque::new(alloc);
    for number in 0..trace.instants.len() {
        let input = trace.instants.at(number);
        match take_turn(alloc, flat, &before, input, chosen, &mut shown) {
            Ok(Turn::Ends(ending, given)) => {
                return Ok(Played {
                    shown,
                    ending,
                    at: number,
                    last: last_of(before, given),
                });
            }
            Ok(Turn::GoesOn(next)) => before = next,
            Err(fault) => return Err(fault),
        }
    }
    Ok(Played {
        shown,
        ending: Ending::NeverFalse,
        at: trace.instants.len(),
        last: None,
    })
}
