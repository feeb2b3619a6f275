//! Runs by chance: from a state that was found, instant after instant, up to one at which the observer is false.

ghost use Rattle.std.specs.Prelude.{◌≡◌, IfOk, IfSome};
ghost use Rattle.rv_flat.specs.Steps.{IsState};
ghost use Rattle.rv_flat.specs.Steps.{memory_kinds as kinds_of_memories, input_kinds as kinds_of_inputs};

use crate::chance::Chance;
use crate::inputs::{first_values, varied};
use crate::novelty::Novelty;
use crate::pool::Pool;
use crate::typed::{are_values, is_state};
use rv_base::{Many, Memory, Trace, Value};
use rv_flat::{Flat, State};
use rv_step::{StepFault, Stepped, step};
use rv_types::Kind;
use std::alloc::Global;

/// How often inputs are tried at a state, where an assertion fails or a value leaves the range.
const TRIES: u32 = 8;

/// What a search goes on from: the instants that are left, the states that were found, and of the run that is under way the state it came
/// from, the inputs since, and the inputs of the last instant.
#[derive(Debug, Drop)]
pub struct Search {
    pub left: u32,
    pub chance: Chance,
    pub novelty: Novelty,
    pub pool: Pool,
    from: usize,
    way: Many<Many<Value>>,
    last: Many<Value>,
}

/// What an instant came to at which no assertion failed and no value left the range.
#[derive(Debug, Drop)]
pub struct Turn {
    pub next: State,
    pub observer: bool,
}

/// What an instant came to; none where an assertion failed.
fn turn_of(stepped: Stepped) -> Option<Turn>
    ensures { IfSome result (λ turn. turn.next ≡ stepped.next) }
{
    let Stepped {
        next,
        observer,
        broken,
        ..
    } = stepped;
    match broken {
        Some(_) => None,
        None => Some(Turn { next, observer }),
    }
}

/// The instant from a state with these inputs; none where an assertion fails or a value leaves the range.
pub fn taken(
    alloc: Global,
    flat: &Flat,
    kinds: &[Kind],
    now: &State,
    inputs: &Many<Value>,
) -> Result<Option<Turn>, Memory>
    requires state { IsState flat.now now.now }
    requires kinds { kinds.now ≡ kinds_of_inputs flat.now }
    ensures next { IfOk result (λ turn. IfSome turn (λ it. IsState flat.now it.next)) }
{
    if !are_values(flat, kinds, inputs.as_slice()) {
        return Ok(None);
    }
    match step(alloc, flat, now, inputs) {
        Ok(stepped) => Ok(turn_of(stepped)),
        Err(StepFault::Outgrown(_)) => Ok(None),
        Err(StepFault::Memory) => Err(Memory::Memory),
    }
}

/// By how many equal chances an input changes at a try: at the first as the run does, then mostly.
fn chances_of(attempt: u32, run: u32) -> u32 {
    match attempt {
        0 => run,
        2 | 4 => 1,
        _ => 2,
    }
}

/// By how many equal chances an input changes at each instant of a run.
fn drawn_chances(chance: &mut Chance) -> u32 {
    match chance.below(6) {
        0 => 2,
        1 => 4,
        2 => 8,
        3 => 32,
        4 => 128,
        _ => 1024,
    }
}

/// How many instants a run has at most.
fn drawn_length(chance: &mut Chance) -> u32 {
    match chance.below(8) {
        0..=2 => 16,
        3..=5 => 64,
        6 => 256,
        _ => 1024,
    }
}

impl Search {
    /// The search before its first run, with so many instants.
    pub fn new(alloc: Global, instants: u32) -> Result<Search, Memory> {
        Ok(Search {
            left: instants,
            chance: Chance::new(),
            novelty: Novelty::new(alloc)?,
            pool: Pool::new(alloc),
            from: 0,
            way: Many::new(alloc),
            last: Many::new(alloc),
        })
    }

    /// Adds a start.
    pub fn add_start(&mut self, alloc: Global, flat: &Flat, start: &State) -> Result<(), Memory> {
        let _is_new = self.novelty.sees_state(flat, start);
        let _number = self.pool.add(start, None, Many::new(alloc))?;
        Ok(())
    }

    /// An instant from a state with inputs by chance; none where each try failed or no instant is left.
    fn advance(
        &mut self,
        alloc: Global,
        flat: &Flat,
        kinds: &[Kind],
        now: &State,
        chances: u32,
    ) -> Result<Option<Turn>, Memory>
        requires state { IsState flat.now now.now }
        requires kinds { kinds.now ≡ kinds_of_inputs flat.now }
        ensures next { IfOk result (λ turn. IfSome turn (λ it. IsState flat.now it.next)) }
    {
        for attempt in 0..TRIES {
            if self.left == 0 {
                return Ok(None);
            }
            self.left -= 1;
            let share = chances_of(attempt, chances);
            let inputs = varied(alloc, flat, kinds, &self.last, share, &mut self.chance)?;
            match taken(alloc, flat, kinds, now, &inputs)? {
                Some(turn) => {
                    self.last = inputs;
                    return Ok(Some(turn));
                }
                None => {}
            }
        }
        Ok(None)
    }

    /// Takes the last instant on the way; a state after it that is new is kept, where there is room.
    fn keep(&mut self, alloc: Global, flat: &Flat, next: &State) -> Result<(), Memory> {
        self.way.push(self.last.clone()?)?;
        if self.pool.has_room() && self.novelty.sees_state(flat, next) {
            let way = std::mem::replace(&mut self.way, Many::new(alloc));
            self.from = self.pool.add(next, Some(self.from), way)?;
        }
        Ok(())
    }

    /// The trace of the run that is under way, from its start.
    fn trace(&self, alloc: Global) -> Result<Trace, Memory> {
        let mut trace = self.pool.trace_to(alloc, self.from)?;
        for inputs in self.way.as_slice() {
            trace.instants.push(inputs.clone()?)?;
        }
        Ok(trace)
    }

    /// Begins a run at a state that was found, and gives that.
    fn begin(
        &mut self,
        alloc: Global,
        flat: &Flat,
        kinds: &[Kind],
    ) -> Result<Option<State>, Memory> {
        self.from = self.pool.pick(&mut self.chance);
        self.way = Many::new(alloc);
        self.last = match self.pool.last_inputs(self.from) {
            Some(inputs) => inputs.clone()?,
            None => first_values(alloc, kinds)?,
        };
        if self.chance.comes(2) {
            self.last = varied(alloc, flat, kinds, &self.last, 1, &mut self.chance)?;
        }
        self.pool.state(self.from)
    }

    /// A run from a state that was found: the trace to an instant at which the observer is false, and none where it came to none. `start` is
    /// any state of the flat system.
    pub fn run(
        &mut self,
        alloc: Global,
        flat: &Flat,
        memories: &[Kind],
        inputs: &[Kind],
        start: &State,
    ) -> Result<Option<Trace>, Memory>
        requires memories { memories.now ≡ kinds_of_memories flat.now }
        requires inputs { inputs.now ≡ kinds_of_inputs flat.now }
        requires start { IsState flat.now start.now }
    {
        let Some(first) = self.begin(alloc, flat, inputs)? else {
            return Ok(None);
        };
        if !is_state(flat, memories, start, &first) {
            return Ok(None);
        }
        let mut now = first;
        let chances = drawn_chances(&mut self.chance);
        let length = drawn_length(&mut self.chance);
        for _instant in 0..length {
            let Some(turn) = self.advance(alloc, flat, inputs, &now, chances)? else {
                return Ok(None);
            };
            let Turn { next, observer } = turn;
            self.keep(alloc, flat, &next)?;
            if !observer {
                return Ok(Some(self.trace(alloc)?));
            }
            now = next;
        }
        Ok(None)
    }
}
