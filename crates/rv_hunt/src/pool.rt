//! The states from which runs begin, each with the way to it.

use crate::chance::Chance;
use rv_base::{Many, Memory, Trace, Value};
use rv_flat::State;
use std::alloc::Global;

/// How many states there are at most.
const MOST: usize = 4096;

/// Among how many of the newest states each fourth draw is.
const NEWEST: usize = 32;

/// A state: the one that it was reached from, by its number, none of a start, and the inputs of the instants from there.
#[derive(Debug, Drop)]
struct Member {
    state: State,
    parent: Option<usize>,
    way: Many<Many<Value>>,
    picked: u32,
}

/// States, in the order in which they were found.
#[derive(Debug, Drop)]
pub struct Pool {
    members: Vec<Member>,
}

/// A copy of a state.
fn copy_of(state: &State) -> Result<State, Memory> {
    Ok(State {
        ticked: state.ticked.clone()?,
        kept: state.kept.clone()?,
    })
}

impl Pool {
    /// No states.
    pub fn new(alloc: Global) -> Pool {
        Pool {
            members: Vec::new(alloc),
        }
    }

    /// Whether there is room for one more.
    pub fn has_room(&self) -> bool {
        self.members.len() < MOST
    }

    /// Adds a copy of a state, with the way to it, and gives its number.
    pub fn add(
        &mut self,
        state: &State,
        parent: Option<usize>,
        way: Many<Many<Value>>,
    ) -> Result<usize, Memory> {
        let number = self.members.len();
        let state = copy_of(state)?;
        self.members.push(Member {
            state,
            parent,
            way,
            picked: 0,
        })?;
        Ok(number)
    }

    /// The number of a state by chance, now and then of one of the newest.
    fn drawn(&self, chance: &mut Chance) -> usize {
        let count = self.members.len();
        if chance.comes(4) {
            let back = chance.below_length(count.min(NEWEST));
            count.saturating_sub(1).saturating_sub(back)
        } else {
            chance.below_length(count)
        }
    }

    /// How often runs have begun at a state.
    fn picked(&self, number: usize) -> u32 {
        match self.members.get(number) {
            Some(member) => member.picked,
            None => 0,
        }
    }

    /// The number of a state to begin at: of three by chance the one at which runs have begun least often, the newest of these.
    pub fn pick(&mut self, chance: &mut Chance) -> usize {
        let mut best = self.drawn(chance);
        for _ in 0..2 {
            let other = self.drawn(chance);
            let (least, count) = (self.picked(best), self.picked(other));
            if count < least || (count == least && best < other) {
                best = other;
            }
        }
        if let Some(member) = self.members.get_mut(best) {
            member.picked = member.picked.saturating_add(1);
        }
        best
    }

    /// A copy of the state with a number; none where there is none.
    pub fn state(&self, number: usize) -> Result<Option<State>, Memory> {
        match self.members.get(number) {
            Some(member) => Ok(Some(copy_of(&member.state)?)),
            None => Ok(None),
        }
    }

    /// The inputs of the last instant before the state with a number; none of a start.
    pub fn last_inputs(&self, number: usize) -> Option<&Many<Value>> {
        match self.members.get(number) {
            Some(member) => member.way.as_slice().last(),
            None => None,
        }
    }

    /// The numbers of the states on the way to one, from it back to a start.
    fn way_back(&self, alloc: Global, number: usize) -> Result<Many<usize>, Memory> {
        let mut numbers = Many::new(alloc);
        let mut next = Some(number);
        for _ in 0..self.members.len() {
            let Some(number) = next else { break };
            numbers.push(number)?;
            next = match self.members.get(number) {
                Some(member) => member.parent,
                None => None,
            };
        }
        Ok(numbers)
    }

    /// Adds the inputs of the instants to the state with a number from the one before it.
    fn add_way(&self, number: usize, instants: &mut Many<Many<Value>>) -> Result<(), Memory> {
        if let Some(member) = self.members.get(number) {
            for inputs in member.way.as_slice() {
                instants.push(inputs.clone()?)?;
            }
        }
        Ok(())
    }

    /// The trace to the state with a number, from a start, without the instants behind it.
    pub fn trace_to(&self, alloc: Global, number: usize) -> Result<Trace, Memory> {
        let numbers = self.way_back(alloc, number)?;
        let mut starts = Many::new(alloc);
        let mut instants = Many::new(alloc);
        for member in numbers.as_slice().iter().rev() {
            self.add_way(*member, &mut instants)?;
        }
        if let Some(first) = numbers.as_slice().last() {
            if let Some(state) = self.state(*first)? {
                starts = state.kept;
            }
        }
        Ok(Trace { starts, instants })
    }
}
