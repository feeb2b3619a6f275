//! Which states are new: what has been seen of states, by a few bits of it.

use rv_base::{Memory, Value};
use rv_flat::{Flat, State};
use std::alloc::Global;

/// How many marks there are. What has the mark of something else is taken for seen.
const MARKS: usize = 65_536;

/// What has been seen of states: of each the truth of its ticks and the values of its Boolean and enumeration memories, with these for each
/// integer memory between which thresholds it is, and of each integer memory alone how near it is to these.
#[derive(Debug, Drop)]
pub struct Novelty {
    marks: Vec<bool>,
}

/// A number that tells of a number and another one, as good as by chance.
fn mixed(seed: u64, with: u64) -> u64 {
    let product = (seed ^ with).wrapping_mul(11_400_714_819_323_198_485);
    product ^ (product >> 29)
}

/// The number of thresholds that are at most a number.
fn place_among(thresholds: &[i128], number: i128) -> usize {
    thresholds.partition_point(|threshold| *threshold <= number)
}

/// How many binary digits a distance has; all where there is none to measure.
fn digits(distance: i128) -> u64 {
    let size = u64::try_from(distance).unwrap_or(u64::MAX);
    u64::from(64 - size.leading_zeros())
}

/// A number that tells between which thresholds a number is, and about how far it is from these.
fn nearness(thresholds: &[i128], number: i128) -> u64 {
    let place = place_among(thresholds, number);
    let above = match thresholds.get(place) {
        Some(threshold) => digits(threshold.saturating_sub(number)),
        None => 64,
    };
    let below = match thresholds.get(place.saturating_sub(1)) {
        Some(threshold) => digits(number.saturating_sub(*threshold)),
        None => 64,
    };
    mixed(mixed(place as u64, above), below)
}

/// A number that tells of the control state of a state: its ticks, and its Boolean and enumeration memories.
fn control_of(state: &State) -> u64 {
    let mut number = 1;
    for tick in state.ticked.as_slice() {
        number = mixed(number, u64::from(*tick));
    }
    for value in state.kept.as_slice() {
        number = match value {
            Value::Flag(flag) => mixed(number, u64::from(*flag)),
            Value::Label(label) => mixed(number, u64::from(*label)),
            Value::Whole(_) => number,
        };
    }
    number
}

impl Novelty {
    /// Nothing has been seen.
    pub fn new(alloc: Global) -> Result<Novelty, Memory> {
        Ok(Novelty {
            marks: vec![in alloc; false; MARKS]?,
        })
    }

    /// Whether something is new, by its number; from now on it is not.
    fn sees(&mut self, number: u64) -> bool {
        let place = (number & 65_535) as usize;
        match self.marks.get_mut(place) {
            Some(mark) => {
                let is_new = !*mark;
                *mark = true;
                is_new
            }
            None => false,
        }
    }

    /// Whether anything of a number in a memory is new, by the control state; from now on nothing of it is.
    fn sees_number(
        &mut self,
        thresholds: &[i128],
        control: u64,
        memory: usize,
        number: i128,
    ) -> bool {
        let place = place_among(thresholds, number) as u64;
        let near = nearness(thresholds, number);
        let is_placed = self.sees(mixed(mixed(control, memory as u64), place));
        let is_near = self.sees(mixed(mixed(near, memory as u64), 1));
        is_placed || is_near
    }

    /// Whether anything of a state is new; from now on nothing of it is.
    pub fn sees_state(&mut self, flat: &Flat, state: &State) -> bool {
        let control = control_of(state);
        let thresholds = flat.thresholds.as_slice();
        let mut is_new = self.sees(control);
        for (memory, value) in state.kept.as_slice().iter().enumerate() {
            if let Value::Whole(number) = value {
                if self.sees_number(thresholds, control, memory, *number) {
                    is_new = true;
                }
            }
        }
        is_new
    }
}
