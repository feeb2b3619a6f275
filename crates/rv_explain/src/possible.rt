//! What expressions may have in a region of control states and valuations: sets of truth values and labels.

use crate::evaluate::joined;
use crate::regions::Region;
use crate::sets::{MOST_VALUES, Values};
use crate::vocabulary::Vocabulary;
use indexmap::IndexMap;
use rv_base::{Memory, Place, Text, Value};
use rv_flat::{Bit, Flat, FlatExpr, FlatForm, Side};
use rv_tree::Op;
use std::alloc::Global;

/// Which quantity each tick, memory and input is, and the two tests of each comparison.
#[derive(Drop)]
pub struct Atoms {
    alloc: Global,
    ticks: Vec<u32>,
    kept: Vec<Option<u32>>,
    given: Vec<Option<u32>>,
    tests: IndexMap<Text, Tests>,
}

/// The quantities that are the tests of a comparison.
#[derive(Clone, Copy)]
struct Tests {
    at_most: Option<u32>,
    at_least: Option<u32>,
}

/// The text of a place.
fn key_of(alloc: Global, place: &Place) -> Result<Text, Memory> {
    let mut key = String::new(alloc);
    for site in place.sites.front() {
        write!(key, "{site}.")?;
    }
    if let Some(site) = place.sites.last() {
        write!(key, "{site}")?;
    }
    Ok(Text::from_str(alloc, key.as_str())?)
}

/// So many times none.
fn none_of(alloc: Global, count: usize) -> Result<Vec<Option<u32>>, Memory> {
    let mut all = Vec::new(alloc);
    for _ in 0..count {
        all.push(None)?;
    }
    Ok(all)
}

/// Gives a number a quantity.
fn put(all: &mut Vec<Option<u32>>, number: usize, quantity: u32) {
    if let Some(place) = all.get_mut(number) {
        *place = Some(quantity);
    }
}

impl Atoms {
    /// Those of a flat system.
    pub fn new(alloc: Global, flat: &Flat, vocabulary: &Vocabulary) -> Result<Atoms, Memory> {
        let mut numbers: IndexMap<Text, usize> = IndexMap::new(alloc);
        for memory in flat.memories.as_slice() {
            let number = numbers.len();
            let _ = numbers.insert(key_of(alloc, &memory.place)?, number)?;
        }
        let mut atoms = Atoms {
            alloc,
            ticks: Vec::new(alloc),
            kept: none_of(alloc, flat.memories.len())?,
            given: none_of(alloc, flat.inputs.len())?,
            tests: IndexMap::new(alloc),
        };
        for (bit, variable) in flat
            .variables
            .as_slice()
            .iter()
            .zip(vocabulary.variables.as_slice())
        {
            if let Some(variable) = variable {
                atoms.add(&numbers, bit, variable.quantity)?;
            }
        }
        Ok(atoms)
    }

    /// Adds what a variable is, with its quantity.
    fn add(
        &mut self,
        numbers: &IndexMap<Text, usize>,
        bit: &Bit,
        quantity: u32,
    ) -> Result<(), Memory> {
        match bit {
            Bit::MainTick | Bit::Tick(_) => self.ticks.push(quantity)?,
            Bit::Kept(place, 0) => {
                if let Some(number) = numbers.get(&key_of(self.alloc, place)?) {
                    put(&mut self.kept, *number, quantity);
                }
            }
            Bit::Input(number, 0) => put(&mut self.given, *number as usize, quantity),
            Bit::Test(place, side) => {
                let key = key_of(self.alloc, place)?;
                let mut tests = match self.tests.get(&key) {
                    Some(tests) => *tests,
                    None => Tests {
                        at_most: None,
                        at_least: None,
                    },
                };
                match side {
                    Side::AtMost => tests.at_most = Some(quantity),
                    Side::AtLeast => tests.at_least = Some(quantity),
                }
                let _ = self.tests.insert(key, tests)?;
            }
            Bit::Next | Bit::Kept(_, _) | Bit::Input(_, _) => {}
        }
        Ok(())
    }
}

/// All values, as of what nothing is known.
fn any() -> Values {
    Values::below(MOST_VALUES)
}

/// Both truth values.
fn either() -> Values {
    Values::below(2)
}

/// The number of a truth value.
fn number_of(truth: bool) -> u32 {
    if truth { 1 } else { 0 }
}

/// One truth value.
fn only(truth: bool) -> Values {
    Values::none().with(number_of(truth))
}

/// True where false was, and false where true was.
fn turned(values: Values) -> Values {
    let mut result = Values::none();
    for truth in [false, true] {
        if values.has(number_of(truth)) {
            result = result.with(number_of(!truth));
        }
    }
    result
}

/// What an operator may give of truth values.
fn combined(op: Op, left: Values, right: Values) -> Values {
    let mut result = Values::none();
    for (one, other) in [(false, false), (false, true), (true, false), (true, true)] {
        if left.has(number_of(one)) && right.has(number_of(other)) {
            match joined(op, one, other) {
                Some(truth) => result = result.with(number_of(truth)),
                None => return either(),
            }
        }
    }
    result
}

/// Whether two values, each of a set, may be the same, and whether they may differ.
fn compared(left: Values, right: Values) -> Values {
    if left.and(right).is_empty() {
        return only(false);
    }
    if left.count(MOST_VALUES) == 1 && right.count(MOST_VALUES) == 1 {
        return only(true);
    }
    either()
}

/// What a choice may give.
fn chosen(condition: Values, first: Values, second: Values) -> Values {
    match (condition.has(1), condition.has(0)) {
        (true, true) => first.or(second),
        (true, false) => first,
        _ => second,
    }
}

/// The value of a constant; of a number any.
fn only_value(value: &Value) -> Values {
    match value {
        Value::Flag(truth) => only(*truth),
        Value::Label(number) => Values::none().with(*number),
        Value::Whole(_) => any(),
    }
}

/// How many levels of an expression are looked at.
const DEEP: u32 = 4_000;

/// A region, with what each flow may have in it.
#[derive(Drop)]
pub struct Case<'b> {
    flat: &'b Flat,
    atoms: &'b Atoms,
    region: Region,
    flows: Vec<Values>,
}

impl<'b> Case<'b> {
    /// What the flows of a flat system may have in a region, in the order of their evaluation.
    pub fn new(flat: &'b Flat, atoms: &'b Atoms, region: Region) -> Result<Case<'b>, Memory> {
        let mut case = Case {
            flat,
            atoms,
            region,
            flows: Vec::new(atoms.alloc),
        };
        for flow in flat.flows.as_slice() {
            let values = case.may(&flow.body, DEEP)?;
            case.flows.push(values)?;
        }
        Ok(case)
    }

    /// Whether an expression may be false, as far as the parts of it tell one by one.
    pub fn may_fail(&self, e: &FlatExpr) -> Result<bool, Memory> {
        Ok(self.may(e, DEEP)?.has(0))
    }

    /// What a flow may have.
    fn flow(&self, number: u32) -> Values {
        match self.flows.get(number as usize) {
            Some(values) => *values,
            None => any(),
        }
    }

    /// The values of a quantity; all where there is none.
    fn at(&self, quantity: Option<u32>) -> Values {
        match quantity {
            Some(number) => self.region.at(number),
            None => any(),
        }
    }

    /// What a comparison of integers may give, by its tests.
    fn tested(&self, op: Op, tests: Tests) -> Values {
        let at_most = self.at(tests.at_most).and(either());
        let at_least = self.at(tests.at_least).and(either());
        match op {
            Op::AtMost => at_most,
            Op::AtLeast => at_least,
            Op::Less => turned(at_least),
            Op::Greater => turned(at_most),
            Op::Equal => combined(Op::And, at_most, at_least),
            Op::Differs => turned(combined(Op::And, at_most, at_least)),
            _ => either(),
        }
    }

    /// What an expression may have. It calls itself for each operand, down to so many levels; what is deeper may have all values.
    #[cycle(may)]
    fn may(&self, e: &FlatExpr, depth: u32) -> Result<Values, Memory> {
        if depth == 0 {
            return Ok(any());
        }
        match &e.form {
            FlatForm::Constant(value) => Ok(only_value(value)),
            FlatForm::Scale(_, _) => Ok(any()),
            FlatForm::Flow(number) => Ok(self.flow(*number)),
            FlatForm::Memory(number) => Ok(self.kept(*number)),
            FlatForm::Ticked(number) => {
                Ok(self.at(self.atoms.ticks.get(*number as usize).copied()))
            }
            FlatForm::Input(number) => Ok(self.at(found(&self.atoms.given, *number))),
            FlatForm::Not(operand) => Ok(turned(self.may(operand, depth - 1)?)),
            FlatForm::Binary(op, left, right) => {
                let left = self.may(left, depth - 1)?;
                let right = self.may(right, depth - 1)?;
                self.operated(&e.at, *op, left, right)
            }
            FlatForm::If(condition, first, second) => {
                let condition = self.may(condition, depth - 1)?;
                let first = self.may(first, depth - 1)?;
                let second = self.may(second, depth - 1)?;
                Ok(chosen(condition, first, second))
            }
            FlatForm::AtMostOne(operands) => self.at_most_one(operands.as_slice(), depth - 1),
            FlatForm::When(_, operand) => self.may(operand, depth - 1),
            FlatForm::Current(number) => Ok(self.shown(*number)),
        }
    }

    /// Whether one of some expressions is true at the most: how many are sure to be, and how many may be.
    #[cycle(may)]
    fn at_most_one(&self, operands: &[FlatExpr], depth: u32) -> Result<Values, Memory> {
        let mut least: u32 = 0;
        let mut most: u32 = 0;
        for operand in operands {
            let values = self.may(operand, depth)?;
            if values.has(1) {
                most = most.saturating_add(1);
                if !values.has(0) {
                    least = least.saturating_add(1);
                }
            }
        }
        Ok(match (least > 1, most > 1) {
            (true, _) => only(false),
            (false, true) => either(),
            (false, false) => only(true),
        })
    }

    /// What an operator may give, of a comparison of integers by its tests.
    fn operated(&self, at: &Place, op: Op, left: Values, right: Values) -> Result<Values, Memory> {
        if !at.sites.is_empty() {
            if let Some(tests) = self.atoms.tests.get(&key_of(self.atoms.alloc, at)?) {
                return Ok(self.tested(op, *tests));
            }
        }
        Ok(match op {
            Op::Equal => compared(left, right),
            Op::Differs => turned(compared(left, right)),
            _ => combined(op, left, right),
        })
    }

    /// What a memory may hold.
    fn kept(&self, number: u32) -> Values {
        self.at(found(&self.atoms.kept, number))
    }

    /// What a `current` of a memory may show: what it takes where its clock is there, and what it holds elsewhere.
    fn shown(&self, number: u32) -> Values {
        let Some(memory) = self.flat.memories.get(number as usize) else {
            return any();
        };
        let taken = self.taken(&memory.body);
        let Some(clock) = memory.clock else {
            return taken;
        };
        let is_there = self.flow(clock);
        let is_paced = match self.flat.flows.get(clock as usize) {
            Some(flow) => flow.clock.is_some(),
            None => true,
        };
        match (is_there.has(0) || is_paced, is_there.has(1)) {
            (true, true) => taken.or(self.kept(number)),
            (true, false) => self.kept(number),
            _ => taken,
        }
    }

    /// What a memory may take, where that is a flow.
    fn taken(&self, body: &FlatExpr) -> Values {
        match &body.form {
            FlatForm::Flow(flow) => self.flow(*flow),
            FlatForm::When(_, operand) => match &operand.form {
                FlatForm::Flow(flow) => self.flow(*flow),
                _ => any(),
            },
            _ => any(),
        }
    }
}

/// The quantity with this number, where there is one.
fn found(all: &Vec<Option<u32>>, number: u32) -> Option<u32> {
    *all.get(number as usize)?
}
