//! What the variables and columns of documents stand for, by names.

use crate::flows::put_label;
use crate::naming::Words;
use crate::regions::{Region, Variable};
use crate::sets::{MOST_VALUES, Values};
use crate::sums::{Bound, Sum, Sums, add_count, denied};
use rv_base::{Memory, Place};
use rv_flat::{Bit, Flat, Side};
use rv_rows::Row;
use rv_types::Kind;
use std::alloc::Global;

/// A quantity that has one of a few values: a tick, a memory, an input or a test.
#[derive(Debug, Drop)]
pub struct Quantity {
    /// Its name, and of one with two values what it is where it is true.
    pub name: String,
    /// Of one with two values, what it is where it is false.
    pub opposite: String,
    /// Its type.
    pub kind: Kind,
    /// How many values it has.
    pub count: u32,
    /// Of the first test of an equality its text with an equals sign, which holds where it and the next quantity do; else nothing.
    pub equal: String,
}

/// What a test says of a sum: the bounds that hold where it is true and where it is false.
#[derive(Clone, Copy, Debug)]
pub struct Measure {
    /// Where it is true.
    pub yes: Bound,
    /// Where it is false.
    pub no: Bound,
}

/// The quantities that diagrams speak of, and what each variable says of one.
#[derive(Drop)]
pub struct Vocabulary {
    /// The quantities.
    pub quantities: Vec<Quantity>,
    /// For each quantity what it says of a sum, where it is a test.
    pub measures: Vec<Option<Measure>>,
    /// For each variable what it says, none of a next copy.
    pub variables: Vec<Option<Variable>>,
    /// The names of the columns.
    pub columns: Vec<String>,
    /// For each row of a location the bound that it is, by the sums of the tests.
    sums: Sums,
    terms: Vec<u32>,
}

/// How many values a type has that is not the integers.
fn count_of(flat: &Flat, kind: Kind) -> u32 {
    match kind {
        Kind::Labels(number) => match flat.labels.get(number as usize) {
            Some(labels) => (labels.len().min(MOST_VALUES as usize)) as u32,
            None => 2,
        },
        _ => 2,
    }
}

/// A quantity of two values.
fn flag(alloc: Global, name: String, opposite: String) -> Quantity {
    Quantity {
        name,
        opposite,
        kind: Kind::Bool,
        count: 2,
        equal: String::new(alloc),
    }
}

/// A quantity of a type.
fn typed(alloc: Global, flat: &Flat, name: String, kind: Kind) -> Result<Quantity, Memory> {
    let mut opposite = String::from_str(alloc, "not ")?;
    opposite.push_str(name.as_str())?;
    Ok(Quantity {
        name,
        opposite,
        kind,
        count: count_of(flat, kind),
        equal: String::new(alloc),
    })
}

/// The quantity that is a test of a comparison.
fn tested(words: &Words, place: &Place, side: Side) -> Result<Quantity, Memory> {
    let (yes, no) = match side {
        Side::AtMost => ("<=", ">"),
        Side::AtLeast => (">=", "<"),
    };
    let mut quantity = flag(
        words.alloc,
        words.test_name(place, yes)?,
        words.test_name(place, no)?,
    );
    if side == Side::AtMost && words.is_equality(place) {
        quantity.equal = words.test_name(place, "=")?;
    }
    Ok(quantity)
}

/// The quantity of a variable whose quantity begins with it, none of a next copy and of a bit behind the first.
fn begun(words: &Words, bit: &Bit) -> Result<Option<Quantity>, Memory> {
    let alloc = words.alloc;
    match bit {
        Bit::MainTick => {
            let yes = String::from_str(alloc, "not first instant")?;
            let no = String::from_str(alloc, "first instant")?;
            Ok(Some(flag(alloc, yes, no)))
        }
        Bit::Tick(place) => {
            let yes = words.named("", place, " was true before")?;
            let no = words.named("", place, " was never true before")?;
            Ok(Some(flag(alloc, yes, no)))
        }
        Bit::Kept(place, 0) => {
            let name = words.memory_name(place)?;
            let kind = words.memory_kind(place);
            Ok(Some(typed(alloc, words.flat, name, kind)?))
        }
        Bit::Input(number, 0) => match words.flat.inputs.get(*number as usize) {
            Some(input) => {
                let name = String::from_str(alloc, input.name.as_str())?;
                Ok(Some(typed(alloc, words.flat, name, input.kind)?))
            }
            None => Ok(None),
        },
        Bit::Test(place, side) => Ok(Some(tested(words, place, *side)?)),
        Bit::Next | Bit::Kept(_, _) | Bit::Input(_, _) => Ok(None),
    }
}

/// What a variable says of a sum, where it is a test of one.
fn measured(words: &Words, sums: &mut Sums, bit: &Bit) -> Result<Option<Measure>, Memory> {
    let Bit::Test(place, side) = bit else {
        return Ok(None);
    };
    let Some(sum) = words.sum_of(sums, place)? else {
        return Ok(None);
    };
    let Some((upper, lower)) = sums.bounds(words.alloc, &sum)? else {
        return Ok(None);
    };
    let yes = match side {
        Side::AtMost => upper,
        Side::AtLeast => lower,
    };
    match denied(yes) {
        Some(no) => Ok(Some(Measure { yes, no })),
        None => Ok(None),
    }
}

/// The number of the bit of a variable, none of a next copy.
fn number_of(bit: &Bit) -> Option<u32> {
    match bit {
        Bit::MainTick | Bit::Tick(_) | Bit::Test(_, _) => Some(0),
        Bit::Kept(_, number) | Bit::Input(_, number) => Some(*number),
        Bit::Next => None,
    }
}

/// What a variable says of the last quantity.
fn variable_of(quantities: &[Quantity], bit: &Bit) -> Option<Variable> {
    let number = number_of(bit)?;
    let last = quantities.last()?;
    let quantity = u32::try_from(quantities.len().checked_sub(1)?).ok()?;
    let yes = Values::with_bit(last.count, number);
    Some(Variable {
        quantity,
        no: Values::below(last.count).without(yes),
        yes,
    })
}

impl Vocabulary {
    /// The quantities of a flat system.
    pub fn new(words: &Words) -> Result<Vocabulary, Memory> {
        let alloc = words.alloc;
        let mut columns = Vec::new(alloc);
        let mut terms = Vec::new(alloc);
        let mut sums = Sums::new(alloc);
        for column in words.flat.columns.as_slice() {
            let name = words.column_name(column)?;
            terms.push(sums.term(alloc, name.as_str())?)?;
            columns.push(name)?;
        }
        let mut vocabulary = Vocabulary {
            quantities: Vec::new(alloc),
            measures: Vec::new(alloc),
            variables: Vec::new(alloc),
            columns,
            sums,
            terms,
        };
        for bit in words.flat.variables.as_slice() {
            vocabulary.add(words, bit)?;
        }
        Ok(vocabulary)
    }

    /// Adds a variable, with its quantity where that begins with it.
    fn add(&mut self, words: &Words, bit: &Bit) -> Result<(), Memory> {
        if let Some(quantity) = begun(words, bit)? {
            let measure = measured(words, &mut self.sums, bit)?;
            self.quantities.push(quantity)?;
            self.measures.push(measure)?;
        }
        let variable = variable_of(self.quantities.as_slice(), bit);
        self.variables.push(variable)?;
        Ok(())
    }

    /// The region of all values.
    pub fn whole(&self, alloc: Global) -> Result<Region, Memory> {
        let mut values = Vec::new(alloc);
        for quantity in self.quantities.as_slice() {
            values.push(Values::below(quantity.count))?;
        }
        Ok(Region { values })
    }

    /// The bound that a row is, where a test speaks of the same sum.
    pub fn bound_of(&self, alloc: Global, row: &Row) -> Result<Option<Bound>, Memory> {
        let Some(constant) = row.bound.checked_neg() else {
            return Ok(None);
        };
        let mut counts = Vec::new(alloc);
        for (term, coefficient) in self
            .terms
            .as_slice()
            .iter()
            .zip(row.coefficients.as_slice())
        {
            if *coefficient != 0 && !add_count(&mut counts, *term, *coefficient)? {
                return Ok(None);
            }
        }
        self.sums.found(alloc, &Sum { counts, constant })
    }

    /// What these values of the quantity with this number say of a sum.
    pub fn bound_at(&self, quantity: usize, values: Values) -> Option<Bound> {
        let measure = (*self.measures.get(quantity)?)?;
        match (values.has(0), values.has(1)) {
            (false, true) => Some(measure.yes),
            (true, false) => Some(measure.no),
            _ => None,
        }
    }
}

/// Adds the label of a value of a quantity.
pub fn put_value_name(
    text: &mut String,
    flat: &Flat,
    quantity: &Quantity,
    value: u32,
) -> Result<(), Memory> {
    put_label(text, flat, quantity.kind, value)
}
