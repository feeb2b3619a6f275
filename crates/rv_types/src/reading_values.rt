//! What constant expressions in nodes count as: from the parts of an expression to the whole.

ghost use Rattle.std.specs.Prelude.{◌≡◌, ◌≤◌, min, nat_abs, pos, reverse, take};
ghost use Rattle.rv_base.specs.declared.value.Value.{Value as AnyValue};
ghost use Rattle.rv_tree.specs.Places.{Identifier};
ghost use Rattle.rv_tree.specs.Tree.{Tree, Trees, Not, Minus, Binary, If, AtMostOne, program_tree};
ghost use Rattle.rv_types.specs.Constants.{counted, whole_in};
ghost use Rattle.rv_types.specs.ConstantParts.{IsBound, IsKnownBound, constant_form, constant_part, no_trues, trues_after, trues_over};
ghost use Rattle.rv_types.specs.Readings.{AreTables};
ghost use Rattle.rv_types.specs.Scopes.{constant_value, constant_value_after, constant_values, constant_values_of};
ghost use Rattle.rv_types.specs.Types.{Scope};
ghost use Rattle.rv_base.specs.Limits.{too_heavy};
ghost use Rattle.rv_types.specs.ValueTables.{value_by};

use crate::reading::ProgramTables;
use crate::values::{Known, value_named};
use crate::weighing::{
    Weighed, flag, of_flag, of_if, of_known, of_minus, of_number, of_operator, whole,
};
use rv_base::{Text, Value};
use rv_tree::{Op, Program};
use std::marker::Model;

/// The values of the constants and labels of a program, by their names.
#[derive(Drop)]
pub struct NamedValues<'a> {
    known: Known<'a>,
}

impl<'a> Model for NamedValues<'a> {
    ghost use Rattle.rv_types.specs.ValueTables.{NamedTables, known_in, AreSmall};

    ghost Value = { NamedTables };

    ghost view = { λ v. record {
      constants = v.known.constants.now;
      values = v.known.values.now;
      labels = v.known.labels.now;
      places = v.known.places.now;
    } };

    ghost invariant = { λ v. AreSmall (known_in v.known.constants.now v.known.values.now v.known.labels.now v.known.places.now) };
}

/// The values of a program, of its tables and the values of its constants in order.
pub fn named_values<'a>(
    p: &Program,
    tables: &'a ProgramTables,
    constants: &'a [Value],
) -> NamedValues<'a>
    requires tables { AreTables (program_tree p.now) tables.now }
    requires values { constants.now ≡ constant_values (program_tree p.now) }
    ensures { value_by result ≡ constant_value (program_tree p.now) }
{
    let _ = p;
    NamedValues {
        known: Known {
            constants: &tables.spaces.constants,
            values: constants,
            labels: &tables.spaces.labels,
            places: tables.places.as_slice(),
        },
    }
}

/// The values of a program so far, of its tables and the values of its first constants.
pub fn values_before<'a>(
    p: &Program,
    tables: &'a ProgramTables,
    constants: &'a [Value],
    count: usize,
) -> NamedValues<'a>
    requires tables { AreTables (program_tree p.now) tables.now }
    requires values { constants.now ≡ constant_values_of (program_tree p.now) (reverse (take count (program_tree p.now).constants)) }
    ensures { value_by result ≡ constant_value_after (program_tree p.now) (reverse (take count (program_tree p.now).constants)) }
{
    let _ = p;
    let _ = count;
    NamedValues {
        known: Known {
            constants: &tables.spaces.constants,
            values: constants,
            labels: &tables.spaces.labels,
            places: tables.places.as_slice(),
        },
    }
}

/// What a constant or label counts as.
#[inline(never)]
pub fn constant_named(values: &NamedValues, name: &Text) -> Weighed
    ensures bound { IsBound result }
    ensures value { result.value ≡ value_by values.now name.now }
    ensures weight { result.weight ≡ min (nat_abs (whole_in (value_by values.now name.now))) too_heavy }
{
    of_known(value_named(&values.known, name))
}

/// A literal.
#[inline(never)]
pub fn constant_number(n: u64) -> Weighed
    ensures bound { IsBound result }
    ensures value { result.value ≡ counted n (pos n) }
    ensures weight { result.weight ≡ min n too_heavy }
{
    of_number(n)
}

/// `true` or `false`.
#[inline(never)]
pub fn constant_flag(flag: bool) -> Weighed
    ensures { result ≡ record { value = Value.Flag flag; weight = 0 } }
{
    of_flag(flag)
}

/// `not` of an operand.
#[inline(never)]
pub fn constant_not(operand: &Option<Weighed>) -> Option<Weighed>
    ensures bound { IsKnownBound result }
    ensures value { (s : Scope) (known : Identifier → AnyValue) (e : Tree) → operand.now ≡ constant_part s known e → result ≡ constant_form s known (Not e) }
{
    match operand {
        None => None,
        Some(a) => Some(of_flag(!flag(a.value))),
    }
}

/// Unary `-` of an operand.
#[inline(never)]
pub fn constant_minus(operand: &Option<Weighed>) -> Option<Weighed>
    requires { IsKnownBound operand.now }
    ensures bound { IsKnownBound result }
    ensures value { (s : Scope) (known : Identifier → AnyValue) (e : Tree) → operand.now ≡ constant_part s known e → result ≡ constant_form s known (Minus e) }
{
    match operand {
        None => None,
        Some(a) => Some(of_minus(a)),
    }
}

/// An operator between two operands. No `->` is constant.
#[inline(never)]
pub fn constant_binary(op: Op, a: &Option<Weighed>, b: &Option<Weighed>) -> Option<Weighed>
    requires a { IsKnownBound a.now }
    requires b { IsKnownBound b.now }
    ensures bound { IsKnownBound result }
    ensures value { (s : Scope) (known : Identifier → AnyValue) (x y : Tree) → a.now ≡ constant_part s known x → b.now ≡ constant_part s known y
        → result ≡ constant_form s known (Binary op x y) }
{
    match op {
        Op::Arrow => None,
        _ => match a {
            None => None,
            Some(a) => match b {
                None => None,
                Some(b) => Some(of_operator(op, a, b)),
            },
        },
    }
}

/// An `if`, of its condition and its two parts.
#[inline(never)]
pub fn constant_if(
    condition: &Option<Weighed>,
    a: &Option<Weighed>,
    b: &Option<Weighed>,
) -> Option<Weighed>
    requires a { IsKnownBound a.now }
    requires b { IsKnownBound b.now }
    ensures bound { IsKnownBound result }
    ensures value { (s : Scope) (known : Identifier → AnyValue) (i x y : Tree) → condition.now ≡ constant_part s known i → a.now ≡ constant_part s known x
        → b.now ≡ constant_part s known y → result ≡ constant_form s known (If i x y) }
{
    match condition {
        None => None,
        Some(condition) => match a {
            None => None,
            Some(a) => match b {
                None => None,
                Some(b) => Some(of_if(flag(condition.value), a, b)),
            },
        },
    }
}

/// What is known of the operands of a `#` so far.
#[derive(Clone, Copy, Debug)]
pub struct Trues {
    /// Whether all of them are constant.
    pub constant: bool,
    /// Whether one of the constant ones is true.
    pub some: bool,
    /// Whether more than one of these is.
    pub several: bool,
}

impl Trues {
    /// Of no operands.
    pub fn none() -> Trues
        ensures { result ≡ no_trues }
    {
        Trues {
            constant: true,
            some: false,
            several: false,
        }
    }

    /// Of one operand more.
    #[inline(never)]
    pub fn after(self, operand: &Option<Weighed>) -> Trues
        ensures { result ≡ trues_after self operand.now }
    {
        match operand {
            None => Trues {
                constant: false,
                some: self.some,
                several: self.several,
            },
            Some(a) => {
                let one = flag(a.value);
                Trues {
                    constant: self.constant,
                    some: self.some || one,
                    several: self.several || (self.some && one),
                }
            }
        }
    }

    /// What is known of the `#` of all of them.
    #[inline(never)]
    pub fn at_most_one(self) -> Option<Weighed>
        ensures bound { IsKnownBound result }
        ensures value { (s : Scope) (known : Identifier → AnyValue) (es : Trees) → self ≡ trues_over s known no_trues es
            → result ≡ constant_form s known (AtMostOne es) }
    {
        if self.constant {
            Some(of_flag(!self.several))
        } else {
            None
        }
    }
}

/// How far an integer constant is from 0.
#[inline(never)]
pub fn constant_size(constant: &Weighed) -> u64
    requires { IsBound constant.now }
    ensures value { result ≡ nat_abs (whole_in constant.now.value) }
    ensures bound { result ≤ too_heavy }
{
    whole(constant.value).unsigned_abs() as u64
}
