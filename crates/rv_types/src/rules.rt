//! The rules of types, one function for each.

ghost use Rattle.std.specs.Prelude.{◌≡◌, ◌&&◌, cond, Some, None};
ghost use Rattle.rv_types.specs.Types.{same_kind, where_met, one_of, two_of, three_of, both_are, binary_rule, not_rule, minus_rule, memory_rule, when_of};
ghost use Rattle.rv_types.specs.Types.{if_rule, suits, sole, kind_in, fault_in};
ghost use Rattle.rv_types.specs.Scopes.{clash_unless};
ghost use Rattle.rv_types.specs.Earliest.{first};
ghost use Rattle.rv_types.specs.declared.fault.Verdict.TheVariants.{Has, Silent, Clashes, Multiplies};
ghost use Rattle.rv_types.specs.declared.typed.Kind.TheVariants as kind;

use crate::fault::{NameFault, Verdict};
use crate::typed::Kind;
use rv_tree::Op;

/// Whether two types are one. Two enumerations differ.
pub fn is_same(j: Kind, k: Kind) -> bool
    ensures { result ≡ same_kind j k }
{
    match j {
        Kind::Bool => matches!(k, Kind::Bool),
        Kind::Int => matches!(k, Kind::Int),
        Kind::Labels(n) => match k {
            Kind::Labels(m) => n == m,
            _ => false,
        },
    }
}

/// Whether an operand has the type that is wanted, where it has one.
pub fn is_suited(wanted: Kind, found: Option<Kind>) -> bool
    ensures { result ≡ suits wanted found }
{
    match found {
        None => true,
        Some(k) => is_same(k, wanted),
    }
}

/// The type of a verdict, where it has one.
pub fn kind_of_verdict(verdict: Verdict) -> Option<Kind>
    ensures { result ≡ kind_in verdict }
{
    match verdict {
        Verdict::Has(kind) => Some(kind),
        _ => None,
    }
}

/// The fault of a verdict on the expression at an offset.
pub fn fault_of_verdict(at: u32, verdict: Verdict) -> Option<NameFault>
    ensures { result ≡ first (fault_in at verdict) }
{
    match verdict {
        Verdict::Has(_) | Verdict::Silent => None,
        Verdict::Clashes => Some(NameFault::TypeClash(at)),
        Verdict::Multiplies => Some(NameFault::Nonlinear(at)),
    }
}

/// The clash of what is found where a type is wanted.
pub fn clash_of(at: u32, wanted: Kind, found: Option<Kind>) -> Option<NameFault>
    ensures { result ≡ first (clash_unless at wanted found) }
{
    if is_suited(wanted, found) {
        None
    } else {
        Some(NameFault::TypeClash(at))
    }
}

/// The type where a rule is met.
pub fn of_met(met: bool, kind: Kind) -> Verdict
    ensures { result ≡ where_met met kind }
{
    if met {
        Verdict::Has(kind)
    } else {
        Verdict::Clashes
    }
}

fn are_both(wanted: Kind, j: Kind, k: Kind) -> bool
    ensures { result ≡ both_are wanted j k }
{
    is_same(j, wanted) && is_same(k, wanted)
}

fn of_arrow(moves: bool, j: Kind, k: Kind) -> Verdict
    ensures { result ≡ where_met (moves && same_kind j k) j }
{
    of_met(moves && is_same(j, k), j)
}

fn of_product(scaled: bool, j: Kind, k: Kind) -> Verdict
    ensures { result ≡ cond (both_are kind.Int j k) (cond scaled (Has kind.Int) Multiplies) Clashes }
{
    if are_both(Kind::Int, j, k) {
        if scaled {
            Verdict::Has(Kind::Int)
        } else {
            Verdict::Multiplies
        }
    } else {
        Verdict::Clashes
    }
}

fn of_typed_operands(moves: bool, scaled: bool, op: Op, j: Kind, k: Kind) -> Verdict
    ensures { result ≡ binary_rule moves scaled op j k }
{
    match op {
        Op::Arrow => of_arrow(moves, j, k),
        Op::Implies | Op::Or | Op::Xor | Op::And => of_met(are_both(Kind::Bool, j, k), Kind::Bool),
        Op::Equal | Op::Differs => of_met(is_same(j, k), Kind::Bool),
        Op::Less | Op::AtMost | Op::Greater | Op::AtLeast => of_met(
            are_both(Kind::Int, j, k),
            Kind::Bool,
        ),
        Op::Plus | Op::Minus => of_met(are_both(Kind::Int, j, k), Kind::Int),
        Op::Times => of_product(scaled, j, k),
        Op::Slash | Op::Div | Op::Mod => Verdict::Multiplies,
    }
}

/// The rule of an operator between two operands. `moves` says whether `->` may stand here, `scaled` whether an operand
/// is constant.
pub fn of_binary(moves: bool, scaled: bool, op: Op, j: Option<Kind>, k: Option<Kind>) -> Verdict
    ensures { result ≡ two_of (binary_rule moves scaled op) j k }
{
    match j {
        None => Verdict::Silent,
        Some(j) => match k {
            None => Verdict::Silent,
            Some(k) => of_typed_operands(moves, scaled, op, j, k),
        },
    }
}

/// What has the type of a name, where that has one.
pub fn of_name(k: Option<Kind>) -> Verdict
    ensures { result ≡ one_of Has k }
{
    match k {
        None => Verdict::Silent,
        Some(k) => Verdict::Has(k),
    }
}

/// The rule of `not`.
pub fn of_not(k: Option<Kind>) -> Verdict
    ensures { result ≡ one_of not_rule k }
{
    match k {
        None => Verdict::Silent,
        Some(k) => of_met(is_same(k, Kind::Bool), Kind::Bool),
    }
}

/// The rule of unary `-`.
pub fn of_minus(k: Option<Kind>) -> Verdict
    ensures { result ≡ one_of minus_rule k }
{
    match k {
        None => Verdict::Silent,
        Some(k) => of_met(is_same(k, Kind::Int), Kind::Int),
    }
}

/// The rule of `pre` and `current`.
pub fn of_memory(moves: bool, k: Option<Kind>) -> Verdict
    ensures { result ≡ one_of (memory_rule moves) k }
{
    match k {
        None => Verdict::Silent,
        Some(k) => of_met(moves, k),
    }
}

/// The rule of `when`, of the types of its operand and of its clock's flow. In a constant it always clashes.
pub fn of_when(moves: bool, k: Option<Kind>, clock: Option<Kind>) -> Verdict
    ensures { result ≡ when_of moves k clock }
{
    match k {
        None => Verdict::Silent,
        Some(k) => {
            if !moves {
                return Verdict::Clashes;
            }
            match clock {
                None => Verdict::Silent,
                Some(clock) => of_met(is_same(clock, Kind::Bool), k),
            }
        }
    }
}

fn of_typed_parts(i: Kind, j: Kind, k: Kind) -> Verdict
    ensures { result ≡ if_rule i j k }
{
    of_met(is_same(i, Kind::Bool) && is_same(j, k), j)
}

/// The rule of `if`.
pub fn of_if(i: Option<Kind>, j: Option<Kind>, k: Option<Kind>) -> Verdict
    ensures { result ≡ three_of if_rule i j k }
{
    match i {
        None => Verdict::Silent,
        Some(i) => match j {
            None => Verdict::Silent,
            Some(j) => match k {
                None => Verdict::Silent,
                Some(k) => of_typed_parts(i, j, k),
            },
        },
    }
}

/// The rule of `#`.
pub fn of_at_most_one(typed: bool, boolean: bool) -> Verdict
    ensures { result ≡ cond typed (where_met boolean kind.Bool) Silent }
{
    if typed {
        of_met(boolean, Kind::Bool)
    } else {
        Verdict::Silent
    }
}

/// The one output of a call that stands in an expression.
pub fn of_outputs(gives: &[Kind]) -> Verdict
    ensures { result ≡ sole gives.now }
{
    match gives {
        [k] => Verdict::Has(*k),
        _ => Verdict::Clashes,
    }
}
