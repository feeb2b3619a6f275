//! The uses of names in expressions.

ghost use Rattle.std.specs.Prelude.{◌≡◌, map};
ghost use Rattle.rv_tree.specs.Tree.{tree_of, trees};
ghost use Rattle.rv_types.specs.Names.{use_at};
ghost use Rattle.rv_types.specs.Known.{knows_value, knows_clock, unknown_in, unknown_in_all};
ghost use Rattle.rv_types.specs.Earliest.{first};

use crate::fault::NameFault;
use crate::first::sooner_of;
use crate::space::Space;
use crate::spaces::Spaces;
use rv_base::Text;
use rv_tree::{Expr, ExprForm};

/// Which names an expression may use.
#[derive(Clone, Copy, Debug)]
pub enum Reach {
    /// The constants and labels that stand before an offset.
    Before(u32),
    /// The flows of a node, and all constants and labels.
    Everywhere,
}

/// A use at an offset of a name that is known or is not.
pub fn use_fault(at: u32, known: bool) -> Option<NameFault>
    ensures { result ≡ first (use_at at known) }
{
    if known {
        None
    } else {
        Some(NameFault::UnknownName(at))
    }
}

fn is_known_value(spaces: &Spaces, flows: &Space, reach: Reach, name: &Text) -> bool
    ensures { result ≡ knows_value spaces.now flows.now reach name.now }
{
    match reach {
        Reach::Before(at) => spaces.constants.is_before(at, name)
            || spaces.labels.is_before(at, name),
        Reach::Everywhere => flows.has(name)
            || (spaces.constants.has(name) || spaces.labels.has(name)),
    }
}

fn is_known_clock(flows: &Space, reach: Reach, name: &Text) -> bool
    ensures { result ≡ knows_clock flows.now reach name.now }
{
    match reach {
        Reach::Before(_) => true,
        Reach::Everywhere => flows.has(name),
    }
}

/// The first name in an expression that is not known.
#[cycle(unknown)]
pub fn unknown_use(spaces: &Spaces, flows: &Space, reach: Reach, e: &Expr) -> Option<NameFault>
    ensures { result ≡ first (unknown_in spaces.now flows.now reach (tree_of e.now)) }
{
    match &e.form {
        ExprForm::True | ExprForm::False | ExprForm::Number(_) => None,
        ExprForm::Named(x) => use_fault(e.at, is_known_value(spaces, flows, reach, x)),
        ExprForm::Not(a) | ExprForm::Minus(a) | ExprForm::Pre(a) | ExprForm::Current(a) => {
            unknown_use(spaces, flows, reach, a)
        }
        ExprForm::When(a, c) => sooner_of(
            use_fault(c.at, is_known_clock(flows, reach, &c.text)),
            unknown_use(spaces, flows, reach, a),
        ),
        ExprForm::Binary(_, a, b) => sooner_of(
            unknown_use(spaces, flows, reach, a),
            unknown_use(spaces, flows, reach, b),
        ),
        ExprForm::If(a, b, c) => sooner_of(
            unknown_use(spaces, flows, reach, a),
            sooner_of(
                unknown_use(spaces, flows, reach, b),
                unknown_use(spaces, flows, reach, c),
            ),
        ),
        ExprForm::AtMostOne(es) => unknown_use_of_all(spaces, flows, reach, es.as_slice()),
        ExprForm::Call(f, es) => sooner_of(
            use_fault(e.at, spaces.nodes.has(f)),
            unknown_use_of_all(spaces, flows, reach, es.as_slice()),
        ),
    }
}

#[tactic(auto, using(crate::proofs::Joined::sooner_none))]
#[cycle(unknown)]
fn unknown_use_of_all(
    spaces: &Spaces,
    flows: &Space,
    reach: Reach,
    es: &[Expr],
) -> Option<NameFault>
    ensures { result ≡ first (unknown_in_all spaces.now flows.now reach (trees (map tree_of es.now))) }
{
    let mut fault = None;
    for e in es {
        fault = sooner_of(fault, unknown_use(spaces, flows, reach, e));
    }
    fault
}
