//! The type of an expression by its head alone.

ghost use Rattle.std.specs.Prelude.{◌≡◌, unwrap_or, slice_get};
ghost use Rattle.std.specs.Option.{option_copied};
ghost use Rattle.rv_tree.specs.Tree.{tree_of};
ghost use Rattle.rv_types.specs.Heads.{first_output, head_kind, kind_given};
ghost use Rattle.rv_types.specs.Tables.{scope_of};
ghost use Rattle.rv_types.specs.declared.typed.Kind.TheVariants as kind;

use crate::typed::Kind;
use crate::view::{Signature, View};
use rv_base::Text;
use rv_tree::{Expr, ExprForm, Op};

/// The type that the head of an expression tells. It calls itself for the left operand of `->`, the first part of `if`, and
/// the operand of `pre`, `current` and `when`, so as deep as the tree is: 20,301 levels at most. Of nested comparisons each
/// is a head that tells at once, so no expression is looked at for two of them.
pub fn head(view: &View, e: &Expr) -> Kind
    ensures { result ≡ head_kind (scope_of view.now) (tree_of e.now) }
{
    match &e.form {
        ExprForm::True | ExprForm::False | ExprForm::Not(_) | ExprForm::AtMostOne(_) => Kind::Bool,
        ExprForm::Number(_) | ExprForm::Minus(_) => Kind::Int,
        ExprForm::Named(name) => head_of_name(view, name),
        ExprForm::Pre(operand) | ExprForm::Current(operand) | ExprForm::When(operand, _) => {
            head(view, operand)
        }
        ExprForm::Binary(op, left, _) => match given_by(*op) {
            Some(kind) => kind,
            None => head(view, left),
        },
        ExprForm::If(_, first, _) => head(view, first),
        ExprForm::Call(name, _) => head_of_call(view, name),
    }
}

/// The type of a name; `Bool` where it has none.
#[inline(never)]
fn head_of_name(view: &View, name: &Text) -> Kind
    ensures { result ≡ unwrap_or ((scope_of view.now).kind name.now) kind.Bool }
{
    view.kind(name).unwrap_or(Kind::Bool)
}

/// The type that an operator gives whatever its operands are; none for `->`, which gives that of its operands.
pub fn given_by(op: Op) -> Option<Kind>
    ensures { result ≡ kind_given op }
{
    match op {
        Op::Arrow => None,
        Op::Plus | Op::Minus | Op::Times | Op::Slash | Op::Div | Op::Mod => Some(Kind::Int),
        _ => Some(Kind::Bool),
    }
}

/// The type of the first output of the node of a name; `Bool` where there is none.
#[inline(never)]
fn head_of_call(view: &View, name: &Text) -> Kind
    ensures { result ≡ unwrap_or (first_output ((scope_of view.now).callee name.now)) kind.Bool }
{
    first_of(view.callee(name))
}

fn first_of(signature: Option<&Signature>) -> Kind
    ensures { result ≡ unwrap_or (first_output (option_copied signature.entry)) kind.Bool }
{
    match signature {
        None => Kind::Bool,
        Some(signature) => first_in(signature.gives()),
    }
}

fn first_in(kinds: &[Kind]) -> Kind
    ensures { result ≡ unwrap_or (slice_get kinds.now 0) kind.Bool }
{
    match kinds {
        [] => Kind::Bool,
        [first, ..] => *first,
    }
}
