//! The operators, and the table of their levels.

ghost use Rattle.std.specs.Prelude.{◌≡◌};
ghost use Rattle.rv_syntax.specs.Grammar as grammar;

use rv_tree::Op;

/// An operator before its operand.
#[derive(Clone, Copy, Debug)]
pub enum Prefix {
    Not,
    Minus,
    Pre,
    Current,
}

/// The level of an operator between two operands: the higher, the tighter it binds.
pub fn level(op: Op) -> u8
    ensures { result ≡ grammar.level_of op }
{
    match op {
        Op::Arrow => 1,
        Op::Implies => 2,
        Op::Or | Op::Xor => 3,
        Op::And => 4,
        Op::Equal | Op::Differs | Op::Less | Op::AtMost | Op::Greater | Op::AtLeast => 5,
        Op::Plus | Op::Minus => 6,
        Op::Times | Op::Slash | Op::Div | Op::Mod => 7,
    }
}

/// The least level of an operand on the left.
pub fn left_need(op: Op) -> u8
    ensures { result ≡ grammar.left_level op }
{
    match op {
        Op::Arrow => 2,
        Op::Implies | Op::Or | Op::Xor => 3,
        Op::And => 4,
        Op::Equal | Op::Differs | Op::Less | Op::AtMost | Op::Greater | Op::AtLeast => 6,
        Op::Plus | Op::Minus => 6,
        Op::Times | Op::Slash | Op::Div | Op::Mod => 7,
    }
}

/// The least level of an operand on the right.
pub fn right_need(op: Op) -> u8
    ensures { result ≡ grammar.right_level op }
{
    match op {
        Op::Arrow => 1,
        Op::Implies => 2,
        Op::Or | Op::Xor => 4,
        Op::And => 5,
        Op::Equal | Op::Differs | Op::Less | Op::AtMost | Op::Greater | Op::AtLeast => 6,
        Op::Plus | Op::Minus => 7,
        Op::Times | Op::Slash | Op::Div | Op::Mod => 8,
    }
}
