//! The syntax tree of a Lustre program. Brackets, white space and comments leave nothing in it.

use crate::decls::Decls;
use rv_base::{Box, Many, Text};

/// A name as it stands in the source, with the offset of its first byte.
#[derive(Clone, Debug, Drop, PartialEq, Eq)]
pub struct Name {
    pub text: Text,
    pub at: u32,
}

/// All declarations of one source file, each kind in the order of the text.
#[derive(Debug, Drop)]
pub struct Program {
    pub types: Many<TypeDecl>,
    pub constants: Many<ConstDecl>,
    pub nodes: Many<Node>,
}

/// The declaration of a type.
#[derive(Clone, Debug, Drop, PartialEq, Eq)]
pub struct TypeDecl {
    pub name: Name,
    pub body: TypeBody,
}

/// What a declared type is: another name for a type, or an enumeration with these labels.
#[derive(Clone, Debug, Drop, PartialEq, Eq)]
pub enum TypeBody {
    Alias(TypeName),
    Labels(Many<Name>),
}

/// A type as it is written.
#[derive(Clone, Debug, Drop, PartialEq, Eq)]
pub enum TypeName {
    Bool,
    Int,
    Named(Name),
}

/// The declaration of a constant, with its type where that is written.
#[derive(Debug, Drop)]
pub struct ConstDecl {
    pub name: Name,
    pub kind: Option<TypeName>,
    pub body: Expr,
}

/// A node: its flows, its equations and its assertions, each in the order of the text.
#[derive(Debug, Drop)]
pub struct Node {
    pub name: Name,
    pub inputs: Decls,
    pub outputs: Decls,
    pub locals: Decls,
    pub equations: Many<Equation>,
    pub assertions: Many<Assertion>,
}

/// The declaration of one flow, with its clock where that is written.
#[derive(Clone, Debug, Drop, PartialEq, Eq)]
pub struct Decl {
    pub name: Name,
    pub kind: TypeName,
    pub clock: Option<Name>,
}

/// An equation: the flows on its left, and the expression that gives them.
#[derive(Debug, Drop)]
pub struct Equation {
    pub lefts: Many<Name>,
    pub right: Expr,
}

/// An assertion: the offset of the word `assert`, its site in the node, and what is assumed.
#[derive(Debug, Drop)]
pub struct Assertion {
    pub at: u32,
    pub site: u32,
    pub body: Expr,
}

/// An expression. Its offset is that of its operator, prefix, `if` or `#`, and of its first byte where it
/// is a name, a literal or a call. A `pre`, a `current`, a call and a comparison have a site in their node.
#[cycle(expr)]
#[derive(Clone, Debug, Drop, PartialEq, Eq)]
pub struct Expr {
    pub at: u32,
    pub site: Option<u32>,
    pub form: ExprForm,
}

/// What an expression is made of. A literal above 2^40 is kept as 2^40 + 1.
#[cycle(expr)]
#[derive(Clone, Debug, Drop, PartialEq, Eq)]
pub enum ExprForm {
    True,
    False,
    Number(u64),
    Named(Text),
    Not(Box<Expr>),
    Minus(Box<Expr>),
    Pre(Box<Expr>),
    Current(Box<Expr>),
    When(Box<Expr>, Name),
    Binary(Op, Box<Expr>, Box<Expr>),
    If(Box<Expr>, Box<Expr>, Box<Expr>),
    AtMostOne(Many<Expr>),
    Call(Text, Many<Expr>),
}

/// An operator between two operands.
#[derive(Clone, Copy, Debug, PartialEq, Eq)]
pub enum Op {
    Arrow,
    Implies,
    Or,
    Xor,
    And,
    Equal,
    Differs,
    Less,
    AtMost,
    Greater,
    AtLeast,
    Plus,
    Minus,
    Times,
    Slash,
    Div,
    Mod,
}
