//! The tokens of a source.

use rv_base::Text;

/// A word or a symbol that is always spelled alike. `Dot` is the one that ends a node, behind `tel`.
#[derive(Clone, Copy, Debug)]
pub enum Mark {
    Node,
    Returns,
    Var,
    Let,
    Tel,
    Const,
    Type,
    Enum,
    Bool,
    Int,
    If,
    Then,
    Else,
    True,
    False,
    Not,
    And,
    Or,
    Xor,
    Pre,
    When,
    Current,
    Assert,
    Div,
    Mod,
    Arrow,
    Implies,
    Differs,
    AtMost,
    AtLeast,
    Less,
    Greater,
    Equal,
    Plus,
    Minus,
    Times,
    Slash,
    Open,
    Close,
    Comma,
    Semi,
    Colon,
    OpenBrace,
    CloseBrace,
    Hash,
    Dot,
}

/// What a token is: a name, a number, a word or a symbol of the language, a word or a symbol that is left out
/// of it, or what is no token. A number above 2^40 is kept as 2^40 + 1. A byte that begins no token is `Bad`,
/// and so is a comment that is never closed, with all that follows.
#[derive(Debug, Drop)]
pub enum Kind {
    Name(Text),
    Number(u64),
    Fixed(Mark),
    LeftOut,
    Bad,
}

/// A token, with the offset of its first byte.
#[derive(Debug, Drop)]
pub struct Token {
    pub kind: Kind,
    pub at: u32,
}
