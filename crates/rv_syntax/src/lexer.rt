//! From bytes to tokens.

ghost use Rattle.std.specs.Prelude.{◌≡◌, ◌≤◌, ◌<◌, ◌++◌, ℕ, List, length, IfOk, IfSome, take};
ghost use Rattle.std.specs.Str.{bytes_eq, IsAscii};
ghost use Rattle.std.specs.Str.Parse.{digits_value};
ghost use Rattle.rv_syntax.specs.Lexing as spec;
ghost use Rattle.rv_base.specs.Limits.{source_limit};

use crate::token::{Kind, Mark, Token};
use rv_base::{Memory, Text};
use rv_tree::TOO_HEAVY;
use std::alloc::{AllocError, Global};

/// What the bytes at the front of a text are: a byte of white space or a comment, a name, a number, a word or
/// symbol of the language, a `.`, a word or symbol that is left out, or no token.
#[derive(Clone, Copy, Debug)]
pub enum Shape {
    Blank,
    Name,
    Number,
    Fixed(Mark),
    Point,
    LeftOut,
    Bad,
}

/// Where a comment ends: with the line, or with the next `*` that is followed by this byte.
#[derive(Clone, Copy, Debug)]
pub enum Comment {
    Line,
    Until(u8),
}

fn is_space(b: u8) -> bool
    ensures { result ≡ spec.is_space b }
{
    b == b' ' || b == b'\t' || b == b'\n' || b == 12 || b == b'\r'
}

fn is_letter(b: u8) -> bool
    ensures { result ≡ spec.is_letter b }
{
    b.is_ascii_alphabetic() || b == b'_'
}

fn is_word_byte(b: u8) -> bool
    ensures { result ≡ spec.is_word_byte b }
{
    b.is_ascii_alphanumeric() || b == b'_'
}

/// How many bytes at the front belong to a word.
#[tactic(auto, using(crate::proofs::Words::ascii_word))]
fn word_len(bytes: &[u8]) -> usize
    ensures value { result ≡ spec.word_len bytes.now }
    ensures within { result ≤ length bytes.now }
    ensures ascii { IsAscii (take result bytes.now) }
{
    bytes.iter().take_while(|b| is_word_byte(**b)).count()
}

/// How many bytes at the front are digits.
#[tactic(auto, using(crate::proofs::Words::digits_number))]
fn number_len(bytes: &[u8]) -> usize
    ensures value { result ≡ spec.number_len bytes.now }
    ensures within { result ≤ length bytes.now }
    ensures digits { spec.AreDigits (take result bytes.now) }
{
    bytes.iter().take_while(|b| b.is_ascii_digit()).count()
}

/// How many bytes at the front stand before the end of the line.
fn line_len(bytes: &[u8]) -> usize
    ensures value { result ≡ spec.line_len bytes.now }
    ensures within { result ≤ length bytes.now }
{
    bytes.iter().take_while(|b| **b != b'\n').count()
}

/// How many bytes there are up to the first `*` that is followed by `last`, both included.
fn close_len(bytes: &[u8], last: u8) -> Option<usize>
    ensures value { result ≡ spec.close_len last bytes.now }
    ensures within { IfSome result (λ n. n ≤ length bytes.now) }
{
    let mut at = 0;
    'more: while at + 1 < bytes.len() {
        if bytes[at] == b'*' && bytes[at + 1] == last {
            return Some(at + 2);
        }
        at += 1;
    }
    None
}

fn is(a: &[u8], b: &[u8]) -> bool
    ensures { result ≡ bytes_eq a.now b.now }
{
    a == b
}

/// The reserved word of declarations that this is.
#[tactic(auto, unfolding(crate::specs::Lexing::declaration_word))]
fn declaration_word(text: &[u8]) -> Option<Mark>
    ensures { result ≡ spec.declaration_word text.now }
{
    if is(text, b"node") {
        Some(Mark::Node)
    } else if is(text, b"returns") {
        Some(Mark::Returns)
    } else if is(text, b"var") {
        Some(Mark::Var)
    } else if is(text, b"let") {
        Some(Mark::Let)
    } else if is(text, b"tel") {
        Some(Mark::Tel)
    } else if is(text, b"const") {
        Some(Mark::Const)
    } else if is(text, b"type") {
        Some(Mark::Type)
    } else if is(text, b"enum") {
        Some(Mark::Enum)
    } else if is(text, b"bool") {
        Some(Mark::Bool)
    } else if is(text, b"int") {
        Some(Mark::Int)
    } else if is(text, b"assert") {
        Some(Mark::Assert)
    } else {
        None
    }
}

/// The reserved word of expressions that this is.
#[tactic(auto, unfolding(crate::specs::Lexing::expression_word))]
fn expression_word(text: &[u8]) -> Option<Mark>
    ensures { result ≡ spec.expression_word text.now }
{
    if is(text, b"if") {
        Some(Mark::If)
    } else if is(text, b"then") {
        Some(Mark::Then)
    } else if is(text, b"else") {
        Some(Mark::Else)
    } else if is(text, b"true") {
        Some(Mark::True)
    } else if is(text, b"false") {
        Some(Mark::False)
    } else if is(text, b"not") {
        Some(Mark::Not)
    } else if is(text, b"and") {
        Some(Mark::And)
    } else if is(text, b"or") {
        Some(Mark::Or)
    } else if is(text, b"xor") {
        Some(Mark::Xor)
    } else if is(text, b"pre") {
        Some(Mark::Pre)
    } else if is(text, b"when") {
        Some(Mark::When)
    } else if is(text, b"current") {
        Some(Mark::Current)
    } else if is(text, b"div") {
        Some(Mark::Div)
    } else if is(text, b"mod") {
        Some(Mark::Mod)
    } else {
        None
    }
}

/// Whether this is one of the first words that are left out of the language.
#[tactic(auto, unfolding(crate::specs::Lexing::is_left_out))]
fn is_left_out(text: &[u8]) -> bool
    ensures { result ≡ spec.is_left_out text.now }
{
    is(text, b"real")
        || is(text, b"float")
        || is(text, b"function")
        || is(text, b"package")
        || is(text, b"model")
        || is(text, b"extern")
        || is(text, b"unsafe")
        || is(text, b"include")
}

/// Whether this is one of the other words that are left out.
#[tactic(auto, unfolding(crate::specs::Lexing::is_left_out_too))]
fn is_left_out_too(text: &[u8]) -> bool
    ensures { result ≡ spec.is_left_out_too text.now }
{
    is(text, b"struct")
        || is(text, b"merge")
        || is(text, b"fby")
        || is(text, b"nor")
        || is(text, b"operator")
        || is(text, b"with")
        || is(text, b"automaton")
        || is(text, b"subrange")
}

/// The reserved word that this is.
fn fixed_word(text: &[u8]) -> Option<Mark>
    ensures { result ≡ spec.fixed_word text.now }
{
    match declaration_word(text) {
        Some(mark) => Some(mark),
        None => expression_word(text),
    }
}

/// What a whole word is.
fn word(text: &[u8]) -> Shape
    ensures { result ≡ spec.word text.now }
{
    match fixed_word(text) {
        Some(mark) => Shape::Fixed(mark),
        None if is_left_out(text) => Shape::LeftOut,
        None if is_left_out_too(text) => Shape::LeftOut,
        None => Shape::Name,
    }
}

/// The operator that one byte is.
fn operator(b: u8) -> Option<Mark>
    ensures { result ≡ spec.operator b }
{
    match b {
        b'<' => Some(Mark::Less),
        b'>' => Some(Mark::Greater),
        b'=' => Some(Mark::Equal),
        b'+' => Some(Mark::Plus),
        b'-' => Some(Mark::Minus),
        b'*' => Some(Mark::Times),
        b'/' => Some(Mark::Slash),
        b'#' => Some(Mark::Hash),
        _ => None,
    }
}

/// The bracket, or what separates, that one byte is.
fn bracket(b: u8) -> Option<Mark>
    ensures { result ≡ spec.bracket b }
{
    match b {
        b'(' => Some(Mark::Open),
        b')' => Some(Mark::Close),
        b',' => Some(Mark::Comma),
        b';' => Some(Mark::Semi),
        b':' => Some(Mark::Colon),
        b'{' => Some(Mark::OpenBrace),
        b'}' => Some(Mark::CloseBrace),
        _ => None,
    }
}

/// What one byte is that is no other symbol.
fn rare(b: u8) -> Shape
    ensures value { result ≡ spec.rare b }
    ensures plain { (w : List ℕ) → spec.IsPlain result w }
{
    match b {
        b'.' => Shape::Point,
        b'[' | b']' | b'^' | b'|' => Shape::LeftOut,
        _ => Shape::Bad,
    }
}

/// What a symbol of one byte is.
fn single(b: u8) -> Shape
    ensures value { result ≡ spec.single b }
    ensures plain { (w : List ℕ) → spec.IsPlain result w }
{
    match operator(b) {
        Some(mark) => Shape::Fixed(mark),
        None => match bracket(b) {
            Some(mark) => Shape::Fixed(mark),
            None => rare(b),
        },
    }
}

/// The symbol that two bytes are.
fn pair(first: u8, second: u8) -> Option<Shape>
    ensures value { result ≡ spec.pair first second }
    ensures plain { IfSome result (λ shape. (w : List ℕ) → spec.IsPlain shape w) }
{
    match (first, second) {
        (b'-', b'>') => Some(Shape::Fixed(Mark::Arrow)),
        (b'=', b'>') => Some(Shape::Fixed(Mark::Implies)),
        (b'<', b'>') => Some(Shape::Fixed(Mark::Differs)),
        (b'<', b'=') => Some(Shape::Fixed(Mark::AtMost)),
        (b'>', b'=') => Some(Shape::Fixed(Mark::AtLeast)),
        (b'<', b'<') | (b'>', b'>') | (b':', b':') => Some(Shape::LeftOut),
        _ => None,
    }
}

/// The comment that two bytes open.
fn opens(first: u8, second: u8) -> Option<Comment>
    ensures { result ≡ spec.opens first second }
{
    match (first, second) {
        (b'-', b'-') => Some(Comment::Line),
        (b'(', b'*') => Some(Comment::Until(b')')),
        (b'/', b'*') => Some(Comment::Until(b'/')),
        _ => None,
    }
}

/// The length of a comment, from the bytes after the two that open it. One that is never closed takes all.
fn comment_len(comment: Comment, bytes: &[u8]) -> (Shape, usize)
    ensures value { result ≡ spec.comment_len comment bytes.now }
    ensures within { result.1 ≤ length bytes.now }
    ensures plain { (w : List ℕ) → spec.IsPlain result.0 w }
{
    match comment {
        Comment::Line => (Shape::Blank, line_len(bytes)),
        Comment::Until(last) => match close_len(bytes, last) {
            Some(len) => (Shape::Blank, len),
            None => (Shape::Bad, bytes.len()),
        },
    }
}

/// What begins a text, which is not empty, with neither white space nor a letter nor a digit.
fn other(text: &[u8]) -> (Shape, usize)
    requires { 0 < length text.now }
    ensures value { result ≡ spec.other text.now }
    ensures some { 0 < result.1 }
    ensures within { result.1 ≤ length text.now }
    ensures plain { (w : List ℕ) → spec.IsPlain result.0 w }
{
    match text {
        [first, second, rest @ ..] => match opens(*first, *second) {
            Some(comment) => {
                let (shape, len) = comment_len(comment, rest);
                (shape, 2 + len)
            }
            None => match pair(*first, *second) {
                Some(shape) => (shape, 2),
                None => (single(*first), 1),
            },
        },
        _ => (single(text[0]), 1),
    }
}

/// The shape and the length of what begins a text, which is not empty.
#[tactic(auto, unfolding(crate::specs::Lexing::cut))]
fn cut(text: &[u8]) -> (Shape, usize)
    requires { 0 < length text.now }
    ensures value { result ≡ spec.cut text.now }
    ensures some { 0 < result.1 }
    ensures within { result.1 ≤ length text.now }
    ensures plain { spec.IsPlain result.0 (take result.1 text.now) }
{
    let first = text[0];
    if is_space(first) {
        (Shape::Blank, 1)
    } else if is_letter(first) {
        let len = word_len(text);
        (word(&text[..len]), len)
    } else if first.is_ascii_digit() {
        (Shape::Number, number_len(text))
    } else {
        other(text)
    }
}

/// The number that these digits are, or 2^40 + 1 where it is above 2^40.
fn number(digits: &[u8]) -> u64
    requires { spec.AreDigits digits.now }
    ensures { result ≡ spec.kept (digits_value 10 digits.now) }
{
    let mut number = 0;
    for digit in digits {
        number = (number * 10 + u64::from(*digit - b'0')).min(TOO_HEAVY);
    }
    number
}

/// The kind of the token that these bytes are, if they are one.
fn kind_of(
    alloc: Global,
    after_tel: bool,
    shape: Shape,
    text: &[u8],
) -> Result<Option<Kind>, Memory>
    requires { spec.IsPlain shape text.now }
    ensures { IfOk result (λ kind. kind ≡ spec.kind_of after_tel shape text.now) }
{
    match shape {
        Shape::Blank => Ok(None),
        Shape::Name => Ok(Some(Kind::Name(name_text(alloc, text)?))),
        Shape::Number => Ok(Some(Kind::Number(number(text)))),
        Shape::Fixed(mark) => Ok(Some(Kind::Fixed(mark))),
        Shape::Point if after_tel => Ok(Some(Kind::Fixed(Mark::Dot))),
        Shape::Point => Ok(Some(Kind::LeftOut)),
        Shape::LeftOut => Ok(Some(Kind::LeftOut)),
        Shape::Bad => Ok(Some(Kind::Bad)),
    }
}

fn name_text(alloc: Global, text: &[u8]) -> Result<Text, AllocError>
    requires { IsAscii text.now }
    ensures { IfOk result (λ name. name ≡ text.now) }
{
    let text = std::str::from_utf8(text).unwrap();
    Text::from_str(alloc, text)
}

/// Whether the last token is `tel`, behind bytes of this shape.
fn ends_in_tel(before: bool, shape: Shape) -> bool
    ensures { result ≡ spec.ends_in_tel before shape }
{
    match shape {
        Shape::Blank => before,
        Shape::Fixed(Mark::Tel) => true,
        _ => false,
    }
}

/// Adds a token of this kind, if there is one.
fn push_token(tokens: &mut Vec<Token>, kind: Option<Kind>, at: u32) -> Result<(), Memory>
    ensures { IfOk result (λ _. tokens.new.items ≡ tokens.old.items ++ spec.emitted kind at) }
{
    if let Some(kind) = kind {
        tokens.push(Token { kind, at })?;
    }
    Ok(())
}

/// The tokens of a text, first to last.
pub fn tokens_of(alloc: Global, bytes: &[u8]) -> Result<Vec<Token>, Memory>
    requires { length bytes.now ≤ source_limit }
    ensures { IfOk result (λ tokens. tokens.items ≡ spec.tokens bytes.now) }
{
    let mut tokens = Vec::new(alloc);
    let mut after_tel = false;
    let mut at = 0;
    'more: while at < bytes.len() {
        let (shape, len) = cut(&bytes[at..]);
        let kind = kind_of(alloc, after_tel, shape, &bytes[at..at + len])?;
        push_token(&mut tokens, kind, at as u32)?;
        after_tel = ends_in_tel(after_tel, shape);
        at += len;
    }
    Ok(tokens)
}
