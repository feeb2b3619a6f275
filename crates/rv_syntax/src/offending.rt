//! The fault of a text, by the token at which its reading stops.

ghost use Rattle.std.specs.Prelude.{◌≡◌, ◌≤◌, ◌++◌, ◌||◌, List, length};
ghost use Rattle.rv_syntax.specs.Faults as spec;
ghost use Rattle.rv_syntax.specs.Stopped.{fault_at as fault_model};
ghost use Rattle.rv_syntax.specs.declared.token.Token.{Token as TokenModel};

use crate::fault::{TextFault, Why};
use crate::token::{Kind, Mark, Token};
use std::marker::Model;

/// What stands before a token: the kinds of the last three tokens, the last one first, and whether they end between
/// the word `node` and the next `var` or `let`. Where there are fewer, `Bad` stands for them.
#[derive(Drop)]
struct Before<'a> {
    last: &'a Kind,
    second: &'a Kind,
    third: &'a Kind,
    in_header: bool,
}

impl<'a> Model for Before<'a> {
    ghost use Rattle.rv_syntax.specs.Faults.{Before as BeforeModel};

    ghost Value = { BeforeModel };

    ghost view = { λ b. record { last = b.last.now; second = b.second.now; third = b.third.now; in_header = b.in_header } };
}

fn is_when(kind: &Kind) -> bool
    ensures { result ≡ spec.kind_is spec.is_when kind.now }
{
    matches!(kind, Kind::Fixed(Mark::When))
}

fn is_open(kind: &Kind) -> bool
    ensures { result ≡ spec.kind_is spec.is_open kind.now }
{
    matches!(kind, Kind::Fixed(Mark::Open))
}

fn is_close(kind: &Kind) -> bool
    ensures { result ≡ spec.kind_is spec.is_close kind.now }
{
    matches!(kind, Kind::Fixed(Mark::Close))
}

fn is_not(kind: &Kind) -> bool
    ensures { result ≡ spec.kind_is spec.is_not kind.now }
{
    matches!(kind, Kind::Fixed(Mark::Not))
}

fn is_colon(kind: &Kind) -> bool
    ensures { result ≡ spec.kind_is spec.is_colon kind.now }
{
    matches!(kind, Kind::Fixed(Mark::Colon))
}

fn is_node(kind: &Kind) -> bool
    ensures { result ≡ spec.kind_is spec.is_node kind.now }
{
    matches!(kind, Kind::Fixed(Mark::Node))
}

fn is_name(kind: &Kind) -> bool
    ensures { result ≡ spec.is_name kind.now }
{
    matches!(kind, Kind::Name(_))
}

/// Whether a token is a type as it is written: `bool`, `int` or a name.
fn is_type(kind: &Kind) -> bool
    ensures { result ≡ spec.is_type kind.now }
{
    match kind {
        Kind::Name(_) | Kind::Fixed(Mark::Bool) | Kind::Fixed(Mark::Int) => true,
        _ => false,
    }
}

fn is_left_out_word(kind: &Kind) -> bool
    ensures { result ≡ spec.kind_left_out kind.now }
{
    matches!(kind, Kind::LeftOut)
}

/// Whether one is in a node's header behind a token, where one is so before it or not.
fn still_headed(kind: &Kind, in_header: bool) -> bool
    ensures { result ≡ spec.still_headed kind.now in_header }
{
    match kind {
        Kind::Fixed(Mark::Node) => true,
        Kind::Fixed(Mark::Var) | Kind::Fixed(Mark::Let) => false,
        _ => in_header,
    }
}

impl<'a> Before<'a> {
    /// Before the first token, where this kind stands for the tokens that are not there.
    fn first(nothing: &'a Kind) -> Before<'a>
        requires { nothing.now ≡ Kind.Bad }
        ensures { result ≡ spec.nothing_before }
    {
        Before {
            last: nothing,
            second: nothing,
            third: nothing,
            in_header: false,
        }
    }

    fn one_later(&self, token: &'a Token) -> Before<'a>
        ensures { result ≡ spec.one_later self.now token.now }
    {
        Before {
            last: &token.kind,
            second: self.last,
            third: self.second,
            in_header: still_headed(&token.kind, self.in_header),
        }
    }

    fn all(nothing: &'a Kind, tokens: &'a [Token]) -> Before<'a>
        requires { nothing.now ≡ Kind.Bad }
        ensures { result ≡ spec.looked_back spec.nothing_before tokens.now }
    {
        let mut before = Before::first(nothing);
        'each: for token in tokens {
            before = before.one_later(token);
        }
        before
    }

    /// Whether `not` or `(` stands directly after `when`.
    fn negates_clock(&self, kind: &Kind) -> bool
        ensures { result ≡ spec.negates_clock self.now kind.now }
    {
        is_when(self.last) && (is_not(kind) || is_open(kind))
    }

    /// Whether `(` stands directly after the name of a `when`.
    fn calls_clock(&self, kind: &Kind) -> bool
        ensures { result ≡ spec.calls_clock self.now kind.now }
    {
        is_when(self.second) && is_name(self.last) && is_open(kind)
    }

    /// Whether `)` stands directly after the `(` of a node's inputs.
    fn has_no_inputs(&self, kind: &Kind) -> bool
        ensures { result ≡ spec.has_no_inputs self.now kind.now }
    {
        is_node(self.third) && is_name(self.second) && is_open(self.last) && is_close(kind)
    }

    /// Whether `when` stands directly after the type of an input or output.
    fn clocks_port(&self, kind: &Kind) -> bool
        ensures { result ≡ spec.clocks_port self.now kind.now }
    {
        self.in_header && is_colon(self.second) && is_type(self.last) && is_when(kind)
    }

    /// Whether a token of this kind is left out, as a word or symbol or in its place.
    fn leaves_out(&self, kind: &Kind) -> bool
        ensures { result ≡ (spec.kind_left_out kind.now || spec.negates_clock self.now kind.now || spec.calls_clock self.now kind.now || spec.has_no_inputs
            self.now kind.now || spec.clocks_port self.now kind.now) }
    {
        is_left_out_word(kind)
            || self.negates_clock(kind)
            || self.calls_clock(kind)
            || self.has_no_inputs(kind)
            || self.clocks_port(kind)
    }
}

/// Whether a token behind these is left out of the language, as a word or symbol or in its place.
fn is_left_out(front: &[Token], token: &Token) -> bool
    ensures { result ≡ spec.is_left_out front.now token.now }
{
    let nothing = Kind::Bad;
    Before::all(&nothing, front).leaves_out(&token.kind)
}

/// The fault of a text of this length whose reading stops before the tokens that are left. It looks at the tokens
/// before them once, so that reading itself need not keep what they were.
fn fault_at(front: &[Token], rest: &[Token], why: Why, len: u32) -> TextFault
    ensures { result ≡ fault_model front.now rest.now why len }
{
    match (rest, why) {
        ([], _) => TextFault::BadText(len),
        ([token, ..], Why::TooDeep) => TextFault::TooDeep(token.at),
        ([token, ..], Why::Offends) if is_left_out(front, token) => TextFault::LeftOut(token.at),
        ([token, ..], Why::Offends) => TextFault::BadText(token.at),
    }
}

/// The fault of a text of this length whose reading stops where so many tokens are left.
pub fn fault_of(tokens: &[Token], left: usize, why: Why, len: u32) -> TextFault
    requires { left ≤ length tokens.now }
    ensures { (front rest : List TokenModel) → tokens.now ≡ front ++ rest → length rest ≡ left → result ≡ fault_model front rest why len }
{
    let (front, rest) = tokens.split_at(tokens.len() - left);
    fault_at(front, rest, why, len)
}
