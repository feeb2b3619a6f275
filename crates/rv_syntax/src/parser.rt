//! Reading tokens: single ones, and expressions.

ghost use Rattle.std.specs.Prelude.{⊤, ◌≡◌, ◌<◌, ◌≤◌, ℕ, [], map, length, IfOk, IfErr, IsTrue, ◌↔◌};
ghost use Rattle.rv_syntax.specs.Grammar.{Applied, Function, Hash, Invoked};
ghost use Rattle.rv_syntax.specs.Machine as machine;
ghost use Rattle.rv_syntax.specs.Machine.{leaf_tree};
ghost use Rattle.rv_syntax.specs.Marks as marks;
ghost use Rattle.rv_syntax.specs.Marks.{name_of};
ghost use Rattle.rv_syntax.specs.Parse.{one, starts};
ghost use Rattle.rv_syntax.specs.Reads as spec;
ghost use Rattle.rv_tree.specs.Tree.{tree_of};

use crate::fault::{Stop, Why};
use crate::operator::{Prefix, left_need, level, right_need};
use crate::token::{Kind, Mark, Token};
use rv_base::{Box, Many};
use rv_tree::{Expr, ExprForm, Name, Op};
use std::alloc::Global;
use std::marker::Model;

/// How deep an expression may be nested.
const LIMIT: u32 = 200;

/// What a token is where an operand is wanted, an operator token with its offset.
#[derive(Clone, Copy, Debug)]
pub enum Start {
    Operand,
    Before(Prefix, u32),
    Opens,
    Asks(u32),
    Counts(u32),
    Other,
}

/// What a token is after an operand, an operator token with its offset.
#[derive(Clone, Copy, Debug)]
pub enum Next {
    Between(Op, u32),
    Gates(u32),
    Opens,
    Closes,
    Separates,
    Answers,
    Otherwise,
    Other,
}

/// What goes on with an operand.
#[derive(Clone, Copy, Debug)]
pub enum Link {
    Between(Op, u32),
    When(u32),
}

/// An operand that has been read: its level, and whether it ends in an `if` without brackets.
#[derive(Drop)]
pub struct Operand {
    pub tree: Expr,
    pub level: u8,
    pub is_open: bool,
}

fn mark_start(mark: Mark, at: u32) -> Start
    ensures { result ≡ machine.mark_start mark at }
{
    match mark {
        Mark::True | Mark::False => Start::Operand,
        Mark::Not => Start::Before(Prefix::Not, at),
        Mark::Minus => Start::Before(Prefix::Minus, at),
        Mark::Pre => Start::Before(Prefix::Pre, at),
        Mark::Current => Start::Before(Prefix::Current, at),
        Mark::Open => Start::Opens,
        Mark::If => Start::Asks(at),
        Mark::Hash => Start::Counts(at),
        _ => Start::Other,
    }
}

fn start_of(token: &Token) -> Start
    ensures { result ≡ machine.start_of token.now }
{
    match &token.kind {
        Kind::Name(_) | Kind::Number(_) => Start::Operand,
        Kind::Fixed(mark) => mark_start(*mark, token.at),
        Kind::LeftOut | Kind::Bad => Start::Other,
    }
}

fn mark_next(mark: Mark, at: u32) -> Next
    ensures { result ≡ machine.mark_next mark at }
{
    match mark {
        Mark::Arrow => Next::Between(Op::Arrow, at),
        Mark::Implies => Next::Between(Op::Implies, at),
        Mark::Or => Next::Between(Op::Or, at),
        Mark::Xor => Next::Between(Op::Xor, at),
        Mark::And => Next::Between(Op::And, at),
        Mark::Equal => Next::Between(Op::Equal, at),
        Mark::Differs => Next::Between(Op::Differs, at),
        Mark::Less => Next::Between(Op::Less, at),
        Mark::AtMost => Next::Between(Op::AtMost, at),
        Mark::Greater => Next::Between(Op::Greater, at),
        Mark::AtLeast => Next::Between(Op::AtLeast, at),
        Mark::Plus => Next::Between(Op::Plus, at),
        Mark::Minus => Next::Between(Op::Minus, at),
        Mark::Times => Next::Between(Op::Times, at),
        Mark::Slash => Next::Between(Op::Slash, at),
        Mark::Div => Next::Between(Op::Div, at),
        Mark::Mod => Next::Between(Op::Mod, at),
        Mark::When => Next::Gates(at),
        Mark::Open => Next::Opens,
        Mark::Close => Next::Closes,
        Mark::Comma => Next::Separates,
        Mark::Then => Next::Answers,
        Mark::Else => Next::Otherwise,
        _ => Next::Other,
    }
}

fn next_of(token: &Token) -> Next
    ensures { result ≡ machine.next_of token.now }
{
    match &token.kind {
        Kind::Fixed(mark) => mark_next(*mark, token.at),
        Kind::Name(_) | Kind::Number(_) | Kind::LeftOut | Kind::Bad => Next::Other,
    }
}

/// Two operands with an operator between them, the left one already in memory of its own.
fn joined(alloc: Global, op: Op, at: u32, left: Box<Expr>, right: Operand) -> Result<Operand, Stop>
    ensures value { IfOk result (λ o. spec.held_of o ≡ spec.joined_held op at (tree_of left) (spec.held_of right)) }
    ensures memory { IfErr result (λ e. e ≡ Stop.Memory) }
{
    let is_open = right.is_open;
    let form = ExprForm::Binary(op, left, Box::new(alloc, right.tree)?);
    let tree = Expr {
        at,
        site: None,
        form,
    };
    Ok(Operand {
        tree,
        level: level(op),
        is_open,
    })
}

/// An expression and the clock that it is sampled by.
fn sampled(at: u32, operand: Box<Expr>, clock: Name) -> Operand
    ensures { spec.held_of result ≡ spec.sampled_held at (tree_of operand) clock }
{
    let tree = Expr {
        at,
        site: None,
        form: ExprForm::When(operand, clock),
    };
    Operand {
        tree,
        level: 8,
        is_open: false,
    }
}

fn applied(alloc: Global, op: Prefix, at: u32, operand: Expr) -> Result<Expr, Stop>
    ensures value { IfOk result (λ e. tree_of e ≡ Applied op at (tree_of operand)) }
    ensures memory { IfErr result (λ e. e ≡ Stop.Memory) }
{
    let operand = Box::new(alloc, operand)?;
    let form = match op {
        Prefix::Not => ExprForm::Not(operand),
        Prefix::Minus => ExprForm::Minus(operand),
        Prefix::Pre => ExprForm::Pre(operand),
        Prefix::Current => ExprForm::Current(operand),
    };
    Ok(Expr {
        at,
        site: None,
        form,
    })
}

/// An `if` as an operand, its test and its first part already in memory of their own.
fn chosen(
    alloc: Global,
    at: u32,
    test: Box<Expr>,
    yes: Box<Expr>,
    no: Expr,
) -> Result<Operand, Stop>
    ensures value { IfOk result (λ o. spec.held_of o ≡ spec.chosen_held at (tree_of test) (tree_of yes) (tree_of no)) }
    ensures memory { IfErr result (λ e. e ≡ Stop.Memory) }
{
    let form = ExprForm::If(test, yes, Box::new(alloc, no)?);
    let tree = Expr {
        at,
        site: None,
        form,
    };
    Ok(Operand {
        tree,
        level: 10,
        is_open: true,
    })
}

fn called(name: Name, arguments: Many<Expr>) -> Expr
    ensures { tree_of result ≡ Invoked (Function name) (map tree_of arguments) }
{
    Expr {
        at: name.at,
        site: None,
        form: ExprForm::Call(name.text, arguments),
    }
}

fn counted(at: u32, arguments: Many<Expr>) -> Expr
    ensures { tree_of result ≡ Invoked (Hash at) (map tree_of arguments) }
{
    Expr {
        at,
        site: None,
        form: ExprForm::AtMostOne(arguments),
    }
}

/// The expression of a token that is a literal or a name.
fn leaf_of(alloc: Global, token: &Token) -> Result<Expr, Stop>
    ensures value { IfOk result (λ e. tree_of e ≡ leaf_tree token.now) }
    ensures memory { IfErr result (λ e. e ≡ Stop.Memory) }
{
    let form = match &token.kind {
        Kind::Name(text) => ExprForm::Named(text.clone()?),
        Kind::Number(number) => ExprForm::Number(*number),
        Kind::Fixed(Mark::True) => ExprForm::True,
        _ => ExprForm::False,
    };
    Ok(Expr {
        at: token.at,
        site: None,
        form,
    })
}

/// The number of a word or symbol, by which two are compared.
fn number_of(mark: Mark) -> u8
    ensures { result ≡ marks.number_of mark }
{
    match mark {
        Mark::Node => 0,
        Mark::Returns => 1,
        Mark::Var => 2,
        Mark::Let => 3,
        Mark::Tel => 4,
        Mark::Const => 5,
        Mark::Type => 6,
        Mark::Enum => 7,
        Mark::Bool => 8,
        Mark::Int => 9,
        Mark::If => 10,
        Mark::Then => 11,
        Mark::Else => 12,
        Mark::True => 13,
        Mark::False => 14,
        Mark::Not => 15,
        Mark::And => 16,
        Mark::Or => 17,
        Mark::Xor => 18,
        Mark::Pre => 19,
        Mark::When => 20,
        Mark::Current => 21,
        Mark::Assert => 22,
        Mark::Div => 23,
        Mark::Mod => 24,
        Mark::Arrow => 25,
        Mark::Implies => 26,
        Mark::Differs => 27,
        Mark::AtMost => 28,
        Mark::AtLeast => 29,
        Mark::Less => 30,
        Mark::Greater => 31,
        Mark::Equal => 32,
        Mark::Plus => 33,
        Mark::Minus => 34,
        Mark::Times => 35,
        Mark::Slash => 36,
        Mark::Open => 37,
        Mark::Close => 38,
        Mark::Comma => 39,
        Mark::Semi => 40,
        Mark::Colon => 41,
        Mark::OpenBrace => 42,
        Mark::CloseBrace => 43,
        Mark::Hash => 44,
        Mark::Dot => 45,
    }
}

fn is_mark(mark: Mark, token: &Token) -> bool
    ensures { result ≡ marks.is_mark mark token.now }
{
    match &token.kind {
        Kind::Fixed(found) => number_of(*found) == number_of(mark),
        _ => false,
    }
}

/// The tokens that are left, and in an expression the nesting so far.
#[derive(Drop)]
pub struct Parser<'a> {
    tokens: &'a [Token],
    nesting: u32,
}

impl<'a> Model for Parser<'a> {
    ghost use Rattle.std.specs.Prelude.{◌≤◌};
    ghost use Rattle.rv_syntax.specs.Reads.{Ahead};

    ghost Value = { Ahead };

    ghost view = { λ p. record { rest = p.tokens.now; depth = p.nesting } };

    ghost invariant = { λ p. p.nesting ≤ 200 };
}

impl<'a> Parser<'a> {
    pub fn new(tokens: &'a [Token]) -> Parser<'a>
        ensures { result.rest ≡ tokens.now }
    {
        Parser { tokens, nesting: 0 }
    }

    /// Takes a name.
    pub fn name(&mut self, alloc: Global) -> Result<Name, Stop>
        ensures { spec.Reads (spec.same {A = Name}) (one name_of self.old.rest) result self.new.rest }
    {
        self.inner_name(alloc)
    }

    /// Whether the next token is this word or symbol.
    pub fn sees(&self, mark: Mark) -> bool
        ensures { result ≡ starts (marks.is_mark mark) self.now.rest }
    {
        match self.tokens {
            [] => false,
            [token, ..] => is_mark(mark, token),
        }
    }

    /// Whether the next token is a name.
    pub fn sees_name(&self) -> bool
        ensures { result ≡ starts marks.is_name self.now.rest }
    {
        match self.tokens {
            [] => false,
            [token, ..] => matches!(token.kind, Kind::Name(_)),
        }
    }

    /// Takes this word or symbol.
    pub fn expect(&mut self, mark: Mark) -> Result<(), Stop>
        ensures { spec.Reads (spec.same {A = ⊤}) (one (marks.has_mark mark) self.old.rest) result self.new.rest }
    {
        self.pass(mark)
    }

    /// Takes this word or symbol, and answers its offset.
    pub fn mark(&mut self, mark: Mark) -> Result<u32, Stop>
        ensures { spec.Reads (spec.same {A = ℕ}) (one (marks.mark_at mark) self.old.rest) result self.new.rest }
    {
        match self.tokens {
            [token, rest @ ..] if is_mark(mark, token) => {
                self.tokens = rest;
                Ok(token.at)
            }
            _ => Err(self.fault()),
        }
    }

    /// Reads an expression.
    pub fn expression(&mut self, alloc: Global) -> Result<Expr, Stop>
        ensures { spec.Reads tree_of (spec.expression self.old.rest) result self.new.rest }
    {
        self.set_depth(0);
        let read = self.expr(alloc, 0)?;
        Ok(read.tree)
    }

    /// Whether no token is left.
    pub fn is_at_end(&self) -> bool
        ensures { IsTrue result ↔ (self.now.rest ≡ []) }
    {
        self.tokens.is_empty()
    }

    /// What the next token is where an operand is wanted.
    fn starting(&self) -> Start
        ensures { result ≡ machine.starting self.now.rest }
    {
        match self.tokens {
            [] => Start::Other,
            [token, ..] => start_of(token),
        }
    }

    /// What the next token is after an operand.
    fn following(&self) -> Next
        ensures { result ≡ machine.following self.now.rest }
    {
        match self.tokens {
            [] => Next::Other,
            [token, ..] => next_of(token),
        }
    }

    fn fault(&self) -> Stop
        ensures { result ≡ Stop.Token Why.Offends (length self.now.rest) }
    {
        Stop::Token(Why::Offends, self.tokens.len())
    }

    /// Takes an operator token or an opening bracket, which is one level deeper.
    fn enter(&mut self) -> Result<(), Stop>
        ensures { spec.Enters self.old result self.new }
    {
        if self.nesting >= LIMIT {
            return Err(Stop::Token(Why::TooDeep, self.tokens.len()));
        }
        self.nesting += 1;
        if let [_, rest @ ..] = self.tokens {
            self.tokens = rest;
        }
        Ok(())
    }

    /// Takes a literal or a name, which is to be the next token.
    fn leaf(&mut self, alloc: Global) -> Result<Expr, Stop>
        ensures shorter { length self.new.rest ≤ length self.old.rest }
        ensures takes { spec.TakesLeaf self.old result self.new }
    {
        match self.tokens {
            [token, rest @ ..] => {
                let leaf = leaf_of(alloc, token)?;
                self.tokens = rest;
                Ok(leaf)
            }
            [] => Err(self.fault()),
        }
    }

    /// Takes a name within an expression.
    fn inner_name(&mut self, alloc: Global) -> Result<Name, Stop>
        ensures shorter { length self.new.rest ≤ length self.old.rest }
        ensures takes { spec.TakesName self.old result self.new }
    {
        match self.tokens {
            [
                Token {
                    kind: Kind::Name(text),
                    at,
                },
                rest @ ..,
            ] => {
                let name = Name {
                    text: text.clone()?,
                    at: *at,
                };
                self.tokens = rest;
                Ok(name)
            }
            _ => Err(self.fault()),
        }
    }

    /// Whether a name and an opening bracket are next.
    fn sees_call(&self) -> bool
        ensures { result ≡ spec.starts_call self.now.rest }
    {
        match self.tokens {
            [name, bracket, ..] => {
                matches!(name.kind, Kind::Name(_)) && is_mark(Mark::Open, bracket)
            }
            _ => false,
        }
    }

    /// The next token, if it goes on with an operand where one of level `least` is wanted.
    fn link(&self, least: u8, left: &Operand) -> Option<Link>
        ensures { spec.SeesLink least (spec.held_of left.now) self.now result }
    {
        if left.is_open {
            return None;
        }
        match self.following() {
            Next::Between(op, at) if least <= level(op) && left_need(op) <= left.level => Some(
                Link::Between(op, at),
            ),
            Next::Gates(at) if least <= 8 && 8 <= left.level => Some(Link::When(at)),
            _ => None,
        }
    }

    /// Takes the next token, if there is one.
    fn skip(&mut self)
        ensures rest { self.new.rest ≡ spec.tail self.old.rest }
        ensures depth { self.new.depth ≡ self.old.depth }
    {
        if let [_, rest @ ..] = self.tokens {
            self.tokens = rest;
        }
    }

    /// The nesting so far.
    fn depth(&self) -> u32
        ensures value { result ≡ self.now.depth }
        ensures within { result ≤ 200 }
    {
        self.nesting
    }

    fn set_depth(&mut self, depth: u32)
        requires { depth ≤ 200 }
        ensures rest { self.new.rest ≡ self.old.rest }
        ensures depth { self.new.depth ≡ depth }
    {
        self.nesting = depth;
    }

    /// Takes this word, which leaves the nesting as it is.
    fn pass(&mut self, mark: Mark) -> Result<(), Stop>
        ensures { spec.Passes mark self.old result self.new }
    {
        match self.tokens {
            [token, rest @ ..] if is_mark(mark, token) => {
                self.tokens = rest;
                Ok(())
            }
            _ => Err(self.fault()),
        }
    }

    /// Takes this symbol, if it is next, behind which the nesting is `depth`.
    fn takes(&mut self, mark: Mark, depth: u32) -> bool
        requires { depth ≤ 200 }
        ensures { spec.TakesMark mark depth self.old result self.new }
    {
        if self.sees(mark) {
            self.skip();
            self.set_depth(depth);
            true
        } else {
            false
        }
    }

    /// An operand.
    #[cycle(parser)]
    fn operand(&mut self, alloc: Global) -> Result<Operand, Stop>
        ensures shorter { length self.new.rest ≤ length self.old.rest }
        ensures reads { spec.ReadsOperand self.old result self.new }
    {
        match self.starting() {
            Start::Operand => self.named(alloc),
            Start::Before(op, at) => self.prefixed(alloc, op, at),
            Start::Opens => self.bracketed(alloc),
            Start::Asks(at) => self.choice(alloc, at),
            Start::Counts(at) => self.hashed(alloc, at),
            Start::Other => Err(self.fault()),
        }
    }

    /// A literal, a name or a call.
    #[cycle(parser)]
    fn named(&mut self, alloc: Global) -> Result<Operand, Stop>
        requires { machine.starting self.old.rest ≡ Start.Operand }
        ensures shorter { length self.new.rest ≤ length self.old.rest }
        ensures reads { spec.ReadsOperand self.old result self.new }
    {
        if self.sees_call() {
            let name = self.inner_name(alloc)?;
            let outside = self.depth();
            self.enter()?;
            let arguments = self.arguments(alloc, outside)?;
            return Ok(Operand {
                tree: called(name, arguments),
                level: 10,
                is_open: false,
            });
        }
        let leaf = self.leaf(alloc)?;
        Ok(Operand {
            tree: leaf,
            level: 10,
            is_open: false,
        })
    }

    /// A prefix and its operand.
    #[cycle(parser)]
    fn prefixed(&mut self, alloc: Global, op: Prefix, at: u32) -> Result<Operand, Stop>
        requires { machine.starting self.old.rest ≡ Start.Before op at }
        ensures shorter { length self.new.rest ≤ length self.old.rest }
        ensures reads { spec.ReadsOperand self.old result self.new }
    {
        self.enter()?;
        let inner = self.expr(alloc, 9)?;
        Ok(Operand {
            tree: applied(alloc, op, at, inner.tree)?,
            level: 9,
            is_open: inner.is_open,
        })
    }

    /// An expression in brackets.
    #[cycle(parser)]
    fn bracketed(&mut self, alloc: Global) -> Result<Operand, Stop>
        requires { machine.starting self.old.rest ≡ Start.Opens }
        ensures shorter { length self.new.rest ≤ length self.old.rest }
        ensures reads { spec.ReadsOperand self.old result self.new }
    {
        let outside = self.depth();
        self.enter()?;
        let inner = self.expr(alloc, 0)?;
        if self.takes(Mark::Close, outside) {
            Ok(Operand {
                tree: inner.tree,
                level: 10,
                is_open: false,
            })
        } else {
            Err(self.fault())
        }
    }

    /// An `if` with its three parts.
    #[cycle(parser)]
    fn choice(&mut self, alloc: Global, at: u32) -> Result<Operand, Stop>
        requires { machine.starting self.old.rest ≡ Start.Asks at }
        ensures shorter { length self.new.rest ≤ length self.old.rest }
        ensures reads { spec.ReadsOperand self.old result self.new }
    {
        self.enter()?;
        let test = self.part(alloc, Mark::Then)?;
        let yes = self.part(alloc, Mark::Else)?;
        let no = self.expr(alloc, 0)?;
        chosen(alloc, at, test, yes, no.tree)
    }

    /// A part of an `if` and the word behind it, the part in memory of its own.
    #[cycle(parser)]
    fn part(&mut self, alloc: Global, mark: Mark) -> Result<Box<Expr>, Stop>
        ensures shorter { length self.new.rest ≤ length self.old.rest }
        ensures reads { spec.ReadsPart mark self.old result self.new }
    {
        let part = self.expr(alloc, 0)?;
        self.pass(mark)?;
        Ok(Box::new(alloc, part.tree)?)
    }

    /// A `#` with its arguments.
    #[cycle(parser)]
    fn hashed(&mut self, alloc: Global, at: u32) -> Result<Operand, Stop>
        requires { machine.starting self.old.rest ≡ Start.Counts at }
        ensures shorter { length self.new.rest ≤ length self.old.rest }
        ensures reads { spec.ReadsOperand self.old result self.new }
    {
        self.enter()?;
        if !self.sees(Mark::Open) {
            return Err(self.fault());
        }
        let outside = self.depth();
        self.enter()?;
        let arguments = self.arguments(alloc, outside)?;
        Ok(Operand {
            tree: counted(at, arguments),
            level: 10,
            is_open: false,
        })
    }

    /// The arguments behind an opening bracket, and the closing one, outside which the nesting is `outside`.
    #[cycle(parser)]
    fn arguments(&mut self, alloc: Global, outside: u32) -> Result<Many<Expr>, Stop>
        requires { outside < 200 }
        ensures shorter { length self.new.rest ≤ length self.old.rest }
        ensures reads { spec.ReadsArguments outside self.old result self.new }
    {
        let mut arguments = Many::new(alloc);
        let mut last = self.expr(alloc, 0)?;
        'more: while self.takes(Mark::Comma, outside + 1) {
            arguments.push(last.tree)?;
            last = self.expr(alloc, 0)?;
        }
        arguments.push(last.tree)?;
        if self.takes(Mark::Close, outside) {
            Ok(arguments)
        } else {
            Err(self.fault())
        }
    }

    /// What stands behind an operator or a `when` that goes on with an operand.
    #[cycle(parser)]
    fn linked(&mut self, alloc: Global, link: Link, left: Operand) -> Result<Operand, Stop>
        ensures shorter { length self.new.rest ≤ length self.old.rest }
        ensures reads { spec.ReadsAs self.old (spec.linked link (spec.held_of left)) result self.new }
    {
        let left = Box::new(alloc, left.tree)?;
        match link {
            Link::Between(op, at) => {
                let right = self.expr(alloc, right_need(op))?;
                joined(alloc, op, at, left, right)
            }
            Link::When(at) => {
                let clock = self.inner_name(alloc)?;
                Ok(sampled(at, left, clock))
            }
        }
    }

    /// An expression in which no operator outside brackets is below the level `least`. Each call of itself
    /// stands behind a token that is counted, so no more than 201 are open at once.
    #[cycle(parser)]
    fn expr(&mut self, alloc: Global, least: u8) -> Result<Operand, Stop>
        ensures shorter { length self.new.rest ≤ length self.old.rest }
        ensures reads { spec.ReadsExpr least self.old result self.new }
    {
        let mut left = self.operand(alloc)?;
        'more: while let Some(link) = self.link(least, &left) {
            self.enter()?;
            left = self.linked(alloc, link, left)?;
        }
        Ok(left)
    }
}
