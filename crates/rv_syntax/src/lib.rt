//! From the bytes of a Lustre source to its syntax tree.
//!
//! It promises that `parse` answers the one tree of a text, or the fault of its first offending token, and that the tree has
//! what the crates above take of one (`tree`). It stands on `rv_tree`; nothing but the reader of sources stands on it. Begin
//! with `parse` below, then specs/ProgramText.antt for the grammar.
#![tactic(auto)]

ghost use Rattle.std.specs.Prelude.{true, ◌≡◌, ◌⊎◌, ◌<◌, ◌≤◌, [], ◌∷◌, ◌++◌, ℕ, List, length, IfOk, IfErr};
ghost use Rattle.std.specs.List.{All, Contains};
ghost use Rattle.rv_syntax.specs.Correct.{Finds, Explains, Refuses};
ghost use Rattle.rv_tree.specs.Delays.{IsNumbered};
ghost use Rattle.rv_syntax.specs.Lexing.{cut, tokens};
ghost use Rattle.rv_syntax.specs.Faults.{IsDead, IsFault, is_left_out};
ghost use Rattle.rv_syntax.specs.Reading as reading;
ghost use Rattle.rv_syntax.specs.Stopped.{Tells};
ghost use Rattle.rv_tree.specs.Bounded.{IsBounded};
ghost use Rattle.rv_tree.specs.SourceTrees.{IsSourceTree};
ghost use Rattle.rv_tree.specs.Words.{HasPlainNames};
ghost use Rattle.rv_syntax.specs.TextTrees.{IsTreeOfText};
ghost use Rattle.rv_syntax.specs.Literals.{HasSmallLiterals};
ghost use Rattle.rv_syntax.specs.declared.fault.TextFault.{TextFault as FaultModel};
ghost use Rattle.rv_base.specs.Limits.{source_limit};
ghost use Rattle.rv_syntax.specs.Longest.{AreTokens, IsLongest};
ghost use Rattle.rv_syntax.specs.ProgramText.{IsTextOf};
ghost use Rattle.rv_syntax.specs.Grammar.{fixed, name_token};
ghost use Rattle.rv_syntax.specs.Nesting.{IsExprOf};
ghost use Rattle.rv_tree.specs.Tree.{ConstantTree, NodeTree, ProgramTree, Tree, program_tree};
ghost use Rattle.rv_syntax.specs.declared.token.Mark.TheVariants as mark;
ghost use Rattle.rv_syntax.specs.declared.token.Token.{Token as TokenModel};
ghost use Rattle.rv_tree.specs.declared.tree.Name.{Name as NameAt};

mod fault;
mod lexer;
mod offending;
mod operator;
mod parser;
mod rules;
mod sites;
mod token;

use fault::Stop;
pub use fault::TextFault;
use lexer::tokens_of;
use offending::fault_of;
use parser::Parser;
use rules::read_program;
pub use rv_tree::{
    Assertion, ConstDecl, Decl, Decls, Equation, Expr, ExprForm, HEAVIEST, Name, Node, Op, Program,
    SOURCE_LIMIT, TOO_HEAVY, TypeBody, TypeDecl, TypeName,
};
use sites::with_program_sites;
use std::alloc::Global;
use token::Token;

/// Reads the bytes of a source of at most 1,048,576 bytes. It answers the tree of the text where the text is a
/// program whose expressions are nested at most 200 deep. Otherwise it answers the fault of the first offending
/// token, with the token's offset: `LeftOut` where the token is left out of the language, or is so in its place;
/// `BadText` where no program goes on with it, and where the text ends too early, with its length; `TooDeep` where
/// the nesting including it is above 200. `Memory` comes where memory runs out.
/// Time and memory grow with the length of the source alone.
pub fn parse(alloc: Global, bytes: &[u8]) -> Result<Program, TextFault>
    requires { length bytes.now ≤ source_limit }
    // What is answered is the tree of the text.
    ensures found { IfOk result (λ p. IsTextOf bytes.now (program_tree p)) }
    // It has what the rules of names, types, clocks and order take of a tree.
    ensures tree { IfOk result (λ p. IsSourceTree (program_tree p)) }
    // The tree of the text is answered, unless memory runs out.
    ensures only { (t : ProgramTree) → IsTextOf bytes.now t → Finds program_tree t result }
    // A fault that is answered is that of the first offending token.
    ensures offending { IfErr result (Explains bytes.now) }
    // The fault of the first offending token is answered, unless memory runs out.
    ensures only_offending { (f : FaultModel) → IsFault bytes.now f → Refuses f result }
{
    source_trees();
    let tokens = tokens_of(alloc, bytes)?;
    let program = whole_program(alloc, &tokens, bytes.len() as u32)?;
    let sited = with_program_sites(alloc, program)?;
    Ok(sited)
}

/// A text has at most one tree.
pub fn one_tree()
    ensures { (bytes : List ℕ) (t u : ProgramTree) → IsTextOf bytes t → IsTextOf bytes u → t ≡ u }
{}

/// A text has at most one fault, and none where it has a tree.
pub fn one_fault()
    ensures one { (bytes : List ℕ) (f g : FaultModel) → IsFault bytes f → IsFault bytes g → f ≡ g }
    ensures no_tree { (bytes : List ℕ) (f : FaultModel) (t : ProgramTree) → IsFault bytes f → IsTextOf bytes t → ⊥ }
{}

/// A text has a tree or a fault: there is no third.
pub fn tree_or_fault()
    ensures { (bytes : List ℕ) → ((t : ProgramTree) × IsTextOf bytes t) ⊎ ((f : FaultModel) × IsFault bytes f) }
{}

/// Each token that is left out, as a word or symbol or in its place, is one at which no program goes on.
pub fn left_out_is_dead()
    ensures { (front : List TokenModel) (t : TokenModel) → is_left_out front t ≡ true → IsDead (front ++ t ∷ []) }
{}

/// In the tree of a text within the limit no list is longer than the text may be.
pub fn bounded_tree()
    ensures { (t : ProgramTree) → IsTreeOfText t → IsBounded t }
{}

/// In the tree of a text within the limit the constants stand in the order of their offsets: each has a later one than
/// all that come before it, and an earlier one than all that come after it.
pub fn ordered_constants()
    ensures before { (t : ProgramTree) (front back : List ConstantTree) (c : ConstantTree) → IsTreeOfText t → t.constants ≡ front ++ c ∷ back
        → All (λ d. d.name.at < c.name.at) front }
    ensures after { (t : ProgramTree) (front back : List ConstantTree) (c : ConstantTree) → IsTreeOfText t → t.constants ≡ front ++ c ∷ back
        → All (λ d. c.name.at < d.name.at) back }
{}

/// The tree of a text within the limit has no list longer than the text may be, numbered sites, and constants in the order of
/// their offsets.
pub fn source_trees()
    ensures { (t : ProgramTree) → IsTreeOfText t → IsSourceTree t }
{
    bounded_tree();
    numbered_sites();
    ordered_constants();
}

/// In the tree of a text the labels of types, the names of nodes and those of their inputs are letters, digits and `_`.
pub fn plain_names()
    ensures { (bytes : List ℕ) (t : ProgramTree) → IsTextOf bytes t → HasPlainNames t }
{}

/// In the tree of a text each integer literal is at most 2^40 + 1, as which a larger one is kept.
pub fn small_literals()
    ensures { (bytes : List ℕ) (t : ProgramTree) → IsTextOf bytes t → HasSmallLiterals t }
{}

/// Tokens are at most one expression.
pub fn one_expression()
    ensures { (ts : List TokenModel) (t u : Tree) → IsExprOf t ts → IsExprOf u ts → t ≡ u }
{}

/// The name of a clock is no call: no expression begins with two names that `when` joins and a bracket.
pub fn clock_is_no_call()
    ensures { (a b : NameAt) (at up : ℕ) (more : List TokenModel) (t : Tree)
        → IsExprOf t (name_token a ∷ fixed mark.When at ∷ name_token b ∷ fixed mark.Open up ∷ more) → ⊥ }
{}

/// Text is cut by longest match: what begins it is one byte of white space, one comment or one token, and no
/// longer front is one.
pub fn longest_match()
    ensures { (text : List ℕ) → 0 < length text → IsLongest text (cut text) }
{}

/// The tokens of a text are those of pieces that make it up, each of which is the longest at its place.
pub fn whole_text()
    ensures found { (text : List ℕ) → AreTokens text (tokens text) }
    // Pieces that make up the text, each the longest, have no other tokens.
    ensures only { (text : List ℕ) (ts : List TokenModel) → AreTokens text ts → ts ≡ tokens text }
{}

/// In the tree of a text within the limit the sites of each node are numbered: its flows come first; each `pre`, `current`,
/// call, comparison and assertion has a later site of its own, in the order of their offsets.
pub fn numbered_sites()
    ensures { (bytes : List ℕ) (t : ProgramTree) (n : NodeTree) → length bytes ≤ source_limit → IsTextOf bytes t → Contains t.nodes n → IsNumbered n }
{}

/// The program that all the tokens of a text of this length are. Its parts have no sites yet.
fn whole_program(alloc: Global, tokens: &[Token], len: u32) -> Result<Program, TextFault>
    ensures found { IfOk result (λ p. reading.program tokens.now ≡ Ok (program_tree p, [])) }
    ensures refused { IfErr result (Tells tokens.now len (reading.program tokens.now)) }
{
    let mut parser = Parser::new(tokens);
    match read_program(alloc, &mut parser) {
        Ok(program) => Ok(program),
        Err(Stop::Token(why, left)) => Err(fault_of(tokens, left, why, len)),
        Err(Stop::Memory) => Err(TextFault::Memory),
    }
}
