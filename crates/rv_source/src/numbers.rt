//! How large the numbers of a source are.

ghost use Rattle.std.specs.Prelude.{ℕ, List};
ghost use Rattle.rv_tree.specs.Tree.{ProgramTree};
ghost use Rattle.rv_syntax.specs.ProgramText.{IsTextOf};
ghost use Rattle.rv_source.specs.Numbers.{HasSmallNumbers};

use rv_syntax::small_literals;

/// In the program of a text each integer literal, as its tree keeps it, and each integer constant has a magnitude of at most
/// 2^40 + 1: a larger literal, and an integer expression of a larger weight, count as that.
pub fn numbers_are_small()
    ensures { (bytes : List ℕ) (p : ProgramTree) → IsTextOf bytes p → HasSmallNumbers p }
{
    small_literals();
}
