//! Within which ranges the numbers of a command are.

ghost use Rattle.std.specs.Prelude.{◌≡◌, ℕ, List, Some};
ghost use Rattle.rv_words.specs.Asked.{Asked};
ghost use Rattle.rv_words.specs.Ranges.{HasRanges};
ghost use Rattle.rv_words.specs.Words.{command};

/// The numbers of each command that words are lie within their ranges.
pub fn numbers_have_ranges()
    ensures { (words : List (List ℕ)) (asked : Asked) → command words ≡ Some asked → HasRanges asked }
{}
