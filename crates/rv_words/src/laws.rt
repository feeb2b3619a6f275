//! What words mean, on ordinary ones: laws, each the contract of a function that does nothing.

ghost use Rattle.std.specs.Prelude.{◌≡◌, ◌∷◌, ◌++◌, ℕ, List, [], Some, None, true, codes, option_map};
ghost use Rattle.rv_words.specs.Asked.{prove, check, replay, make, tour};
ghost use Rattle.rv_words.specs.Plain.{is_plain};
ghost use Rattle.clap.specs.Walk.{is_empty};
ghost use Rattle.clap.specs.Words.{fault_of, takes};
ghost use Rattle.rv_words.specs.Reaver.{reaver};
ghost use Rattle.rv_words.specs.Words.{answer_of, command, digits_of};

/// A subcommand with its positional words and no option.
pub fn plain_words()
    ensures prove { (program file node : List ℕ) → is_plain file ≡ true → is_plain node ≡ true
        → command (program ∷ codes "prove" ∷ file ∷ node ∷ []) ≡ Some (prove file node 4194304 256 true) }
    ensures check { (program file node invariant : List ℕ) → is_plain file ≡ true → is_plain node ≡ true → is_plain invariant ≡ true
        → command (program ∷ codes "check" ∷ file ∷ node ∷ invariant ∷ []) ≡ Some (check file node invariant 4194304) }
    ensures replay { (program file node trace : List ℕ) → is_plain file ≡ true → is_plain node ≡ true → is_plain trace ≡ true
        → command (program ∷ codes "replay" ∷ file ∷ node ∷ trace ∷ []) ≡ Some (replay file node trace) }
    ensures make { (program count : List ℕ) → is_plain count ≡ true
        → command (program ∷ codes "make" ∷ count ∷ []) ≡ option_map make (digits_of 1 2000 count) }
    ensures tour { (program count : List ℕ) → is_plain count ≡ true
        → command (program ∷ codes "tour" ∷ count ∷ []) ≡ option_map tour (digits_of 1 2000 count) }
{}

/// No word, and the program's name alone, are no command.
pub fn no_words()
    ensures none { command [] ≡ None }
    ensures program { (program : List ℕ) → command (program ∷ []) ≡ None }
{}

/// An option after the positional words, with its value in the same word or in the next; it is refused where it stands twice.
pub fn words_with_nodes()
    ensures joined { (program file node nodes : List ℕ) → is_plain file ≡ true → is_plain node ≡ true
        → command (program ∷ codes "prove" ∷ file ∷ node ∷ (codes "--nodes=" ++ nodes) ∷ [])
        ≡ option_map (λ n. prove file node n 256 true) (digits_of 1 33554432 nodes) }
    ensures apart { (program file node nodes : List ℕ) → is_plain file ≡ true → is_plain node ≡ true → is_plain nodes ≡ true
        → command (program ∷ codes "prove" ∷ file ∷ node ∷ codes "--nodes" ∷ nodes ∷ [])
        ≡ option_map (λ n. prove file node n 256 true) (digits_of 1 33554432 nodes) }
    ensures twice { (program file node first second : List ℕ) → is_plain file ≡ true → is_plain node ≡ true
        → command (program ∷ codes "prove" ∷ file ∷ node ∷ (codes "--nodes=" ++ first) ∷ (codes "--nodes=" ++ second) ∷ []) ≡ None }
{}

/// An option before the positional words says what it says after them.
pub fn words_with_options_first()
    ensures nodes { (program file node nodes : List ℕ) → is_plain file ≡ true → is_plain node ≡ true
        → command (program ∷ codes "prove" ∷ (codes "--nodes=" ++ nodes) ∷ file ∷ node ∷ [])
        ≡ option_map (λ n. prove file node n 256 true) (digits_of 1 33554432 nodes) }
    ensures locations { (program file node locations : List ℕ) → is_plain file ≡ true → is_plain node ≡ true
        → command (program ∷ codes "prove" ∷ (codes "--locations=" ++ locations) ∷ file ∷ node ∷ [])
        ≡ option_map (λ n. prove file node 4194304 n true) (digits_of 1 4096 locations) }
    ensures accelerate { (program file node answer : List ℕ) → is_plain file ≡ true → is_plain node ≡ true
        → command (program ∷ codes "prove" ∷ (codes "--accelerate=" ++ answer) ∷ file ∷ node ∷ [])
        ≡ option_map (λ yes. prove file node 4194304 256 yes) (answer_of answer) }
    ensures check { (program file node invariant nodes : List ℕ) → is_plain file ≡ true → is_plain node ≡ true → is_plain invariant ≡ true
        → command (program ∷ codes "check" ∷ (codes "--nodes=" ++ nodes) ∷ file ∷ node ∷ invariant ∷ [])
        ≡ option_map (λ n. check file node invariant n) (digits_of 1 33554432 nodes) }
{}

/// After the word `--` each word is a positional one, whatever it begins with.
pub fn words_after_dashes()
    ensures prove { (program file node : List ℕ)
        → command (program ∷ codes "prove" ∷ codes "--" ∷ file ∷ node ∷ []) ≡ Some (prove file node 4194304 256 true) }
    ensures check { (program file node invariant : List ℕ)
        → command (program ∷ codes "check" ∷ codes "--" ∷ file ∷ node ∷ invariant ∷ []) ≡ Some (check file node invariant 4194304) }
    ensures replay { (program file node trace : List ℕ)
        → command (program ∷ codes "replay" ∷ codes "--" ∷ file ∷ node ∷ trace ∷ []) ≡ Some (replay file node trace) }
    ensures last { (program file node last : List ℕ) → is_plain file ≡ true → is_plain node ≡ true
        → command (program ∷ codes "replay" ∷ file ∷ node ∷ codes "--" ∷ last ∷ []) ≡ Some (replay file node last) }
{}

/// A flag that no option has, help, and an option without its value are no command, whatever words stand behind the first two.
pub fn words_with_other_flags()
    ensures short { (program : List ℕ) (words : List (List ℕ)) → command (program ∷ codes "prove" ∷ codes "-x" ∷ words) ≡ None }
    ensures short_second { (program file : List ℕ) (words : List (List ℕ)) → is_plain file ≡ true
        → command (program ∷ codes "prove" ∷ file ∷ codes "-x" ∷ words) ≡ None }
    ensures long { (program : List ℕ) (words : List (List ℕ)) → command (program ∷ codes "prove" ∷ codes "--node" ∷ words) ≡ None }
    ensures replay_nodes { (program : List ℕ) (words : List (List ℕ)) → command (program ∷ codes "replay" ∷ codes "--nodes" ∷ words) ≡ None }
    ensures help { (program : List ℕ) (words : List (List ℕ)) → command (program ∷ codes "--help" ∷ words) ≡ None }
    ensures help_word { (program : List ℕ) (words : List (List ℕ)) → command (program ∷ codes "help" ∷ words) ≡ None }
    ensures help_of { (program : List ℕ) (words : List (List ℕ)) → command (program ∷ codes "prove" ∷ codes "--help" ∷ words) ≡ None }
    ensures unvalued { (program file node : List ℕ) → is_plain file ≡ true → is_plain node ≡ true
        → command (program ∷ codes "prove" ∷ file ∷ node ∷ codes "--nodes" ∷ []) ≡ None }
{}

/// `clap`'s two definitions say the same of the command: it takes just the words of which no kind of error comes, so where it takes
/// them it refuses for want of memory alone.
pub fn taken_words()
    ensures { (words : List (List ℕ)) → is_empty (fault_of reaver words) ≡ takes reaver words }
{}
