//! What is so of every term.

ghost use Rattle.std.specs.Prelude.{◌≡◌, ℕ, ◌<◌, ◌≤◌, ◌+◌, ◌*◌, ◌^◌, ◌||◌, Bool, true, List, length};
ghost use Rattle.rv_diagram.specs.declared.Triple.{Triple};
ghost use Rattle.rv_diagram.specs.Nodes.{Diagrams, Grows, Valuation, IsReduced, BeginsWith, Has, IsFewest, NeedsMore};
ghost use Rattle.rv_diagram.specs.Counting.{count, ReadsOnly};
ghost use Rattle.rv_diagram.specs.Growing.{Extends};
ghost use Rattle.rv_terms.specs.declared.parted.Part.{Part};
ghost use Rattle.rv_terms.specs.Parts.{part_at, holds, form_at, IsTerm};

/// A term stays a term while its store grows, with the same form at each valuation.
pub fn terms_stay()
    ensures grows { (old new : Diagrams) → Grows old new → Extends old new }
    ensures term { (old new : Diagrams) (width : ℕ) (parts : List Part) → Extends old new → IsTerm old.nodes width parts → IsTerm new.nodes width parts }
    ensures form { (old new : Diagrams) (width : ℕ) (parts : List Part) (v : Valuation) → Extends old new → IsTerm old.nodes width parts
        → form_at new.nodes parts v ≡ form_at old.nodes parts v }
{}

/// At each valuation a term has the form of the part that holds there, and that form has the term's width.
pub fn one_form()
    ensures part { (nodes : List Triple) (width : ℕ) (parts : List Part) (i : ℕ) (v : Valuation) → IsTerm nodes width parts → i < length parts
        → holds nodes parts i v ≡ true → form_at nodes parts v ≡ (part_at parts i).form }
    ensures width { (nodes : List Triple) (width : ℕ) (parts : List Part) (v : Valuation) → IsTerm nodes width parts
        → length (form_at nodes parts v).coefficients ≡ width }
{}

/// A function of m variables that k valuations make true needs at most `m * k` more nodes, whatever nodes there are: each lies
/// on the path of such a valuation, and a path has at most one node for each variable (Bryant 1986). So a call that adds the
/// fewest nodes adds no more, and asks for no more room, nor does one that joins the function to one that is there. Functions that are true at no common
/// valuation are together true at as
/// many valuations as both, of which there are at most `2^m`.
pub fn few_nodes()
    ensures some { (m : ℕ) (nodes : List Triple) (f : Valuation → Bool) → IsReduced nodes → ReadsOnly m f
        → (longer : List Triple) × IsReduced longer × BeginsWith longer nodes × Has longer f × (length longer ≤ length nodes + m * count m f) }
    ensures fewest { (m : ℕ) (old new : List Triple) (f : Valuation → Bool) → IsReduced old → ReadsOnly m f → IsFewest old new f
        → length new ≤ length old + m * count m f }
    ensures needs { (m : ℕ) (nodes : List Triple) (limit : ℕ) (f : Valuation → Bool) → IsReduced nodes → ReadsOnly m f → NeedsMore nodes limit f
        → limit < length nodes + m * count m f }
    ensures joined { (m : ℕ) (old new : List Triple) (g f : Valuation → Bool) → IsReduced old → ReadsOnly m g → ReadsOnly m f → Has old g
        → IsFewest old new (λ v. g v || f v) → length new ≤ length old + m * count m f }
    ensures apart { (m : ℕ) (f g : Valuation → Bool) → ((v : Valuation) → f v ≡ true → g v ≡ true → ⊥)
        → count m (λ v. f v || g v) ≡ count m f + count m g }
    ensures most { (m : ℕ) (f : Valuation → Bool) → count m f ≤ 2 ^ m }
{}
