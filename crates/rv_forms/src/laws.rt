//! The parts of a term serve as the answers to a question.

ghost use Rattle.std.specs.Prelude.{◌≡◌, ℕ, ◌<◌, true, List, length};
ghost use Rattle.rv_diagram.specs.declared.Triple.{Triple};
ghost use Rattle.rv_diagram.specs.Nodes.{Diagrams, Valuation};
ghost use Rattle.rv_terms.specs.declared.parted.Part.{Part};
ghost use Rattle.rv_terms.specs.declared.parted.Term.{Term};
ghost use Rattle.rv_terms.specs.Parts.{part_at, form_at, IsTerm};
ghost use Rattle.rv_cases.specs.Conditions.{is_in, AreAnswers};
ghost use Rattle.rv_flat.specs.declared.flat.Flat.{Flat};
ghost use Rattle.rv_control.specs.Control.{control_of};
ghost use Rattle.rv_forms.specs.Choices.{refs_in, AreChoices};
ghost use Rattle.rv_forms.specs.Terms.{parts_at, AreUpdatesRead};

/// Each valuation has exactly one part of a term, which says the form of the term there. The parts of the updates that have been read are
/// such answers, no two with one form, and none reads a next copy.
pub fn terms_answer()
    ensures answers { (nodes : List Triple) (columns : ℕ) (parts : List Part) → IsTerm nodes columns parts → AreAnswers nodes (refs_in parts) }
    ensures says { (nodes : List Triple) (columns : ℕ) (parts : List Part) (b : ℕ) (v : Valuation) → IsTerm nodes columns parts → b < length parts
        → is_in nodes (refs_in parts) b v ≡ true → form_at nodes parts v ≡ (part_at parts b).form }
    ensures updates { (f : Flat) (old new : Diagrams) (terms : List Term) (k : ℕ) → AreUpdatesRead f old new terms → k < length terms
        → AreChoices (control_of f) new k (parts_at terms k) }
{}
