//! That the premises of `cases` can be met.

ghost use Rattle.rv_diagram.specs.Nodes.{IsMeant};
ghost use Rattle.rv_proofs.specs.Systems.{IsSystem};
ghost use Rattle.rv_proofs.specs.Samples.{counting};
ghost use Rattle.rv_cases.specs.Questions.{AreQuestions, AreDistinct};
ghost use Rattle.rv_cases.specs.Samples.{counting_nodes, counting_diagrams, counting_questions};

/// A small system with two order tests and an integer memory has questions, with no row and no form in two answers.
pub fn counting_is_asked()
    ensures system { IsSystem counting }
    ensures questions { AreQuestions counting counting_diagrams counting_questions }
    ensures distinct { AreDistinct counting_questions }
    ensures allowed { IsMeant counting_nodes counting.allowed 1 }
{}
