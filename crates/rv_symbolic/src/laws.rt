//! What outlasts the growth of a store, as the contract of a function that does nothing.

ghost use Rattle.rv_diagram.specs.Nodes.{Diagrams};
ghost use Rattle.rv_diagram.specs.Growing.{Extends};
ghost use Rattle.rv_proofs.specs.Systems.{System};
ghost use Rattle.rv_symbolic.specs.declared.relation.Parts.{Parts};
ghost use Rattle.rv_symbolic.specs.declared.relation.Relation.{Relation};
ghost use Rattle.rv_symbolic.specs.Represented.{HaveRefs, AreParts, IsRelationOf};

/// References and relations keep their meanings in a store whose nodes that there were come first, as after calls that build in it.
pub fn relation_stays()
    ensures relation { (s : System) (old new : Diagrams) (r : Relation) → Extends old new → IsRelationOf s old r → IsRelationOf s new r }
    ensures parts { (s : System) (old new : Diagrams) (p : Parts) → Extends old new → HaveRefs old p → AreParts s old p → AreParts s new p }
    ensures refs { (old new : Diagrams) (p : Parts) → Extends old new → HaveRefs old p → HaveRefs new p }
{}
