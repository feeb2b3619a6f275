//! What follows from the definitions of weights.

ghost use Rattle.std.specs.Prelude.{◌≡◌, ℕ, List};
ghost use Rattle.rv_tree.specs.Places.{Identifier, Sites};
ghost use Rattle.rv_tree.specs.Tree.{ProgramTree};
ghost use Rattle.rv_types.specs.Instances.{IsFlow};
ghost use Rattle.rv_types.specs.Needs.{IsSequence};
ghost use Rattle.rv_instances.specs.declared.answer.Instance.{Instance as InstanceModel};
ghost use Rattle.rv_instances.specs.Expanded.{IsExpanded};
ghost use Rattle.rv_sequence.specs.Sided.{AreSided};
ghost use Rattle.rv_instances.specs.Weights.{AreWeights, AreLight, IsFirstTooWide};

/// Where there is a sequence, the flows have weights, each of them one.
pub(crate) fn weights_of_flows()
    ensures some { (p : ProgramTree) (main : Identifier) (instances : List InstanceModel) (sequence : List Sites) → IsExpanded p main instances
        → IsSequence p main sequence → (flows : Sites → ℕ) × AreWeights p main flows }
    ensures one { (p : ProgramTree) (main : Identifier) (instances : List InstanceModel) (sequence : List Sites) (flows others : Sites → ℕ) (q : Sites)
        → IsExpanded p main instances → IsSequence p main sequence → AreWeights p main flows → AreWeights p main others → IsFlow p main q → flows q ≡ others q }
{}

/// And either no expression is too wide, or one offset is the least of such ones.
pub(crate) fn light_or_wide()
    ensures not_both { (p : ProgramTree) (main : Identifier) (instances : List InstanceModel) (sequence : List Sites) (at : ℕ) → IsExpanded p main instances
        → AreSided p → IsSequence p main sequence → AreLight p main → IsFirstTooWide p main at → ⊥ }
    ensures one { (p : ProgramTree) (main : Identifier) (instances : List InstanceModel) (sequence : List Sites) (at later : ℕ) → IsExpanded p main instances
        → AreSided p → IsSequence p main sequence → IsFirstTooWide p main at → IsFirstTooWide p main later → at ≡ later }
{}
