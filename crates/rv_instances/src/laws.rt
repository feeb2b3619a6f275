//! What follows from the definitions of instances, layouts and givers.

ghost use Rattle.std.specs.Prelude.{◌≡◌, ◌<◌, [], ℕ, Bool, List, flat_map, length, true};
ghost use Rattle.rv_tree.specs.Places.{Identifier, Sites, is_among, is_flow};
ghost use Rattle.rv_tree.specs.Tree.{Tree, NodeTree, ProgramTree};
ghost use Rattle.rv_types.specs.Clocks.{pace};
ghost use Rattle.rv_types.specs.Names.{name_faults, clock_use, uses};
ghost use Rattle.rv_types.specs.WellFormed.{AreSited};
ghost use Rattle.rv_instances.specs.AllInstances.{names_of, AreInstances};
ghost use Rattle.rv_types.specs.Instances.{Instance as InstanceTree, IsInstance, IsFlow};
ghost use Rattle.rv_instances.specs.declared.answer.Instance.{Instance as InstanceModel};
ghost use Rattle.rv_instances.specs.declared.layout.Layout.{Layout as LayoutModel};
ghost use Rattle.rv_instances.specs.Expanded.{IsExpanded};
ghost use Rattle.rv_instances.specs.Layouts.{IsNumberOf, IsHere, IsLayout, here_of, all_places, node_at};
ghost use Rattle.rv_instances.specs.Flowing.{flow_places as places_of_flows, all_flows, AreFlowPlaces, IsKnownPace};
ghost use Rattle.rv_types.specs.Needs.{Giver as GiverTree, Gives};

/// The numbered flows of all instances have the places of all flows, in order.
pub fn flow_places()
    ensures { (p : ProgramTree) (main : Identifier) (instances : List InstanceModel) → name_faults p ≡ [] → is_among (names_of p) main ≡ true → AreSited p
        → AreInstances p main instances → AreFlowPlaces p main (places_of_flows instances (all_flows p instances)) }
{}

/// The clock of an expression whose names are known is the base clock or a flow of the node.
pub fn known_clocks()
    ensures { (n : NodeTree) (values nodes : Identifier → Bool) (e : Tree) → flat_map (clock_use n) n.locals ≡ [] → uses values (is_flow n) nodes e ≡ []
        → IsKnownPace n (pace n e) }
{}

/// The numbers that a layout has of an instance are those of its flows, of its base clock and of what it calls.
pub fn instance_numbers()
    ensures { (p : ProgramTree) (main : Identifier) (instances : List InstanceModel) (l : LayoutModel) (m : ℕ) (i : InstanceTree) → IsExpanded p main instances
        → IsLayout p main instances l → IsInstance p main i → IsNumberOf p instances m i → IsHere p (all_places p instances) i (here_of l m) }
{}

/// Each number of an instance is that of one, each instance has a number, its node is that of the number, and its path tells
/// it.
pub fn numbered_instances()
    ensures at { (p : ProgramTree) (main : Identifier) (instances : List InstanceModel) (m : ℕ) → IsExpanded p main instances → m < length instances
        → (i : InstanceTree) × IsInstance p main i × IsNumberOf p instances m i }
    ensures number { (p : ProgramTree) (main : Identifier) (instances : List InstanceModel) (i : InstanceTree) → IsExpanded p main instances
        → IsInstance p main i → (m : ℕ) × IsNumberOf p instances m i }
    ensures node { (p : ProgramTree) (main : Identifier) (instances : List InstanceModel) (m : ℕ) (i : InstanceTree) → IsExpanded p main instances
        → IsInstance p main i → IsNumberOf p instances m i → node_at p instances m ≡ i.node }
    ensures same { (p : ProgramTree) (main : Identifier) (instances : List InstanceModel) (i a : InstanceTree) → IsExpanded p main instances
        → IsInstance p main i → IsInstance p main a → i.path ≡ a.path → i ≡ a }
{}

/// Each flow has one giver.
pub fn one_giver()
    ensures each { (p : ProgramTree) (main : Identifier) (instances : List InstanceModel) (q : Sites) → IsExpanded p main instances → IsFlow p main q
        → (f : GiverTree) × Gives p main q f }
    ensures one { (p : ProgramTree) (main : Identifier) (instances : List InstanceModel) (q : Sites) (f g : GiverTree) → IsExpanded p main instances
        → Gives p main q f → Gives p main q g → f ≡ g }
{}
