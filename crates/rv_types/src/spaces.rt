//! The spaces of names of a whole program.

ghost use Rattle.std.specs.Prelude.{◌≡◌, ◌∷◌, ◌++◌, [], IfOk, map, flat_map, cond};
ghost use Rattle.rv_tree.specs.Tree.{program_tree, constant_tree, node_tree};
ghost use Rattle.rv_types.specs.declared.fault.NameFault.TheVariants.{DefinedTwice};
ghost use Rattle.rv_types.specs.Names.{is_declared, labels_of, decl_names, repeated, repeated_after, repeated_values};
ghost use Rattle.rv_types.specs.Names.{constant_names, label_names};
ghost use Rattle.rv_types.specs.Firsts.{with_name, firsts_after, firsts};
ghost use Rattle.rv_types.specs.Known.{first_spaces, second_declarations};
ghost use Rattle.rv_types.specs.Earliest.{first};

use crate::fault::NameFault;
use crate::first::sooner_of;
use crate::space::Space;
use rv_base::Memory;
use rv_tree::{ConstDecl, Decl, Name, Node, Program, TypeBody, TypeDecl};
use std::alloc::Global;

/// Types, constants, labels and nodes. Constants and labels are one space of the language; here each keeps its own
/// numbers.
#[derive(Drop)]
pub struct Spaces {
    pub types: Space,
    pub constants: Space,
    pub labels: Space,
    pub nodes: Space,
}

impl Spaces {
    /// No names.
    fn new(alloc: Global) -> Spaces
        ensures types { result.types ≡ [] }
        ensures constants { result.constants ≡ [] }
        ensures labels { result.labels ≡ [] }
        ensures nodes { result.nodes ≡ [] }
    {
        Spaces {
            types: Space::new(alloc),
            constants: Space::new(alloc),
            labels: Space::new(alloc),
            nodes: Space::new(alloc),
        }
    }
}

/// Declares a name, and tells whether that is a second declaration.
fn declare(space: &mut Space, name: &Name) -> Result<Option<NameFault>, Memory>
    ensures space { IfOk result (λ fault. space.new ≡ with_name space.old name.now) }
    ensures fault { IfOk result (λ fault. fault ≡ first (cond (is_declared space.old name.now.text) (DefinedTwice name.now.at ∷ []) [])) }
{
    if space.declare(name)? {
        Ok(None)
    } else {
        Ok(Some(NameFault::DefinedTwice(name.at)))
    }
}

/// Declares names in turn; the fault is the first of their second declarations.
#[tactic(auto, using(crate::proofs::Joined::sooner_none))]
pub fn declare_names(space: &mut Space, names: &[Name]) -> Result<Option<NameFault>, Memory>
    ensures space { IfOk result (λ fault. space.new ≡ firsts_after space.old names.now) }
    ensures fault { IfOk result (λ fault. fault ≡ first (repeated space.old names.now)) }
{
    let mut fault = None;
    for name in names {
        fault = sooner_of(fault, declare(space, name)?);
    }
    Ok(fault)
}

/// Declares the names of flows in turn.
pub fn declare_flows(space: &mut Space, decls: &[Decl]) -> Result<Option<NameFault>, Memory>
    ensures space { IfOk result (λ fault. space.new ≡ firsts_after space.old (decl_names decls.now)) }
    ensures fault { IfOk result (λ fault. fault ≡ first (repeated space.old (decl_names decls.now))) }
{
    let mut fault = None;
    for decl in decls {
        fault = sooner_of(fault, declare(space, &decl.name)?);
    }
    Ok(fault)
}

fn declare_types(space: &mut Space, types: &[TypeDecl]) -> Result<Option<NameFault>, Memory>
    ensures space { IfOk result (λ fault. space.new ≡ firsts_after space.old (map (λ d. d.name) types.now)) }
    ensures fault { IfOk result (λ fault. fault ≡ first (repeated space.old (map (λ d. d.name) types.now))) }
{
    let mut fault = None;
    for decl in types {
        fault = sooner_of(fault, declare(space, &decl.name)?);
    }
    Ok(fault)
}

fn declare_constants(
    space: &mut Space,
    constants: &[ConstDecl],
) -> Result<Option<NameFault>, Memory>
    ensures space { IfOk result (λ fault. space.new ≡ firsts_after space.old (map (λ c. c.name) (map constant_tree constants.now))) }
    ensures fault { IfOk result (λ fault. fault ≡ first (repeated space.old (map (λ c. c.name) (map constant_tree constants.now)))) }
{
    let mut fault = None;
    for constant in constants {
        fault = sooner_of(fault, declare(space, &constant.name)?);
    }
    Ok(fault)
}

fn declare_nodes(space: &mut Space, nodes: &[Node]) -> Result<Option<NameFault>, Memory>
    ensures space { IfOk result (λ fault. space.new ≡ firsts_after space.old (map (λ n. n.name) (map node_tree nodes.now))) }
    ensures fault { IfOk result (λ fault. fault ≡ first (repeated space.old (map (λ n. n.name) (map node_tree nodes.now)))) }
{
    let mut fault = None;
    for node in nodes {
        fault = sooner_of(fault, declare(space, &node.name)?);
    }
    Ok(fault)
}

/// Declares the labels of a type.
fn declare_labels_of(space: &mut Space, decl: &TypeDecl) -> Result<Option<NameFault>, Memory>
    ensures space { IfOk result (λ fault. space.new ≡ firsts_after space.old (labels_of decl.now)) }
    ensures fault { IfOk result (λ fault. fault ≡ first (repeated space.old (labels_of decl.now))) }
{
    match &decl.body {
        TypeBody::Alias(_) => Ok(None),
        TypeBody::Labels(labels) => declare_names(space, labels.as_slice()),
    }
}

fn declare_labels(space: &mut Space, types: &[TypeDecl]) -> Result<Option<NameFault>, Memory>
    ensures space { IfOk result (λ fault. space.new ≡ firsts_after space.old (flat_map labels_of types.now)) }
    ensures fault { IfOk result (λ fault. fault ≡ first (repeated space.old (flat_map labels_of types.now))) }
{
    let mut fault = None;
    for decl in types {
        fault = sooner_of(fault, declare_labels_of(space, decl)?);
    }
    Ok(fault)
}

/// A declaration that stands after one of its name among others.
fn second_after(others: &Space, name: &Name) -> Option<NameFault>
    ensures { result ≡ first (repeated_after others.now name.now) }
{
    if others.is_before(name.at, &name.text) {
        Some(NameFault::DefinedTwice(name.at))
    } else {
        None
    }
}

fn names_after(others: &Space, names: &[Name]) -> Option<NameFault>
    ensures { result ≡ first (flat_map (repeated_after others.now) names.now) }
{
    let mut fault = None;
    for name in names {
        fault = sooner_of(fault, second_after(others, name));
    }
    fault
}

fn constants_after(others: &Space, constants: &[ConstDecl]) -> Option<NameFault>
    ensures { result ≡ first (flat_map (repeated_after others.now) (map (λ c. c.name) (map constant_tree constants.now))) }
{
    let mut fault = None;
    for constant in constants {
        fault = sooner_of(fault, second_after(others, &constant.name));
    }
    fault
}

fn labels_of_after(others: &Space, decl: &TypeDecl) -> Option<NameFault>
    ensures { result ≡ first (flat_map (repeated_after others.now) (labels_of decl.now)) }
{
    match &decl.body {
        TypeBody::Alias(_) => None,
        TypeBody::Labels(labels) => names_after(others, labels.as_slice()),
    }
}

fn labels_after(others: &Space, types: &[TypeDecl]) -> Option<NameFault>
    ensures { result ≡ first (flat_map (repeated_after others.now) (flat_map labels_of types.now)) }
{
    let mut fault = None;
    for decl in types {
        fault = sooner_of(fault, labels_of_after(others, decl));
    }
    fault
}

/// The spaces of a program, and the first second declaration in them.
#[derive(Drop)]
pub struct Declared {
    pub spaces: Spaces,
    pub fault: Option<NameFault>,
}

/// The first name that is a constant and a label, at the later of the two.
fn fault_between(constants: &Space, labels: &Space, p: &Program) -> Option<NameFault>
    requires constants { constants.now ≡ firsts (constant_names (program_tree p.now)) }
    requires labels { labels.now ≡ firsts (label_names (program_tree p.now)) }
    ensures { result ≡ first (flat_map (repeated_after (label_names (program_tree p.now))) (constant_names (program_tree p.now))
        ++ flat_map (repeated_after (constant_names (program_tree p.now))) (label_names (program_tree p.now))) }
{
    sooner_of(
        constants_after(labels, p.constants.as_slice()),
        labels_after(constants, p.types.as_slice()),
    )
}

/// Declares the constants and the labels of a program; the fault is the first second declaration of these.
fn declare_values(
    constants: &mut Space,
    labels: &mut Space,
    p: &Program,
) -> Result<Option<NameFault>, Memory>
    requires no_constants { constants.old ≡ [] }
    requires no_labels { labels.old ≡ [] }
    ensures constants { IfOk result (λ fault. constants.new ≡ firsts (constant_names (program_tree p.now))) }
    ensures labels { IfOk result (λ fault. labels.new ≡ firsts (label_names (program_tree p.now))) }
    ensures fault { IfOk result (λ fault. fault ≡ first (repeated_values (program_tree p.now))) }
{
    let second_constants = declare_constants(constants, p.constants.as_slice())?;
    let second_labels = declare_labels(labels, p.types.as_slice())?;
    let own = sooner_of(second_constants, second_labels);
    Ok(sooner_of(own, fault_between(constants, labels, p)))
}

/// Declares all names of a program; the fault is the first second declaration.
fn declare_all(spaces: &mut Spaces, p: &Program) -> Result<Option<NameFault>, Memory>
    requires no_types { spaces.old.types ≡ [] }
    requires no_constants { spaces.old.constants ≡ [] }
    requires no_labels { spaces.old.labels ≡ [] }
    requires no_nodes { spaces.old.nodes ≡ [] }
    ensures spaces { IfOk result (λ fault. spaces.new ≡ first_spaces (program_tree p.now)) }
    ensures fault { IfOk result (λ fault. fault ≡ first (second_declarations (program_tree p.now))) }
{
    let second_nodes = declare_nodes(&mut spaces.nodes, p.nodes.as_slice())?;
    let second_types = declare_types(&mut spaces.types, p.types.as_slice())?;
    let second_values = declare_values(&mut spaces.constants, &mut spaces.labels, p)?;
    Ok(sooner_of(second_nodes, sooner_of(second_types, second_values)))
}

/// The spaces of a program.
pub fn spaces_of(alloc: Global, p: &Program) -> Result<Declared, Memory>
    ensures spaces { IfOk result (λ d. d.spaces ≡ first_spaces (program_tree p.now)) }
    ensures fault { IfOk result (λ d. d.fault ≡ first (second_declarations (program_tree p.now))) }
{
    let mut spaces = Spaces::new(alloc);
    let fault = declare_all(&mut spaces, p)?;
    Ok(Declared { spaces, fault })
}
