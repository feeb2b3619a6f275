//! The types of declarations.

ghost use Rattle.std.specs.Prelude.{◌≡◌, ◌+◌, ◌≤◌, ◌<◌, ◌++◌, ℕ, [], map, reverse, length, slice_get, IfOk};
ghost use Rattle.rv_tree.specs.declared.tree.Decl.{Decl as AnyDecl};
ghost use Rattle.rv_tree.specs.Tree.{node_tree};
ghost use Rattle.rv_base.specs.Limits.{source_limit};
ghost use Rattle.rv_tree.specs.declared.tree.TypeDecl.{TypeDecl as AnyType};
ghost use Rattle.rv_types.specs.Names.{repeated, labels_of};
ghost use Rattle.rv_types.specs.Kinds.{written_kind, declared_kind};
ghost use Rattle.rv_types.specs.Tables.{entry_in};
ghost use Rattle.rv_types.specs.TypeTables.{declared_kinds, kinds_by, flow_kinds_by, signature_by, places_among, places_from};
ghost use Rattle.std.specs.List.{Contains};

use crate::groups::goes_on;
use crate::space::Space;
use crate::typed::Kind;
use crate::view::{Label, Signature, entry};
use rv_base::{Many, Memory};
use rv_tree::{Decls, Name, Node, TypeBody, TypeDecl, TypeName};
use std::alloc::Global;

/// What a written type is, where the names of types have these.
pub fn written(names: &Space, kinds: &[Kind], t: &TypeName) -> Kind
    ensures { result ≡ written_kind (entry_in names.now kinds.now) t.now }
{
    match t {
        TypeName::Bool => Kind::Bool,
        TypeName::Int => Kind::Int,
        TypeName::Named(name) => match entry(names, kinds, &name.text) {
            None => Kind::Bool,
            Some(kind) => *kind,
        },
    }
}

fn declared(names: &Space, kinds: &[Kind], number: u32, body: &TypeBody) -> Kind
    ensures { result ≡ declared_kind (entry_in names.now kinds.now) number body.now }
{
    match body {
        TypeBody::Alias(t) => written(names, kinds, t),
        TypeBody::Labels(_) => Kind::Labels(number),
    }
}

/// What each declaration of a type means, in order. An alias names one that stands before it.
fn type_kinds(alloc: Global, names: &Space, types: &[TypeDecl]) -> Result<Many<Kind>, Memory>
    requires names { names.now ≡ map (λ d. d.name) types.now }
    requires different { repeated [] names.now ≡ [] }
    requires few { length types.now ≤ source_limit }
    ensures { IfOk result (λ ks. ks ≡ declared_kinds (reverse types.now)) }
{
    let mut kinds = Many::new(alloc);
    for d in types {
        let kind = declared(names, kinds.as_slice(), kinds.len() as u32, &d.body);
        kinds.push(kind)?;
    }
    Ok(kinds)
}

/// The type of a flow, which is that of the flow before it where both stand in one group.
fn kind_in_group(names: &Space, types: &[Kind], decls: &Decls, index: usize, before: Kind) -> Kind
    requires within { index < length decls.now }
    requires before { (k : ℕ) (d : AnyDecl) → k + 1 ≡ index → slice_get decls.now k ≡ Some d → before ≡ written_kind (entry_in names.now types.now) d.kind }
    ensures { (d : AnyDecl) → slice_get decls.now index ≡ Some d → result ≡ written_kind (entry_in names.now types.now) d.kind }
{
    if goes_on(decls, index) {
        before
    } else {
        written(names, types, &decls.at(index).kind)
    }
}

/// Adds the types of flows.
pub fn push_kinds(
    kinds: &mut Many<Kind>,
    names: &Space,
    types: &[Kind],
    decls: &Decls,
) -> Result<(), Memory>
    ensures { IfOk result (λ done. kinds.new ≡ kinds.old ++ kinds_by (entry_in names.now types.now) decls.now) }
{
    let mut own = Kind::Bool;
    for index in 0..decls.len() {
        own = kind_in_group(names, types, decls, index, own);
        kinds.push(own)?;
    }
    Ok(())
}

/// The types of some flows, in order.
pub fn decl_kinds(
    alloc: Global,
    names: &Space,
    types: &[Kind],
    decls: &Decls,
) -> Result<Many<Kind>, Memory>
    ensures { IfOk result (λ ks. ks ≡ kinds_by (entry_in names.now types.now) decls.now) }
{
    let mut kinds = Many::new(alloc);
    push_kinds(&mut kinds, names, types, decls)?;
    Ok(kinds)
}

/// The types of the flows of a node, in the order of their sites.
pub fn flow_kinds(
    alloc: Global,
    names: &Space,
    types: &[Kind],
    node: &Node,
) -> Result<Many<Kind>, Memory>
    ensures { IfOk result (λ ks. ks ≡ flow_kinds_by (entry_in names.now types.now) (node_tree node.now)) }
{
    let mut kinds = decl_kinds(alloc, names, types, &node.inputs)?;
    push_kinds(&mut kinds, names, types, &node.outputs)?;
    push_kinds(&mut kinds, names, types, &node.locals)?;
    Ok(kinds)
}

/// What a node takes and gives.
pub fn signature(
    alloc: Global,
    names: &Space,
    types: &[Kind],
    node: &Node,
) -> Result<Signature, Memory>
    ensures { IfOk result (λ g. g ≡ signature_by (entry_in names.now types.now) (node_tree node.now)) }
{
    let takes = decl_kinds(alloc, names, types, &node.inputs)?;
    let gives = decl_kinds(alloc, names, types, &node.outputs)?;
    Ok(Signature::new(takes, gives))
}

/// What each node takes and gives, in order.
pub fn signatures(
    alloc: Global,
    names: &Space,
    types: &[Kind],
    nodes: &[Node],
) -> Result<Many<Signature>, Memory>
    ensures { IfOk result (λ gs. gs ≡ map (signature_by (entry_in names.now types.now)) (map node_tree nodes.now)) }
{
    let mut found = Many::new(alloc);
    for n in nodes {
        found.push(signature(alloc, names, types, n)?)?;
    }
    Ok(found)
}

/// Adds the labels of one declaration.
fn push_labels(places: &mut Many<Label>, declaration: u32, labels: &[Name]) -> Result<(), Memory>
    requires { length labels.now ≤ source_limit }
    ensures { IfOk result (λ done. places.new ≡ places.old ++ places_among declaration 0 labels.now) }
{
    let mut number = 0;
    for _ in labels {
        places.push(Label {
            declaration,
            number,
        })?;
        number += 1;
    }
    Ok(())
}

/// Adds the labels of one declaration, where it has any.
fn push_labels_of(places: &mut Many<Label>, declaration: u32, d: &TypeDecl) -> Result<(), Memory>
    requires { length (labels_of d.now) ≤ source_limit }
    ensures { IfOk result (λ done. places.new ≡ places.old ++ places_among declaration 0 (labels_of d.now)) }
{
    match &d.body {
        TypeBody::Alias(_) => Ok(()),
        TypeBody::Labels(labels) => push_labels(places, declaration, labels.as_slice()),
    }
}

/// All labels, in the order of their declarations.
fn label_places(alloc: Global, types: &[TypeDecl]) -> Result<Many<Label>, Memory>
    requires few { length types.now ≤ source_limit }
    requires few_labels { (d : AnyType) → Contains types.now d → length (labels_of d) ≤ source_limit }
    ensures { IfOk result (λ ls. ls ≡ places_from 0 types.now) }
{
    let mut places = Many::new(alloc);
    let mut declaration = 0;
    for d in types {
        push_labels_of(&mut places, declaration, d)?;
        declaration += 1;
    }
    Ok(places)
}

/// What the types of a program mean, and its labels.
#[derive(Drop)]
pub struct TypeTables {
    pub kinds: Many<Kind>,
    pub places: Many<Label>,
}

/// What the types of a program mean, and its labels.
pub fn type_tables(alloc: Global, names: &Space, types: &[TypeDecl]) -> Result<TypeTables, Memory>
    requires names { names.now ≡ map (λ d. d.name) types.now }
    requires different { repeated [] names.now ≡ [] }
    requires few { length types.now ≤ source_limit }
    requires few_labels { (d : AnyType) → Contains types.now d → length (labels_of d) ≤ source_limit }
    ensures kinds { IfOk result (λ t. t.kinds ≡ declared_kinds (reverse types.now)) }
    ensures places { IfOk result (λ t. t.places ≡ places_from 0 types.now) }
{
    let kinds = type_kinds(alloc, names, types)?;
    let places = label_places(alloc, types)?;
    Ok(TypeTables { kinds, places })
}
