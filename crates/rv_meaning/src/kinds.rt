//! The type of what stands at a place.

ghost use Rattle.std.specs.Prelude.{◌≡◌, ◌≤◌, map, reverse, length, slice_get, IfSome, IfNone};
ghost use Rattle.rv_tree.specs.Bounded.{IsBounded, most};
ghost use Rattle.rv_tree.specs.SourceTrees.{IsSourceTree};
ghost use Rattle.rv_tree.specs.Places.{index_of, names, site_of};
ghost use Rattle.rv_tree.specs.Tree.{tree_of, node_tree, constant_tree, program_tree};
ghost use Rattle.rv_types.specs.declared.typed.Kind.{Kind as KindModel};
ghost use Rattle.rv_types.specs.declared.typed.Kind.TheVariants as kind;
ghost use Rattle.rv_types.specs.Heads.{telling};
ghost use Rattle.rv_types.specs.Instances.{name_at};
ghost use Rattle.rv_types.specs.Names.{is_declared, labels_of};
ghost use Rattle.rv_types.specs.Settled.{IsAnswer};
ghost use Rattle.rv_meaning.specs.Accessors.{IsKindAt};
ghost use Rattle.rv_meaning.specs.Telling.{telling_of, constant_told, name_told, output_of, told, label_told, kind_of_site};
ghost use Rattle.rv_meaning.specs.Telling.{kind_of_node, kind_at_end};

use crate::finding::{node_at, number_of, operand_at_site};
use rv_base::{Place, Text};
use rv_tree::{Decl, Expr, ExprForm, Name, Node, Program, TypeBody, TypeDecl};
use rv_types::{Kind, Typed, given_by, well_formed_programs};

/// What tells the type of an expression that has one.
enum Teller<'a> {
    /// The expression alone.
    Itself(Kind),
    /// A flow, constant or label of this name, which has the type.
    Name(&'a Text),
    /// The node of this name, whose one output has the type.
    Callee(&'a Text),
}

/// What tells the type of an expression: its operand with the same type, where it has one. It calls itself for that, so
/// as deep as the tree is: 20,301 levels at most.
fn teller_of<'a>(e: &'a Expr) -> Teller<'a>
    ensures { telling_of result ≡ telling (tree_of e.now) }
{
    match &e.form {
        ExprForm::True | ExprForm::False | ExprForm::Not(_) | ExprForm::AtMostOne(_) => {
            Teller::Itself(Kind::Bool)
        }
        ExprForm::Number(_) | ExprForm::Minus(_) => Teller::Itself(Kind::Int),
        ExprForm::Named(name) => Teller::Name(name),
        ExprForm::Call(callee, _) => Teller::Callee(callee),
        ExprForm::Pre(operand) | ExprForm::Current(operand) | ExprForm::When(operand, _) => {
            teller_of(operand)
        }
        ExprForm::If(_, first, _) => teller_of(first),
        ExprForm::Binary(operator, left, _) => match given_by(*operator) {
            Some(kind) => Teller::Itself(kind),
            None => teller_of(left),
        },
    }
}

/// The type of the flow, `pre` or `current` at a place of a program that keeps all rules; none exactly where no such
/// thing is there. It takes no memory: each name is found by going through the declarations.
pub fn kind_of(p: &Program, t: &Typed, place: &Place) -> Option<Kind>
    requires tree { IsSourceTree (program_tree p.now) }
    requires settled { IsAnswer (program_tree p.now) t.now }
    // What is answered is the type of what stands there.
    ensures found { IfSome result (IsKindAt (program_tree p.now) (name_at (program_tree p.now) t.now.main) place.now.sites) }
    // Where nothing is answered nothing stands there.
    ensures none { IfNone result ((k : KindModel) → IsKindAt (program_tree p.now) (name_at (program_tree p.now) t.now.main) place.now.sites k → ⊥) }
{
    well_formed_programs();
    match place.sites.last() {
        None => None,
        Some(site) => kind_after(p, t, place.sites.front(), site),
    }
}

/// The type of what stands at a site of the node to which call sites lead.
fn kind_after(p: &Program, t: &Typed, path: &[u32], site: u32) -> Option<Kind>
    requires bounded { IsBounded (program_tree p.now) }
    ensures { result ≡ kind_at_end (program_tree p.now) t.now.kinds t.now.main path.now site }
{
    match node_at(p.nodes.as_slice(), t.main as usize, path) {
        None => None,
        Some(number) => kind_in_node(p, t, number, site),
    }
}

/// The type of what stands at a site of the node with a number.
fn kind_in_node(p: &Program, t: &Typed, number: usize, site: u32) -> Option<Kind>
    requires bounded { IsBounded (program_tree p.now) }
    ensures { result ≡ kind_of_node (program_tree p.now) t.now.kinds number site }
{
    match p.nodes.get(number) {
        None => None,
        Some(node) => match t.kinds.get(number) {
            None => None,
            Some(kinds) => kind_at_site(p, t, node, kinds.as_slice(), site),
        },
    }
}

/// The type of what stands at a site of a node whose flows have these types.
fn kind_at_site(p: &Program, t: &Typed, node: &Node, kinds: &[Kind], site: u32) -> Option<Kind>
    requires bounded { IsBounded (program_tree p.now) }
    ensures { result ≡ kind_of_site (program_tree p.now) t.now.kinds (node_tree node.now) kinds.now site }
{
    match kind_at(kinds, site as usize) {
        Some(kind) => Some(kind),
        None => match operand_at_site(node, site) {
            None => None,
            Some(operand) => Some(kind_told(p, t, node, kinds, operand)),
        },
    }
}

/// The type of an expression that has one, in a node whose flows have these types.
fn kind_told(p: &Program, t: &Typed, node: &Node, kinds: &[Kind], e: &Expr) -> Kind
    requires bounded { IsBounded (program_tree p.now) }
    ensures { result ≡ told (program_tree p.now) t.now.kinds (node_tree node.now) kinds.now (tree_of e.now) }
{
    match teller_of(e) {
        Teller::Itself(kind) => kind,
        Teller::Name(name) => kind_of_name(p, node, kinds, name),
        Teller::Callee(name) => match first_output(p, t, number_of(p.nodes.as_slice(), name)) {
            None => Kind::Bool,
            Some(kind) => kind,
        },
    }
}

/// The type of the first output of the node with a number.
fn first_output(p: &Program, t: &Typed, number: usize) -> Option<Kind>
    ensures { result ≡ output_of (program_tree p.now) t.now.kinds number }
{
    match p.nodes.get(number) {
        None => None,
        Some(node) => match t.kinds.get(number) {
            None => None,
            Some(kinds) => kind_at(kinds.as_slice(), node.inputs.len()),
        },
    }
}

/// The type of a name: of a flow of the node, where it has one of the name, and otherwise of a constant or label.
fn kind_of_name(p: &Program, node: &Node, kinds: &[Kind], name: &Text) -> Kind
    requires bounded { IsBounded (program_tree p.now) }
    ensures { result ≡ name_told (program_tree p.now) (node_tree node.now) kinds.now name.now }
{
    match kind_at(kinds, flow_site(node, name)) {
        Some(kind) => kind,
        None => kind_of_constant(p, name),
    }
}

/// The type with a number among some.
fn kind_at(kinds: &[Kind], number: usize) -> Option<Kind>
    ensures { result ≡ slice_get kinds.now number }
{
    kinds.get(number).copied()
}

/// The site of a flow of a node, the number of all flows where none has the name.
fn flow_site(node: &Node, name: &Text) -> usize
    ensures { result ≡ site_of (node_tree node.now) name.now }
{
    let input = index_among(node.inputs.as_slice(), name);
    if input < node.inputs.len() {
        return input;
    }
    let output = index_among(node.outputs.as_slice(), name);
    if output < node.outputs.len() {
        return input + output;
    }
    input + output + index_among(node.locals.as_slice(), name)
}

/// The number of the first declaration of a name, the number of all where none is of the name.
fn index_among(decls: &[Decl], name: &Text) -> usize
    ensures { result ≡ index_of (names decls.now) name.now }
{
    for (number, decl) in decls.iter().enumerate() {
        if decl.name.text == *name {
            return number;
        }
    }
    decls.len()
}

/// The type of a constant or label. A constant is given by earlier ones alone, so one way through all of them is
/// enough.
fn kind_of_constant(p: &Program, name: &Text) -> Kind
    requires bounded { IsBounded (program_tree p.now) }
    ensures { result ≡ constant_told (program_tree p.now) (reverse (map constant_tree p.now.constants)) name.now }
{
    let constants = p.constants.as_slice();
    let mut wanted = name;
    let mut left = constants.len();
    while left > 0 {
        left -= 1;
        let constant = &constants[left];
        if constant.name.text == *wanted {
            match teller_of(&constant.body) {
                Teller::Itself(kind) => return kind,
                Teller::Name(other) => wanted = other,
                Teller::Callee(_) => return Kind::Bool,
            }
        }
    }
    kind_of_label(p.types.as_slice(), wanted)
}

/// The type of a label.
fn kind_of_label(types: &[TypeDecl], name: &Text) -> Kind
    requires few { length types.now ≤ most }
    ensures { result ≡ label_told 0 types.now name.now }
{
    for (number, decl) in types.iter().enumerate() {
        if has_label(decl, name) {
            return Kind::Labels(number as u32);
        }
    }
    Kind::Bool
}

/// Whether a declaration has a label of the name.
fn has_label(decl: &TypeDecl, name: &Text) -> bool
    ensures { result ≡ is_declared (labels_of decl.now) name.now }
{
    match &decl.body {
        TypeBody::Alias(_) => false,
        TypeBody::Labels(labels) => is_named(labels.as_slice(), name),
    }
}

/// Whether one of some labels has the name.
fn is_named(labels: &[Name], name: &Text) -> bool
    ensures { result ≡ is_declared labels.now name.now }
{
    for label in labels {
        if label.text == *name {
            return true;
        }
    }
    false
}
