//! What the names in an expression stand for, found in tables.

ghost use Rattle.std.specs.Prelude.{◌≡◌, Option};
ghost use Rattle.std.specs.Option.{option_copied};
ghost use Rattle.rv_types.specs.Tables.{entry_in, type_of_label, constant_or, takes_in, scope_of};

use crate::space::Space;
use crate::typed::Kind;
use rv_base::{Many, Text};
use std::marker::Model;

/// A label, by the number of its type's declaration and its own number in that, from 0.
#[derive(Clone, Copy, Debug)]
pub struct Label {
    pub declaration: u32,
    pub number: u32,
}

/// What a node takes and gives: the types of its inputs and of its outputs.
#[derive(Debug, Drop)]
pub struct Signature {
    takes: Many<Kind>,
    gives: Many<Kind>,
}

impl Model for Signature {
    ghost use Rattle.rv_types.specs.Types.{Signature};

    ghost Value = { Signature };

    ghost view = { λ s. record { takes = s.takes; gives = s.gives } };
}

impl Signature {
    /// The types of inputs and outputs together.
    pub fn new(takes: Many<Kind>, gives: Many<Kind>) -> Signature
        ensures takes { result.takes ≡ takes }
        ensures gives { result.gives ≡ gives }
    {
        Signature { takes, gives }
    }

    /// The types of the inputs, in order.
    pub fn takes(&self) -> &[Kind]
        ensures { result.now ≡ self.now.takes }
    {
        self.takes.as_slice()
    }

    /// The types of the outputs, in order.
    pub fn gives(&self) -> &[Kind]
        ensures { result.now ≡ self.now.gives }
    {
        self.gives.as_slice()
    }
}

/// The types that a node takes, none where there is no node.
pub fn takes_of<'a>(signature: Option<&'a Signature>) -> &'a [Kind]
    ensures { result.now ≡ takes_in (option_copied signature.entry) }
{
    match signature {
        None => &[],
        Some(signature) => signature.takes(),
    }
}

/// What a table has for a name.
pub fn entry<'a, T>(names: &Space, entries: &'a [T], name: &Text) -> Option<&'a T>
    ensures { option_copied result ≡ entry_in names.now entries.now name.now }
{
    match names.number(name) {
        None => None,
        Some(number) => entries.get(number),
    }
}

/// The tables of the values: constants, with their types so far, and labels.
#[derive(Drop)]
pub struct Values<'a> {
    pub constants: &'a Space,
    pub kinds: &'a [Option<Kind>],
    pub labels: &'a Space,
    pub places: &'a [Label],
}

/// The tables by which an expression is read. In a constant there are no flows and no nodes.
#[derive(Drop)]
pub struct View<'a> {
    pub flows: &'a Space,
    pub flow_kinds: &'a [Kind],
    pub values: Values<'a>,
    pub nodes: &'a Space,
    pub signatures: &'a [Signature],
    /// Whether `pre`, `->`, `when`, `current` and calls may stand here.
    pub moves: bool,
}

impl<'a> Model for View<'a> {
    ghost use Rattle.rv_types.specs.Tables.{Tables};

    ghost Value = { Tables };

    ghost view = { λ v. record {
      flows = v.flows.now;
      flow_kinds = v.flow_kinds.now;
      constants = v.values.constants.now;
      constant_kinds = v.values.kinds.now;
      labels = v.values.labels.now;
      places = v.values.places.now;
      nodes = v.nodes.now;
      signatures = v.signatures.now;
      moves = v.moves;
    } };
}

fn flow_kind_in(flows: &Space, kinds: &[Kind], name: &Text) -> Option<Kind>
    ensures { result ≡ entry_in flows.now kinds.now name.now }
{
    match entry(flows, kinds, name) {
        None => None,
        Some(kind) => Some(*kind),
    }
}

fn label_kind(labels: &Space, places: &[Label], name: &Text) -> Option<Kind>
    ensures { result ≡ type_of_label (entry_in labels.now places.now name.now) }
{
    match entry(labels, places, name) {
        None => None,
        Some(label) => Some(Kind::Labels(label.declaration)),
    }
}

fn constant_kind(
    constants: &Space,
    kinds: &[Option<Kind>],
    name: &Text,
    label: Option<Kind>,
) -> Option<Kind>
    ensures { result ≡ constant_or (entry_in constants.now kinds.now name.now) label }
{
    match entry(constants, kinds, name) {
        None => label,
        Some(kind) => *kind,
    }
}

impl<'a> View<'a> {
    /// The type of a flow, constant or label.
    pub fn kind(&self, name: &Text) -> Option<Kind>
        ensures { result ≡ (scope_of self.now).kind name.now }
    {
        match flow_kind_in(self.flows, self.flow_kinds, name) {
            Some(kind) => Some(kind),
            None => {
                let label = label_kind(self.values.labels, self.values.places, name);
                constant_kind(self.values.constants, self.values.kinds, name, label)
            }
        }
    }

    /// The type of the flow after `when`.
    pub fn clock(&self, name: &Text) -> Option<Kind>
        ensures { result ≡ (scope_of self.now).clock name.now }
    {
        flow_kind_in(self.flows, self.flow_kinds, name)
    }

    /// What a node takes and gives.
    pub fn callee(&self, name: &Text) -> Option<&'a Signature>
        ensures { option_copied result ≡ (scope_of self.now).callee name.now }
    {
        entry(self.nodes, self.signatures, name)
    }

    /// Whether a name is that of a constant or label.
    pub fn is_fixed(&self, name: &Text) -> bool
        ensures { result ≡ (scope_of self.now).fixed name.now }
    {
        self.flows.number(name).is_none()
    }

    /// Whether `pre`, `->`, `when`, `current` and calls may stand here.
    pub fn moves(&self) -> bool
        ensures { result ≡ (scope_of self.now).moves }
    {
        self.moves
    }
}
