//! The labels of a program's enumerations, and the inputs of its main node.

ghost use Rattle.std.specs.Prelude.{◌≡◌, ◌≤◌, length, map, take, IfOk};
ghost use Rattle.rv_tree.specs.Places.{names};
ghost use Rattle.rv_types.specs.Names.{labels_of as declared_labels, texts};

use rv_base::{Many, Memory, Text};
use rv_flat::FlatInput;
use rv_tree::{Decl, Name, TypeBody, TypeDecl};
use rv_types::Kind;
use std::alloc::Global;

/// For each type declaration its labels, none where it is another name of a type.
pub fn labels_of(alloc: Global, types: &[TypeDecl]) -> Result<Many<Many<Text>>, Memory>
    ensures { IfOk result (λ made. made ≡ map (λ d. texts (declared_labels d)) types.now) }
{
    let mut made = Many::new(alloc);
    for declared in types {
        made.push(labels_in(alloc, declared)?)?;
    }
    Ok(made)
}

/// The labels of one declaration.
fn labels_in(alloc: Global, declared: &TypeDecl) -> Result<Many<Text>, Memory>
    ensures { IfOk result (λ made. made ≡ texts (declared_labels declared.now)) }
{
    match &declared.body {
        TypeBody::Alias(_) => Ok(Many::new(alloc)),
        TypeBody::Labels(labels) => texts_of(alloc, labels.as_slice()),
    }
}

fn texts_of(alloc: Global, labels: &[Name]) -> Result<Many<Text>, Memory>
    ensures { IfOk result (λ made. made ≡ texts labels.now) }
{
    let mut made = Many::new(alloc);
    for label in labels {
        made.push(label.text.clone()?)?;
    }
    Ok(made)
}

/// The inputs, of their declarations and of the types of the first flows.
pub fn inputs_of(alloc: Global, inputs: &[Decl], kinds: &[Kind]) -> Result<Many<FlatInput>, Memory>
    requires { length inputs.now ≤ length kinds.now }
    ensures names { IfOk result (λ made. map (λ i. i.name) made ≡ names inputs.now) }
    ensures kinds { IfOk result (λ made. map (λ i. i.kind) made ≡ take (length inputs.now) kinds.now) }
{
    let mut made = Many::new(alloc);
    for (number, input) in inputs.iter().enumerate() {
        made.push(FlatInput {
            name: input.name.text.clone()?,
            kind: kinds[number],
        })?;
    }
    Ok(made)
}
