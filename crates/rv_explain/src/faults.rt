//! Sentences on texts that are no programs, and on names.

use crate::kinds::type_name;
use crate::names::Names;
use crate::refused::Refused;
use crate::sites::{flow_at, site_of};
use crate::tokens::{put_word, token_of};
use rv_base::Memory;
use rv_syntax::TextFault;
use rv_tree::{Name, Node, Program, TypeBody};

/// Adds why a text is no program from the token at this offset on.
pub fn put_text_fault(
    refused: &Refused,
    text: &mut String,
    fault: TextFault,
    at: u32,
) -> Result<(), Memory> {
    let rest = refused.lines.rest(at);
    match fault {
        TextFault::LeftOut(_) => put_left_out(text, rest),
        TextFault::TooDeep(_) => {
            text.push_str("at ")?;
            put_word(text, rest)?;
            text.push_str(
                " the expression is nested more than 200 deep; give a part of it to a flow",
            )?;
            Ok(())
        }
        _ => {
            if rest.is_empty() {
                text.push_str("the text ends before the program does")?;
                return Ok(());
            }
            put_word(text, rest)?;
            text.push_str(" cannot stand here")?;
            Ok(())
        }
    }
}

/// Adds what is left out of the language.
fn put_left_out(text: &mut String, rest: &[u8]) -> Result<(), Memory> {
    match token_of(rest) {
        b"not" | b"(" => {
            text.push_str(
                "a clock is the name of a flow: no `not`, no brackets and no value stand behind `when`",
            )?;
        }
        b")" => text.push_str("a node without inputs is left out of the language")?,
        b"when" => {
            text.push_str(
                "a clock of an input or output is left out of the language; locals may have one",
            )?;
        }
        _ => {
            put_word(text, rest)?;
            text.push_str(" is left out of the language")?;
        }
    }
    Ok(())
}

/// No node has the name of the main node.
pub fn put_no_node(refused: &Refused, text: &mut String, names: &Names) -> Result<(), Memory> {
    refused.put_file(text)?;
    text.push_str("no node is named `")?;
    text.push_str(refused.asked.node)?;
    text.push('`')?;
    let mut between = "; the nodes are ";
    for node in names.program.nodes.as_slice() {
        text.push_str(between)?;
        text.push_str(node.name.text.as_str())?;
        between = ", ";
    }
    refused.put_stop(text)
}

/// The main node is no observer.
pub fn put_not_observer(refused: &Refused, text: &mut String, names: &Names) -> Result<(), Memory> {
    text.push_str("the main node is to have one output, of type bool, and has ")?;
    let number = names.number_of(refused.asked.node);
    let Some(sites) = number.and_then(|number| names.node(number)) else {
        return Ok(());
    };
    let mut between = "";
    for output in sites.node.outputs.as_slice() {
        text.push_str(between)?;
        text.push_str(output.name.text.as_str())?;
        text.push_str(": ")?;
        text.push_str(type_name(&output.kind))?;
        between = ", ";
    }
    Ok(())
}

/// Adds what is declared or given twice.
pub fn put_defined_twice(
    refused: &Refused,
    text: &mut String,
    names: &Names,
    at: u32,
) -> Result<(), Memory> {
    put_word(text, refused.lines.rest(at))?;
    let word = token_of(refused.lines.rest(at));
    for node in names.program.nodes.as_slice() {
        if let Some(earlier) = given_before(node, word, at) {
            if earlier.is_input {
                text.push_str(" is an input, which no equation may give")?;
                return Ok(());
            }
            text.push_str(" has an equation already, in ")?;
            return refused.put_line_number(text, earlier.at);
        }
    }
    text.push_str(" is declared already")?;
    if let Some(earlier) = declared_before(names.program, word, at) {
        text.push_str(", in ")?;
        refused.put_line_number(text, earlier)?;
    }
    Ok(())
}

/// What gave a flow before.
#[derive(Clone, Copy)]
struct Earlier {
    at: u32,
    is_input: bool,
}

/// What gave the flow whose left side stands at this offset, where one does in the node.
fn given_before(node: &Node, word: &[u8], at: u32) -> Option<Earlier> {
    let mut first = None;
    for equation in node.equations.as_slice() {
        for left in equation.lefts.as_slice() {
            if left.at == at {
                return earlier_of(node, left.text.as_str(), first);
            }
            if first.is_none() && left.text.as_str().as_bytes() == word {
                first = Some(left.at);
            }
        }
    }
    None
}

/// An input of this name, or the left side before.
fn earlier_of(node: &Node, name: &str, first: Option<u32>) -> Option<Earlier> {
    if let Some(site) = site_of(node, name) {
        if site < node.inputs.len() {
            let (decl, _) = flow_at(node, site)?;
            return Some(Earlier {
                at: decl.name.at,
                is_input: true,
            });
        }
    }
    Some(Earlier {
        at: first?,
        is_input: false,
    })
}

/// The offset of a declaration where it has the name and stands before this offset, and else what was found so far.
fn nearer(found: Option<u32>, name: &Name, word: &[u8], at: u32) -> Option<u32> {
    if name.text.as_str().as_bytes() == word && name.at < at {
        Some(name.at)
    } else {
        found
    }
}

/// A declaration of the name before this offset.
fn declared_before(program: &Program, word: &[u8], at: u32) -> Option<u32> {
    let mut found = None;
    for declared in program.types.as_slice() {
        found = nearer(found, &declared.name, word, at);
        if let TypeBody::Labels(labels) = &declared.body {
            for label in labels.as_slice() {
                found = nearer(found, label, word, at);
            }
        }
    }
    for constant in program.constants.as_slice() {
        found = nearer(found, &constant.name, word, at);
    }
    for node in program.nodes.as_slice() {
        found = nearer(found, &node.name, word, at);
        found = declared_in(found, node, word, at);
    }
    found
}

/// The same of the flows of a node.
fn declared_in(found: Option<u32>, node: &Node, word: &[u8], at: u32) -> Option<u32> {
    let mut found = found;
    for decls in [&node.inputs, &node.outputs, &node.locals] {
        for decl in decls.as_slice() {
            found = nearer(found, &decl.name, word, at);
        }
    }
    found
}
