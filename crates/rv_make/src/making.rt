//! The source that is made for a number.

ghost use Rattle.std.specs.Prelude.{◌≡◌, ◌≤◌, ◌<◌, ◌^◌, ◌+◌, ◌++◌, ℕ, codes, IfOk, OnOk, length};
ghost use Rattle.std.specs.String.{string_bytes};
ghost use Rattle.rv_base.specs.Limits.{source_limit};
ghost use Rattle.rv_make.specs.Made.{made_text, line, main_text, link_name, declared_links, link_equation, link_equations};

use rv_base::{Memory, Text};
use std::alloc::{AllocError, Global};

/// The node that delays its input by one instant.
const LINK_NODE: &str = "node link(a: bool) returns (b: bool);
let
  b = false -> pre a;
tel
";

/// The text of the source with this many calls in its main node, at least one and at most 2,000. It fails for want of memory alone.
pub fn make(alloc: Global, n: u32) -> Result<Text, Memory>
    requires positive { 1 ≤ n }
    requires within { n ≤ 2000 }
    ensures text { IfOk result (λ t. t ≡ made_text n) }
{
    let mut text = String::from_str(alloc, LINK_NODE)?;
    add_main_node(&mut text, n)?;
    let text = Text::from_str(alloc, text.as_str())?;
    Ok(text)
}

/// The texts that are made are short enough to be sources.
pub fn made_texts_are_short()
    ensures { (n : ℕ) → n ≤ 2000 → length (made_text n) ≤ source_limit }
{}

/// Adds the main node with n calls.
fn add_main_node(text: &mut String, n: u32) -> Result<(), AllocError>
    ensures { OnOk result (string_bytes text.new ≡ string_bytes text.old ++ main_text n) }
{
    add_line(text, "node main(a: bool) returns (ok: bool);")?;
    add_declarations(text, n)?;
    add_line(text, "let")?;
    add_line(text, "  seen = a or (false -> pre seen);")?;
    add_equations(text, n)?;
    add_observer(text, n)?;
    add_line(text, "tel")?;
    Ok(())
}

/// Adds a line and its end.
fn add_line(text: &mut String, words: &str) -> Result<(), AllocError>
    ensures { OnOk result (string_bytes text.new ≡ string_bytes text.old ++ line words.now) }
{
    text.push_str(words)?;
    text.push('\n')
}

/// Adds the line that declares the locals: what has been seen, and the flow that each of the first n calls gives.
fn add_declarations(text: &mut String, n: u32) -> Result<(), AllocError>
    ensures { OnOk result (string_bytes text.new ≡ string_bytes text.old ++ line (codes "var seen" ++ declared_links n ++ codes ": bool;")) }
{
    text.push_str("var seen")?;
    for before in 0..n {
        text.push_str(", ")?;
        add_flow(text, before + 1)?;
    }
    add_line(text, ": bool;")
}

/// Adds the equations of the first n calls.
fn add_equations(text: &mut String, n: u32) -> Result<(), AllocError>
    ensures { OnOk result (string_bytes text.new ≡ string_bytes text.old ++ link_equations n) }
{
    for call in 0..n {
        add_equation(text, call)?;
    }
    Ok(())
}

/// Adds the equation of the call after this many: what the call before it gives, or the input, is its argument.
fn add_equation(text: &mut String, before: u32) -> Result<(), AllocError>
    requires { before + 1 < 2 ^ 32 }
    ensures { OnOk result (string_bytes text.new ≡ string_bytes text.old ++ link_equation before) }
{
    text.push_str("  ")?;
    add_flow(text, before + 1)?;
    text.push_str(" = link(")?;
    add_flow(text, before)?;
    add_line(text, ");")
}

/// Adds the equation of the observer: where the last of n calls gives true, the input has been true.
fn add_observer(text: &mut String, n: u32) -> Result<(), AllocError>
    ensures { OnOk result (string_bytes text.new ≡ string_bytes text.old ++ line (codes "  ok = not " ++ link_name n ++ codes " or seen;")) }
{
    text.push_str("  ok = not ")?;
    add_flow(text, n)?;
    add_line(text, " or seen;")
}

/// Adds the name of the flow that the call with this number gives. The first call has number 1, and the input stands for number 0.
fn add_flow(text: &mut String, call: u32) -> Result<(), AllocError>
    ensures { OnOk result (string_bytes text.new ≡ string_bytes text.old ++ link_name call) }
{
    if call == 0 {
        text.push('a')
    } else {
        write!(text, "b{call}")
    }
}
