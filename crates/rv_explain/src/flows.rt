//! The flows of a flat system, by their places and names.

use crate::names::Names;
use rv_base::{Memory, Value};
use rv_flat::Flat;
use rv_types::Kind;

/// The number of the flow with this site in the instance with these call sites.
pub fn flow_number(flat: &Flat, calls: &[u32], site: usize) -> Option<u32> {
    let mut number: u32 = 0;
    for flow in flat.flows.as_slice() {
        let sites = &flow.place.sites;
        let is_site = match sites.last() {
            Some(last) => last as usize == site,
            None => false,
        };
        if is_site && sites.front() == calls {
            return Some(number);
        }
        number = number.saturating_add(1);
    }
    None
}

/// Adds the name of a flow of the main node, and the path of any other.
pub fn put_flow_name(
    text: &mut String,
    names: &Names,
    main: u32,
    flat: &Flat,
    number: u32,
) -> Result<(), Memory> {
    let Some(flow) = flat.flows.get(number as usize) else {
        return Ok(());
    };
    let sites = &flow.place.sites;
    if sites.front().is_empty() {
        if let (Some(node), Some(site)) = (names.node(main), sites.last()) {
            if let Some((decl, _)) = crate::sites::flow_at(node.node, site as usize) {
                text.push_str(decl.name.text.as_str())?;
                return Ok(());
            }
        }
    }
    names.put_place(text, main, sites)
}

/// Adds a value of a type, as the source writes it.
pub fn put_value(text: &mut String, flat: &Flat, kind: Kind, value: Value) -> Result<(), Memory> {
    match value {
        Value::Flag(true) => text.push_str("true")?,
        Value::Flag(false) => text.push_str("false")?,
        Value::Whole(number) => write!(text, "{number}")?,
        Value::Label(number) => put_label(text, flat, kind, number)?,
    }
    Ok(())
}

/// Adds the label with this number of an enumeration.
pub fn put_label(text: &mut String, flat: &Flat, kind: Kind, number: u32) -> Result<(), Memory> {
    let labels = match kind {
        Kind::Labels(declared) => flat.labels.get(declared as usize),
        _ => None,
    };
    match labels.and_then(|labels| labels.get(number as usize)) {
        Some(label) => text.push_str(label.as_str())?,
        None => write!(text, "{number}")?,
    }
    Ok(())
}
