//! The table of places: what stands where in a program, by numbers and by names.

use crate::expression::put_expression;
use crate::kinds::{type_name, type_of};
use crate::lines::Lines;
use crate::names::Names;
use crate::sites::{Item, NodeSites, Role, count_flows, delayed, flow_at};
use crate::table::{end_of, front_of, put_table};
use rv_base::Memory;
use rv_instances::Source;
use rv_tree::ExprForm;
use std::alloc::Global;

/// The most columns of the number of a place, and of a path.
const PLACE: usize = 16;

const PATH: usize = 34;

/// The most columns of each column of the table.
const MOST: [usize; 7] = [PLACE, PATH, 16, 12, 12, 10, 60];

/// What the table is made over.
#[derive(Clone, Copy)]
struct Scene<'a, 'b> {
    alloc: Global,
    names: &'b Names<'a>,
    lines: &'b Lines<'a>,
}

/// The table of all places of an accepted source: for each instance its flows, and what else stands at its sites.
pub fn places_text(
    alloc: Global,
    source: &Source,
    names: &Names,
    lines: &Lines,
) -> Result<String, Memory> {
    let scene = Scene {
        alloc,
        names,
        lines,
    };
    let mut rows = Vec::new(alloc);
    rows.push(head(alloc)?)?;
    for instance in source.order.instances.as_slice() {
        if let Some(sites) = names.node(instance.node) {
            put_instance(
                &scene,
                &mut rows,
                sites,
                source.typed.main,
                instance.path.as_slice(),
            )?;
        }
    }
    let mut text = String::new(alloc);
    put_table(alloc, &mut text, rows.as_slice(), MOST.as_slice())?;
    Ok(text)
}

/// The row above the columns.
fn head(alloc: Global) -> Result<Vec<String>, Memory> {
    let mut row = Vec::new(alloc);
    for word in ["place", "path", "what", "type", "clock", "at", "text"] {
        row.push(String::from_str(alloc, word)?)?;
    }
    Ok(row)
}

/// The rows of an instance.
fn put_instance<'a>(
    scene: &Scene<'a, '_>,
    rows: &mut Vec<Vec<String>>,
    sites: &NodeSites<'a>,
    main: u32,
    calls: &[u32],
) -> Result<(), Memory> {
    let mut path = String::new(scene.alloc);
    let _ = scene.names.put_path(&mut path, main, calls)?;
    let mut front = String::new(scene.alloc);
    for site in calls {
        write!(front, "{site}.")?;
    }
    put_flows(scene, rows, sites, &path, &front)?;
    put_items(scene, rows, sites, &path, &front)
}

/// The rows of the flows of an instance.
fn put_flows(
    scene: &Scene,
    rows: &mut Vec<Vec<String>>,
    sites: &NodeSites,
    path: &String,
    front: &String,
) -> Result<(), Memory> {
    for site in 0..count_flows(sites.node) {
        put_flow(scene, rows, sites, path, front, site)?;
    }
    Ok(())
}

/// The rows of what else stands at the sites of an instance.
fn put_items<'a>(
    scene: &Scene<'a, '_>,
    rows: &mut Vec<Vec<String>>,
    sites: &NodeSites<'a>,
    path: &String,
    front: &String,
) -> Result<(), Memory> {
    let mut site = count_flows(sites.node);
    for item in sites.items.as_slice() {
        if let Some(item) = item {
            let row = item_row(scene, sites, path, front, site, item)?;
            rows.push(row)?;
        }
        site = site.saturating_add(1);
    }
    Ok(())
}

/// The first two texts of a row: the number of the place and its path.
fn begun(
    scene: &Scene,
    path: &String,
    front: &String,
    site: usize,
    name: &str,
) -> Result<Vec<String>, Memory> {
    let mut row = Vec::new(scene.alloc);
    let mut place = front.clone()?;
    write!(place, "{site}")?;
    row.push(end_of(scene.alloc, place.as_str(), PLACE)?)?;
    let mut whole = path.clone()?;
    whole.push_str(name)?;
    row.push(end_of(scene.alloc, whole.as_str(), PATH)?)?;
    Ok(row)
}

/// Where an offset lies, as line and column.
fn place_text(scene: &Scene, at: u32) -> Result<String, Memory> {
    let spot = scene.lines.spot(at);
    let mut text = String::new(scene.alloc);
    write!(text, "{}", spot.line)?;
    text.push(':')?;
    write!(text, "{}", spot.column)?;
    Ok(text)
}

/// What a flow is called.
fn role_text(role: Role, is_kept: bool) -> &'static str {
    match (role, is_kept) {
        (Role::Input, false) => "input",
        (Role::Input, true) => "input, memory",
        (Role::Output, false) => "output",
        (Role::Output, true) => "output, memory",
        (Role::Local, false) => "local",
        (Role::Local, true) => "local, memory",
    }
}

/// The row of a flow.
fn put_flow(
    scene: &Scene,
    rows: &mut Vec<Vec<String>>,
    sites: &NodeSites,
    path: &String,
    front: &String,
    site: usize,
) -> Result<(), Memory> {
    let Some((decl, role)) = flow_at(sites.node, site) else {
        return Ok(());
    };
    let mut name = String::from_str(scene.alloc, ".")?;
    name.push_str(decl.name.text.as_str())?;
    let mut row = begun(scene, path, front, site, name.as_str())?;
    let what = role_text(role, sites.is_kept(site));
    row.push(String::from_str(scene.alloc, what)?)?;
    row.push(front_of(scene.alloc, type_name(&decl.kind))?)?;
    let clock = match &decl.clock {
        Some(clock) => clock.text.as_str(),
        None => "base",
    };
    row.push(front_of(scene.alloc, clock)?)?;
    row.push(place_text(scene, decl.name.at)?)?;
    rows.push(row)?;
    Ok(())
}

/// What an item is called.
fn item_text(item: &Item) -> &'static str {
    match item {
        Item::Assertion(_) => "assertion",
        Item::Expression(e) => match (delayed(e), &e.form) {
            (Some(operand), _) => match &operand.form {
                ExprForm::Named(_) => "reads memory",
                _ => "memory",
            },
            (None, ExprForm::Call(_, _)) => "call",
            (None, _) => "comparison",
        },
    }
}

/// The row of what stands at a site behind those of the flows.
fn item_row<'a>(
    scene: &Scene<'a, '_>,
    sites: &NodeSites<'a>,
    path: &String,
    front: &String,
    site: usize,
    item: &Item<'a>,
) -> Result<Vec<String>, Memory> {
    let mut row = begun(scene, path, front, site, "")?;
    row.push(String::from_str(scene.alloc, item_text(item))?)?;
    let (e, at) = match item {
        Item::Expression(e) => (*e, e.at),
        Item::Assertion(assertion) => (&assertion.body, assertion.at),
    };
    let kind = match type_of(scene.names, Some(sites.node), e) {
        Some(name) => name,
        None => "",
    };
    row.push(front_of(scene.alloc, kind)?)?;
    row.push(String::new(scene.alloc))?;
    row.push(place_text(scene, at)?)?;
    let mut text = String::new(scene.alloc);
    put_expression(&mut text, e)?;
    row.push(front_of(scene.alloc, text.as_str())?)?;
    Ok(row)
}
