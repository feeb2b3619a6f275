//! The memories of nodes: what `pre` and `current` read.

ghost use Rattle.std.specs.Prelude.{◌≡◌, ◌<◌, ◌^◌, ◌++◌, ◌∷◌, [], cond, length, map, slice_index_or, IfOk, OnOk};
ghost use Rattle.rv_tree.specs.Bounded.{IsBounded};
ghost use Rattle.rv_tree.specs.Places.{flows};
ghost use Rattle.rv_tree.specs.Tree.{ProgramTree, tree_of, node_tree, program_tree};
ghost use Rattle.rv_types.specs.Names.{name_faults, texts, repeated, decl_names, decls};
ghost use Rattle.rv_types.specs.Readings.{AreTables};
ghost use Rattle.rv_types.specs.Variables.{is_in};
ghost use Rattle.rv_types.specs.declared.typed.Kind.TheVariants as kind;
ghost use Rattle.rv_instances.specs.Timed.{delay_listed};
ghost use Rattle.rv_sizes.specs.Memories.{site_in, sites_read, paired, with_site, kinds_beside, memory_kinds};

use crate::sites::Sites;
use rv_base::{Many, Memory};
use rv_instances::{ClockedDelay, Timed, timed_of};
use rv_tree::{Expr, ExprForm, Node, Program};
use rv_types::{Kind, NodeTables, ProgramTables, delay_kinds, flow_site, node_clocks, node_tables};
use std::alloc::Global;

/// What a `pre` or `current` reads: the site of a memory in its node, and its type.
#[derive(Clone, Copy, Debug, PartialEq, Eq)]
pub struct MemoryRead {
    pub site: u64,
    pub kind: Kind,
}

/// For each node the types of its memories.
pub fn memories_of(
    alloc: Global,
    p: &Program,
    tables: &ProgramTables,
) -> Result<Many<Many<Kind>>, Memory>
    requires bounded { IsBounded (program_tree p.now) }
    requires tables { AreTables (program_tree p.now) tables.now }
    requires named { name_faults (program_tree p.now) ≡ [] }
    ensures { IfOk result (λ kinds. kinds ≡ map (memory_kinds (program_tree p.now)) (map node_tree p.now.nodes)) }
{
    let mut kinds = Many::new(alloc);
    for node in p.nodes.as_slice() {
        let own = memories_of_node(alloc, tables, node)?;
        kinds.push(own)?;
    }
    Ok(kinds)
}

/// The types of the memories of a node.
fn memories_of_node(
    alloc: Global,
    tables: &ProgramTables,
    node: &Node,
) -> Result<Many<Kind>, Memory>
    requires different { repeated [] (decl_names (decls (node_tree node.now))) ≡ [] }
    requires few { length (flows (node_tree node.now)) < 2 ^ 32 }
    ensures { (p : ProgramTree) → AreTables p tables.now → IfOk result (λ kinds. kinds ≡ memory_kinds p (node_tree node.now)) }
{
    let own = node_tables(alloc, tables, node)?;
    let kinds = delay_kinds(alloc, tables, &own, node)?;
    let clocks = node_clocks(alloc, node)?;
    let Timed { delays, .. } = timed_of(alloc, &clocks)?;
    different_kinds(alloc, &own, delays.as_slice(), kinds.as_slice())
}

/// One type for each memory that is read, of what reads and the types there.
fn different_kinds(
    alloc: Global,
    node: &NodeTables,
    delays: &[ClockedDelay],
    of: &[Kind],
) -> Result<Many<Kind>, Memory>
    ensures { IfOk result (λ kinds. kinds ≡ kinds_beside [] (paired of.now 0 (sites_read (texts node.now.flows) (map delay_listed delays.now)))) }
{
    let mut seen = Sites::new(alloc);
    let mut kinds = Many::new(alloc);
    for (number, delay) in delays.iter().enumerate() {
        let site = memory_site(node, delay.site, delay.operand);
        let kind = kind_at(of, number);
        keep(&mut seen, &mut kinds, MemoryRead { site, kind })?;
    }
    Ok(kinds)
}

/// The type with a number, `Bool` where there is none.
fn kind_at(kinds: &[Kind], number: usize) -> Kind
    ensures { result ≡ slice_index_or kinds.now number kind.Bool }
{
    match kinds.get(number) {
        Some(kind) => *kind,
        None => Kind::Bool,
    }
}

/// Keeps the type of a memory that has not been seen.
fn keep(seen: &mut Sites, kinds: &mut Many<Kind>, read: MemoryRead) -> Result<(), Memory>
    ensures seen { OnOk result (seen.new ≡ with_site seen.old read.site) }
    ensures kinds { OnOk result (kinds.new ≡ kinds.old ++ cond (is_in seen.old read.site) [] (read.kind ∷ [])) }
{
    if seen.add(read.site)? {
        kinds.push(read.kind)?;
    }
    Ok(())
}

/// The site of the memory of a `pre` or `current`: all those of one flow share the flow's.
fn memory_site(node: &NodeTables, site: Option<u32>, operand: &Expr) -> u64
    ensures { result ≡ site_in (texts node.now.flows) site (tree_of operand.now) }
{
    match &operand.form {
        ExprForm::Named(name) => match flow_site(node, name) {
            Some(flow) => flow as u64,
            None => site.unwrap_or(0) as u64,
        },
        _ => site.unwrap_or(0) as u64,
    }
}
