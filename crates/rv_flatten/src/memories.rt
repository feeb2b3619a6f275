//! The memories of all instances, in the order of their places, and their numbers.

ghost use Rattle.std.specs.Prelude.{◌≡◌, ◌≤◌, ◌^◌, ◌++◌, ◌∷◌, [], ℕ, List, map, length, slice_index_or, Some, IfOk, OnOk};
ghost use Rattle.std.specs.List.{Contains};
ghost use Rattle.std.specs.Cmp.Lexicographic.{slice_cmp};
ghost use Rattle.std.specs.Ordering.{nat_cmp};
ghost use Rattle.rv_tree.specs.Delays.{Delay, node_delays};
ghost use Rattle.rv_tree.specs.Places.{Identifier, index_of, is_same, memory_site};
ghost use Rattle.rv_tree.specs.Tree.{ProgramTree, node_tree};
ghost use Rattle.rv_types.specs.Instances.{Instance as InstanceTree, IsInstance};
ghost use Rattle.rv_types.specs.Known.{flow_names};
ghost use Rattle.rv_types.specs.Lists.{delay_place};
ghost use Rattle.rv_types.specs.Names.{repeated};
ghost use Rattle.rv_types.specs.Readings.{AreTables};
ghost use Rattle.rv_types.specs.declared.typed.Kind.TheVariants as kind;
ghost use Rattle.rv_instances.specs.Callees.{callee_in};
ghost use Rattle.rv_instances.specs.AllInstances.{AreCounted};
ghost use Rattle.rv_instances.specs.Expanded.{IsExpanded, IsKnown, program_of, main_of};
ghost use Rattle.rv_instances.specs.Fitting.{AreFew};
ghost use Rattle.rv_instances.specs.Layouts.{IsNumberOf};
ghost use Rattle.rv_instances.specs.Timed.{delay_listed};
ghost use Rattle.rv_instances.specs.declared.answer.Instance.{Instance as InstanceModel};
ghost use Rattle.rv_flatten.specs.declared.kept.Kept.{Kept as KeptModel};
ghost use Rattle.rv_flatten.specs.Kept.{AreKept};
ghost use Rattle.rv_flatten.specs.NodeReaders.{node_read, lists_to, AreSortedBy};
ghost use Rattle.rv_flatten.specs.Remembered.{joined, read_seen, reads_in, kept_seen, kept_at, kept_in};

use crate::kept::Kept;
use crate::node_reader::NodeReader;
use rv_base::{Many, Memory, Path, Place, Sites};
use rv_instances::{Callees, ClockedDelay, Expanded, Instance, Timed, timed_of};
use rv_tree::Expr;
use rv_types::{Clock, Kind, NodeClocks, ProgramTables, delay_kinds};
use std::alloc::Global;
use std::cmp::Ordering;

/// What a `pre` or `current` reads: the site of a memory in its node, the type of what it holds, and the operand with its
/// clock.
#[derive(Clone, Copy)]
pub struct MemoryRead<'a> {
    pub site: u32,
    pub kind: Kind,
    pub clock: Clock,
    pub operand: &'a Expr,
}

/// The memories of all instances, in the order of their places: a proper prefix first, then by the first number that
/// differs. `Memory` comes where memory runs out. Time grows with the number of `pre` and `current` of all nodes and of
/// all instances and with the length of the places, up to look-ups and one sort.
pub fn kept_of<'a>(
    alloc: Global,
    expanded: &Expanded<'a, '_>,
    tables: &ProgramTables,
) -> Result<Many<Kept<'a>>, Memory>
    requires known { IsKnown expanded.now }
    requires tables { AreTables (program_of expanded.now) tables.now }
    ensures { IfOk result (AreKept (program_of expanded.now) (main_of expanded.now) expanded.now.instances.now) }
{
    let read = reads_of_nodes(alloc, expanded, tables)?;
    let found = found_in_all(alloc, expanded.instances.as_slice(), read.as_slice())?;
    Ok(sorted(found))
}

/// By the number of an instance and the site of a memory there, the number of the memory in the list. `Memory` comes where
/// memory runs out. Time grows with the number of memories, up to look-ups.
pub fn memory_numbers(alloc: Global, kept: &[Kept]) -> Result<Callees, Memory>
    requires few { length kept.now ≤ 2 ^ 32 }
    ensures { (p : ProgramTree) (main : Identifier) (instances : List InstanceModel) → IsExpanded p main instances → AreKept p main instances kept.now
        → IfOk result (λ numbers. (m : ℕ) (i : InstanceTree) (d : Delay) → IsInstance p main i → IsNumberOf p instances m i → Contains (node_delays i.node) d
        → callee_in numbers m (memory_site i.node d.site d.operand) ≡ Some (index_of (map (λ k. k.place.sites) kept.now) (delay_place i d))) }
{
    let mut numbers = Callees::new(alloc);
    for (number, memory) in kept.iter().enumerate() {
        numbers.tell(memory.instance, site_of(memory), number as u32)?;
    }
    Ok(numbers)
}

/// The memories of a program with few expressions are few.
pub fn few_memories()
    ensures { (p : ProgramTree) (main : Identifier) (instances : List InstanceModel) (ks : List KeptModel) → IsExpanded p main instances → AreCounted p main
        → AreFew p main → AreKept p main instances ks → length ks ≤ 200000 }
{}

/// The site of a memory in its instance: the last number of its place.
fn site_of(memory: &Kept) -> u32
    ensures { (path : List ℕ) (s : ℕ) → memory.now.place.sites ≡ path ++ s ∷ [] → result ≡ s }
{
    match memory.place.sites.last() {
        None => 0,
        Some(site) => site,
    }
}

/// What was found, in the order of places, and of each place once.
fn sorted<'a>(found: Many<Kept<'a>>) -> Many<Kept<'a>>
    ensures { AreSortedBy (λ k. k.place.sites) found.entry result }
{
    let mut found = found.into_vec();
    found.sort_unstable_by(|one, other| compare(one, other));
    found.dedup_by(|later, one| is_one(later, one));
    Many::from_vec(found)
}

/// Whether the place of a memory stands before that of another.
fn compare(one: &Kept, other: &Kept) -> Ordering
    ensures { result ≡ slice_cmp nat_cmp one.now.place.sites other.now.place.sites }
{
    one.place.sites.compare(&other.place.sites)
}

/// Whether two memories have one place.
fn is_one(one: &Kept, other: &Kept) -> bool
    ensures { result ≡ is_same one.now.place.sites other.now.place.sites }
{
    one.place.sites == other.place.sites
}

/// What the `pre` and `current` of all instances read, instance by instance.
fn found_in_all<'a>(
    alloc: Global,
    instances: &[Instance],
    read: &[Many<MemoryRead<'a>>],
) -> Result<Many<Kept<'a>>, Memory>
    requires few { length instances.now ≤ 4000 }
    ensures { IfOk result (λ found. map kept_seen found ≡ lists_to (kept_in (map (map read_seen) read.now) instances.now) (length instances.now)) }
{
    let mut found = Many::new(alloc);
    for (number, instance) in instances.iter().enumerate() {
        push_of_node(alloc, number as u32, instance, read, &mut found)?;
    }
    Ok(found)
}

/// Adds what an instance reads, by what each node reads.
fn push_of_node<'a>(
    alloc: Global,
    number: u32,
    instance: &Instance,
    read: &[Many<MemoryRead<'a>>],
    found: &mut Many<Kept<'a>>,
) -> Result<(), Memory>
    ensures { OnOk result (map kept_seen found.new ≡ map kept_seen found.old ++ map (kept_at instance.now.path number)
        (map read_seen (slice_index_or read.now instance.now.node []))) }
{
    if let Some(own) = read.get(instance.node as usize) {
        push_found(number, &instance.path, own.as_slice(), found)?;
    }
    Ok(())
}

/// Adds what an instance reads.
fn push_found<'a>(
    number: u32,
    path: &Path,
    read: &[MemoryRead<'a>],
    found: &mut Many<Kept<'a>>,
) -> Result<(), Memory>
    ensures { OnOk result (map kept_seen found.new ≡ map kept_seen found.old ++ map (kept_at path.now number) (map read_seen read.now)) }
{
    for one in read {
        found.push(Kept {
            place: place_of(path, one.site)?,
            kind: one.kind,
            clock: one.clock,
            instance: number,
            operand: one.operand,
        })?;
    }
    Ok(())
}

/// The place of a site of an instance.
pub fn place_of(path: &Path, site: u32) -> Result<Place, Memory>
    ensures { IfOk result (λ place. place.sites ≡ path.now ++ site ∷ []) }
{
    let sites = Sites::within(path, site)?;
    Ok(Place { sites })
}

/// What the `pre` and `current` of each node read.
fn reads_of_nodes<'a>(
    alloc: Global,
    expanded: &Expanded<'a, '_>,
    tables: &ProgramTables,
) -> Result<Many<Many<MemoryRead<'a>>>, Memory>
    requires known { IsKnown expanded.now }
    requires tables { AreTables (program_of expanded.now) tables.now }
    ensures { IfOk result (λ read. map (map read_seen) read ≡ map (reads_in (program_of expanded.now)) (program_of expanded.now).nodes) }
{
    let mut read = Many::new(alloc);
    for clocks in expanded.clocks.as_slice() {
        let own = reads_of_node(alloc, tables, clocks)?;
        read.push(own)?;
    }
    Ok(read)
}

/// What the `pre` and `current` of a node read, whose flows have different names.
fn reads_of_node<'a>(
    alloc: Global,
    tables: &ProgramTables,
    clocks: &NodeClocks<'a>,
) -> Result<Many<MemoryRead<'a>>, Memory>
    ensures { (p : ProgramTree) → AreTables p tables.now → repeated [] (flow_names (node_tree clocks.now.node.now)) ≡ []
        → IfOk result (λ read. map read_seen read ≡ reads_in p (node_tree clocks.now.node.now)) }
{
    let reader = NodeReader::new(alloc, tables, clocks)?;
    let kinds = delay_kinds(alloc, reader.tables, &reader.own, reader.clocks.node)?;
    let Timed { delays, .. } = timed_of(alloc, reader.clocks)?;
    together(alloc, &reader, delays.as_slice(), kinds.as_slice())
}

/// What some `pre` and `current` of a node read, with the types of their operands, which stand in the same order.
#[tactic(auto, using(crate::proofs::JoinedReads::joined_more))]
fn together<'a>(
    alloc: Global,
    reader: &NodeReader<'a, '_>,
    delays: &[ClockedDelay<'a>],
    kinds: &[Kind],
) -> Result<Many<MemoryRead<'a>>, Memory>
    ensures { IfOk result (λ read. map read_seen read ≡ joined (node_read reader.now) kinds.now (map delay_listed delays.now)) }
{
    let mut read = Many::new(alloc);
    for (number, delay) in delays.iter().enumerate() {
        read.push(MemoryRead {
            site: reader.memory_site(delay.site, delay.operand),
            kind: kind_at(kinds, number),
            clock: delay.clock,
            operand: delay.operand,
        })?;
    }
    Ok(read)
}

/// The type with a number, `Bool` where there is none.
fn kind_at(kinds: &[Kind], number: usize) -> Kind
    ensures { result ≡ slice_index_or kinds.now number kind.Bool }
{
    match kinds.get(number) {
        Some(kind) => *kind,
        None => Kind::Bool,
    }
}
