//! What stands before the entries of a location.

ghost use Rattle.std.specs.Prelude.{◌≡◌, ◌≤◌, length, codes, IfOk};
ghost use Rattle.rv_invfile.specs.Ahead.{here};
ghost use Rattle.rv_invfile.specs.Readers.{Reads, run};
ghost use Rattle.rv_invariant.specs.Certificates as spec;
ghost use Rattle.rv_invariant.specs.Groups.{is_grouped};
ghost use Rattle.rv_invariant.specs.Outlines.{AreSmall, takes_second};

use crate::counts::Shape;
use crate::diagrams::read_diagram;
use crate::groups::has_groups;
use crate::multipliers::read_proofs;
use crate::rows::read_list;
use rv_base::Many;
use rv_diagram::Frozen;
use rv_invfile::{FileFault, Records, read_count};
use rv_rows::{Multipliers, Row};
use std::alloc::Global;

/// The lists of rows of a location.
#[derive(Drop)]
pub struct Lists {
    /// What holds where a run comes in.
    pub entry: Many<Row>,
    /// What holds after the first turn of a loop.
    pub first: Many<Row>,
    /// What later turns keep.
    pub around: Many<Row>,
    /// What always holds.
    pub state: Many<Row>,
}

/// What stands before the entries of a location.
#[derive(Drop)]
pub struct Front {
    /// The control states.
    pub control: Frozen,
    /// The rows.
    pub lists: Lists,
    /// One proof for each row of `state`, from `entry`.
    pub by_entry: Many<Multipliers>,
    /// One proof for each row of `state`, from `first`, in a location with a turn of a loop.
    pub by_first: Many<Multipliers>,
    /// How many entries follow.
    pub cases: u64,
}

/// The lists of rows after that of `entry`.
fn read_others(
    alloc: Global,
    records: &mut Records<'_>,
    memories: u32,
    entry: Many<Row>,
) -> Result<Lists, FileFault>
    requires { memories ≤ 4096 }
    ensures read { Reads (λ ls. ls) (run (spec.after_entry memories entry) records.old) result records.new }
    ensures same { IfOk result (λ ls. ls.entry ≡ entry) }
    ensures first { IfOk result (λ ls. length ls.first ≤ 1024) }
    ensures around { IfOk result (λ ls. length ls.around ≤ 1024) }
    ensures state { IfOk result (λ ls. length ls.state ≤ 1024) }
{
    let first = read_list(alloc, records, memories, b"first", 0, 1024)?;
    let around = read_list(alloc, records, memories, b"around", 0, 1024)?;
    let state = read_list(alloc, records, memories, b"state", 0, 1024)?;
    Ok(Lists {
        entry,
        first,
        around,
        state,
    })
}

/// The four lists of rows.
fn read_lists(
    alloc: Global,
    records: &mut Records<'_>,
    memories: u32,
    low: u64,
    high: u64,
) -> Result<Lists, FileFault>
    requires memories { memories ≤ 4096 }
    requires high { high ≤ 4294967295 }
    ensures read { Reads (λ ls. ls) (run (spec.row_lists memories low high) records.old) result records.new }
    ensures small { IfOk result AreSmall }
{
    let entry = read_list(alloc, records, memories, b"entry", low, high)?;
    read_others(alloc, records, memories, entry)
}

/// Whether the location must have a turn of a loop for its rows.
pub fn has_turned(lists: &Lists) -> bool
    ensures { result ≡ spec.has_turned lists.now }
{
    0 < lists.first.len() || 0 < lists.around.len()
}

/// Whether proofs of `state` from `first` are read: they must stand next, or they do.
fn has_second(records: &Records<'_>, lists: &Lists) -> bool
    ensures { result ≡ takes_second lists.now (is_grouped (codes "by") 2 (here records.now)) }
{
    has_turned(lists) || (0 < lists.state.len() && has_groups(records, b"by", 2))
}

/// The count of entries, of which there are at least so many.
fn read_number(
    records: &mut Records<'_>,
    control: Frozen,
    lists: Lists,
    by_entry: Many<Multipliers>,
    by_first: Many<Multipliers>,
    least: u64,
) -> Result<Front, FileFault>
    ensures read { Reads (λ f. f) (run (spec.count_rule control lists by_entry least by_first) records.old) result records.new }
    ensures same { IfOk result (λ f. f.lists ≡ lists) }
{
    let cases = read_count(records, b"cases", least, 4_294_967_295)?;
    Ok(Front {
        control,
        lists,
        by_entry,
        by_first,
        cases,
    })
}

/// The proofs of `state` from `first` and the count of entries.
fn read_second(
    alloc: Global,
    records: &mut Records<'_>,
    control: Frozen,
    lists: Lists,
    by_entry: Many<Multipliers>,
) -> Result<Front, FileFault>
    ensures read { Reads (λ f. f) (run (spec.second_rule control lists by_entry (length lists.state)) records.old) result records.new }
    ensures same { IfOk result (λ f. f.lists ≡ lists) }
{
    let premises = lists.first.len() as u64;
    let by_first = read_proofs(alloc, records, premises, lists.state.len() as u64)?;
    read_number(records, control, lists, by_entry, by_first, 1)
}

/// What stands after the proofs of `state` from `entry`, up to the entries.
fn read_further(
    alloc: Global,
    records: &mut Records<'_>,
    control: Frozen,
    lists: Lists,
    by_entry: Many<Multipliers>,
) -> Result<Front, FileFault>
    ensures read { Reads (λ f. f) (run (spec.after_proofs control lists by_entry) records.old) result records.new }
    ensures same { IfOk result (λ f. f.lists ≡ lists) }
{
    if has_second(records, &lists) {
        read_second(alloc, records, control, lists, by_entry)
    } else {
        let none = Many::new(alloc);
        read_number(records, control, lists, by_entry, none, 0)
    }
}

/// The proofs of `state` and the count of entries.
fn read_cases(
    alloc: Global,
    records: &mut Records<'_>,
    control: Frozen,
    lists: Lists,
) -> Result<Front, FileFault>
    ensures read { Reads (λ f. f) (run (spec.after_lists control lists) records.old) result records.new }
    ensures same { IfOk result (λ f. f.lists ≡ lists) }
{
    let premises = lists.entry.len() as u64;
    let by_entry = read_proofs(alloc, records, premises, lists.state.len() as u64)?;
    read_further(alloc, records, control, lists, by_entry)
}

/// What stands before the entries of a location, of whose entry rows there are from `low` to `high`.
pub fn read_front(
    alloc: Global,
    records: &mut Records<'_>,
    shape: Shape,
    low: u64,
    high: u64,
) -> Result<Front, FileFault>
    requires memories { shape.memories ≤ 4096 }
    requires high { high ≤ 4294967295 }
    ensures read { Reads (λ f. f) (run (spec.front_rule shape low high) records.old) result records.new }
    ensures small { IfOk result (λ f. AreSmall f.lists) }
{
    let control = read_diagram(alloc, records, shape, b"control", true)?;
    let lists = read_lists(alloc, records, shape.memories, low, high)?;
    read_cases(alloc, records, control, lists)
}
