//! The text on a trace: a table of its values, and what is false at its end.

ghost use Rattle.std.specs.Prelude.{◌≤◌, length};
ghost use Rattle.rv_tree.specs.Tree.{program_tree};
ghost use Rattle.rv_tree.specs.Words.{HasPlainNames};
ghost use Rattle.rv_invfile.specs.Traces.{IsTraceOf};

use crate::badfile::file_fault;
use crate::conjuncts::{Judge, Search, given, read_flows};
use crate::evaluate::Moment;
use crate::flows::{flow_number, put_flow_name};
use crate::grid::put_grid;
use crate::lines::Lines;
use crate::names::Names;
use crate::outcome::{Ended, put_outcome};
use crate::played::{Played, play};
use crate::request::{Answer, Asked};
use rv_base::{Memory, Trace};
use rv_flat::Flat;
use rv_flatten::{fitting_sources, flatten};
use rv_instances::Source;
use rv_invfile::{fitting_traces, read_trace, told_systems};
use rv_types::well_formed_programs;
use std::alloc::Global;

/// How many values of expressions a trace may have that is played.
const MOST_VALUES: u64 = 1_000_000_000;

/// What a text on a document is made over: the words, the accepted source, its nodes and lines.
#[derive(Clone, Copy)]
pub struct Told<'a, 'b> {
    /// The allocator.
    pub alloc: Global,
    /// The words.
    pub asked: &'b Asked<'b>,
    /// The number of the main node.
    pub main: u32,
    /// The nodes.
    pub names: &'b Names<'a>,
    /// The lines of the source.
    pub lines: &'b Lines<'a>,
}

/// The text on the bytes of a trace.
pub fn trace_text(told: &Told, source: &Source, document: &[u8]) -> Result<Answer, Memory>
    requires plain { HasPlainNames (program_tree source.now.program) }
    requires short { length document.now ≤ 67108864 }
{
    fitting_sources();
    well_formed_programs();
    told_systems();
    fitting_traces();
    let flat = flatten(told.alloc, source)?;
    match read_trace(told.alloc, &flat, document) {
        Ok(trace) => {
            if is_long(&flat, &trace) {
                return too_long(told.alloc);
            }
            played_text(told, &flat, &trace)
        }
        Err(fault) => file_fault(told.alloc, fault),
    }
}

/// Whether a trace has too many instants for a program of this size.
fn is_long(flat: &Flat, trace: &Trace) -> bool {
    let count = trace.instants.len() as u64;
    count.saturating_mul(flat.expanded) > MOST_VALUES
}

/// That a trace is too long.
fn too_long(alloc: Global) -> Result<Answer, Memory> {
    let why =
        "the instants of the trace times the expressions of the program are more than 1,000,000,000";
    Ok(Answer::Refused(String::from_str(alloc, why)?))
}

/// The text on a trace of a flat system.
fn played_text(told: &Told, flat: &Flat, trace: &Trace) -> Result<Answer, Memory>
    requires { IsTraceOf flat.now trace.now }
{
    let chosen = chosen_flows(told, flat)?;
    let played = play(told.alloc, flat, trace, chosen.as_slice())?;
    let mut text = String::new(told.alloc);
    let names = flow_names(told, flat, chosen.as_slice())?;
    put_grid(
        told.alloc,
        &mut text,
        flat,
        chosen.as_slice(),
        names.as_slice(),
        &played,
    )?;
    put_end(told, &mut text, flat, trace, &played)?;
    Ok(Answer::Explained(text))
}

/// The names of flows.
fn flow_names(told: &Told, flat: &Flat, chosen: &[u32]) -> Result<Vec<String>, Memory> {
    let mut names = Vec::new(told.alloc);
    for number in chosen {
        let mut name = String::new(told.alloc);
        put_flow_name(&mut name, told.names, told.main, flat, *number)?;
        names.push(name)?;
    }
    Ok(names)
}

/// Adds a number where it is not there yet.
fn add(chosen: &mut Vec<u32>, number: u32) -> Result<(), Memory> {
    if !chosen.as_slice().contains(&number) {
        chosen.push(number)?;
    }
    Ok(())
}

/// The numbers of the flows that are shown: the inputs and outputs of the main node and what the observer reads, or all where all
/// are asked for.
fn chosen_flows(told: &Told, flat: &Flat) -> Result<Vec<u32>, Memory> {
    let mut chosen = Vec::new(told.alloc);
    if told.asked.all {
        let mut number: u32 = 0;
        for _ in flat.flows.as_slice() {
            chosen.push(number)?;
            number = number.saturating_add(1);
        }
        return Ok(chosen);
    }
    let Some(sites) = told.names.node(told.main) else {
        return Ok(chosen);
    };
    for site in 0..sites.node.inputs.len() {
        if let Some(number) = flow_number(flat, &[], site) {
            add(&mut chosen, number)?;
        }
    }
    put_read(told, flat, &mut chosen)?;
    add(&mut chosen, flat.observer)?;
    Ok(chosen)
}

/// Adds the flows that the equation of the observer reads.
fn put_read(told: &Told, flat: &Flat, chosen: &mut Vec<u32>) -> Result<(), Memory> {
    if let Some((part, _)) = given(told.names, told.main, flat, flat.observer) {
        for number in read_flows(told.alloc, told.names, flat, &part)? {
            add(chosen, number)?;
        }
    }
    Ok(())
}

/// Adds how the trace ends.
fn put_end(
    told: &Told,
    text: &mut String,
    flat: &Flat,
    trace: &Trace,
    played: &Played,
) -> Result<(), Memory> {
    let (Some(last), Some(inputs)) = (&played.last, trace.instants.get(played.at)) else {
        return put_outcome(told, text, None, played);
    };
    let moment = Moment {
        flat,
        before: &last.before,
        after: &last.after,
        inputs,
        values: &last.values,
    };
    let search = Search {
        alloc: told.alloc,
        names: told.names,
        main: told.main,
        flat,
        judge: Judge::At(&moment),
    };
    let ended = Ended {
        moment: &moment,
        search,
    };
    put_outcome(told, text, Some(&ended), played)
}
