//! The control states that a row of links reaches, to time the walk by: `bench_walk N LIMIT` for N links, at most 2,000,
//! in a store of at most LIMIT nodes. With a third word the observer is strict, so that it is false somewhere.
#![tactic(auto)]

ghost use Rattle.std.specs.Prelude.{◌≤◌};

mod links;

use crate::links::{Outcome, run};
use rv_diagram::StoreFault;
use std::alloc::Global;
use std::{env, io};

/// The number of a word, at most `most`.
fn number(word: Option<&str>, otherwise: u32, most: u32) -> u32
    ensures { result ≤ most }
{
    let read = match word {
        Some(text) => text.parse::<u32>().unwrap_or(otherwise),
        None => otherwise,
    };
    read.min(most)
}

/// Walks, and prints what was found.
fn tell(rt: &impl Print, alloc: Global, links: u32, limit: u32, strict: bool) -> io::Result<()>
    requires links { links ≤ 2000 }
    requires limit { limit ≤ 33554432 }
{
    match run(alloc, links, strict, limit) {
        Ok(Outcome { held, good, layers }) => println!(rt;
            "{links} links: {held} nodes before the walk, good {good}, {layers} bad layers"
        ),
        Err(StoreFault::Nodes) => println!(rt; "{links} links: more than {limit} nodes"),
        Err(StoreFault::Memory) => println!(rt; "{links} links: out of memory"),
    }
}

fn main(rt: HostRuntime) -> io::Result<()> {
    let mut words = env::args(&rt)?;
    let _program = words.next();
    let links = match words.next() {
        Some(text) => number(Some(text.as_str()), 40, 2000),
        None => 40,
    };
    let limit = match words.next() {
        Some(text) => number(Some(text.as_str()), 200000, 33554432),
        None => 200000,
    };
    match words.next() {
        Some(_) => tell(&rt, rt.alloc(), links, limit, true),
        None => {
            tell(&rt, rt.alloc(), links, limit, false)?;
            tell(&rt, rt.alloc(), 3, 100, true)
        }
    }
}
