//! Diagrams to time a store by. With no words it builds small ones and prints their sizes; with a name
//! and a number, as `parity 200`, it builds that one, to be timed from outside.
#![tactic(auto)]

ghost use Rattle.std.specs.Prelude.{◌≡◌, ◌≤◌};

mod adder;
mod chain;
mod parity;
mod queens;

use rv_diagram::{Ref, Store, StoreFault};
use std::alloc::Global;
use std::{env, io};

/// A diagram that can be asked for.
#[derive(Clone, Copy, Debug)]
enum Subject {
    Parity,
    Adder,
    Queens,
    Chain,
}

/// The name of a subject, and what it is.
fn named(name: &str) -> Option<Subject> {
    match name {
        "parity" => Some(Subject::Parity),
        "adder" => Some(Subject::Adder),
        "queens" => Some(Subject::Queens),
        "chain" => Some(Subject::Chain),
        _ => None,
    }
}

/// Builds the subject of size n, which is cut to what a store can hold.
fn build(s: &mut Store, what: Subject, n: u32) -> Result<Ref, StoreFault>
    requires { s.old.variables ≡ 4096 }
{
    match what {
        Subject::Parity => parity::parity(s, n.min(4096)),
        Subject::Adder => adder::adder(s, n.min(2048)),
        Subject::Queens => queens::queens(s, n.min(8)),
        Subject::Chain => chain::chain(s, n.min(2048)),
    }
}

/// Builds in a new store of at most `limit` nodes and prints how many nodes there are then.
fn run(rt: &impl Print, alloc: Global, name: &str, n: u32, limit: u32) -> io::Result<()>
    requires { limit ≤ 33554432 }
{
    let Some(what) = named(name) else {
        return println!(rt; "no subject {name}");
    };
    let Ok(mut s) = Store::new(alloc, 4096, limit) else {
        return println!(rt; "{name} {n}: out of memory");
    };
    match build(&mut s, what, n) {
        Ok(r) => {
            let nodes = s.mark();
            println!(rt; "{name} {n}: reference {r}, {nodes} nodes")
        }
        Err(StoreFault::Nodes) => println!(rt; "{name} {n}: more than {limit} nodes"),
        Err(StoreFault::Memory) => println!(rt; "{name} {n}: out of memory"),
    }
}

fn main(rt: HostRuntime) -> io::Result<()> {
    let mut words = env::args(&rt)?;
    let _program = words.next();
    if let Some(name) = words.next() {
        let n = match words.next() {
            Some(text) => text.as_str().parse::<u32>().unwrap_or(0),
            None => 0,
        };
        return run(&rt, rt.alloc(), name.as_str(), n, 33554432);
    }
    run(&rt, rt.alloc(), "parity", 8, 1000)?;
    run(&rt, rt.alloc(), "adder", 3, 1000)?;
    run(&rt, rt.alloc(), "queens", 4, 4000)?;
    run(&rt, rt.alloc(), "chain", 5, 4000)?;
    run(&rt, rt.alloc(), "parity", 8, 10)
}
