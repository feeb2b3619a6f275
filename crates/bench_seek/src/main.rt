//! Searches for multipliers, to time them by. With no words it makes a few small ones and prints what they found;
//! with a subject and three numbers, as `bound 200 20 50`, it searches over 200 premises and 20 columns 50 times,
//! to be timed from outside.
#![tactic(auto)]

mod rows;
mod searches;

use crate::searches::{Subject, found};
use std::alloc::Global;
use std::{env, io};

/// How large a subject is.
#[derive(Clone, Copy, Debug)]
struct Size {
    premises: usize,
    columns: usize,
    calls: usize,
}

/// The name of a subject, and what it is.
fn named(name: &str) -> Option<Subject> {
    match name {
        "row" => Some(Subject::Row),
        "refutation" => Some(Subject::Refutation),
        "bound" => Some(Subject::Bound),
        "none" => Some(Subject::Nothing),
        _ => None,
    }
}

/// Searches in this size, cut to 4,000 premises, and prints in how many calls something was found.
fn run(rt: &impl Print, alloc: Global, name: &str, size: Size) -> io::Result<()> {
    let Some(subject) = named(name) else {
        return println!(rt; "no subject {name}");
    };
    let premises = size.premises.min(4000);
    let (columns, calls) = (size.columns, size.calls);
    match found(alloc, subject, premises, columns, calls) {
        Ok(count) => println!(rt; "{name} {premises} x {columns}: {count} of {calls}"),
        Err(_) => println!(rt; "{name} {premises} x {columns}: out of memory"),
    }
}

fn main(rt: HostRuntime) -> io::Result<()> {
    let mut words = env::args(&rt)?;
    let _program = words.next();
    if let Some(name) = words.next() {
        let mut numbers = [0; 3];
        for number in numbers.iter_mut() {
            if let Some(text) = words.next() {
                *number = text.as_str().parse::<usize>().unwrap_or(0);
            }
        }
        let size = Size {
            premises: numbers[0],
            columns: numbers[1],
            calls: numbers[2],
        };
        return run(&rt, rt.alloc(), name.as_str(), size);
    }
    let size = Size {
        premises: 30,
        columns: 5,
        calls: 10,
    };
    run(&rt, rt.alloc(), "row", size)?;
    run(&rt, rt.alloc(), "refutation", size)?;
    run(&rt, rt.alloc(), "bound", size)
}
