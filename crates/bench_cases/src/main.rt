//! The cases of a source, to time them by. Reads from standard input a source whose main node is `main`, and prints how many cases its
//! initial control states and all its control states have, where they take no more than 200,000 nodes.
#![tactic(auto)]

mod counted;

use crate::counted::{Counted, Ended, count_cases};
use rv_base::Memory;
use std::alloc::{AllocError, Global};
use std::io;

/// Adds a line.
fn add_line(text: &mut String, line: &str) -> Result<(), AllocError> {
    text.push_str(line)?;
    text.push('\n')
}

/// Prints what was counted of a text.
fn tell(rt: &impl Print, alloc: Global, text: &str) -> io::Result<()> {
    match count_cases(alloc, text) {
        Ok(Ended::Counted(Counted { initial, all })) => println!(rt;
            "{initial} cases of the initial control states, {all} of all"
        ),
        Ok(Ended::NoSource) => println!(rt; "no source"),
        Ok(Ended::Nodes) => println!(rt; "more nodes than the limit"),
        Err(Memory::Memory) => println!(rt; "out of memory"),
    }
}

fn main(rt: HostRuntime) -> io::Result<()> {
    let mut text = String::new(rt.alloc());
    for line in rt.lines(rt.alloc()) {
        let row = line?;
        if add_line(&mut text, row.as_str()).is_err() {
            return println!(rt; "out of memory");
        }
    }
    tell(&rt, rt.alloc(), text.as_str())
}
