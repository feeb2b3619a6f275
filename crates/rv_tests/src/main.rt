//! Reads a table from standard input, a row a line, and prints each row with what is answered on it. The first field of
//! a row is its kind. What it is to print was computed by hand, or by another program, apart from this code.
//!
//! - texts and parts of programs, answered by the parser, the rules, the order of evaluation and the flat system: `program`,
//!   `local`, `body`, `right`, `tree`, `nested`, `deep`, `sited`, `counted`, `settle`, `typed`, `several`, `clocked`, `values`,
//!   `source`, `steps`, `presence`, `memories`, `cases`, `probe` (`rows.rt`);
//! - lists, texts, boxes, places and traces: `many`, `text`, `box`, `sites`, `path`, `place`, `trace` (`small.rt`);
//! - files and sinks in memory: `files`, `sure_files`, `sink`, `sure_sink` (`outside.rt`);
//! - rows, forms, multipliers and the search for them: `proves`, `refutes`, `tighten`, `fits`, `add`, `scale`, `substitute`,
//!   `seek_row`, `seek_refutation`, `seek_bound` (`linear.rt`);
//! - polyhedra and abstract values: `meet`, `join`, `after`, `before`, `eliminate`, `included`, `whole_point`, `post`, `pre`,
//!   `includes`, `both` (`polyhedra.rt`);
//! - loops that are taken any number of times, and partitions of control states: `accelerate` (`accelerated.rt`), `partition`
//!   (`partitions.rt`);
//! - decision diagrams: `diagram` (`diagrams.rt`), and covers of random ones: `cover` (`covered.rt`);
//! - texts for people: `told`, `ended` (`told.rt`);
//! - the whole program over files and sinks in memory: `run`, `prove`, `replay`, `replaylong`, `surely`, `long`, `bytes`, `weighed`,
//!   `printed`
//!   (`runs.rt`).
#![tactic(auto)]

mod accelerated;
mod cased;
mod causes;
mod covered;
mod diagrams;
mod limits;
mod linear;
mod numbers;
mod outside;
mod partitions;
mod places;
mod polyhedra;
mod presence;
mod printed;
mod probed;
mod rows;
mod runs;
mod shapes;
mod sited;
mod small;
mod steps;
mod told;
mod values;

use rows::answer;
use std::io;

fn main(rt: HostRuntime) -> io::Result<()> {
    for line in rt.lines(rt.alloc()) {
        let row = line?;
        match answer(rt.alloc(), row.as_str()) {
            Ok(text) => println!(rt; "{row} => {text}")?,
            Err(_) => println!(rt; "{row} => no memory")?,
        }
    }
    Ok(())
}
