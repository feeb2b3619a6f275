//! The texts of `reaver-explain` on the sources and documents beside it, one of each kind, one after another.
#![tactic(auto)]

use rv_explain::{Answer, Asked, explain};
use std::rt::Files;
use std::{fs, io};

/// The cases: a source, its main node, and a document, or nothing.
const CASES: [(&str, &str, &str); 22] = [
    ("text.lus", "main", ""),
    ("unknown.lus", "main", ""),
    ("twice.lus", "main", ""),
    ("undefined.lus", "main", ""),
    ("types.lus", "main", ""),
    ("product.lus", "main", ""),
    ("clocks.lus", "main", ""),
    ("left_out.lus", "main", ""),
    ("no_observer.lus", "main", ""),
    ("recursive.lus", "main", ""),
    ("cycle.lus", "main", ""),
    ("clock_cycle.lus", "main", ""),
    ("door.lus", "main", ""),
    ("door.lus", "main", "door.trace"),
    ("door.lus", "main", "door_assumed.trace"),
    ("tank.lus", "main", "tank.inv"),
    ("tank.lus", "main", "tank.rejected"),
    ("sampled.lus", "main", "sampled.trace"),
    ("parity.lus", "main", "parity.unknown"),
    ("parity.lus", "main", "parity_one.unknown"),
    ("parity.lus", "main", "parity_wrong.unknown"),
    ("tank.lus", "main", "tank.unknown"),
];

fn main(rt: HostRuntime) -> io::Result<()> {
    for (file, node, document) in CASES {
        println!(rt; "== {file} {document}")?;
        tell(&rt, file, node, document)?;
    }
    Ok(())
}

/// Shows the text on a source and a document.
fn tell<R: AllocGlobal + Files + Print>(
    rt: &R,
    file: &str,
    node: &str,
    document: &str,
) -> io::Result<()> {
    let asked = Asked {
        file,
        node,
        all: false,
        entries: true,
    };
    let source = fs::read(rt, file)?;
    let answer = if document.is_empty() {
        explain(rt.alloc(), &asked, source.as_slice(), None)
    } else {
        let bytes = fs::read(rt, document)?;
        explain(
            rt.alloc(),
            &asked,
            source.as_slice(),
            Some(bytes.as_slice()),
        )
    };
    match answer {
        Ok(Answer::Explained(text)) => rt.print(text.as_str()),
        Ok(Answer::Refused(why)) => rt.println(why.as_str()),
        Err(_) => rt.println("out of memory"),
    }
}
