//! Documents of certificates: an invariant of a program with what proves it, as records of comma-separated fields.
//!
//! What it promises. `read_certificate` answers the certificate whose document the bytes are, exactly where they are one, and
//! else the first fault: the record that is not awaited after those before it, and what of it is wrong. Whether records are a
//! document, and of which certificate, is told by a rule (`certificate_rule` in specs/Certificates.antt) in the way of
//! `rv_invfile`: which records are awaited after which, by the records so far alone. `documents_fit` says that a certificate
//! which has a document has the counts and ranges of one, so that it may be judged as it was read. `documents_are_written` says
//! that the records of a document are those of its certificate. `write_certificate` writes the document of a certificate that has
//! the counts and ranges of one and, where a location has no turn of a loop, nothing in its `first` and `around`; only want of memory
//! stops it. That each such certificate has a document is `documents_exist`. `awaited_records` says which record is awaited after
//! which: one that the writing rules put next.
//!
//! What a document is. First the names of the program: its node, its diagram variables and columns. Then for each location its
//! control set, its rows, a proof of each row of `state` from those of `entry`, where it has a turn of a loop one from those of `first`
//! too, and its entries: a condition on valuations with a step into a location or a turn of a loop and what proves it, or with what
//! shows that no point is there. A location may have a turn where it has those second proofs, or no row in `state`; it must have one
//! where it has them, or rows in `first` or `around`: so the last of its entries is awaited as a turn alone where none was before.
//! Multipliers after `go` are as many as the target has rows in `entry`. Where that is not known yet, as many as come, up to 1,024,
//! and the target's own record must then agree. So the rule hands on what is known of each location, and takes what comes after a part
//! as an argument: what follows an open list is awaited beside its records.
//!
//! What it stands on: `rv_invfile` for rules, records, numbers and faults, `rv_proofs` for certificates and their ranges,
//! `rv_control` for the numbers of variables that a flat system has, `rv_diagram` and `rv_rows` for what a certificate holds.
//!
//! Where to begin: specs/Certificates.antt, then specs/Pieces.antt for single records (diagrams, rows, multipliers) and
//! specs/Groups.antt for records of groups of fields; in the code reading.rt, and down from there locations.rt, entries.rt,
//! turns.rt, fronts.rt. A function that reads a part of open end tells by `Continues` (specs/Continues.antt) what it read, whatever comes
//! after it. The writer is writing.rt, over lines.rt for single records.
#![tactic(auto)]

mod counts;
mod diagrams;
mod entries;
mod fronts;
mod groups;
mod laws;
mod lines;
mod locations;
mod multipliers;
mod naming;
mod numbers;
mod outlines;
mod reading;
mod rows;
mod turns;
mod unknown;
mod writing;

pub use counts::Shape;
pub use fronts::{Front, Lists};
pub use laws::{
    awaited_records, documents_are_written, documents_exist, documents_fit, reports_are_told,
};
pub use outlines::{Kinds, Outline};
pub use reading::read_certificate;
pub use unknown::write_left;
pub use writing::write_certificate;
