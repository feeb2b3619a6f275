//! Documents: traces as records of comma-separated fields, written and read.
//!
//! A document is told by a rule (specs/Rules.antt): which records are awaited after which. By the rule alone it is fixed which
//! records are a document, and which record is the first at fault. It promises that `read_trace` answers the trace whose
//! document the bytes are, or that fault, and that what `write_trace` writes reads back as it. It stands on `rv_flat` for the
//! names, types and places of a program, and on `csv` for records. Begin with traces.rt, then specs/Traces.antt.
#![tactic(auto)]

mod fault;
mod laws;
mod numbers;
mod records;
mod singles;
mod trace_writing;
mod traces;
mod values;
mod writing;

pub use fault::{Fault, FileFault, Why, fault_at};
pub use laws::{awaited_records, fitting_traces, one_trace_rule, told_systems};
pub use numbers::{natural_in, natural_of};
pub use records::Records;
pub use singles::{read_count, read_exactly, read_name};
pub use trace_writing::write_trace;
pub use traces::{dotted, expect_nothing, read_trace};
pub use values::whole_of;
pub use writing::{finish, new_writer, put, put_count, put_row};
