//! What the program answers, how it is printed, and the status that it ends with.

ghost use Rattle.std.specs.Prelude.{◌≡◌, ◌++◌, ◌∷◌, codes, decimal, IfOk, OnOk};
ghost use Rattle.std.specs.String.{string_bytes};
ghost use Rattle.rv_run.specs.Printed.{record_of, text_of, text_of_reason, digits, text_of_refusal, text_of_fault, text_of_name_fault, text_of_cause};
ghost use Rattle.rv_run.specs.Printed.{text_of_file_fault, dotted, listed, quantity_name, status_of, report_status};

use rv_base::{Many, Place, Sites, Text, Trace};
use rv_causality::{CauseFault, Quantity};
use rv_invfile::FileFault;
use rv_proofs::{Certificate, LeftReport, Reason};
use rv_source::SourceFault;
use rv_syntax::TextFault;
use rv_types::NameFault;
use std::alloc::{AllocError, Global};

/// What the program answers.
#[derive(Debug, PartialEq, Eq, Drop)]
pub enum Report {
    /// In every run the observer is true at each instant up to which the assertions have held. The certificate proves it.
    Safe(Certificate),
    /// The source is not safe: at the last instant of this trace the observer is false. It is a shortest such trace of a source without
    /// integers, or a probe, or, of a source with integers that no probe falsifies, any such trace.
    Violated(Trace),
    /// The source has integers, no closed box claim or row claim of it is good, and no probe falsifies it: a left partition, and why nothing
    /// more was split.
    Unknown(LeftReport),
    /// The diagrams grew past their limit of nodes, which is told.
    Nodes(u32),
    /// The certificate in the invariant file is accepted.
    Accepted,
    /// It is not: the first reason.
    Rejected(Reason),
    /// The trace, cut after this instant, falsifies: its run is allowed up to there, and the observer is false there for the first time.
    Falsified(u32),
    /// This instant is the first that ends the replay of the trace, and this is the least place of an assertion that is false there.
    AssertionFails(u32, Place),
    /// No instant of the trace ends its replay.
    NeverFalse,
    /// This instant is the first that ends the replay of the trace, and this is the least place at which a value leaves the range there.
    Outgrown(u32, Place),
    /// A source that was made.
    Made(Text),
    /// In every run of the source with this many calls the observer is true at each instant. The certificate, which is not shown, proves it.
    Toured {
        /// The number of calls.
        count: u32,
        /// The length of the source in bytes.
        length: u64,
        /// The certificate.
        certificate: Certificate,
    },
    /// The source is not one that is accepted.
    Refused(SourceFault),
    /// The file with the trace or the invariant is no document of one.
    BadFile(FileFault),
    /// The file is longer than a source, or a document, may be. The number is how many bytes were read of it: one more than that.
    TooLong(u64),
    /// The file could not be read.
    ReadFault,
    /// The words are no command.
    Usage,
    /// There was no memory.
    Memory,
}

/// What is shown where the words are no command: what they may be.
const USAGE: &str = "reaver,usage
prove FILE NODE [--nodes N] [--locations L] [--accelerate yes|no]
check FILE NODE INVARIANT [--nodes N]
replay FILE NODE TRACE
make N
tour N
";

/// Whether the text of the report was shown.
#[derive(Clone, Copy, Debug, PartialEq, Eq)]
pub enum Sent {
    /// It was shown whole.
    Whole,
    /// The sink failed, after a front of it.
    Failed,
    /// There was no memory to make or to show it, and nothing was shown.
    Memory,
}

/// What a run of the program comes to.
#[derive(Drop)]
pub struct Outcome {
    /// What it answers.
    pub report: Report,
    /// Whether that was shown.
    pub sent: Sent,
    /// The status that it ends with.
    pub status: u8,
}

/// A report, and the document that is shown in place of its text where it is Safe, Violated or Unknown.
#[derive(Debug, Drop)]
pub struct Answer {
    pub report: Report,
    pub document: Vec<u8>,
}

/// The text of a report: one record, its fields joined by commas, and a line feed. That of Safe, Violated and Unknown is empty, since the
/// document of the certificate, of the trace or of what is left is shown.
pub fn text(alloc: Global, report: &Report) -> Result<String, AllocError>
    ensures { IfOk result (λ text. string_bytes text ≡ text_of report.now) }
{
    match report {
        Report::Safe(_) | Report::Violated(_) | Report::Unknown(_) => Ok(String::new(alloc)),
        Report::Nodes(limit) => format!(in alloc; "reaver,nodes,{limit}\n"),
        Report::Accepted => String::from_str(alloc, "reaver,accepted\n"),
        Report::Rejected(reason) => reason_text(alloc, reason),
        Report::Falsified(at) => format!(in alloc; "reaver,falsified,{at}\n"),
        Report::AssertionFails(at, place) => placed_text(alloc, "reaver,assertion,", *at, place),
        Report::NeverFalse => String::from_str(alloc, "reaver,neverfalse\n"),
        Report::Outgrown(at, place) => placed_text(alloc, "reaver,outgrown,", *at, place),
        Report::Refused(fault) => refusal_text(alloc, fault),
        Report::BadFile(fault) => file_fault_text(alloc, *fault),
        Report::TooLong(count) => format!(in alloc; "reaver,toolong,{count}\n"),
        Report::ReadFault => String::from_str(alloc, "reaver,readfault\n"),
        Report::Made(source) => String::from_str(alloc, source.as_str()),
        Report::Toured { count, length, .. } => toured_text(alloc, *count, *length),
        Report::Usage => String::from_str(alloc, USAGE),
        Report::Memory => String::from_str(alloc, "reaver,memory\n"),
    }
}

/// The text of the report on a tour: the number of calls, and the length of the source in bytes.
fn toured_text(alloc: Global, count: u32, length: u64) -> Result<String, AllocError>
    ensures { IfOk result (λ text. string_bytes text ≡ record_of (codes "reaver,tour," ++ decimal count ++ 44 ∷ decimal length ++ codes ",safe")) }
{
    let mut text = format!(in alloc; "reaver,tour,{count},")?;
    write!(text, "{length}")?;
    text.push_str(",safe")?;
    text.push('\n')?;
    Ok(text)
}

/// The text of a reason: its number, its name in lower case letters, and its fields.
fn reason_text(alloc: Global, reason: &Reason) -> Result<String, AllocError>
    ensures { IfOk result (λ text. string_bytes text ≡ text_of_reason reason.now) }
{
    match reason {
        Reason::NoInitial(word) => word_text(alloc, "reaver,rejected,1,noinitial,", word),
        Reason::Uncovered(location, word) => uncovered_text(alloc, *location, word),
        Reason::Unsettled(location, entry) => {
            entry_text(alloc, "reaver,rejected,3,unsettled,", *location, *entry)
        }
        Reason::Observer(location, entry, word) => {
            seen_text(
                alloc,
                "reaver,rejected,4,observer,",
                *location,
                *entry,
                word,
            )
        }
        Reason::Target(location, entry, word) => {
            seen_text(alloc, "reaver,rejected,5,target,", *location, *entry, word)
        }
        Reason::Multipliers(location, entry, number) => {
            multipliers_text(alloc, *location, *entry, *number)
        }
        Reason::Inclusion(location, row) => {
            entry_text(alloc, "reaver,rejected,7,inclusion,", *location, *row)
        }
    }
}

/// A record of this front and a valuation, a digit for each diagram variable.
fn word_text(alloc: Global, front: &str, word: &Many<bool>) -> Result<String, AllocError>
    ensures { IfOk result (λ text. string_bytes text ≡ record_of (front.now ++ digits word.now)) }
{
    let mut text = String::from_str(alloc, front)?;
    add_digits(&mut text, word.as_slice())?;
    text.push('\n')?;
    Ok(text)
}

/// The record of a valuation that no entry of a location covers.
fn uncovered_text(alloc: Global, location: u32, word: &Many<bool>) -> Result<String, AllocError>
    ensures { IfOk result (λ text. string_bytes text ≡ record_of (codes "reaver,rejected,2,uncovered," ++ decimal location ++ 44 ∷ digits word.now)) }
{
    let mut text = format!(in alloc; "reaver,rejected,2,uncovered,{location},")?;
    add_digits(&mut text, word.as_slice())?;
    text.push('\n')?;
    Ok(text)
}

/// Adds `1` for each true value and `0` for each false one.
fn add_digits(text: &mut String, word: &[bool]) -> Result<(), AllocError>
    ensures { OnOk result (string_bytes text.new ≡ string_bytes text.old ++ digits word.now) }
{
    for bit in word {
        text.push(if *bit { '1' } else { '0' })?;
    }
    Ok(())
}

/// A record of this front and two numbers.
fn entry_text(alloc: Global, front: &str, location: u32, entry: u32) -> Result<String, AllocError>
    ensures { IfOk result (λ text. string_bytes text ≡ record_of (front.now ++ decimal location ++ 44 ∷ decimal entry)) }
{
    let mut text = format!(in alloc; "{front}{location},")?;
    write!(text, "{entry}")?;
    text.push('\n')?;
    Ok(text)
}

/// A record of this front, the numbers of an entry and a valuation.
fn seen_text(
    alloc: Global,
    front: &str,
    location: u32,
    entry: u32,
    word: &Many<bool>,
) -> Result<String, AllocError>
    ensures { IfOk result (λ text. string_bytes text ≡ record_of (front.now ++ decimal location ++ 44 ∷ decimal entry ++ 44 ∷ digits word.now)) }
{
    let mut text = format!(in alloc; "{front}{location},")?;
    write!(text, "{entry},")?;
    add_digits(&mut text, word.as_slice())?;
    text.push('\n')?;
    Ok(text)
}

/// The record of an implication that its multipliers do not prove.
fn multipliers_text(
    alloc: Global,
    location: u32,
    entry: u32,
    number: u32,
) -> Result<String, AllocError>
    ensures { IfOk result (λ text. string_bytes text ≡ record_of (codes "reaver,rejected,6,multipliers," ++ decimal location ++ 44 ∷ decimal entry ++ 44
        ∷ decimal number)) }
{
    let mut text = format!(in alloc; "reaver,rejected,6,multipliers,{location},{entry},")?;
    write!(text, "{number}")?;
    text.push('\n')?;
    Ok(text)
}

/// The text of a report on an instant of a trace and a place there, behind this front.
fn placed_text(alloc: Global, front: &str, at: u32, place: &Place) -> Result<String, AllocError>
    ensures { IfOk result (λ text. string_bytes text ≡ record_of (front.now ++ decimal at ++ 44 ∷ dotted place.now.sites)) }
{
    let mut text = format!(in alloc; "{front}{at},")?;
    add_sites(&mut text, &place.sites)?;
    text.push('\n')?;
    Ok(text)
}

/// The text of a fault of a file: its number, its name in lower case letters, the record, and the field where it has one.
fn file_fault_text(alloc: Global, fault: FileFault) -> Result<String, AllocError>
    ensures { IfOk result (λ text. string_bytes text ≡ text_of_file_fault fault) }
{
    match fault {
        FileFault::NotRecords(record) => format!(in alloc;
            "reaver,badfile,1,notrecords,{record}\n"
        ),
        FileFault::WrongKind(record) => format!(in alloc; "reaver,badfile,2,wrongkind,{record}\n"),
        FileFault::WrongProgram(record) => format!(in alloc;
            "reaver,badfile,3,wrongprogram,{record}\n"
        ),
        FileFault::BadNumber(record, field) => bad_number_text(alloc, record, field),
        FileFault::Ends(count) => format!(in alloc; "reaver,badfile,5,ends,{count}\n"),
        FileFault::Memory => String::from_str(alloc, "reaver,memory\n"),
    }
}

/// The text of a field, in the record with this number, that is no number in its range and no value of its type.
fn bad_number_text(alloc: Global, number: u32, field: u32) -> Result<String, AllocError>
    ensures { IfOk result (λ text. string_bytes text ≡ record_of (codes "reaver,badfile,4,badnumber," ++ decimal number ++ 44 ∷ decimal field)) }
{
    let mut text = format!(in alloc; "reaver,badfile,4,badnumber,{number},")?;
    write!(text, "{field}")?;
    text.push('\n')?;
    Ok(text)
}

/// The text of a refusal.
fn refusal_text(alloc: Global, fault: &SourceFault) -> Result<String, AllocError>
    ensures { IfOk result (λ text. string_bytes text ≡ text_of_refusal fault.now) }
{
    match fault {
        SourceFault::Text(fault) => fault_text(alloc, *fault),
        SourceFault::Names(fault) => name_fault_text(alloc, *fault),
        SourceFault::Cause(fault) => cause_text(alloc, fault),
        SourceFault::Memory => String::from_str(alloc, "reaver,memory\n"),
    }
}

/// The text of a refusal: the number of the fault, its name in lower case letters, and its offset.
fn fault_text(alloc: Global, fault: TextFault) -> Result<String, AllocError>
    ensures { IfOk result (λ text. string_bytes text ≡ text_of_fault fault) }
{
    match fault {
        TextFault::BadText(at) => format!(in alloc; "reaver,refused,1,badtext,{at}\n"),
        TextFault::TooDeep(at) => format!(in alloc; "reaver,refused,2,toodeep,{at}\n"),
        TextFault::LeftOut(at) => format!(in alloc; "reaver,refused,3,leftout,{at}\n"),
        TextFault::Memory => String::from_str(alloc, "reaver,memory\n"),
    }
}

/// The text of a refusal for names, types or clocks: the number of the fault, its name in lower case letters, and its
/// offset where it has one.
fn name_fault_text(alloc: Global, fault: NameFault) -> Result<String, AllocError>
    ensures { IfOk result (λ text. string_bytes text ≡ text_of_name_fault fault) }
{
    match fault {
        NameFault::NoNode => String::from_str(alloc, "reaver,refused,4,nonode\n"),
        NameFault::UnknownName(at) => format!(in alloc; "reaver,refused,5,unknownname,{at}\n"),
        NameFault::DefinedTwice(at) => format!(in alloc; "reaver,refused,6,definedtwice,{at}\n"),
        NameFault::Undefined(at) => format!(in alloc; "reaver,refused,7,undefined,{at}\n"),
        NameFault::TypeClash(at) => format!(in alloc; "reaver,refused,8,typeclash,{at}\n"),
        NameFault::Nonlinear(at) => format!(in alloc; "reaver,refused,9,nonlinear,{at}\n"),
        NameFault::ClockClash(at) => format!(in alloc; "reaver,refused,10,clockclash,{at}\n"),
        NameFault::NotObserver(at) => format!(in alloc; "reaver,refused,11,notobserver,{at}\n"),
        NameFault::Memory => String::from_str(alloc, "reaver,memory\n"),
    }
}

/// The text of a refusal for recursion, sizes, cycles or weights: the number of the fault, its name in lower case letters,
/// and its offset, its places, or the quantity and how large it is.
fn cause_text(alloc: Global, fault: &CauseFault) -> Result<String, AllocError>
    ensures { IfOk result (λ text. string_bytes text ≡ text_of_cause fault.now) }
{
    match fault {
        CauseFault::Recursive(at) => format!(in alloc; "reaver,refused,12,recursive,{at}\n"),
        CauseFault::Cycle(places) => cycle_text(alloc, places.as_slice()),
        CauseFault::TooLarge(quantity, number) => {
            let name = name_of(*quantity);
            format!(in alloc; "reaver,refused,14,toolarge,{name},{number}\n")
        }
        CauseFault::TooWide(at) => format!(in alloc; "reaver,refused,15,toowide,{at}\n"),
        CauseFault::Memory => String::from_str(alloc, "reaver,memory\n"),
    }
}

/// The name of a quantity in lower case letters.
fn name_of(quantity: Quantity) -> &'static str
    ensures { result.now ≡ quantity_name quantity }
{
    match quantity {
        Quantity::Instances => "instances",
        Quantity::Expanded => "expanded",
        Quantity::Memories => "memories",
        Quantity::Inputs => "inputs",
        Quantity::Labels => "labels",
        Quantity::Variables => "variables",
    }
}

/// The text of a cycle: its places in turn.
fn cycle_text(alloc: Global, places: &[Place]) -> Result<String, AllocError>
    ensures { IfOk result (λ text. string_bytes text ≡ codes "reaver,refused,13,cycle" ++ listed places.now ++ codes "\n") }
{
    let mut text = String::from_str(alloc, "reaver,refused,13,cycle")?;
    for place in places {
        text.push(',')?;
        add_sites(&mut text, &place.sites)?;
    }
    text.push('\n')?;
    Ok(text)
}

/// Adds the numbers of a place, joined by points.
fn add_sites(text: &mut String, sites: &Sites) -> Result<(), AllocError>
    ensures { OnOk result (string_bytes text.new ≡ string_bytes text.old ++ dotted sites.now) }
{
    let Some(last) = sites.last() else {
        return Ok(());
    };
    for site in sites.front() {
        write!(text, "{site}.")?;
    }
    write!(text, "{last}")?;
    Ok(())
}

/// The status that the program ends with.
pub fn status(report: &Report, sent: Sent) -> u8
    ensures { result ≡ status_of report.now sent }
{
    match sent {
        Sent::Whole => status_of_report(report),
        Sent::Failed => 6,
        Sent::Memory => 7,
    }
}

/// The status after a report that was shown whole.
pub fn status_of_report(report: &Report) -> u8
    ensures { result ≡ report_status report.now }
{
    match report {
        Report::Safe(_)
        | Report::Accepted
        | Report::Falsified(_)
        | Report::Made(_)
        | Report::Toured { .. } => 0,
        Report::Violated(_)
        | Report::Rejected(_)
        | Report::AssertionFails(_, _)
        | Report::NeverFalse => 1,
        Report::Unknown(_) | Report::Nodes(_) => 2,
        Report::Refused(_) => 3,
        Report::Usage => 4,
        Report::ReadFault => 5,
        Report::Memory => 7,
        Report::BadFile(_) => 8,
        Report::TooLong(_) => 9,
        Report::Outgrown(_, _) => 10,
    }
}
