//! What the whole program does over files and sinks in memory. What cannot be read has no answer.

ghost use Rattle.std.specs.Prelude.{◌≡◌, ◌≢◌, ◌⊎◌, ℕ, List, Some, IsTrue};
ghost use Rattle.std.specs.FinMap.{contains_key};
ghost use Rattle.rv_base.specs.SureFiles.{held_by};
ghost use Rattle.rv_base.specs.MemoryFiles as memory_files;
ghost use Rattle.rv_base.specs.MemorySink as memory_sink;
ghost use Rattle.rv_meaning.specs.Runs.{IsSafe};
ghost use Rattle.rv_proofs.specs.declared.certificate.Certificate.{Certificate};
ghost use Rattle.rv_run.specs.Answers.{OnFile};
ghost use Rattle.rv_run.specs.Programs.{OnProgram, WithRuns};
ghost use Rattle.rv_run.specs.Words.{IsNamed, wanted};
ghost use Rattle.rv_words.specs.Words.{texts};

use crate::outside::{add_bytes, calls_in};
use crate::printed::printed;
use crate::rows::with_line_feeds;
use rv_base::{Memory, MemoryFiles, MemorySink, SureFiles, SureSink};
use rv_run::{Outcome, Report, Sent, run};
use rv_words::{Command, read_words};
use std::alloc::{AllocError, Global};
use std::str::from_utf8;

/// The words of the command line that proves the node `m` of the file `f`.
const PROVE: &str = "reaver prove f m";

/// The words of the one that replays the trace in the file `t` over it.
const REPLAY: &str = "reaver replay f m t";

/// The words of the one that checks the invariant in the file `t` over it.
const CHECK: &str = "reaver check f m t";

/// The answer on a row of one of these kinds. It is what is reported, whether it was shown, the status, and what is
/// shown, with a backtick for its line feed.
/// `run`: the words, the numbers of the loads and of the puts that fail, the text of the file `f`, and that of `t` where the row
/// has it;
/// `prove`: the text of `f`, whose node `m` is proved, where nothing fails;
/// `replay`: the text of `f` and that of `t`, whose trace is replayed over the node `m` of `f`, where nothing fails. In a trace a
/// `^` stands for a carriage return;
/// `check`: the same of an invariant, which is checked;
/// `found`: the text of `f`, whose node `m` is proved, and what is shown of it checked where it is Safe, and else replayed, with `last`
/// behind what is shown where that is Falsified at the trace's last instant;
/// `changed`: the text of `f`, and changes of what is proved of its node `m`, each the number of a record, a `=` and what stands in its place;
/// the file with each change is checked;
/// `replaylong`: what `replay` does, the trace told by its front, a part, how often it is repeated, and the back;
/// `surely`: the same over files and a sink that never fail;
/// `long`: the same of a text by its front, a part, how often it is repeated, and the back. A `%` in the part stands for
/// how often it stood before;
/// `bytes`: the same of bytes by their numbers;
/// `weighed`: the words, and what is shown told by its length and by the two sums of Adler's checksum, where nothing fails and the
/// file `f` is empty;
/// `printed`: a report by its words, and its text.
pub fn ran(alloc: Global, kind: &str, fields: &str) -> Result<Option<String>, Memory> {
    match kind {
        "run" => ran_with(alloc, fields),
        "prove" => {
            let text = with_line_feeds(alloc, fields)?;
            Ok(Some(proved(alloc, text.as_bytes())?))
        }
        "replay" => replayed(alloc, fields),
        "check" => done_with(alloc, CHECK, fields),
        "found" => {
            let text = with_line_feeds(alloc, fields)?;
            Ok(Some(found_again(alloc, text.as_bytes())?))
        }
        "changed" => checked_changed(alloc, fields),
        "replaylong" => replayed_long(alloc, fields),
        "surely" => ran_surely(alloc, fields),
        "long" => {
            let text = repeated(alloc, fields)?;
            Ok(Some(proved(alloc, text.as_bytes())?))
        }
        "bytes" => match bytes_in(alloc, fields)? {
            Some(bytes) => Ok(Some(proved(alloc, &bytes)?)),
            None => Ok(None),
        },
        "weighed" => Ok(Some(weighed(alloc, fields)?)),
        "printed" => printed(alloc, fields),
        _ => Ok(None),
    }
}

/// The words of a line.
fn words_of(alloc: Global, line: &str) -> Result<Vec<String>, AllocError> {
    let mut words = Vec::new(alloc);
    for word in line.split(' ') {
        words.push(String::from_str(alloc, word)?)?;
    }
    Ok(words)
}

/// A text by its front, a part, how often it is repeated, and the back.
fn repeated(alloc: Global, fields: &str) -> Result<String, Memory> {
    let mut parts = fields.split('~');
    let mut text = String::from_str(alloc, parts.next().unwrap_or(""))?;
    let part = parts.next().unwrap_or("");
    let times = parts.next().unwrap_or("").parse::<u32>().unwrap_or(0);
    for number in 0..times {
        add_part(alloc, part, number, &mut text)?;
    }
    text.push_str(parts.next().unwrap_or(""))?;
    Ok(text)
}

/// Adds a part, in which `%` stands for a number.
fn add_part(alloc: Global, part: &str, number: u32, text: &mut String) -> Result<(), AllocError> {
    match part.split_once('%') {
        Some((front, back)) => {
            let more = format!(in alloc; "{front}{number}{back}")?;
            text.push_str(more.as_str())
        }
        None => text.push_str(part),
    }
}

/// Bytes by their numbers.
fn bytes_in(alloc: Global, text: &str) -> Result<Option<Vec<u8>>, AllocError> {
    let mut bytes = Vec::new(alloc);
    for word in text.split_whitespace() {
        match word.parse::<u8>() {
            Ok(byte) => bytes.push(byte)?,
            Err(_) => return Ok(None),
        }
    }
    Ok(Some(bytes))
}

fn ran_with(alloc: Global, fields: &str) -> Result<Option<String>, Memory> {
    let mut parts = fields.split('~');
    let words = words_of(alloc, parts.next().unwrap_or(""))?;
    let loads = calls_in(alloc, parts.next().unwrap_or(""))?;
    let puts = calls_in(alloc, parts.next().unwrap_or(""))?;
    let source = with_line_feeds(alloc, parts.next().unwrap_or(""))?;
    let mut files = files_of(alloc, source.as_bytes())?;
    if let Some(trace) = parts.next() {
        let trace = with_line_ends(alloc, trace)?;
        files.add("t", trace.as_bytes())?;
    }
    match (loads, puts) {
        (Some(loads), Some(puts)) => Ok(Some(ran_failing(
            alloc, &words, &loads, &puts, &mut files,
        )?)),
        _ => Ok(None),
    }
}

/// The text of a document, with line feeds in place of backticks and carriage returns in place of `^`.
fn with_line_ends(alloc: Global, text: &str) -> Result<String, AllocError> {
    let mut whole = String::new(alloc);
    for c in text.chars() {
        whole.push(match c {
            '`' => '\n',
            '^' => '\r',
            other => other,
        })?;
    }
    Ok(whole)
}

/// What the replay of a trace does, as a row of the kind `replay` tells it.
pub fn replayed(alloc: Global, fields: &str) -> Result<Option<String>, Memory> {
    done_with(alloc, REPLAY, fields)
}

/// What a command with a document does, both files told by their texts.
fn done_with(alloc: Global, command: &str, fields: &str) -> Result<Option<String>, Memory> {
    let Some((source, document)) = fields.split_once('~') else {
        return Ok(None);
    };
    let source = with_line_feeds(alloc, source)?;
    let document = with_line_ends(alloc, document)?;
    Ok(Some(done_over(alloc, command, source.as_bytes(), document.as_bytes())?))
}

/// What the replay of a trace does that is told by its front, a part, how often it is repeated, and the back.
fn replayed_long(alloc: Global, fields: &str) -> Result<Option<String>, Memory> {
    let Some((source, document)) = fields.split_once('~') else {
        return Ok(None);
    };
    let source = with_line_feeds(alloc, source)?;
    let text = repeated(alloc, document)?;
    let document = with_line_ends(alloc, text.as_str())?;
    Ok(Some(done_over(alloc, REPLAY, source.as_bytes(), document.as_bytes())?))
}

/// What is done with these bytes of a document under `t` and these of a source under `f`, where nothing fails.
fn done_over(
    alloc: Global,
    command: &str,
    source: &[u8],
    document: &[u8],
) -> Result<String, Memory> {
    let words = words_of(alloc, command)?;
    let mut files = files_of(alloc, source)?;
    files.add("t", document)?;
    ran_failing(alloc, &words, &[], &[], &mut files)
}

/// What the check or the replay of what `prove` shows of these bytes of a source does. Of a trace it is told besides where its replay
/// says Falsified at its last instant.
fn found_again(alloc: Global, source: &[u8]) -> Result<String, Memory> {
    let words = words_of(alloc, PROVE)?;
    let mut files = files_of(alloc, source)?;
    let mut out = MemorySink::new(alloc);
    let outcome = run_in_memory(alloc, &words, &mut files, &mut out);
    match &outcome.report {
        Report::Safe(_) => done_over(alloc, CHECK, source, out.bytes()),
        Report::Violated(trace) => {
            let answer = done_over(alloc, REPLAY, source, out.bytes())?;
            told_last(alloc, answer, trace.instants.len())
        }
        _ => done_over(alloc, REPLAY, source, out.bytes()),
    }
}

/// The answer on a trace of so many instants, with a word more where it is Falsified at the last of them.
fn told_last(alloc: Global, answer: String, instants: usize) -> Result<String, Memory> {
    let last = instants.saturating_sub(1);
    let wanted = format!(in alloc; "falsified whole 0 reaver,falsified,{last}`")?;
    let mut text = answer;
    if text.as_bytes() == wanted.as_bytes() {
        text.push_str("last")?;
    }
    Ok(text)
}

/// What the check of what `prove` shows of a source does where a record is changed, for each of the changes.
fn checked_changed(alloc: Global, fields: &str) -> Result<Option<String>, Memory> {
    let mut parts = fields.split('~');
    let source = with_line_feeds(alloc, parts.next().unwrap_or(""))?;
    let words = words_of(alloc, PROVE)?;
    let mut files = files_of(alloc, source.as_bytes())?;
    let mut out = MemorySink::new(alloc);
    run_in_memory(alloc, &words, &mut files, &mut out);
    let Ok(shown) = from_utf8(out.bytes()) else {
        return Ok(None);
    };
    let mut answers = String::new(alloc);
    for change in parts {
        let document = with_change(alloc, shown, change)?;
        let answer = done_over(alloc, CHECK, source.as_bytes(), document.as_bytes())?;
        answers.push_str(answer.as_str())?;
    }
    Ok(Some(answers))
}

/// A document in which what a change says stands in place of the record that it numbers. The records are numbered from 0. Where a change says
/// nothing, the record is dropped.
fn with_change(alloc: Global, shown: &str, change: &str) -> Result<String, AllocError> {
    let (number, record) = change.split_once('=').unwrap_or(("", ""));
    let record = with_line_ends(alloc, record)?;
    let number = number.parse::<usize>().unwrap_or(0);
    let mut whole = String::new(alloc);
    for (place, line) in shown.split_inclusive('\n').enumerate() {
        whole.push_str(if place == number {
            record.as_str()
        } else {
            line
        })?;
    }
    Ok(whole)
}

/// Files that hold these bytes under `f`.
fn files_of(alloc: Global, source: &[u8]) -> Result<MemoryFiles, Memory> {
    let mut files = MemoryFiles::new(alloc);
    files.add("f", b"replaced by what follows")?;
    files.add("f", source)?;
    Ok(files)
}

/// What is done with these bytes under `f`, where nothing fails.
fn proved(alloc: Global, source: &[u8]) -> Result<String, Memory> {
    let words = words_of(alloc, PROVE)?;
    let mut files = files_of(alloc, source)?;
    ran_failing(alloc, &words, &[], &[], &mut files)
}

/// What is done with these words over these files, where the loads and puts with these numbers fail.
fn ran_failing(
    alloc: Global,
    words: &Vec<String>,
    loads: &[u32],
    puts: &[u32],
    files: &mut MemoryFiles,
) -> Result<String, Memory> {
    files.fail_calls(loads)?;
    let mut out = MemorySink::new(alloc);
    out.fail_calls(puts)?;
    let outcome = run_in_memory(alloc, words, files, &mut out);
    outcome_text(alloc, &outcome, out.bytes())
}

/// What is done with these words over an empty file `f`, where nothing fails, and what is shown told by its length and its sums.
fn weighed(alloc: Global, words: &str) -> Result<String, Memory> {
    let words = words_of(alloc, words)?;
    let mut files = files_of(alloc, b"")?;
    let mut out = MemorySink::new(alloc);
    let outcome = run_in_memory(alloc, &words, &mut files, &mut out);
    let (first, second) = sums_of(out.bytes());
    let length = out.bytes().len();
    let mut text = outcome_text(alloc, &outcome, b"")?;
    text.push_str(format!(in alloc; "{length} {first} {second}")?.as_str())?;
    Ok(text)
}

/// The two sums of Adler's checksum.
fn sums_of(bytes: &[u8]) -> (u32, u32) {
    let mut first: u32 = 1;
    let mut second: u32 = 0;
    for byte in bytes {
        first = first.wrapping_add(u32::from(*byte)) % 65_521;
        second = second.wrapping_add(first) % 65_521;
    }
    (first, second)
}

/// Over files in memory Safe means that what they hold has runs, each of which is safe, and a fresh sink is given one piece.
fn run_in_memory(
    alloc: Global,
    words: &Vec<String>,
    files: &mut MemoryFiles,
    out: &mut MemorySink,
) -> Outcome
    requires { memory_sink.calls_of out.old ≡ 0 }
    ensures safe { (c : Certificate) → result.report ≡ Report.Safe c
        → OnFile (Some (memory_files.held_by files.old)) (wanted (texts words.now.items)) (OnProgram (WithRuns IsSafe)) }
    ensures one_put { (result.sent ≡ Sent.Whole) ⊎ (result.sent ≡ Sent.Failed) → memory_sink.calls_of out.new ≡ 1 }
{
    run(alloc, words, files, out)
}

/// What is reported, whether it was shown, the status, and what was shown.
fn outcome_text(alloc: Global, outcome: &Outcome, shown: &[u8]) -> Result<String, Memory> {
    let report = report_name(&outcome.report);
    let sent = match outcome.sent {
        Sent::Whole => "whole",
        Sent::Failed => "failed",
        Sent::Memory => "memory",
    };
    let status = outcome.status;
    let mut text = format!(in alloc; "{report} {sent} {status} ")?;
    add_bytes(shown, &mut text)?;
    Ok(text)
}

fn report_name(report: &Report) -> &'static str {
    match report {
        Report::Safe(_) => "safe",
        Report::Violated(_) => "violated",
        Report::Unknown(_) => "unknown",
        Report::Nodes(_) => "nodes",
        Report::Accepted => "accepted",
        Report::Rejected(_) => "rejected",
        Report::Falsified(_) => "falsified",
        Report::AssertionFails(_, _) => "assertion",
        Report::NeverFalse => "neverfalse",
        Report::Outgrown(_, _) => "outgrown",
        Report::Made(_) => "made",
        Report::Toured { .. } => "toured",
        Report::BadFile(_) => "badfile",
        Report::Refused(_) => "refused",
        Report::TooLong(_) => "toolong",
        Report::ReadFault => "readfault",
        Report::Usage => "usage",
        Report::Memory => "memory",
    }
}

/// What is done over files and a sink that never fail.
fn ran_surely(alloc: Global, source: &str) -> Result<Option<String>, Memory> {
    let words = words_of(alloc, PROVE)?;
    let Some(Command::Prove(asked)) = read_words(alloc, words.as_slice())? else {
        return Ok(None);
    };
    let mut files = SureFiles::new(alloc);
    files.add(asked.file, source.as_bytes())?;
    let mut out = SureSink::new(alloc);
    let outcome = run_surely(alloc, &words, &mut files, &mut out);
    Ok(Some(outcome_text(alloc, &outcome, out.bytes())?))
}

/// Where nothing can fail, no fault is answered.
fn run_surely(
    alloc: Global,
    words: &Vec<String>,
    files: &mut SureFiles,
    out: &mut SureSink,
) -> Outcome
    requires { (name : List ℕ) → IsNamed (wanted (texts words.now.items)) name → IsTrue (contains_key (held_by files.old) name) }
    ensures reads { result.report ≢ Report.ReadFault }
    ensures writes { result.sent ≢ Sent.Failed }
{
    run(alloc, words, files, out)
}
