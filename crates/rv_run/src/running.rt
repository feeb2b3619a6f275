//! The top call: from the words to the report, which is shown.

ghost use Rattle.std.specs.Prelude.{◌≡◌, ◌+◌, ◌<◌, ◌≤◌, ◌⊎◌, IsTrue, List, length, ℕ, codes, false, None, Some};
ghost use Rattle.std.specs.Io.KnownBytes.{Appends, Keeps};
ghost use Rattle.rv_base.specs.Causes.{Rose, raised};
ghost use Rattle.rv_base.specs.Shelf.{HoldsUnder};
ghost use Rattle.rv_base.specs.Shown.{AppendsPrefix};
ghost use Rattle.rv_base.specs.declared.value.Place.{Place as PlaceModel};
ghost use Rattle.rv_base.specs.declared.value.Trace.{Trace as TraceModel};
ghost use Rattle.rv_invfile.specs.declared.fault.FileFault.{FileFault};
ghost use Rattle.rv_meaning.specs.Runs.{IsSafe};
ghost use Rattle.rv_proofs.specs.declared.certificate.Certificate.{Certificate as CertificateModel};
ghost use Rattle.rv_proofs.specs.declared.report.LeftReport.{LeftReport as LeftModel};
ghost use Rattle.rv_walk.specs.Plain.{ArePlain};
ghost use Rattle.rv_replay.specs.Replays.{FailsAt, IsFalsifiedAt, NeverEnds, OutgrowsAt};
ghost use Rattle.rv_run.specs.declared.report.Report.{Report as ReportModel};
ghost use Rattle.rv_words.specs.Words.{texts, command};
ghost use Rattle.rv_run.specs.Words.{IsNamed, wanted, wanted_on_file};
ghost use Rattle.rv_run.specs.Replies.{Replies};
ghost use Rattle.rv_run.specs.Loading.{IsBehind, IsBehindSource, IsOneAtMost, IsRefusedSource, LoadsInOrder};
ghost use Rattle.rv_make.specs.Made.{made_text};
ghost use Rattle.rv_run.specs.Answers.{OnFile, OnDocument, OnSource, Tells, IsTold, IsToldDocument, IsVerdict, IsNodesReport, IsTouredReport, IsShown};
ghost use Rattle.rv_run.specs.Answers.{IsUnlessCutOff, IsJudgedUnlessLimited, IsUnlessLimited, IsSafeUnlessCutOff, IsViolatedUnlessCutOff};
ghost use Rattle.rv_run.specs.Answers.{IsViolatedUnlessUnread, IsRefusalUnlessCutOff};
ghost use Rattle.rv_run.specs.Checked.{HasAccepted, HasRejected, IsAnswerOf, IsDocumentAnswer, IsDocumentReport, IsInvariantFault, IsReportOf, IsUnlessCut};
ghost use Rattle.rv_run.specs.Checked.{IsUnlessLimit, SaysOf};
ghost use Rattle.rv_run.specs.Programs.{OnProgram, WithRuns, HasGoodClaim, IsSafeControl, IsUnsafeControl, HasManyVariables, HasProbe, LacksProbe, IsCertified};
ghost use Rattle.rv_run.specs.Programs.{IsProgram, IsUnknown, IsRefusedFor};
ghost use Rattle.rv_run.specs.Traced.{IsFileFault, IsLongDocument, IsUnlessNoMemory, OnAccepted, OnTrace};
ghost use Rattle.rv_run.specs.Printed.{is_documented, shown_of, status_of};
ghost use Rattle.rv_run.specs.Verdicts.{HasOrigin};
ghost use Rattle.rv_run.specs.declared.words.Task.{Task as TaskModel};
ghost use Rattle.rv_run.specs.declared.words.Task.TheVariants as tasks;
ghost use Rattle.rv_proofs.specs.declared.verdict.Reason.{Reason as ReasonModel};
ghost use Rattle.rv_tree.specs.Tree.{program_tree};
ghost use Rattle.rv_tree.specs.Words.{HasPlainNames};
ghost use Rattle.rv_types.specs.Instances.{name_at};
ghost use Rattle.rv_falsify.specs.Falsifying.{IsFalsifying};
ghost use Rattle.rv_source.specs.declared.fault.SourceFault.{SourceFault};

use crate::inspect::report_on_invariant;
use crate::load::{WholeFault, load_whole};
use crate::made::{report_on_make, report_on_tour};
use crate::prove::{refusal, report_on_source};
use crate::report::{Answer, Outcome, Report, Sent, status, text};
use crate::retrace::{FILE_LIMIT, report_on_trace};
use crate::words::{Beside, FileCommand, Request, Task, read_request};
use rv_base::{Files, PutFault, Sink};
use rv_instances::Source;
use rv_make::made_texts_are_short;
use rv_meaning::{one_run, some_run};
use rv_source::read_source;
use rv_syntax::{SOURCE_LIMIT, one_tree, plain_names};
use rv_types::well_formed_programs;
use std::alloc::Global;

/// The report on what is done with the document in a file over a source. Refused as for `prove`; otherwise the file is loaded, and what its
/// bytes are and do is told.
fn report_on_document<F: Files>(
    alloc: Global,
    bytes: &[u8],
    node: &str,
    nodes: u32,
    other: Beside,
    files: &mut F,
) -> Report
    requires short { length bytes.now ≤ SOURCE_LIMIT }
    requires limit { nodes ≤ 33554432 }
    requires served { IsTrue (F.serves files.old other.file.now) }
    ensures told { (report : ReportModel) → IsDocumentAnswer report → result ≡ report
        → IsReportOf other.entry.task report × HoldsUnder (F.held files.old) other.entry.file.now
        (OnAccepted (SaysOf other.entry.task report) bytes.now node.now) }
    ensures safe { result ≡ Report.Accepted → OnProgram (WithRuns IsSafe) bytes.now node.now }
    ensures nodes { (n : ℕ) → result ≡ Report.Nodes n → (n ≡ nodes) × OnProgram (HasManyVariables nodes) bytes.now node.now }
    ensures refused { (fault : SourceFault) → result ≡ Report.Refused fault → IsRefusedFor fault bytes.now node.now }
    ensures too_long { (n : ℕ) → result ≡ Report.TooLong n
        → (n ≡ FILE_LIMIT + 1) × HoldsUnder (F.held files.old) other.entry.file.now (IsLongDocument bytes.now node.now) }
    ensures read_fault { result ≡ Report.ReadFault → Rose (F.faults files.old) (F.faults files.new) }
    ensures behind { (F.loads files.new ≡ F.loads files.old) ⊎ IsBehind bytes.now node.now (F.loads files.old) (F.loads files.new) }
    ensures refused_first { (fault : SourceFault) → IsRefusedFor fault bytes.now node.now → F.loads files.new ≡ F.loads files.old }
    ensures read_fault_behind { result ≡ Report.ReadFault → IsBehind bytes.now node.now (F.loads files.old) (F.loads files.new) }
    ensures only { IsDocumentReport result }
    ensures only_told { (report : ReportModel) (document : List ℕ) → Tells (F.held files.old) other.entry.file.now document
        → OnAccepted (SaysOf other.entry.task report) bytes.now node.now document → IsUnlessCut other.entry.task report result }
    ensures only_refused { (fault : SourceFault) → IsRefusedFor fault bytes.now node.now → IsRefusalUnlessCutOff fault result }
    ensures only_too_long { (document : List ℕ) → Tells (F.held files.old) other.entry.file.now document → IsLongDocument bytes.now node.now document
        → IsUnlessCutOff (Report.TooLong (FILE_LIMIT + 1)) result }
    ensures same_held { F.held files.new ≡ F.held files.old }
    ensures same_serves { F.serves files.new ≡ F.serves files.old }
{
    one_tree();
    plain_names();
    well_formed_programs();
    one_run();
    some_run();
    let source = match read_source(alloc, bytes, node) {
        Ok(source) => source,
        Err(fault) => return refusal(fault),
    };
    match load_whole(alloc, files, other.file, FILE_LIMIT as u64) {
        Ok(document) => report_on_bytes(alloc, &source, &document, nodes, other.task),
        Err(WholeFault::TooLong(count)) => Report::TooLong(count),
        Err(WholeFault::Failed) => Report::ReadFault,
        Err(WholeFault::Memory) => Report::Memory,
    }
}

/// The report on the bytes of a document over an accepted source.
fn report_on_bytes(
    alloc: Global,
    source: &Source,
    document: &[u8],
    nodes: u32,
    task: Task,
) -> Report
    requires limit { nodes ≤ 33554432 }
    requires plain { HasPlainNames (program_tree source.now.program) }
    requires short { length document.now ≤ FILE_LIMIT }
    ensures says { (report : ReportModel) → IsReportOf task report → result ≡ report
        → SaysOf task report document.now (program_tree source.now.program) (name_at (program_tree source.now.program) source.now.typed.main) }
    ensures safe { result ≡ Report.Accepted → IsSafe (program_tree source.now.program) (name_at (program_tree source.now.program) source.now.typed.main) }
    ensures wide { (n : ℕ) → result ≡ Report.Nodes n → (n ≡ nodes)
        × HasManyVariables nodes (program_tree source.now.program) (name_at (program_tree source.now.program) source.now.typed.main) }
    ensures only { IsAnswerOf task result }
    ensures only_says { (report : ReportModel)
        → SaysOf task report document.now (program_tree source.now.program) (name_at (program_tree source.now.program) source.now.typed.main)
        → IsUnlessLimit task report result }
{
    match task {
        Task::Replay => report_on_trace(alloc, source, document),
        Task::Check => report_on_invariant(alloc, source, document, nodes),
    }
}

/// A report without a document.
fn bare(alloc: Global, report: Report) -> Answer
    ensures { result.report ≡ report }
{
    Answer {
        report,
        document: Vec::new(alloc),
    }
}

/// The report on a command on the source in a file, and the document that is shown of it where it is Safe, Violated or Unknown.
fn report_on_file<F: Files>(alloc: Global, command: FileCommand, files: &mut F) -> Answer
    requires limit { command.nodes ≤ 33554432 }
    requires least { 1 ≤ command.locations }
    requires most { command.locations ≤ 4096 }
    requires served { (name : List ℕ) → IsNamed (wanted_on_file command) name → IsTrue (F.serves files.old name) }
    ensures replies { Replies (F.held files.old) (wanted_on_file command.entry) result.report result.document.items }
    ensures read_fault { result.report ≡ Report.ReadFault → Rose (F.faults files.old) (F.faults files.new) }
    ensures loads { LoadsInOrder (F.held files.old) (wanted_on_file command.entry) result.report (F.loads files.old) (F.loads files.new) }
    ensures usage { result.report ≡ Report.Usage → ⊥ }
    ensures same_held { F.held files.new ≡ F.held files.old }
    ensures same_serves { F.serves files.new ≡ F.serves files.old }
{
    let source = match load_whole(alloc, files, command.file, SOURCE_LIMIT as u64) {
        Ok(source) => source,
        Err(WholeFault::TooLong(count)) => return bare(alloc, Report::TooLong(count)),
        Err(WholeFault::Failed) => return bare(alloc, Report::ReadFault),
        Err(WholeFault::Memory) => return bare(alloc, Report::Memory),
    };
    match command.beside {
        None => report_on_source(
            alloc,
            &source,
            command.node,
            command.nodes,
            command.locations,
            command.accelerate,
        ),
        Some(other) => Answer {
            report: report_on_document(alloc, &source, command.node, command.nodes, other, files),
            document: Vec::new(alloc),
        },
    }
}

/// The report on the words, and the document that is shown of it where it is Safe, Violated or Unknown.
fn report_on<F: Files>(alloc: Global, words: &[String], files: &mut F) -> Answer
    requires { (name : List ℕ) → IsNamed (wanted (texts words.now)) name → IsTrue (F.serves files.old name) }
    ensures replies { Replies (F.held files.old) (wanted (texts words.now)) result.report result.document.items }
    ensures read_fault { result.report ≡ Report.ReadFault → Rose (F.faults files.old) (F.faults files.new) }
    ensures loads { LoadsInOrder (F.held files.old) (wanted (texts words.now)) result.report (F.loads files.old) (F.loads files.new) }
    ensures usage { result.report ≡ Report.Usage → command (texts words.now) ≡ None }
    ensures only_usage { command (texts words.now) ≡ None → IsUnlessNoMemory Report.Usage result.report }
    ensures same_held { F.held files.new ≡ F.held files.old }
    ensures same_serves { F.serves files.new ≡ F.serves files.old }
{
    made_texts_are_short();
    match read_request(alloc, words) {
        Ok(Some(Request::File(command))) => report_on_file(alloc, command, files),
        Ok(Some(Request::Make(n))) => bare(alloc, report_on_make(alloc, n)),
        Ok(Some(Request::Tour(n))) => bare(alloc, report_on_tour(alloc, n)),
        Ok(None) => bare(alloc, Report::Usage),
        Err(_) => bare(alloc, Report::Memory),
    }
}

/// Whether the report has a certificate, a trace or what is left, whose document is shown.
fn is_documented(report: &Report) -> bool
    ensures { result ≡ is_documented report.now }
{
    matches!(
        report,
        Report::Safe(_) | Report::Violated(_) | Report::Unknown(_)
    )
}

/// Gives bytes to one put.
fn put<S: Sink>(out: &mut S, bytes: &[u8]) -> Sent
    ensures whole { result ≡ Sent.Whole → Appends (S.shown out.old) (S.shown out.new) bytes.now }
    ensures failed { result ≡ Sent.Failed → AppendsPrefix (S.shown out.old) (S.shown out.new) bytes.now }
    ensures memory { result ≡ Sent.Memory → Keeps (S.shown out.old) (S.shown out.new) }
    ensures cause { result ≡ Sent.Failed → Rose (S.faults out.old) (S.faults out.new) }
    ensures one_put { (result ≡ Sent.Whole) ⊎ (result ≡ Sent.Failed) → S.puts out.new ≡ raised (S.puts out.old) }
    ensures no_put { result ≡ Sent.Memory → S.puts out.new ≡ S.puts out.old }
{
    match out.put(bytes) {
        Ok(()) => Sent::Whole,
        Err(PutFault::Failed) => Sent::Failed,
        Err(PutFault::Memory) => Sent::Memory,
    }
}

/// Gives the text of the report, or the document in its place, to one put.
fn show<S: Sink>(alloc: Global, answer: &Answer, out: &mut S) -> Sent
    ensures whole { result ≡ Sent.Whole → Appends (S.shown out.old) (S.shown out.new) (shown_of answer.now.report answer.now.document.items) }
    ensures failed { result ≡ Sent.Failed → AppendsPrefix (S.shown out.old) (S.shown out.new) (shown_of answer.now.report answer.now.document.items) }
    ensures memory { result ≡ Sent.Memory → Keeps (S.shown out.old) (S.shown out.new) }
    ensures cause { result ≡ Sent.Failed → Rose (S.faults out.old) (S.faults out.new) }
    ensures one_put { (result ≡ Sent.Whole) ⊎ (result ≡ Sent.Failed) → S.puts out.new ≡ raised (S.puts out.old) }
    ensures no_put { result ≡ Sent.Memory → S.puts out.new ≡ S.puts out.old }
{
    if is_documented(&answer.report) {
        return put(out, &answer.document);
    }
    let Ok(text) = text(alloc, &answer.report) else {
        return Sent::Memory;
    };
    put(out, text.as_bytes())
}

/// Does what the words ask for, and shows the text of the report, or a document in its place, by one put. The words are those of the command
/// line, the program's name first; each file that they name has to be served by the files.
///
/// `prove FILE NODE` answers Safe, Violated or Unknown on the source under FILE and its node NODE, `replay FILE NODE TRACE` what the
/// trace under TRACE does to it, and `check FILE NODE INVARIANT` whether the invariant file under INVARIANT is accepted for it. `make N`
/// answers the text of a source with N calls after one another, and `tour N` that this source is safe. The option `--nodes` says how many
/// nodes the diagrams of `prove` and `check` may have, `--locations` how many locations the partition of an Unknown report may have, and
/// `--accelerate` whether the certificate of `prove` may have loops; without it, it may.
/// Usage comes exactly where the words are none of these, as the definition of their command says, unless there is no memory to read
/// them. ReadFault comes only where the files count one more fault, and Memory where there is no memory. The first step that refuses
/// gives the report: no file is loaded where the words name none, the document only behind a source that is accepted, so a refused
/// source is told whether its document can be read or not, and ReadFault after a second load comes of an accepted source alone.
/// Beside these two, TooLong comes exactly where the source is longer than 1,048,576 bytes, or where it is accepted and the document
/// is longer than 67,108,864 bytes; Refused exactly where the source's bytes have no tree, with the fault of their first offending
/// token, or where their program breaks a rule with this main node, with its first fault of names, types and clocks, and then of
/// recursion, sizes, cycles and weights, where any cycle may be told.
///
/// Of an accepted program `prove` answers Violated wherever a probe falsifies it, with any number of nodes, and Safe, with an accepted
/// certificate, wherever some closed box claim or row claim of it is good. One without integer flows has a good claim exactly where it is
/// safe, and is else Violated, with a shortest trace that falsifies it, or with a probe where its diagrams outgrow their limit. One with
/// integer flows of which neither is so is Safe, Violated or Unknown, as a certificate or a trace is found; what is found is accepted, or
/// confirmed by its replay. Unknown has a left partition: it has as many locations as it may have, or each of its left locations has one
/// control state, which is told. The document of certificate, trace or what is left is shown in place of a text. `replay` answers
/// BadFile exactly where the trace's bytes are the document of no trace of the program, with their first fault; otherwise the first
/// instant that ends the replay decides, by Outgrown, AssertionFails or Falsified in this order, and NeverFalse comes exactly where
/// there is none. `check` answers BadFile exactly where the file's bytes are the document of no certificate of the program, with their
/// first fault; otherwise Accepted where the certificate is accepted, and Rejected with the first reason where it is not. Nodes comes
/// in place of Accepted and Rejected, and of what `prove` and `tour` answer, only where the program has many diagram variables for the
/// number of nodes that the diagrams may have, which is told, and of `prove` and `tour` only where no probe falsifies.
pub fn run<F: Files, S: Sink>(
    alloc: Global,
    words: &Vec<String>,
    files: &mut F,
    out: &mut S,
) -> Outcome
    requires { (name : List ℕ) → IsNamed (wanted (texts words.now.items)) name → IsTrue (F.serves files.old name) }
    ensures safe { (c : CertificateModel) → result.report ≡ Report.Safe c
        → OnFile (F.held files.old) (wanted (texts words.now.items)) (OnProgram (WithRuns IsSafe)) }
    ensures certified { (c : CertificateModel) → result.report ≡ Report.Safe c
        → OnFile (F.held files.old) (wanted (texts words.now.items)) (OnProgram (IsCertified c)) }
    ensures plain { (wanted (texts words.now.items)).accelerate ≡ false → (c : CertificateModel) → result.report ≡ Report.Safe c → ArePlain c }
    ensures violated { (t : TraceModel) → result.report ≡ Report.Violated t
        → OnFile (F.held files.old) (wanted (texts words.now.items)) (OnProgram (WithRuns (λ program main. IsFalsifying program main t))) }
    ensures origin { (t : TraceModel) → result.report ≡ Report.Violated t
        → OnFile (F.held files.old) (wanted (texts words.now.items)) (OnProgram (HasOrigin (wanted (texts words.now.items)).nodes t)) }
    ensures unknown { (l : LeftModel) → result.report ≡ Report.Unknown l → OnFile (F.held files.old) (wanted (texts words.now.items))
        (OnProgram (WithRuns (IsUnknown (wanted (texts words.now.items)).locations l))) }
    ensures nodes { (n : ℕ) → result.report ≡ Report.Nodes n
        → (n ≡ (wanted (texts words.now.items)).nodes) × OnSource (F.held files.old) (wanted (texts words.now.items)) (OnProgram (HasManyVariables n)) }
    ensures unprobed { (wanted (texts words.now.items)).beside ≡ None → (n : ℕ) → result.report ≡ Report.Nodes n
        → OnSource (F.held files.old) (wanted (texts words.now.items)) (OnProgram LacksProbe) }
    ensures not_too_long { IsVerdict result.report ⊎ IsNodesReport result.report
        → OnSource (F.held files.old) (wanted (texts words.now.items)) (λ bytes _. length bytes ≤ SOURCE_LIMIT) }
    ensures proved { IsVerdict result.report → (wanted (texts words.now.items)).beside ≡ None }
    ensures accepted { result.report ≡ Report.Accepted
        → OnDocument (F.held files.old) (wanted (texts words.now.items)) tasks.Check (OnAccepted HasAccepted) }
    ensures checked_safe { result.report ≡ Report.Accepted → OnFile (F.held files.old) (wanted (texts words.now.items)) (OnProgram (WithRuns IsSafe)) }
    ensures rejected { (reason : ReasonModel) → result.report ≡ Report.Rejected reason
        → OnDocument (F.held files.old) (wanted (texts words.now.items)) tasks.Check (OnAccepted (HasRejected reason)) }
    ensures falsified { (k : ℕ) → result.report ≡ Report.Falsified k
        → OnDocument (F.held files.old) (wanted (texts words.now.items)) tasks.Replay (OnAccepted (OnTrace (λ p m t. IsFalsifiedAt p m t k))) }
    ensures fails { (k : ℕ) (at : PlaceModel) → result.report ≡ Report.AssertionFails k at
        → OnDocument (F.held files.old) (wanted (texts words.now.items)) tasks.Replay (OnAccepted (OnTrace (λ p m t. FailsAt p m t k at))) }
    ensures never { result.report ≡ Report.NeverFalse
        → OnDocument (F.held files.old) (wanted (texts words.now.items)) tasks.Replay (OnAccepted (OnTrace (λ p m t. NeverEnds p m t))) }
    ensures outgrown { (k : ℕ) (at : PlaceModel) → result.report ≡ Report.Outgrown k at
        → OnDocument (F.held files.old) (wanted (texts words.now.items)) tasks.Replay (OnAccepted (OnTrace (λ p m t. OutgrowsAt p m t k at))) }
    ensures bad_file { (fault : FileFault) → result.report ≡ Report.BadFile fault
        → OnDocument (F.held files.old) (wanted (texts words.now.items)) tasks.Replay (OnAccepted (IsFileFault fault))
        ⊎ OnDocument (F.held files.old) (wanted (texts words.now.items)) tasks.Check (OnAccepted (IsInvariantFault fault)) }
    ensures refused { (fault : SourceFault) → result.report ≡ Report.Refused fault
        → OnFile (F.held files.old) (wanted (texts words.now.items)) (λ bytes node. (length bytes ≤ SOURCE_LIMIT) × IsRefusedFor fault bytes node) }
    ensures too_long { (n : ℕ) → result.report ≡ Report.TooLong n
        → ((n ≡ SOURCE_LIMIT + 1) × OnFile (F.held files.old) (wanted (texts words.now.items)) (λ bytes _. SOURCE_LIMIT < length bytes))
        ⊎ ((n ≡ FILE_LIMIT + 1) × (task : TaskModel) × OnDocument (F.held files.old) (wanted (texts words.now.items)) task IsLongDocument) }
    ensures read_fault { result.report ≡ Report.ReadFault → Rose (F.faults files.old) (F.faults files.new) }
    ensures read_fault_load { result.report ≡ Report.ReadFault → (F.loads files.new ≡ raised (F.loads files.old))
        ⊎ IsBehindSource (F.held files.old) (wanted (texts words.now.items)) (F.loads files.old) (F.loads files.new) }
    ensures two_loads { IsOneAtMost (F.loads files.old) (F.loads files.new)
        ⊎ IsBehindSource (F.held files.old) (wanted (texts words.now.items)) (F.loads files.old) (F.loads files.new) }
    ensures no_load { (wanted (texts words.now.items)).named ≡ None → F.loads files.new ≡ F.loads files.old }
    ensures one_load { (wanted (texts words.now.items)).beside ≡ None → IsOneAtMost (F.loads files.old) (F.loads files.new) }
    ensures refused_load { (fault : SourceFault) → result.report ≡ Report.Refused fault → F.loads files.new ≡ raised (F.loads files.old) }
    ensures too_long_load { result.report ≡ Report.TooLong (SOURCE_LIMIT + 1) → F.loads files.new ≡ raised (F.loads files.old) }
    ensures only_refused_load { (fault : SourceFault) → IsTold (F.held files.old) (wanted (texts words.now.items)) (IsRefusedSource fault)
        → IsOneAtMost (F.loads files.old) (F.loads files.new) }
    ensures only_too_long_load { IsTold (F.held files.old) (wanted (texts words.now.items)) (λ bytes _. SOURCE_LIMIT < length bytes)
        → IsOneAtMost (F.loads files.old) (F.loads files.new) }
    ensures made { (source : List ℕ) → result.report ≡ Report.Made source
        → (n : ℕ) × ((wanted (texts words.now.items)).made ≡ Some n) × (source ≡ made_text n) }
    ensures toured { (n size : ℕ) (c : CertificateModel) → result.report ≡ Report.Toured n size c
        → ((wanted (texts words.now.items)).toured ≡ Some n) × (size ≡ length (made_text n)) }
    ensures toured_safe { (n size : ℕ) (c : CertificateModel) → result.report ≡ Report.Toured n size c
        → OnProgram (WithRuns IsSafe) (made_text n) (codes "main") }
    ensures toured_certified { (n size : ℕ) (c : CertificateModel) → result.report ≡ Report.Toured n size c
        → OnProgram (IsCertified c) (made_text n) (codes "main") }
    ensures usage { result.report ≡ Report.Usage → command (texts words.now.items) ≡ None }
    ensures only_usage { command (texts words.now.items) ≡ None → IsUnlessNoMemory Report.Usage result.report }
    ensures only_made { (n : ℕ) → (wanted (texts words.now.items)).made ≡ Some n → IsUnlessNoMemory (Report.Made (made_text n)) result.report }
    ensures only_toured { (n : ℕ) → (wanted (texts words.now.items)).toured ≡ Some n
        → IsTouredReport result.report ⊎ (IsNodesReport result.report ⊎ (result.report ≡ Report.Memory)) }
    ensures only_safe { (wanted (texts words.now.items)).beside ≡ None
        → IsTold (F.held files.old) (wanted (texts words.now.items)) (λ bytes node. (length bytes ≤ SOURCE_LIMIT) × OnProgram IsSafeControl bytes node)
        → IsSafeUnlessCutOff result.report }
    ensures only_violated { (wanted (texts words.now.items)).beside ≡ None
        → IsTold (F.held files.old) (wanted (texts words.now.items)) (λ bytes node. (length bytes ≤ SOURCE_LIMIT) × OnProgram IsUnsafeControl bytes node)
        → IsViolatedUnlessCutOff result.report }
    ensures only_probed { (wanted (texts words.now.items)).beside ≡ None
        → IsTold (F.held files.old) (wanted (texts words.now.items)) (λ bytes node. (length bytes ≤ SOURCE_LIMIT) × OnProgram HasProbe bytes node)
        → IsViolatedUnlessUnread result.report }
    ensures only_claimed { (wanted (texts words.now.items)).beside ≡ None
        → IsTold (F.held files.old) (wanted (texts words.now.items)) (λ bytes node. (length bytes ≤ SOURCE_LIMIT) × OnProgram HasGoodClaim bytes node)
        → IsSafeUnlessCutOff result.report }
    ensures only_judged { (wanted (texts words.now.items)).beside ≡ None
        → IsTold (F.held files.old) (wanted (texts words.now.items)) (λ bytes node. (length bytes ≤ SOURCE_LIMIT) × OnProgram IsProgram bytes node)
        → IsJudgedUnlessLimited result.report }
    ensures only_falsified { (k : ℕ) → IsToldDocument (F.held files.old) (wanted (texts words.now.items)) tasks.Replay
        (OnAccepted (OnTrace (λ p m t. IsFalsifiedAt p m t k)))
        → IsUnlessCutOff (Report.Falsified k) result.report }
    ensures only_fails { (k : ℕ) (at : PlaceModel) → IsToldDocument (F.held files.old) (wanted (texts words.now.items)) tasks.Replay
        (OnAccepted (OnTrace (λ p m t. FailsAt p m t k at)))
        → IsUnlessCutOff (Report.AssertionFails k at) result.report }
    ensures only_never { IsToldDocument (F.held files.old) (wanted (texts words.now.items)) tasks.Replay (OnAccepted (OnTrace (λ p m t. NeverEnds p m t)))
        → IsUnlessCutOff Report.NeverFalse result.report }
    ensures only_outgrown { (k : ℕ) (at : PlaceModel) → IsToldDocument (F.held files.old) (wanted (texts words.now.items)) tasks.Replay
        (OnAccepted (OnTrace (λ p m t. OutgrowsAt p m t k at)))
        → IsUnlessCutOff (Report.Outgrown k at) result.report }
    ensures only_bad_file { (fault : FileFault) → IsToldDocument (F.held files.old) (wanted (texts words.now.items)) tasks.Replay
        (OnAccepted (IsFileFault fault))
        → IsUnlessCutOff (Report.BadFile fault) result.report }
    ensures only_accepted { IsToldDocument (F.held files.old) (wanted (texts words.now.items)) tasks.Check (OnAccepted HasAccepted)
        → IsUnlessLimited Report.Accepted result.report }
    ensures only_rejected { (reason : ReasonModel)
        → IsToldDocument (F.held files.old) (wanted (texts words.now.items)) tasks.Check (OnAccepted (HasRejected reason))
        → IsUnlessLimited (Report.Rejected reason) result.report }
    ensures only_bad_invariant { (fault : FileFault)
        → IsToldDocument (F.held files.old) (wanted (texts words.now.items)) tasks.Check (OnAccepted (IsInvariantFault fault))
        → IsUnlessCutOff (Report.BadFile fault) result.report }
    ensures only_refused { (fault : SourceFault) → IsTold (F.held files.old) (wanted (texts words.now.items))
        (λ bytes node. (length bytes ≤ SOURCE_LIMIT) × IsRefusedFor fault bytes node)
        → IsRefusalUnlessCutOff fault result.report }
    ensures only_too_long { IsTold (F.held files.old) (wanted (texts words.now.items)) (λ bytes _. SOURCE_LIMIT < length bytes)
        → IsUnlessCutOff (Report.TooLong (SOURCE_LIMIT + 1)) result.report }
    ensures only_long_document { (task : TaskModel) → IsToldDocument (F.held files.old) (wanted (texts words.now.items)) task IsLongDocument
        → IsUnlessCutOff (Report.TooLong (FILE_LIMIT + 1)) result.report }
    ensures same_held { F.held files.new ≡ F.held files.old }
    ensures same_serves { F.serves files.new ≡ F.serves files.old }

    ensures shown_whole { result.sent ≡ Sent.Whole
        → (shown : List ℕ) × IsShown (F.held files.old) (wanted (texts words.now.items)) result.report shown × Appends (S.shown out.old)
        (S.shown out.new) shown }
    ensures shown_prefix { result.sent ≡ Sent.Failed
        → (shown : List ℕ) × IsShown (F.held files.old) (wanted (texts words.now.items)) result.report shown × AppendsPrefix (S.shown out.old)
        (S.shown out.new) shown }
    ensures shown_nothing { result.sent ≡ Sent.Memory → Keeps (S.shown out.old) (S.shown out.new) }
    ensures write_fault { result.sent ≡ Sent.Failed → Rose (S.faults out.old) (S.faults out.new) }
    ensures one_put { (result.sent ≡ Sent.Whole) ⊎ (result.sent ≡ Sent.Failed) → S.puts out.new ≡ raised (S.puts out.old) }
    ensures no_put { result.sent ≡ Sent.Memory → S.puts out.new ≡ S.puts out.old }
    ensures status { result.status ≡ status_of result.report result.sent }
{
    let answer = report_on(alloc, words.as_slice(), files);
    let sent = show(alloc, &answer, out);
    let Answer { report, .. } = answer;
    let status = status(&report, sent);
    Outcome {
        report,
        sent,
        status,
    }
}
