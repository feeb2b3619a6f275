//! The words of the command line, and the status of an end without them.

ghost use Rattle.std.specs.Prelude.{◌≡◌, ◌≢◌, ◌⊎◌, ◌↔◌, IfErr, IfOk, IsErrAnd, IsErrOf, IsOkAnd};
ghost use Rattle.std.specs.IoError.{error_kind};
ghost use Rattle.std.specs.Process.{exit_status};
ghost use Rattle.std.specs.Vec.Iter.{into_iter_items};
ghost use Rattle.rv_run.specs.Printed.{report_status};
ghost use Rattle.rv_run.specs.declared.report.Report.TheVariants as report;

use rv_run::{Report, status_of_report};
use std::alloc::Global;
use std::env::{Args, args};
use std::io;
use std::io::ErrorKind;
use std::process::ExitCode;
use std::rt::Env;

/// The words of the command line, the program's own name first. Otherwise the report that the program ends on without printing
/// it: that on wrong words where the machine does not give them as texts, that on want of memory where there is none for them.
pub fn words<R: AllocGlobal + Env>(rt: &R) -> Result<Vec<String>, Report>
    ensures { IfErr result (λ r. (r ≡ report.Usage) ⊎ (r ≡ report.Memory)) }
{
    words_in(rt.alloc(), args(rt))
}

/// The words in what the library answers on the arguments of the process, all that it yields, in their order. Usage comes exactly where
/// that is an error which is not want of memory, as where one of them is no text; Memory where it is want of memory, or where there is
/// none for the words.
pub fn words_in(alloc: Global, arguments: io::Result<Args>) -> Result<Vec<String>, Report>
    ensures words { IfOk result (λ words. IsOkAnd arguments (λ given. words.items ≡ into_iter_items given)) }
    ensures usage { IsErrOf result report.Usage ↔ IsErrAnd arguments (λ error. error_kind error ≢ ErrorKind.OutOfMemory) }
    ensures memory { IsErrAnd arguments (λ error. error_kind error ≡ ErrorKind.OutOfMemory) → IsErrOf result report.Memory }
    ensures only { IfErr result (λ r. (r ≡ report.Usage) ⊎ (r ≡ report.Memory)) }
{
    let arguments = match arguments {
        Ok(arguments) => arguments,
        Err(error) if error.kind() == ErrorKind::OutOfMemory => return Err(Report::Memory),
        Err(_) => return Err(Report::Usage),
    };
    let Ok(words) = arguments.collect::<Vec<String>>(alloc) else {
        return Err(Report::Memory);
    };
    Ok(words)
}

/// The status of a report that is not shown.
pub fn ended_by(report: &Report) -> ExitCode
    ensures { exit_status result ≡ report_status report.now }
{
    ExitCode::from(status_of_report(report))
}
