//! From the bytes of a file to an accepted source.

ghost use Rattle.std.specs.Prelude.{◌≡◌, ◌≤◌, length, IfOk, IfErr};
ghost use Rattle.rv_base.specs.Limits.{source_limit};
ghost use Rattle.rv_tree.specs.Tree.{ProgramTree};
ghost use Rattle.rv_types.specs.declared.typed.Typed.{Typed};
ghost use Rattle.rv_source.specs.declared.fault.SourceFault.{SourceFault as FaultModel};
ghost use Rattle.rv_source.specs.Sources.{IsSource, IsSourceOf, IsSourceFault, HasSourceCause, Accepts, RefusesSource, text_refusal, name_refusal};
ghost use Rattle.rv_source.specs.Sources.{cause_refusal};

use crate::fault::SourceFault;
use rv_causality::{CauseFault, order, ordered_fits};
use rv_instances::Source;
use rv_syntax::{TextFault, one_fault, one_tree, parse};
use rv_types::{NameFault, settle, settled_or_refused};
use std::alloc::Global;

/// Reads the bytes of a source of at most 1,048,576 bytes with its main node: `parse`, `settle` and `order` in turn. `Text`,
/// `Names` and `Cause` come where these refuse it, with their fault, and `Memory` where memory runs out.
pub fn read_source(alloc: Global, bytes: &[u8], main: &str) -> Result<Source, SourceFault>
    requires { length bytes.now ≤ source_limit }
    // What is answered is the source.
    ensures found { IfOk result (IsSourceOf bytes.now main.now) }
    // A source that is accepted is answered, unless memory runs out.
    ensures only { (p : ProgramTree) (t : Typed) → IsSource bytes.now main.now p t → Accepts result }
    // A fault that is answered is the first.
    ensures refused { IfErr result (HasSourceCause bytes.now main.now) }
    // Where a fault is the first it is answered, or another cycle where it is one, unless memory runs out.
    ensures only_refused { (f : FaultModel) → IsSourceFault bytes.now main.now f → RefusesSource f result }
{
    one_tree();
    one_fault();
    settled_or_refused();
    ordered_fits();
    let program = match parse(alloc, bytes) {
        Ok(program) => program,
        Err(fault) => return Err(text_fault(fault)),
    };
    let typed = match settle(alloc, &program, main) {
        Ok(typed) => typed,
        Err(fault) => return Err(name_fault(fault)),
    };
    let order = match order(alloc, &program, &typed) {
        Ok(order) => order,
        Err(fault) => return Err(cause_fault(fault)),
    };
    Ok(Source {
        program,
        typed,
        order,
    })
}

/// The fault of a text that has no tree.
fn text_fault(fault: TextFault) -> SourceFault
    ensures { result ≡ text_refusal fault }
{
    match fault {
        TextFault::Memory => SourceFault::Memory,
        _ => SourceFault::Text(fault),
    }
}

/// The fault of a program that breaks a rule of names, types or clocks.
fn name_fault(fault: NameFault) -> SourceFault
    ensures { result ≡ name_refusal fault }
{
    match fault {
        NameFault::Memory => SourceFault::Memory,
        _ => SourceFault::Names(fault),
    }
}

/// The fault of a program that breaks a rule of recursion, sizes, cycles or weights.
fn cause_fault(fault: CauseFault) -> SourceFault
    ensures { result ≡ cause_refusal fault }
{
    match fault {
        CauseFault::Memory => SourceFault::Memory,
        _ => SourceFault::Cause(fault),
    }
}
