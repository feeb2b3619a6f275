//! Reading turns of loops.

ghost use Rattle.std.specs.Prelude.{◌≡◌, ◌≤◌, ◌∷◌, [], codes};
ghost use Rattle.rv_invfile.specs.Forms.{fixed};
ghost use Rattle.rv_invfile.specs.Parts.{sees};
ghost use Rattle.rv_invfile.specs.Readers.{Reads, run};
ghost use Rattle.rv_invariant.specs.Certificates as spec;
ghost use Rattle.rv_invariant.specs.Outlines.{IsSmall};

use crate::counts::Shape;
use crate::diagrams::read_diagram;
use crate::multipliers::read_proofs;
use crate::outlines::Outline;
use rv_base::Many;
use rv_diagram::Frozen;
use rv_invfile::{FileFault, Records, read_exactly};
use rv_proofs::{Entry, EntryKind};
use rv_rows::Multipliers;
use std::alloc::Global;

/// Whether the record of a turn stands here.
pub fn has_turn(records: &Records<'_>) -> bool
    ensures { result ≡ sees (fixed (codes "loop" ∷ []) ∷ []) records.now }
{
    records.is_word(b"loop") && records.len() == 1
}

/// So many proofs from so many rows and the tests.
fn read_part(
    alloc: Global,
    records: &mut Records<'_>,
    shape: Shape,
    rows: u64,
    count: u64,
) -> Result<Many<Multipliers>, FileFault>
    requires { rows ≤ 4294967295 }
    ensures { Reads (λ ms. ms) (run (spec.a_part shape rows count) records.old) result records.new }
{
    read_proofs(alloc, records, rows + u64::from(shape.tests), count)
}

/// The proofs of a turn with this condition: one for each row of `first`, of `around` twice, and of `state`.
fn read_parts(
    alloc: Global,
    records: &mut Records<'_>,
    shape: Shape,
    outline: Outline,
    condition: Frozen,
) -> Result<Entry, FileFault>
    requires { IsSmall outline }
    ensures { Reads (λ e. e) (run (spec.after_when shape outline condition) records.old) result records.new }
{
    let inner = outline.around + outline.state;
    let first = read_part(alloc, records, shape, outline.entry, outline.first)?;
    let before = read_part(alloc, records, shape, outline.first, outline.around)?;
    let around = read_part(alloc, records, shape, inner, outline.around)?;
    let state = read_part(alloc, records, shape, inner, outline.state)?;
    let kind = EntryKind::Loop {
        first,
        before,
        around,
        state,
    };
    Ok(Entry { condition, kind })
}

/// A turn of a loop in a location of this outline.
pub fn read_turn(
    alloc: Global,
    records: &mut Records<'_>,
    shape: Shape,
    outline: Outline,
) -> Result<Entry, FileFault>
    requires { IsSmall outline }
    ensures { Reads (λ e. e) (run (spec.whole_turn shape outline) records.old) result records.new }
{
    read_exactly(records, &[b"loop"])?;
    let condition = read_diagram(alloc, records, shape, b"when", false)?;
    read_parts(alloc, records, shape, outline, condition)
}
