//! What the entries of a location go by.

ghost use Rattle.std.specs.Prelude.{◌≡◌, ◌&&◌, not};
ghost use Rattle.rv_invariant.specs.Certificates as spec;
ghost use Rattle.rv_invariant.specs.Outlines.{takes_turn};

use crate::fronts::{Front, has_turned};
use rv_proofs::{Entry, EntryKind};

/// How many rows the lists of a location have, and whether a turn of a loop may stand there.
#[derive(Clone, Copy)]
pub struct Outline {
    /// The rows of `entry`.
    pub entry: u64,
    /// The rows of `first`.
    pub first: u64,
    /// The rows of `around`.
    pub around: u64,
    /// The rows of `state`.
    pub state: u64,
    /// Whether a turn may stand there.
    pub turns: bool,
}

/// Which kinds of entries are awaited.
#[derive(Clone, Copy)]
pub enum Kinds {
    /// A step or a dead entry.
    Plain,
    /// Those, and a turn of a loop.
    Any,
    /// A turn of a loop alone.
    Turn,
}

/// What the entries of the location with this front go by.
pub fn outline_of(front: &Front) -> Outline
    ensures { result ≡ spec.outline front.now }
{
    let entry = front.lists.entry.len() as u64;
    let first = front.lists.first.len() as u64;
    let around = front.lists.around.len() as u64;
    let state = front.lists.state.len() as u64;
    let turns = front.by_first.len() == front.lists.state.len();
    Outline {
        entry,
        first,
        around,
        state,
        turns,
    }
}

/// Whether the location with this front must have a turn of a loop.
pub fn needs_turn(front: &Front) -> bool
    ensures { result ≡ spec.needs_turn front.now }
{
    has_turned(&front.lists) || 0 < front.by_first.len()
}

/// Whether a turn is needed after this entry, where it was before it.
pub fn needs_after(needed: bool, entry: &Entry) -> bool
    ensures { result ≡ (needed && not (spec.is_turn entry.now)) }
{
    needed && !is_turn(entry)
}

/// Whether the entry is a turn of a loop.
fn is_turn(entry: &Entry) -> bool
    ensures { result ≡ spec.is_turn entry.now }
{
    match &entry.kind {
        EntryKind::Loop { .. } => true,
        _ => false,
    }
}

/// Which kinds are awaited where so many entries follow.
pub fn kinds_at(turns: bool, needed: bool, left: u64) -> Kinds
    ensures { result ≡ spec.kinds_at turns needed left }
{
    if !turns {
        Kinds::Plain
    } else if needed && left == 0 {
        Kinds::Turn
    } else {
        Kinds::Any
    }
}

/// Whether a turn is read, by whether its record stands next.
pub fn takes(kinds: Kinds, here: bool) -> bool
    ensures { result ≡ takes_turn kinds here }
{
    match kinds {
        Kinds::Plain => false,
        Kinds::Any => here,
        Kinds::Turn => true,
    }
}
