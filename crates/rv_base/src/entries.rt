//! Named bytes in memory, the newest first.

ghost use Rattle.std.specs.Prelude.{◌≡◌, ◌+◌, take, IfOk, OnOk, OnErr, MatchBool, Contains, option_map};
ghost use Rattle.std.specs.FinMap.{get, insert};

use crate::Memory;
use std::alloc::Global;

/// One file: its name and its bytes.
#[derive(Drop)]
pub struct Entry {
    pub name: String,
    pub bytes: Vec<u8>,
}

ghost use Rattle.rv_base.specs.Entries.{shelf_of};

/// Puts an entry in front.
pub fn add_entry(
    alloc: Global,
    entries: &mut Vec<Entry>,
    name: &str,
    bytes: &[u8],
) -> Result<(), Memory>
    ensures ok { OnOk result (shelf_of entries.new.items ≡ insert (shelf_of entries.old.items) name.now bytes.now) }
    ensures err { OnErr result (entries.new.items ≡ entries.old.items) }
{
    let name = String::from_str(alloc, name)?;
    let bytes = bytes.to_vec(alloc)?;
    entries.insert(0, Entry { name, bytes })?;
    Ok(())
}

/// The bytes of the newest entry of this name.
pub fn find_bytes<'a>(entries: &'a [Entry], name: &str) -> Option<&'a [u8]>
    ensures { option_map (λ bytes. bytes.now) result ≡ get (shelf_of entries.now) name.now }
{
    for entry in entries {
        if entry.name.as_str() == name {
            return Some(entry.bytes.as_slice());
        }
    }
    None
}

/// A copy of the first `limit + 1` bytes.
pub fn copy_front(alloc: Global, bytes: &[u8], limit: u64) -> Result<Vec<u8>, Memory>
    ensures { IfOk result (λ front. front.items ≡ take (limit + 1) bytes.now) }
{
    let front = if limit < bytes.len() as u64 {
        &bytes[..limit as usize + 1]
    } else {
        bytes
    };
    Ok(front.to_vec(alloc)?)
}

/// Whether the call with this number is to fail.
pub fn is_failing(failing: &[u32], call: u64) -> bool
    ensures { MatchBool result (Contains failing.now call) (¬ Contains failing.now call) }
{
    failing.iter().any(|number| u64::from(*number) == call)
}
