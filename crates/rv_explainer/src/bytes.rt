//! The bytes of a file or of standard input.

use std::alloc::Global;
use std::io::Read;
use std::rt::Files;
use std::{fs, io};

/// What comes of reading.
#[derive(Drop)]
pub enum Bytes {
    /// All bytes.
    Whole(Vec<u8>),
    /// There are more than the limit.
    TooLong,
    /// They cannot be read.
    Failed,
}

/// The bytes of the file of this name, or of standard input where the name is `-`.
pub fn load<R: AllocGlobal + Files + Input>(rt: &R, name: &str, limit: u64) -> Bytes {
    let read = if name == "-" {
        read_some(rt.reader(), rt.alloc(), limit)
    } else {
        read_file(rt, rt.alloc(), name, limit)
    };
    match read {
        Ok(bytes) => if bytes.len() as u64 > limit {
            Bytes::TooLong
        } else {
            Bytes::Whole(bytes)
        },
        Err(_) => Bytes::Failed,
    }
}

/// The bytes of a file, or the first of them, one more than the limit.
fn read_file<R: Files>(rt: &R, alloc: Global, name: &str, limit: u64) -> io::Result<Vec<u8>> {
    read_some(fs::open(rt, name)?, alloc, limit)
}

/// Reads to the end, or until there is a byte more than the limit.
fn read_some<T: Read + Drop>(reader: T, alloc: Global, limit: u64) -> io::Result<Vec<u8>> {
    let mut bytes: Vec<u8> = Vec::new(alloc);
    let _ = reader
        .take(limit.saturating_add(1))
        .read_to_end(&mut bytes)?;
    Ok(bytes)
}
