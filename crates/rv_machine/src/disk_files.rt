//! The files of the machine.

ghost use Rattle.std.specs.Prelude.{◌≤◌, ◌+◌, true, None, IfOk, vec_len};

use rv_base::{Files, LoadFault};
use std::alloc::Global;
use std::io::{ErrorKind, Read};
use std::{fs, io, rt};

/// The files of the machine, by path. They do not tell what they hold, serve every name, and count the loads and those of
/// them that failed.
#[derive(Drop)]
pub struct DiskFiles<'a, R> {
    rt: &'a R,
    faults: u64,
    loads: u64,
}

impl<'a, R: rt::Files> DiskFiles<'a, R> {
    /// The files of this machine, with nothing counted.
    pub fn new(rt: &'a R) -> Self {
        DiskFiles {
            rt,
            faults: 0,
            loads: 0,
        }
    }
}

impl<R: rt::Files> Files for DiskFiles<'_, R> {
    ghost held = { λ _. None };

    ghost faults = { λ files. files.faults };

    ghost loads = { λ files. files.loads };

    ghost serves = { λ _ _. true };

    fn load(&mut self, alloc: Global, name: &str, limit: u64) -> Result<Vec<u8>, LoadFault> {
        let result = read_file(self.rt, alloc, name, limit);
        match &result {
            Ok(_) => self.loads = self.loads.saturating_add(1),
            Err(LoadFault::Failed) => {
                self.loads = self.loads.saturating_add(1);
                self.faults = self.faults.saturating_add(1);
            }
            Err(LoadFault::Memory) => {}
        }
        result
    }
}

/// The bytes of a file, at most `limit + 1`.
fn read_file<R: rt::Files>(
    rt: &R,
    alloc: Global,
    name: &str,
    limit: u64,
) -> Result<Vec<u8>, LoadFault>
    ensures { IfOk result (λ bytes. vec_len bytes ≤ limit + 1) }
{
    match fs::open(rt, name) {
        Ok(file) => read_some(file, alloc, limit),
        Err(error) => Err(fault_of(&error)),
    }
}

/// Want of memory is told apart from a failure of the machine.
fn fault_of(error: &io::Error) -> LoadFault {
    if error.kind() == ErrorKind::OutOfMemory {
        LoadFault::Memory
    } else {
        LoadFault::Failed
    }
}

/// Reads to the end, or until there is a byte more than the limit.
fn read_some<T: Read + Drop>(reader: T, alloc: Global, limit: u64) -> Result<Vec<u8>, LoadFault>
    ensures { IfOk result (λ bytes. vec_len bytes ≤ limit + 1) }
{
    let most = limit.saturating_add(1);
    let mut bytes: Vec<u8> = Vec::new(alloc);
    match reader.take(most).read_to_end(&mut bytes) {
        Ok(_) => {
            // What bounds the answer, whatever the reader does.
            bytes.truncate(most as usize);
            Ok(bytes)
        }
        Err(error) => Err(fault_of(&error)),
    }
}

#[cfg(test)]
mod tests {
    use super::*;
    use std::test::Fail;

    #[test]
    fn reads_a_file(rt: HostRuntime) -> Result<(), Fail> {
        let mut all = Vec::new(rt.alloc());
        for number in 0u32..10_000 {
            all.push((number % 251) as u8)?;
        }
        fs::write(&rt, "ten_thousand", all.as_slice())?;
        let mut files = DiskFiles::new(&rt);
        for (limit, length) in [
            (0, 1),
            (4095, 4096),
            (4096, 4097),
            (9_999, 10_000),
            (10_000, 10_000),
            (u64::MAX, 10_000),
        ] {
            match files.load(rt.alloc(), "ten_thousand", limit) {
                Ok(bytes) => {
                    assert_eq!(rt; bytes.len(), length, "at {limit}");
                    let mut pairs = bytes.iter().zip(all.iter());
                    assert!(rt; pairs.all(|(read, written)| read == written), "at {limit}");
                }
                Err(_) => assert!(rt; false, "at {limit}"),
            }
        }
        assert_eq!(rt; files.faults, 0);
        assert_eq!(rt;
            files.load(rt.alloc(), "absent", 9).err(),
            Some(LoadFault::Failed)
        );
        assert_eq!(rt;
            files.load(rt.alloc(), ".", 9).err(),
            Some(LoadFault::Failed)
        );
        assert_eq!(rt; files.faults, 2);
        assert_eq!(rt; files.loads, 8);
        Ok(())
    }

    /// A reader whose reads answer in turn as they are told, with so many bytes at most or a failure, and which is then
    /// at its end. Its bytes are `a`, `b` and so on.
    #[derive(Drop)]
    struct Told<'a> {
        answers: &'a [Result<usize, ErrorKind>],
        next: u8,
    }

    impl Read for Told<'_> {
        fn read(&mut self, buf: &mut [u8]) -> io::Result<usize> {
            let Some((answer, answers)) = self.answers.split_first() else {
                return Ok(0);
            };
            self.answers = answers;
            match answer {
                Ok(count) => {
                    let count = buf.len().min(*count);
                    for byte in &mut buf[..count] {
                        *byte = self.next;
                        self.next = self.next.wrapping_add(1);
                    }
                    Ok(count)
                }
                Err(kind) => Err(io::Error::from(*kind)),
            }
        }
    }

    #[test]
    fn reads_until_a_read_fails(rt: HostRuntime) {
        let failed = Err(LoadFault::Failed);
        for (answers, limit, read) in [
            ([].as_slice(), 9, Ok("")),
            (&[Ok(1), Ok(1), Ok(1)], 9, Ok("abc")),
            (&[Ok(2), Err(ErrorKind::Interrupted), Ok(2)], 9, Ok("abcd")),
            (&[Ok(2), Err(ErrorKind::BrokenPipe), Ok(2)], 9, failed),
            (
                &[Ok(2), Err(ErrorKind::OutOfMemory)],
                9,
                Err(LoadFault::Memory),
            ),
            (&[Ok(2), Ok(2), Err(ErrorKind::BrokenPipe)], 2, Ok("abc")),
        ] {
            let found = read_some(
                Told {
                    answers,
                    next: b'a',
                },
                rt.alloc(),
                limit,
            );
            match (found, read) {
                (Ok(bytes), Ok(text)) => assert_eq!(rt; bytes.as_slice(), text.as_bytes()),
                (found, read) => assert_eq!(rt; found.err(), read.err()),
            }
        }
    }
}
