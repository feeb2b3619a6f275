//! Standard output.

ghost use Rattle.std.specs.Prelude.{◌≡◌, None, OnOk, OnErr, IsErrOf};
ghost use Rattle.std.specs.Io.KnownBytes.{Appends, Keeps};
ghost use Rattle.rv_base.specs.Causes.{HasCause, raised};
ghost use Rattle.rv_base.specs.Shown.{AppendsPrefix};

use rv_base::{PutFault, Sink};
use std::io;
use std::io::{ErrorKind, Write};

/// Standard output. It does not tell what it showed, and counts its failures and the pieces that it was given.
#[derive(Drop)]
pub struct StandardOut<'a, R> {
    rt: &'a R,
    faults: u64,
    puts: u64,
}

impl<'a, R: Print> StandardOut<'a, R> {
    /// Standard output of this process, with nothing counted.
    pub fn new(rt: &'a R) -> Self {
        StandardOut {
            rt,
            faults: 0,
            puts: 0,
        }
    }
}

impl<R: Print> Sink for StandardOut<'_, R> {
    ghost use Rattle.rv_machine.specs.StandardOut.{faults_of, puts_of};

    ghost shown = { λ _. None };

    ghost faults = { λ out. faults_of out };

    ghost puts = { λ out. puts_of out };

    /// Writes the whole piece. It takes no memory, so it never answers `Memory`.
    fn put(&mut self, piece: &[u8]) -> Result<(), PutFault>
        ensures whole { OnOk result (Appends None None piece.now) }
        ensures failed { IsErrOf result PutFault.Failed → AppendsPrefix None None piece.now }
        ensures memory { IsErrOf result PutFault.Memory → Keeps None None }
        ensures cause { HasCause PutFault.Failed (faults_of self.old) (faults_of self.new) result }
        ensures memory_faults { IsErrOf result PutFault.Memory → faults_of self.new ≡ faults_of self.old }
        ensures whole_counts { OnOk result (puts_of self.new ≡ raised (puts_of self.old)) }
        ensures failed_counts { IsErrOf result PutFault.Failed → puts_of self.new ≡ raised (puts_of self.old) }
        ensures memory_counts_not { IsErrOf result PutFault.Memory → puts_of self.new ≡ puts_of self.old }

        ensures never_memory { ¬ IsErrOf result PutFault.Memory }
    {
        self.puts = self.puts.saturating_add(1);
        if write_whole(&mut io::writer(self.rt), piece).is_ok() {
            return Ok(());
        }
        self.faults = self.faults.saturating_add(1);
        Err(PutFault::Failed)
    }
}

/// Writes the whole piece, in as many writes as that takes. A write that was interrupted is tried again. One that fails,
/// or takes nothing of what is left, ends it, and a front of the piece is written.
fn write_whole<W: Write>(writer: &mut W, piece: &[u8]) -> io::Result<()>
    ensures whole { OnOk result (Appends (W.contents writer.old) (W.contents writer.new) piece.now) }
    ensures front { OnErr result (AppendsPrefix (W.contents writer.old) (W.contents writer.new) piece.now) }
{
    let mut rest = piece;
    // Each turn takes a byte or is interrupted; the count ends a writer that is interrupted for ever.
    for _ in 0..u64::MAX {
        if rest.is_empty() {
            return Ok(());
        }
        match writer.write(rest) {
            Ok(0) => return Err(io::Error::from(ErrorKind::WriteZero)),
            Ok(count) => rest = &rest[count..],
            Err(error) if error.kind() == ErrorKind::Interrupted => {}
            Err(error) => return Err(error),
        }
    }
    Err(io::Error::from(ErrorKind::TimedOut))
}

#[cfg(test)]
mod tests {
    use super::*;
    use std::alloc::{AllocError, Global};
    use std::cell::{Cell, RefCell};
    use std::fmt::Display;
    use std::test::Fail;

    /// What a write answers.
    #[derive(Clone, Copy)]
    enum Answer {
        /// It takes so many bytes, or what there is.
        Takes(usize),
        Fails(ErrorKind),
    }

    /// A writer whose writes answer in turn as they are told, and then take nothing.
    #[derive(Drop)]
    struct Told<'a> {
        answers: &'a [Answer],
        shown: Vec<u8>,
    }

    impl Write for Told<'_> {
        fn write(&mut self, buf: &[u8]) -> io::Result<usize> {
            let Some((answer, answers)) = self.answers.split_first() else {
                return Ok(0);
            };
            self.answers = answers;
            match answer {
                Answer::Takes(count) => {
                    let count = buf.len().min(*count);
                    self.shown.extend_from_slice(&buf[..count])?;
                    Ok(count)
                }
                Answer::Fails(kind) => Err(io::Error::from(*kind)),
            }
        }

        fn flush(&mut self) -> io::Result<()> {
            Ok(())
        }
    }

    #[test]
    fn writes_until_a_write_fails(rt: HostRuntime) -> Result<(), Fail> {
        let takes = Answer::Takes;
        let interrupted = Answer::Fails(ErrorKind::Interrupted);
        for (answers, end, shown) in [
            ([takes(9)].as_slice(), None, "four"),
            (&[takes(1), takes(1), takes(1), takes(1)], None, "four"),
            (
                &[interrupted, takes(3), interrupted, takes(1)],
                None,
                "four",
            ),
            (
                &[takes(3), takes(0), takes(1)],
                Some(ErrorKind::WriteZero),
                "fou",
            ),
            (
                &[takes(2), Answer::Fails(ErrorKind::BrokenPipe), takes(2)],
                Some(ErrorKind::BrokenPipe),
                "fo",
            ),
            (&[], Some(ErrorKind::WriteZero), ""),
        ] {
            let mut writer = Told {
                answers,
                shown: Vec::new(rt.alloc()),
            };
            let result = write_whole(&mut writer, b"four");
            assert_eq!(rt; result.err().map(|error| error.kind()), end, "{shown}");
            assert_eq!(rt; writer.shown.as_slice(), shown.as_bytes());
        }
        let mut writer = Told {
            answers: &[],
            shown: Vec::new(rt.alloc()),
        };
        assert!(rt; write_whole(&mut writer, b"").is_ok());
        Ok(())
    }

    /// An output that takes so many bytes at each write and keeps them, and fails at the write with this number.
    #[derive(Drop)]
    struct Narrow {
        width: usize,
        failing: Option<u32>,
        writes: Cell<u32>,
        shown: RefCell<Vec<u8>>,
    }

    impl Print for Narrow {
        fn print<D: Display + Drop>(&self, _value: D) -> io::Result<()> {
            Err(io::Error::from(ErrorKind::Unsupported))
        }

        fn println<D: Display + Drop>(&self, _value: D) -> io::Result<()> {
            Err(io::Error::from(ErrorKind::Unsupported))
        }

        fn write_all(&self, _bytes: &[u8]) -> io::Result<()> {
            Err(io::Error::from(ErrorKind::Unsupported))
        }

        fn write_some(&self, bytes: &[u8]) -> io::Result<usize> {
            let number = self.writes.get();
            self.writes.set(number.wrapping_add(1));
            if self.failing == Some(number) {
                return Err(io::Error::from(ErrorKind::BrokenPipe));
            }
            let count = bytes.len().min(self.width);
            let Ok(mut shown) = self.shown.try_borrow_mut() else {
                return Err(io::Error::from(ErrorKind::Other));
            };
            shown.extend_from_slice(&bytes[..count])?;
            Ok(count)
        }
    }

    #[test]
    fn counts_pieces_and_failures(rt: HostRuntime) {
        for (width, answer, faults) in [
            (1, Ok(()), 0),
            (3, Ok(()), 0),
            (0, Err(PutFault::Failed), 2),
        ] {
            let narrow = Narrow {
                width,
                failing: None,
                writes: Cell::new(0),
                shown: RefCell::new(Vec::new(rt.alloc())),
            };
            let mut out = StandardOut::new(&narrow);
            assert_eq!(rt; out.put(b"one"), answer, "at {width}");
            assert_eq!(rt; out.put(b"another"), answer, "at {width}");
            assert_eq!(rt; out.put(b""), Ok(()), "at {width}");
            assert_eq!(rt; out.puts, 3, "at {width}");
            assert_eq!(rt; out.faults, faults, "at {width}");
        }
    }

    /// 70,000 bytes, of which neighbours differ, and so do those that stand a power of two apart.
    fn long_piece(alloc: Global) -> Result<Vec<u8>, AllocError> {
        let mut piece = Vec::new(alloc);
        for number in 0u32..70_000 {
            piece.push((number % 251) as u8)?;
        }
        Ok(piece)
    }

    #[test]
    fn shows_pieces_in_order(rt: HostRuntime) -> Result<(), Fail> {
        let long = long_piece(rt.alloc())?;
        let failed = Err(PutFault::Failed);
        for (width, failing, answer, length) in [
            (70_000, None, Ok(()), 70_000),
            (65_536, None, Ok(()), 70_000),
            (4_096, None, Ok(()), 70_000),
            (999, None, Ok(()), 70_000),
            (65_536, Some(1), failed, 65_536),
            (4_096, Some(3), failed, 12_288),
            (1, Some(0), failed, 0),
        ] {
            let narrow = Narrow {
                width,
                failing,
                writes: Cell::new(0),
                shown: RefCell::new(Vec::new(rt.alloc())),
            };
            let mut out = StandardOut::new(&narrow);
            assert_eq!(rt; out.put(&long), answer, "at {width}");
            assert_eq!(rt; out.put(b"end"), Ok(()), "at {width}");
            let mut wanted = Vec::new(rt.alloc());
            for byte in long.iter().take(length).chain(b"end") {
                wanted.push(*byte)?;
            }
            match narrow.shown.try_borrow() {
                Ok(shown) => {
                    assert!(rt; shown.as_slice() == wanted.as_slice(), "at {width}");
                }
                Err(_) => assert!(rt; false, "at {width}"),
            }
        }
        Ok(())
    }

    #[test]
    fn shows_a_piece(rt: HostRuntime) {
        let mut out = StandardOut::new(&rt);
        assert_eq!(rt; out.put(b"shown\n"), Ok(()));
        assert_eq!(rt; out.puts, 1);
        assert_eq!(rt; out.faults, 0);
    }
}
