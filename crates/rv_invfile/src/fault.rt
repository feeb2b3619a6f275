//! Why a file is no document.

ghost use Rattle.std.specs.Prelude.{◌≡◌};
ghost use Rattle.rv_invfile.specs.declared.fault.FileFault.TheVariants.{Memory as NoMemory};
ghost use Rattle.rv_invfile.specs.Readers.{fault_at, file_fault};

use rv_base::Memory;
use std::alloc::{AllocError, AllocFailed};
use thiserror::Error;

/// The first fault of a file, by the number of its record, counted from 0; or want of memory.
#[derive(Clone, Copy, Debug, PartialEq, Eq, Error)]
pub enum FileFault {
    /// A byte of a field of this record is outside 32 to 126.
    #[error("record {0} has bytes that no field has")]
    NotRecords(u32),
    /// Another record stands where this one is, by its first field and the number of its fields.
    #[error("record {0} is of the wrong kind")]
    WrongKind(u32),
    /// This record is not that of the program.
    #[error("record {0} is of another program")]
    WrongProgram(u32),
    /// The field of this record is no number in its range and no value of its type.
    #[error("field {1} of record {0} is out of range")]
    BadNumber(u32, u32),
    /// The records end too early; this is how many there are.
    #[error("ends after {0} records")]
    Ends(u32),
    /// There was no memory.
    #[error("out of memory")]
    Memory,
}

/// The first fault of a file, as one tells it who takes no memory.
#[derive(Clone, Copy, Debug, PartialEq, Eq)]
pub enum Fault {
    /// A byte of a field of this record is outside 32 to 126.
    NotRecords(u32),
    /// Another record stands where this one is, by its first field and the number of its fields.
    WrongKind(u32),
    /// This record is not that of the program.
    WrongProgram(u32),
    /// The field of this record is no number in its range and no value of its type.
    BadNumber(u32, u32),
    /// The records end too early; this is how many there are.
    Ends(u32),
}

impl From<Fault> for FileFault {
    ghost from_gives = { λ told e. e ≡ file_fault told };

    fn from(told: Fault) -> FileFault {
        match told {
            Fault::NotRecords(number) => FileFault::NotRecords(number),
            Fault::WrongKind(number) => FileFault::WrongKind(number),
            Fault::WrongProgram(number) => FileFault::WrongProgram(number),
            Fault::BadNumber(number, field) => FileFault::BadNumber(number, field),
            Fault::Ends(count) => FileFault::Ends(count),
        }
    }
}

/// What is at fault in a record.
#[derive(Clone, Copy, Debug, PartialEq, Eq)]
pub enum Why {
    /// A byte outside 32 to 126.
    NotRecords,
    /// Its first field, or the number of its fields.
    WrongKind,
    /// A name or place that is not that of the program.
    WrongProgram,
    /// The field with this number.
    BadNumber(u32),
}

/// The fault of the record with this number.
pub fn fault_at(number: u32, why: Why) -> FileFault
    ensures { result ≡ fault_at number why }
{
    match why {
        Why::NotRecords => FileFault::NotRecords(number),
        Why::WrongKind => FileFault::WrongKind(number),
        Why::WrongProgram => FileFault::WrongProgram(number),
        Why::BadNumber(field) => FileFault::BadNumber(number, field),
    }
}

impl From<AllocError> for FileFault {
    ghost from_gives = { λ _ e. e ≡ NoMemory };

    fn from(_: AllocError) -> FileFault {
        FileFault::Memory
    }
}

impl<T: Drop> From<AllocFailed<T>> for FileFault {
    ghost from_gives = { λ _ e. e ≡ NoMemory };

    fn from(_: AllocFailed<T>) -> FileFault {
        FileFault::Memory
    }
}

impl From<Memory> for FileFault {
    ghost from_gives = { λ _ e. e ≡ NoMemory };

    fn from(_: Memory) -> FileFault {
        FileFault::Memory
    }
}
