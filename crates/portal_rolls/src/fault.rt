//! The reasons why a CSV file cannot be read.

ghost use Rattle.std.specs.Prelude.{◌≡◌};
ghost use Rattle.portal_rolls.specs.declared.fault.RollFault.TheVariants.{Memory};

use std::alloc::{AllocError, AllocFailed};
use thiserror::Error;

/// The first fault of a file, or a memory shortage.
#[derive(Clone, Copy, Debug, PartialEq, Eq, Error)]
pub enum RollFault {
    /// The file has no record.
    #[error("there is no header")]
    NoHeader,
    /// The first record does not consist of the names of the columns.
    #[error("the header has other names")]
    BadHeader,
    /// A record has more or fewer fields than the header; holds the record's number.
    #[error("record {0} has another number of fields")]
    FieldCount(u32),
    /// A field is not UTF-8; holds the record's number.
    #[error("record {0} has a field that is no text")]
    NotText(u32),
    /// A field is malformed; holds the numbers of the record and the column.
    #[error("record {0} has a bad field in column {1}")]
    BadField(u32, u32),
    /// There are more records than the limit.
    #[error("there are too many records")]
    TooMany,
    /// Memory ran out.
    #[error("out of memory")]
    Memory,
}

impl From<AllocError> for RollFault {
    ghost from_gives = { λ _ e. e ≡ Memory };

    fn from(_e: AllocError) -> RollFault {
        RollFault::Memory
    }
}

impl<T: Drop> From<AllocFailed<T>> for RollFault {
    ghost from_gives = { λ _ e. e ≡ Memory };

    fn from(_e: AllocFailed<T>) -> RollFault {
        RollFault::Memory
    }
}
