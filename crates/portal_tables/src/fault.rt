//! The reasons why tables cannot be read or written.

ghost use Rattle.std.specs.Prelude.{◌≡◌, ◌↔◌};
ghost use Rattle.portal_tables.specs.inner.Base.{SqliteFailure, OutOfMemory};
ghost use Rattle.portal_rules.specs.declared.keeper.KeepFault.TheVariants as keep;
ghost use Rattle.portal_tables.specs.declared.fault.TableFault.TheVariants.{Damaged, Memory};

use portal_rules::KeepFault;
use sqlite::{Error, ErrorCode};
use std::alloc::{AllocError, AllocFailed};

/// The reasons why reading or writing the tables fails.
#[derive(Drop)]
pub enum TableFault {
    /// The rows are not as the portal writes them.
    Damaged,
    /// The store reported an error.
    Store,
    /// There was not enough memory.
    Memory,
}

impl<T: Drop> From<AllocFailed<T>> for TableFault {
    ghost from_gives = { λ _ fault. fault ≡ Memory };

    fn from(_: AllocFailed<T>) -> TableFault {
        TableFault::Memory
    }
}

/// An out-of-memory error becomes `Memory`, and every other error becomes `Store`.
impl From<Error> for TableFault {
    ghost from_gives = { λ error fault. ((fault ≡ Memory) ↔ (error ≡ SqliteFailure OutOfMemory))
        × (fault ≡ Damaged → ⊥) };

    fn from(error: Error) -> TableFault {
        match error {
            Error::SqliteFailure(ErrorCode::OutOfMemory) => TableFault::Memory,
            _ => TableFault::Store,
        }
    }
}

impl From<AllocError> for TableFault {
    ghost from_gives = { λ _ fault. fault ≡ Memory };

    fn from(_: AllocError) -> TableFault {
        TableFault::Memory
    }
}

/// A keeper reports a memory shortage as such. It reports damaged rows and errors of the store as a
/// fault of the store.
impl From<TableFault> for KeepFault {
    ghost from_gives = { λ fault told. (told ≡ keep.Memory) ↔ (fault ≡ Memory) };

    fn from(fault: TableFault) -> KeepFault {
        match fault {
            TableFault::Memory => KeepFault::Memory,
            TableFault::Damaged | TableFault::Store => KeepFault::Store,
        }
    }
}
