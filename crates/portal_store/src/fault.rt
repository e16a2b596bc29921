//! Converts faults of tables, rows and queries into a store's faults; counts the store's faults.

ghost use Rattle.std.specs.Prelude.{◌≡◌, ◌≢◌, ◌↔◌, ◌+◌, ◌-◌, ◌^◌, Err};
ghost use Rattle.sqlite.specs.State.{store_error};
ghost use Rattle.sqlite_trees.specs.declared.error.StoreError.{StoreError};
ghost use Rattle.sqlite_resolve.specs.declared.error.CompileError.{CompileError};
ghost use Rattle.portal_tables.specs.inner.Base.{SqliteFailure, OutOfMemory};
ghost use Rattle.portal_tables.specs.declared.fault.TableFault.TheVariants as tables;
ghost use Rattle.portal_store.specs.Crash.{as_upgrading};
ghost use Rattle.portal_store.specs.declared.store.OpenFault.TheVariants as opening;
ghost use Rattle.portal_rules.specs.Keeping.{CountsFaults};
ghost use Rattle.portal_store.specs.inner.Asked.{SaysNothing};
ghost use Rattle.portal_store.specs.inner.Reading.{IsSameUpToFault};

use crate::store::{CreateFault, OpenFault, UpgradeFault};
use portal_list::RowsFault;
use portal_rules::KeepFault;
use portal_tables::TableFault;
use sqlite::{Error, ErrorCode};

/// Converts a fault of the tables into `Memory` or `Store`, never into `Exists`.
pub(crate) fn create_fault_of(fault: TableFault) -> CreateFault
    ensures exists { result ≢ CreateFault.Exists }
    ensures memory { (result ≡ CreateFault.Memory) ↔ (fault ≡ TableFault.Memory) }
{
    match fault {
        TableFault::Memory => CreateFault::Memory,
        TableFault::Damaged | TableFault::Store => CreateFault::Store,
    }
}

/// Converts a fault of rows. Rows of no sound world are `Damaged`.
pub(crate) fn rows_fault_of(fault: RowsFault) -> TableFault
    ensures damaged { (result ≡ TableFault.Damaged) ↔ (fault ≡ RowsFault.NotGood) }
    ensures memory { (result ≡ TableFault.Memory) ↔ (fault ≡ RowsFault.Memory) }
    ensures store { result ≢ TableFault.Store }
{
    match fault {
        RowsFault::NotGood => TableFault::Damaged,
        RowsFault::Memory => TableFault::Memory,
    }
}

/// An out-of-memory error becomes `Memory`, and every other error `Store`: they say nothing about
/// the tables.
impl From<Error> for OpenFault {
    ghost from_gives = { λ error told. SaysNothing told
        × ((told ≡ opening.Memory) ↔ (error ≡ SqliteFailure OutOfMemory)) };

    fn from(error: Error) -> OpenFault {
        match error {
            Error::SqliteFailure(ErrorCode::OutOfMemory) => OpenFault::Memory,
            _ => OpenFault::Store,
        }
    }
}

/// Converts the error of a query that works on the portal's own tables. Memory shortage becomes
/// `Memory`, a fault of the device `Store`, and any other error `NotPortal`.
pub(crate) fn table_fault_of(error: Error) -> OpenFault
    ensures damaged { result ≢ OpenFault.Damaged }
    ensures version { result ≢ OpenFault.OtherVersion }
    ensures unknown { (fault : CompileError) → error ≡ Error.SqlInputError fault
        → result ≡ OpenFault.NotPortal }
    ensures device { (cause : StoreError) → error ≡ store_error cause
        → result ≢ OpenFault.NotPortal }
{
    match error {
        Error::SqliteFailure(
            ErrorCode::OutOfMemory
            | ErrorCode::SystemIoFailure
            | ErrorCode::DatabaseCorrupt
            | ErrorCode::DiskFull
            | ErrorCode::DatabaseBusy
            | ErrorCode::CannotOpen
            | ErrorCode::NotADatabase
            | ErrorCode::TooBig
            | ErrorCode::OperationInterrupted
            | ErrorCode::Closed,
        ) => OpenFault::from(error),
        _ => OpenFault::NotPortal,
    }
}

/// A fault of loading the world is the same fault of opening.
impl From<TableFault> for OpenFault {
    ghost from_gives = { λ fault told. ((fault ≡ tables.Damaged → ⊥) → SaysNothing told)
        × ((told ≡ opening.Damaged) ↔ (fault ≡ tables.Damaged))
        × ((told ≡ opening.Memory) ↔ (fault ≡ tables.Memory)) };

    fn from(fault: TableFault) -> OpenFault {
        match fault {
            TableFault::Damaged => OpenFault::Damaged,
            TableFault::Store => OpenFault::Store,
            TableFault::Memory => OpenFault::Memory,
        }
    }
}

/// Converts a fault of opening tables of version 1 into the same fault of upgrading.
pub(crate) fn upgrade_fault_of(fault: OpenFault) -> UpgradeFault
    ensures { result ≡ as_upgrading fault }
{
    match fault {
        OpenFault::NotPortal => UpgradeFault::NotPortal,
        OpenFault::OtherVersion => UpgradeFault::OtherVersion,
        OpenFault::Damaged => UpgradeFault::Damaged,
        OpenFault::Store => UpgradeFault::Store,
        OpenFault::Memory => UpgradeFault::Memory,
    }
}

/// Converts a fault into the keeper's, and counts it if that is `Store`. At the greatest count,
/// which no run reaches, every fault becomes `Memory`.
pub(crate) fn count_fault(faults: &mut u64, fault: TableFault) -> KeepFault
    ensures memory { result ≡ KeepFault.Memory → faults.new ≡ faults.old }
    ensures store { result ≡ KeepFault.Store → faults.new ≡ faults.old + 1 }
    ensures other { result ≡ KeepFault.Store → fault ≢ TableFault.Memory }
    ensures kind { faults.old ≢ 2 ^ 64 - 1
        → (result ≡ KeepFault.Memory) ↔ (fault ≡ TableFault.Memory) }
{
    match KeepFault::from(fault) {
        KeepFault::Memory => KeepFault::Memory,
        KeepFault::Store => {
            if *faults == u64::MAX {
                return KeepFault::Memory;
            }
            *faults += 1;
            KeepFault::Store
        }
    }
}

/// Converts the outcome of a call into the keeper's, and counts a fault of the store.
pub(crate) fn count_outcome<T>(
    faults: &mut u64,
    outcome: Result<T, TableFault>,
) -> Result<T, KeepFault>
    ensures same { IsSameUpToFault outcome result }
    ensures other { result ≡ Err KeepFault.Store → outcome ≢ Err TableFault.Memory }
    ensures counts { CountsFaults result faults.old faults.new }
    ensures kind { faults.old ≢ 2 ^ 64 - 1
        → (result ≡ Err KeepFault.Memory) ↔ (outcome ≡ Err TableFault.Memory) }
{
    match outcome {
        Ok(value) => Ok(value),
        Err(fault) => Err(count_fault(faults, fault)),
    }
}
