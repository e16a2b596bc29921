//! Upgrades the portal's tables in a database file from version 1 to version 2.

ghost use Rattle.std.specs.Prelude.{IfOk};
ghost use Rattle.sqlite_wal.specs.Files.{image_at};
ghost use Rattle.portal_file.specs.Jobs.{UpgradesTables};
ghost use Rattle.portal_file.specs.Chain.{OverClosed};

use crate::job::{Job, OverFile, over_file};
use crate::tables::close_tables;
use portal_store::{NotOpened, Store, UpgradeFault};
use portal_tables::outside_transaction;
use sqlite::{Alter, Connection, FileFrom, Start};
use sqlite_disk::Disk;
use std::alloc::Global;

/// Upgrades the tables from version 1 to version 2.
#[derive(Drop)]
struct UpgradeTables;

impl Job for UpgradeTables {
    type Done = ();

    type Fault = UpgradeFault;

    ghost does = { λ old new r. UpgradesTables r };

    fn run<S: Alter>(
        &mut self,
        alloc: Global,
        conn: Connection<S>,
    ) -> (Result<(), UpgradeFault>, Connection<S>) {
        outside_transaction(&conn);
        match Store::upgrade(alloc, conn) {
            Ok(store) => (Ok(()), close_tables(store)),
            Err(NotOpened { fault, connection }) => (Err(fault), connection),
        }
    }
}

/// Upgrades the portal's tables in a database file from version 1 to version 2, and closes the
/// file. `S` stands for what the files held before. Gives the files back, as `Ok` unless copying
/// the log failed; the promises hold then, too, if the store still stood.
///
/// If the tables were upgraded and the disk was clean, then own ones had a good world in version 1,
/// and each thing that a crash may leave of the files holds the same world, in version 2; before,
/// the files held none in version 2. Whatever the answer, files that hold a world in either version
/// keep it. Of other tables `AreUpgraded` says that they answer the first six queries, show version
/// 1, and had no new name taken.
///
/// # Errors
///
/// Other than `Store` and `Memory`, a fault means that the files held no good world of version 1,
/// and `AreBarred` says why; then any tables keep their rows.
pub fn upgrade_file<S: Start>(
    rt: &HostRuntime,
    path: &str,
    start: S,
) -> OverFile<S, (), UpgradeFault>
    ensures { IfOk result (λ r. OverClosed ⟦<FileFrom<S> as Disk>⟧ (image_at S.Start)
        (UpgradesTables r.0) r.1) }
{
    let mut job = UpgradeTables;
    over_file(rt, path, start, &mut job)
}
