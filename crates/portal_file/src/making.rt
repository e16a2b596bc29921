//! Makes the portal's tables in a database file.

ghost use Rattle.std.specs.Prelude.{IfOk};
ghost use Rattle.sqlite_wal.specs.Files.{image_at};
ghost use Rattle.portal_file.specs.Jobs.{MakesTables};
ghost use Rattle.portal_file.specs.Chain.{OverClosed};

use crate::job::{Job, OverFile, over_file};
use crate::tables::close_tables;
use portal_core::Code;
use portal_store::{CreateFault, NotOpened, Store};
use portal_tables::outside_transaction;
use portal_tables::sql::names::is_empty;
use sqlite::{Alter, Connection, FileFrom, Start};
use sqlite_disk::Disk;
use std::alloc::Global;

/// Makes the tables if there is no table and no view.
#[derive(Drop)]
struct MakeTables {
    office: Code,
}

impl Job for MakeTables {
    type Done = ();

    type Fault = CreateFault;

    ghost does = { λ old new r. MakesTables old.office r };

    fn run<S: Alter>(
        &mut self,
        alloc: Global,
        conn: Connection<S>,
    ) -> (Result<(), CreateFault>, Connection<S>) {
        outside_transaction(&conn);
        if !is_empty(conn.schema()) {
            return (Err(CreateFault::Exists), conn);
        }
        let Ok(office) = self.office.copy(alloc) else {
            return (Err(CreateFault::Memory), conn);
        };
        match Store::create(alloc, conn, office) {
            Ok(store) => (Ok(()), close_tables(store)),
            Err(NotOpened { fault, connection }) => (Err(fault), connection),
        }
    }
}

/// Makes the portal's tables in a database file that has no table, index or view, and closes the
/// file. `S` stands for what the files held before. Gives the files back, as `Ok` unless copying
/// the log failed; the promises hold then, too, if the store still stood.
///
/// If the tables were made and the disk was clean, then each thing that a crash may leave of the
/// files holds the world that is empty and in setup, in version 2, and before the files held no
/// world. Files that hold a world keep it.
///
/// # Errors
///
/// `Exists`: the database has a table, an index or a view; it is the answer to all of these, and
/// they keep their rows. `Store`, `Memory`: no clause says when; a crash leaves no table, or all of
/// the new ones.
pub fn make_file<S: Start>(
    rt: &HostRuntime,
    path: &str,
    start: S,
    office: Code,
) -> OverFile<S, (), CreateFault>
    ensures { IfOk result (λ r. OverClosed ⟦<FileFrom<S> as Disk>⟧ (image_at S.Start)
        (MakesTables office r.0) r.1) }
{
    let mut job = MakeTables { office };
    over_file(rt, path, start, &mut job)
}
