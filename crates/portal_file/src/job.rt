//! A command's work over tables, and the same over a database file.

ghost use Rattle.std.specs.Prelude.{◌≡◌, Result, false, IfErr, IfOk};
ghost use Rattle.sqlite.specs.Held.{state};
ghost use Rattle.sqlite_wal.specs.Files.{image_at};
ghost use Rattle.sqlite_wal.specs.Recovery.{Image};
ghost use Rattle.portal_file.specs.Tables.{FileEffect};
ghost use Rattle.portal_file.specs.inner.Lift.{OpensOver, RunsOver, WorksOver};

use crate::closing::{Closed, close_files};
use sqlite::{Alter, Connection, Error, FileFrom, FileStore, Start};
use sqlite_disk::Disk;
use std::alloc::Global;

/// What a command over a database file returns: what it did, and the closed files; or why the file
/// could not be opened.
pub type OverFile<S, T, E> = Result<(Result<T, E>, Closed<FileFrom<S>>), Error>;

/// The work of a command over the portal's tables.
pub(crate) trait Job {
    type Done;

    type Fault;

    /// What the work does, by what it returns, if the disk is clean.
    ghost does: { Self → Self → Result Self.Done Self.Fault → FileEffect → Type 0 };

    /// What becomes of the job in any case, by what the work returns.
    ghost becomes: { Self → Self → Result Self.Done Self.Fault → Type 0 } = { λ _ _ _. Unit {0} };

    /// Does the work over the database of a connection, and gives the connection back.
    fn run<S: Alter>(
        &mut self,
        alloc: Global,
        conn: Connection<S>,
    ) -> (Result<Self::Done, Self::Fault>, Connection<S>)
        requires idle { conn.in_transaction ≡ false }
        ensures idle { result.1.in_transaction ≡ false }
        ensures works { WorksOver (state S.Store conn) (state S.Store result.1)
            (does self.old self.new result.0) }
        ensures becomes { becomes self.old self.new result.0 };
}

/// Connects to a database file, which is created if it does not exist. `S` stands for what the
/// files held before.
fn open_file<S: Start>(
    rt: &HostRuntime,
    path: &str,
    start: S,
) -> Result<Connection<FileStore<FileFrom<S>>>, Error>
    ensures found { IfOk result (OpensOver (image_at S.Start)) }
    ensures idle { IfOk result (λ conn. conn.in_transaction ≡ false) }
{
    match Connection::open_from(rt, path, false, start) {
        Ok(conn) => Ok(conn),
        Err((error, _)) => Err(error),
    }
}

/// Does a job over the database of a connection to files, and closes the files.
fn run_closing<D: Disk + Drop, J: Job>(
    alloc: Global,
    conn: Connection<FileStore<D>>,
    job: &mut J,
) -> (Result<J::Done, J::Fault>, Closed<D>)
    requires idle { conn.in_transaction ≡ false }
    ensures runs { (found : Image) → OpensOver found conn
        → RunsOver D.Disk found (J.does job.old job.new result.0) result.1 }
    ensures becomes { J.becomes job.old job.new result.0 }
{
    let (done, conn) = job.run(alloc, conn);
    let copies = done.is_ok();
    (done, close_files(conn, copies))
}

/// Opens a database file, does a job over it, and closes it; the log is copied into the file if the
/// job succeeded. `S` stands for what the files held before. Gives the files back, as `Ok` unless
/// copying the log failed.
pub(crate) fn over_file<S: Start, J: Job>(
    rt: &HostRuntime,
    path: &str,
    start: S,
    job: &mut J,
) -> OverFile<S, J::Done, J::Fault>
    ensures runs { IfOk result (λ r. RunsOver ⟦<FileFrom<S> as Disk>⟧
        (image_at S.Start) (J.does job.old job.new r.0) r.1) }
    ensures becomes { IfOk result (λ r. J.becomes job.old job.new r.0) }
    ensures same { IfErr result (λ _. job.new ≡ job.old) }
{
    match open_file(rt, path, start) {
        Ok(conn) => Ok(run_closing(rt.alloc(), conn, job)),
        Err(error) => Err(error),
    }
}
