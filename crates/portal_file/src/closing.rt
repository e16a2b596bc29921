//! Closes a database file.

ghost use Rattle.std.specs.Prelude.{◌≡◌, true, false, IfErr, IfOk, IsTrue, MatchResult};
ghost use Rattle.sqlite_wal.specs.Files.{outcomes};
ghost use Rattle.sqlite_wal.specs.Reads.{AreClean};
ghost use Rattle.sqlite_wal.specs.Recovery.{Image};
ghost use Rattle.sqlite_trees.specs.View.{IsClean};
ghost use Rattle.sqlite_store.specs.FileStore.{files as files_of, recovers, state as store_state, view};
ghost use Rattle.sqlite_trees.specs.Tree.{Trees};
ghost use Rattle.sqlite.specs.Held.{AreDatabases};
ghost use Rattle.sqlite.specs.Files.{file_state};
ghost use Rattle.sqlite_store.specs.declared.store.FileStore.{FileStore};
ghost use Rattle.portal_file.specs.Closing.{ClosesConnection, ComesOf, FailsToCopy, IfStands, IsCopied};
ghost use Rattle.portal_file.specs.Files.{HoldsTrees};

use sqlite::{Connection, FileStore, Files};
use sqlite_disk::Disk;
use sqlite_trees::error::StoreError;
use sqlite_trees::store::Store as Tables;

/// The files of a store whose log was not copied into the database file.
#[derive(Drop)]
pub struct NotCopied<D: Disk> {
    pub files: Files<D>,
    /// Why copying failed.
    pub cause: StoreError,
    /// Whether the store still stood after that, so that a crash leaves only what it could before.
    pub stands: bool,
}

/// The files of a database that was closed: as `Ok` unless copying the log failed.
pub type Closed<D> = Result<Files<D>, NotCopied<D>>;

/// Returns whether the log of a store is to be copied: if `copies` says so and the store stands.
fn is_to_copy<D: Disk + Drop>(store: &FileStore<D>, copies: bool) -> bool
    ensures copies { IsTrue result → IsTrue copies }
    ensures stands { IsTrue result → IsClean (view store.now)
        → (view store.now).is_broken ≡ false }
    ensures broken { result ≡ false → IsTrue copies → IsClean (view store.now)
        → (view store.now).is_broken ≡ true }
{
    copies && !store.is_broken()
}

/// Copies the log of a store into the database file if `copies` says so, and gives the files back;
/// an error gives them back too. Without `copies`, and of a broken store, they are given back as
/// they are. A crash then leaves only what it could leave before, unless copying failed and shut
/// the store.
fn close_store<D: Disk + Drop>(mut store: FileStore<D>, copies: bool) -> Closed<D>
    ensures clean { IfStands result (λ files. AreClean D.Disk files.log files.db
        → IsClean (view store)) }
    ensures left { IfStands result (λ files. AreClean D.Disk files.log files.db
        → IsTrue (view store).is_numbered → AreDatabases (recovers store)
        → (image : Image) → outcomes D.Disk files.log files.db image
        → HoldsTrees image (recovers store)) }
    ensures untouched { copies ≡ false
        → MatchResult result (λ files. (files.log, files.db) ≡ files_of store) (λ _. ⊥) }
    ensures copied { IsTrue copies → IfOk result (IsCopied store) }
    ensures failed { IfErr result (λ left. (last : FileStore D D.Disk)
        × FailsToCopy store last left) }
{
    if !is_to_copy(&store, copies) {
        return Ok(store.close());
    }
    match store.checkpoint() {
        Ok(()) => Ok(store.close()),
        Err(cause) => {
            let stands = !store.is_broken();
            Err(NotCopied {
                files: store.close(),
                cause,
                stands,
            })
        }
    }
}

/// Gives the store of a connection to files back, as it is if the process ends or the machine stops
/// before the files are closed.
pub fn release_store<D: Disk + Drop>(conn: Connection<FileStore<D>>) -> FileStore<D>
    ensures numbered { IsClean (view result) → IsTrue (view result).is_numbered }
    ensures sound { IsClean (view result) → AreDatabases (recovers result) }
    ensures quiet { (db : Trees) → recovers result db → (file_state conn).may_leave db }
    ensures comes { ComesOf (file_state conn) (IsClean (view result))
        (store_state result).may_leave }
{
    conn.into_store()
}

/// Closes the files of a connection, and gives them back. If `copies` says so, the log is copied
/// into the database file first, and the result is `Ok` unless that failed. Otherwise the files are
/// given back as the connection left them. A crash then leaves only what it could leave before,
/// unless copying failed and shut the store.
pub fn close_files<D: Disk + Drop>(conn: Connection<FileStore<D>>, copies: bool) -> Closed<D>
    ensures closes { ClosesConnection D.Disk conn result }
    ensures untouched { copies ≡ false → MatchResult result (λ files. (released : FileStore D D.Disk)
        × ComesOf (file_state conn) (IsClean (view released)) (store_state released).may_leave
        × ((files.log, files.db) ≡ files_of released)) (λ _. ⊥) }
    ensures copied { IsTrue copies → IfOk result (λ files. (released : FileStore D D.Disk)
        × ComesOf (file_state conn) (IsClean (view released)) (store_state released).may_leave
        × IsCopied released files) }
{
    close_store(release_store(conn), copies)
}
