//! Declares the type `Store` with its faults, and the function that closes a store.

ghost use Rattle.std.specs.Prelude.{◌≡◌, false};
ghost use Rattle.sqlite.specs.Held.{state};
ghost use Rattle.portal_store.specs.Kept.{IsCleanStore, IsConsistent, LeavesConsistent};

use crate::reading::view_cache::ViewCache;
use portal_list::Entries;
use portal_tables::PortalSchema;
use sqlite::{Alter, Connection};
use std::marker::Model;

/// The portal in a database. What is promised of its world holds while it is clean: its tables were
/// own when it was made (their schema was exactly the portal's), and the connection is open. No
/// method changes the former. A clean store over a clean disk becomes unclean only in a call that
/// fails while the disk reports an error. A new store has counted no fault of the store; the count
/// rises exactly when a method returns `KeepFault::Store`.
#[derive(Drop)]
pub struct Store<S: Alter> {
    pub(crate) conn: Connection<S>,
    /// Whether the schema was exactly the portal's own when the store was made.
    pub(crate) own: bool,
    /// The schema of the portal's own tables.
    pub(crate) pattern: PortalSchema,
    /// The cached catalogue and office's view.
    pub(crate) cache: ViewCache,
    /// The cached entries of the world.
    pub(crate) entries: Option<Entries>,
    /// The number of calls that returned a fault of the store.
    pub(crate) faults: u64,
}

impl<S: Alter> Model for Store<S> {
    ghost use Rattle.portal_store.specs.Kept.{StoreState};
    ghost use Rattle.portal_store.specs.inner.Keeping.{seen_code, IsAtRest};

    ghost Value = { StoreState S };

    ghost coded = { seen_code S.code };

    ghost view = { λ s. record { conn = s.conn; own = s.own; faults = s.faults } };

    ghost invariant = { λ s. IsAtRest S.Store s.conn s.own s.cache s.entries };
}

/// Why there is no store, and the connection that the caller passed in.
pub struct NotOpened<F, S: Alter> {
    pub fault: F,
    pub connection: Connection<S>,
}

/// Why no store was created.
#[derive(Clone, Copy, Debug, Drop, PartialEq, Eq)]
pub enum CreateFault {
    /// A table or a view has one of the eleven names.
    Exists,
    /// The store reported an error.
    Store,
    /// There was not enough memory.
    Memory,
}

/// Why no store was opened.
#[derive(Clone, Copy, Debug, Drop, PartialEq, Eq)]
pub enum OpenFault {
    /// A table cannot be queried, or `portal` has no row.
    NotPortal,
    /// The tables have another schema version.
    OtherVersion,
    /// The rows represent no good world.
    Damaged,
    /// The store reported an error.
    Store,
    /// There was not enough memory.
    Memory,
}

/// Why tables of version 1 were not upgraded.
#[derive(Clone, Copy, Debug, Drop, PartialEq, Eq)]
pub enum UpgradeFault {
    /// One of the six tables cannot be queried, or `portal` has no row.
    NotPortal,
    /// The tables have a schema version other than 1.
    OtherVersion,
    /// The rows represent no good world.
    Damaged,
    /// The store reported an error.
    Store,
    /// There was not enough memory.
    Memory,
    /// A table or a view has one of the five new names.
    Exists,
}

impl<S: Alter> Store<S> {
    /// Closes the store and returns its connection, which is in no transaction. The tables of a
    /// clean store are consistent in it, and so is all that a stop may leave of own tables on a
    /// clean disk, even if the store has broken.
    pub fn into_connection(self) -> Connection<S>
        ensures same { result ≡ self.conn }
        ensures idle { result.in_transaction ≡ false }
        ensures kept { IsCleanStore S.Store self → IsConsistent (state S.Store result).now }
        ensures left { LeavesConsistent S.Store self }
    {
        let Store { conn, .. } = self;
        conn
    }
}
