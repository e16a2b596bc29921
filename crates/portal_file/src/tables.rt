//! Opens and closes the portal's tables.

ghost use Rattle.std.specs.Prelude.{◌≡◌, false, IfOk, IfErr};
ghost use Rattle.sqlite.specs.Held.{state};
ghost use Rattle.sqlite.specs.State.{IsLive};
ghost use Rattle.portal_store.specs.Calls.{OpensStore};
ghost use Rattle.portal_file.specs.inner.Connected.{ClosesAs};
ghost use Rattle.portal_file.specs.inner.Lift.{RefusesTables, WorksOver};

use portal_store::{NotOpened, OpenFault, Store};
use portal_tables::outside_transaction;
use sqlite::{Alter, Connection};
use std::alloc::Global;

/// Opens the store of a connection. An error gives the connection back.
pub(crate) fn open_tables<S: Alter>(
    alloc: Global,
    conn: Connection<S>,
) -> Result<Store<S>, (OpenFault, Connection<S>)>
    requires idle { conn.in_transaction ≡ false }
    ensures opens { IfOk result (OpensStore S.Store conn) }
    ensures live { IsLive (state S.Store conn) }
    ensures idle { IfErr result (λ e. e.1.in_transaction ≡ false) }
    ensures refused { IfErr result (λ e. WorksOver (state S.Store conn) (state S.Store e.1)
        (RefusesTables e.0)) }
{
    outside_transaction(&conn);
    match Store::open(alloc, conn) {
        Ok(store) => Ok(store),
        Err(NotOpened { fault, connection }) => Err((fault, connection)),
    }
}

/// Closes the store of a connection, and gives the connection back.
pub(crate) fn close_tables<S: Alter>(store: Store<S>) -> Connection<S>
    ensures idle { result.in_transaction ≡ false }
    ensures closes { ClosesAs S.Store store result }
{
    let conn = store.into_connection();
    outside_transaction(&conn);
    conn
}
