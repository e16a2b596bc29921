//! Commits a step in a transaction of its own; `outside_transaction` states what holds outside one.

ghost use Rattle.std.specs.Prelude.{◌≡◌};
ghost use Rattle.portal_tables.specs.inner.Base.{false, Err, OnOk, OnErr, IsTrue, HasCleanDisk};
ghost use Rattle.portal_tables.specs.inner.Base.{Survives, state, Database, IsLive};
ghost use Rattle.portal_tables.specs.Steps.{Commits, IsAfter, LeavesOnly, Stays};
ghost use Rattle.portal_tables.specs.Running.{Does, GoesOn};
ghost use Rattle.portal_tables.specs.Reads.{IsCommitted};

use crate::fault::TableFault;
use sqlite::{Alter, Connection, Error, Transaction};
use std::alloc::Global;

/// A change of the tables within one transaction.
pub trait TableChange {
    // how the step changes the database
    ghost makes: { Self → Database → Database → Type 0 };

    /// Performs the step. After an error the caller should drop the transaction to roll it back.
    fn take<S: Alter>(self, alloc: Global, tx: &mut Transaction<'_, S>) -> Result<(), Error>
        ensures { Does S.Store (GoesOn (makes self)) result tx.old tx.new };
}

/// States for proofs what holds of a connection outside a transaction, and does nothing. Such a
/// connection shows what is committed, and an open one has a sound database.
pub fn outside_transaction<S: Alter>(conn: &Connection<S>)
    requires idle { conn.now.in_transaction ≡ false }
    ensures committed { IsCommitted (state S.Store conn.now) }
    ensures live { IsLive (state S.Store conn.now) }
{
    let _idle = conn.is_autocommit();
    let _live = conn.schema();
}

/// Performs the step in a transaction of its own and commits it. After an error nothing has
/// changed, if the disk is clean and the connection still open. The fault is never `Damaged`. After
/// `Ok`, a crash leaves the result of the step, if the disk is clean.
pub fn commit<S: Alter, T: TableChange>(
    alloc: Global,
    conn: &mut Connection<S>,
    step: T,
) -> Result<(), TableFault>
    requires idle { conn.old.in_transaction ≡ false }
    ensures idle { conn.new.in_transaction ≡ false }
    ensures ok { HasCleanDisk (state S.Store conn.new)
        → OnOk result (Commits (T.makes step) (state S.Store conn.old) (state S.Store conn.new)) }
    ensures err { HasCleanDisk (state S.Store conn.new) → IsTrue (state S.Store conn.new).is_open
        → OnErr result (Stays (state S.Store conn.old) (state S.Store conn.new)) }
    ensures durable { HasCleanDisk (state S.Store conn.new)
        → OnOk result (LeavesOnly (state S.Store conn.new)) }
    ensures fault { result ≡ Err TableFault.Damaged → ⊥ }
    ensures crash { Survives (state S.Store conn.old) (state S.Store conn.new)
        (IsAfter (T.makes step) (state S.Store conn.old)) }
{
    outside_transaction(conn);
    let mut tx = conn.transaction();
    step.take(alloc, &mut tx)?;
    tx.commit()?;
    Ok(())
}
