//! Sets the phase of a round, in one transaction.

ghost use Rattle.std.specs.Prelude.{◌≡◌, false};
ghost use Rattle.sqlite.specs.Held.{state};
ghost use Rattle.portal_rules.specs.World.{To};
ghost use Rattle.portal_tables.specs.Tables.{IsCurrentSchema};
ghost use Rattle.portal_store.specs.inner.Keeping.{IsTransitionIn};
ghost use Rattle.portal_store.specs.inner.Ending.{CommitsChange};
ghost use Rattle.portal_store.specs.inner.Reading.{KeepsEntries};

use crate::reading::load::load_entries;
use portal_list::Entries;
use portal_rules::{Phase, Round};
use portal_tables::{
    TableChange, TableFault, commit, outside_transaction, set_phase as write_phase,
};
use sqlite::{Alter, Connection, Error, Transaction};
use std::alloc::Global;

/// The step that moves the portal to this phase.
struct SetPhase {
    round: Round,
    phase: Phase,
}

impl TableChange for SetPhase {
    ghost makes = { λ s. IsTransitionIn s.round (To s.phase) };

    fn take<S: Alter>(self, _alloc: Global, tx: &mut Transaction<'_, S>) -> Result<(), Error> {
        let SetPhase { round, phase } = self;
        write_phase(tx, round, phase)
    }
}

/// Sets the phase of the round, in one transaction. If no entries are cached, it loads them first,
/// so that a publication finds them. `Damaged` means that the rows it read represent no good world.
pub(crate) fn set_phase<S: Alter>(
    alloc: Global,
    conn: &mut Connection<S>,
    entries: &mut Option<Entries>,
    round: Round,
    phase: Phase,
) -> Result<(), TableFault>
    requires idle { conn.old.in_transaction ≡ false }
    ensures ends { CommitsChange (IsTransitionIn round (To phase)) result (state S.Store conn.old)
        (state S.Store conn.new) }
    ensures entries { IsCurrentSchema conn.old.schema
        → KeepsEntries entries.old entries.new (state S.Store conn.old) (state S.Store conn.new) }
{
    outside_transaction(conn);
    if entries.is_some() {
        return commit(alloc, conn, SetPhase { round, phase });
    }
    let read = load_entries(alloc, conn)?;
    *entries = Some(read);
    commit(alloc, conn, SetPhase { round, phase })
}
