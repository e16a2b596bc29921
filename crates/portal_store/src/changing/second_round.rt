//! Opens the second round in the database, in one transaction.

ghost use Rattle.std.specs.Prelude.{◌≡◌, ◌&&◌, false, not};
ghost use Rattle.sqlite.specs.Held.{state};
ghost use Rattle.portal_rules.specs.World.{SecondRound, is_published, is_second};
ghost use Rattle.portal_store.specs.inner.Keeping.{IsTransitionFrom};
ghost use Rattle.portal_store.specs.inner.Ending.{CommitsChange};
ghost use Rattle.portal_store.specs.inner.Opening.{OpensSecondRound};

use crate::reading::round::first_phase;
use portal_rules::{Phase, Round};
use portal_tables::{TableChange, TableFault, commit, outside_transaction, set_phase};
use sqlite::{Alter, Connection, Error, Transaction};
use std::alloc::Global;

/// The step that writes the first phase of the second round into `second`.
#[derive(Drop)]
struct OpenSecond;

impl TableChange for OpenSecond {
    ghost makes = { λ _. OpensSecondRound };

    fn take<S: Alter>(self, _alloc: Global, tx: &mut Transaction<'_, S>) -> Result<(), Error> {
        set_phase(tx, Round::Second, Phase::Choosing)
    }
}

/// Returns whether the store opens the second round from this round and phase.
fn opens_from(round: Round, phase: Phase) -> bool
    ensures { result ≡ (not (is_second round) && is_published phase) }
{
    match (round, phase) {
        (Round::First, Phase::Published) => true,
        _ => false,
    }
}

/// Opens the second round in one transaction if the first is published, and otherwise changes
/// nothing.
pub(crate) fn open_second<S: Alter>(
    alloc: Global,
    conn: &mut Connection<S>,
    round: Round,
) -> Result<(), TableFault>
    requires idle { conn.old.in_transaction ≡ false }
    ensures { CommitsChange (IsTransitionFrom round SecondRound) result (state S.Store conn.old)
        (state S.Store conn.new) }
{
    outside_transaction(conn);
    let phase = first_phase(alloc, conn)?;
    if opens_from(round, phase) {
        commit(alloc, conn, OpenSecond)
    } else {
        Ok(())
    }
}
