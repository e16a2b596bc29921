//! Makes one change of any kind, in a transaction of its own.

ghost use Rattle.std.specs.Prelude.{◌≡◌, false};
ghost use Rattle.sqlite.specs.Held.{state};
ghost use Rattle.portal_rules.specs.Meaning.{change_model};
ghost use Rattle.portal_rules.specs.World.{SecondRound};
ghost use Rattle.portal_store.specs.inner.Opening.{is_opening};
ghost use Rattle.portal_tables.specs.Tables.{IsCurrentSchema};
ghost use Rattle.portal_store.specs.Kept.{IsTransition};
ghost use Rattle.portal_store.specs.inner.Keeping.{IsTransitionFrom, IsTransitionIn};
ghost use Rattle.portal_store.specs.inner.Ending.{CommitsChange, LeavesMade};
ghost use Rattle.portal_store.specs.inner.Reading.{KeepsEntries};

use crate::changing::add_rows::{NewRows, add_rows};
use crate::changing::fill::fill_rankings;
use crate::changing::lists::{PutChoices, replace_ranking};
use crate::changing::phase::set_phase;
use crate::changing::placing::publish;
use crate::changing::second_round::open_second;
use crate::reading::round::round_in;
use portal_list::Entries;
use portal_rules::{Change, Round};
use portal_tables::{TableFault, commit, outside_transaction};
use sqlite::{Alter, Connection};
use std::alloc::Global;

/// Commits a change of any kind, given the round, or leaves the tables unchanged. `entries` still
/// match the world before it. `Damaged` means that the rows it read represent no good world.
fn commit_in_round<S: Alter>(
    alloc: Global,
    conn: &mut Connection<S>,
    entries: &mut Option<Entries>,
    round: Round,
    change: &Change,
) -> Result<(), TableFault>
    requires idle { conn.old.in_transaction ≡ false }
    ensures ends { is_opening (change_model change.now) ≡ false
        → CommitsChange (IsTransitionIn round (change_model change.now)) result
        (state S.Store conn.old)
        (state S.Store conn.new) }
    ensures opens { change_model change.now ≡ SecondRound
        → CommitsChange (IsTransitionFrom round SecondRound) result (state S.Store conn.old)
        (state S.Store conn.new) }
    ensures entries { IsCurrentSchema conn.old.schema
        → KeepsEntries entries.old entries.new (state S.Store conn.old) (state S.Store conn.new) }
{
    match change {
        Change::Choices { student, projects } => commit(
            alloc,
            conn,
            PutChoices {
                round,
                student,
                projects,
            },
        ),
        Change::Ranking { lecturer, students } => {
            replace_ranking(alloc, conn, round, lecturer, students)
        }
        Change::Lecturers(rows) => add_rows(alloc, conn, round, NewRows::Lecturers(rows)),
        Change::Projects(rows) => add_rows(alloc, conn, round, NewRows::Projects(rows)),
        Change::Students(rows) => add_rows(alloc, conn, round, NewRows::Students(rows)),
        Change::Phase(phase) => set_phase(alloc, conn, entries, round, *phase),
        Change::SecondRound => open_second(alloc, conn, round),
        Change::Result(pairs) => publish(alloc, conn, round, pairs),
        Change::Fill => fill_rankings(alloc, conn, entries, round),
    }
}

/// Reads the round and commits a change of any kind, or leaves the tables unchanged. `entries`
/// still match the world before it. `Damaged` means that the rows it read represent no good world.
pub(crate) fn commit_change<S: Alter>(
    alloc: Global,
    conn: &mut Connection<S>,
    entries: &mut Option<Entries>,
    change: &Change,
) -> Result<(), TableFault>
    requires idle { conn.old.in_transaction ≡ false }
    ensures ends { CommitsChange (IsTransition (change_model change.now)) result
        (state S.Store conn.old) (state S.Store conn.new) }
    ensures left { LeavesMade (IsTransition (change_model change.now)) (state S.Store conn.old)
        (state S.Store conn.new) }
    ensures entries { IsCurrentSchema conn.old.schema
        → KeepsEntries entries.old entries.new (state S.Store conn.old) (state S.Store conn.new) }
{
    outside_transaction(conn);
    let round = round_in(alloc, conn)?;
    commit_in_round(alloc, conn, entries, round, change)
}
