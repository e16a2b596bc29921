//! Replaces a student's list or a lecturer's ranking, in one transaction.

ghost use Rattle.std.specs.Prelude.{◌≡◌, false};
ghost use Rattle.sqlite.specs.Held.{state};
ghost use Rattle.portal_rules.specs.World.{Choices, Ranks};
ghost use Rattle.portal_store.specs.inner.Keeping.{IsTransitionIn};
ghost use Rattle.portal_store.specs.inner.Ending.{CommitsChange};
ghost use Rattle.portal_store.specs.inner.Putting.{TurnsThere};

use portal_rules::Round;
use portal_tables::sql::list_table::Lists;
use portal_tables::sql::select::{Query, read};
use portal_tables::sql::update::set_ranked;
use portal_tables::{TableChange, TableFault, commit, outside_transaction, put_list, rank_second};
use spa_rows::Key;
use sqlite::{Alter, Connection, Error, Transaction};
use std::alloc::Global;

/// The step that replaces the student's list by these projects, best first. It refuses more than
/// 2,000 projects with `TooBig`.
#[derive(Drop)]
pub(crate) struct PutChoices<'a> {
    pub round: Round,
    pub student: &'a Key,
    pub projects: &'a [Key],
}

impl TableChange for PutChoices<'_> {
    ghost makes = { λ s. IsTransitionIn s.round (Choices s.student.now s.projects.now) };

    fn take<S: Alter>(self, alloc: Global, tx: &mut Transaction<'_, S>) -> Result<(), Error> {
        put_list(
            alloc,
            tx,
            Lists::Choices(self.round),
            self.student,
            self.projects,
        )
    }
}

/// The step that replaces the ranking of a lecturer on the roll by these students, best first. It
/// also marks that the ranking exists: in the lecturer's row in the first round, in a row of
/// `ranked2` in the second. Like `PutChoices`, it refuses more than 2,000 entries.
#[derive(Drop)]
pub(crate) struct PutRanking<'a> {
    pub round: Round,
    pub lecturer: &'a Key,
    pub students: &'a [Key],
}

impl TableChange for PutRanking<'_> {
    ghost makes = { λ s. TurnsThere s.round s.lecturer.now s.students.now };

    fn take<S: Alter>(self, alloc: Global, tx: &mut Transaction<'_, S>) -> Result<(), Error> {
        put_list(
            alloc,
            tx,
            Lists::Rankings(self.round),
            self.lecturer,
            self.students,
        )?;
        match self.round {
            Round::First => set_ranked(tx, self.lecturer.as_bytes()),
            Round::Second => rank_second(tx, self.lecturer.as_bytes()),
        }
    }
}

/// Replaces the lecturer's ranking in one transaction, if the lecturer is on the roll. The students
/// are best first.
pub(crate) fn replace_ranking<S: Alter>(
    alloc: Global,
    conn: &mut Connection<S>,
    round: Round,
    lecturer: &Key,
    students: &[Key],
) -> Result<(), TableFault>
    requires idle { conn.old.in_transaction ≡ false }
    ensures { CommitsChange (IsTransitionIn round (Ranks lecturer.now students.now)) result
        (state S.Store conn.old) (state S.Store conn.new) }
{
    outside_transaction(conn);
    let there = read(conn, Query::LecturerByKey(lecturer.as_bytes()))?;
    if there.is_empty() {
        return Ok(());
    }
    commit(
        alloc,
        conn,
        PutRanking {
            round,
            lecturer,
            students,
        },
    )
}
