//! Publishes a result: writes placements and phase in one transaction.

ghost use Rattle.std.specs.Prelude.{◌≡◌, false, map, IfOk, is_none, option_map};
ghost use Rattle.std.specs.List.{filter_map};
ghost use Rattle.sqlite.specs.Held.{state};
ghost use Rattle.portal_rules.specs.World.{Placements, placement_in};
ghost use Rattle.portal_store.specs.inner.Keeping.{IsTransitionIn};
ghost use Rattle.portal_store.specs.inner.Ending.{CommitsChange};
ghost use Rattle.portal_store.specs.inner.Placing.{TurnsShown, TurnsLeft, assigned_of, pair_left};
ghost use Rattle.sqlite.specs.Order.{column};
ghost use Rattle.portal_tables.specs.Rows.{text_or_none};
ghost use Rattle.portal_rules.specs.declared.phase.Round.TheVariants.{First};

use portal_rules::index::Pairs;
use portal_rules::{Phase, Round};
use portal_tables::reading::cells::{bytes_at, key_at};
use portal_tables::sql::select::{Query, RollTable, read};
use portal_tables::{
    Assignment, TableChange, TableFault, assign_all, commit, outside_transaction, put_placements,
    set_phase,
};
use spa_rows::Key;
use sqlite::types::ValueRef;
use sqlite::{Alter, Connection, Error, Row, Transaction};
use std::alloc::{AllocError, Global};

/// Returns the bytes of the project that the result to publish gives to this student, if any. The
/// first pair with the student's key counts.
fn project_bytes<'a>(pairs: &Pairs<'a>, student: &[u8]) -> Option<&'a [u8]>
    ensures { option_map (λ p. p.now) result ≡ placement_in pairs.now student.now }
{
    let project = pairs.project_of(student)?;
    Some(project.as_bytes())
}

/// Returns the assignments to write: each student of the rows with the project of the pairs, or
/// none.
fn assignments<'a>(
    alloc: Global,
    rows: &'a [Row],
    pairs: &Pairs<'a>,
) -> Result<Vec<Assignment<'a>>, AllocError>
    ensures { IfOk result (λ v. v.items ≡ map (assigned_of pairs.now) rows.now) }
{
    let mut all = Vec::with_capacity(alloc, rows.len())?;
    for row in rows {
        let student = bytes_at(row, 0);
        all.push(Assignment {
            student,
            project: project_bytes(pairs, student),
        })?;
    }
    Ok(all)
}

/// The step that publishes the first round's result: it writes the placements, then the phase.
/// `rows` must be the roll of students.
struct PutResult<'a> {
    rows: &'a [Row],
    pairs: &'a [(Key, Key)],
}

impl TableChange for PutResult<'_> {
    ghost makes = { λ s. TurnsShown First s.pairs.now s.rows.now };

    fn take<S: Alter>(self, alloc: Global, tx: &mut Transaction<'_, S>) -> Result<(), Error> {
        let PutResult { rows, pairs } = self;
        let pairs = Pairs::of(alloc, pairs)?;
        let all = assignments(alloc, rows, &pairs)?;
        assign_all(tx, &all)?;
        set_phase(tx, Round::First, Phase::Published)
    }
}

/// Returns whether the row's student has no project of the first round, to publish the second's
/// result.
fn is_left(row: &Row) -> bool
    ensures { result ≡ is_none (text_or_none (column row.now 3)) }
{
    match row.get_ref(3) {
        Ok(ValueRef::Null) | Err(_) => true,
        Ok(_) => false,
    }
}

/// Returns the pair to publish for the row's student, if there is one. A student with a project of
/// the first round has none.
fn pair_left(alloc: Global, row: &Row, pairs: &Pairs<'_>) -> Result<Option<(Key, Key)>, TableFault>
    ensures { IfOk result (λ o. o ≡ pair_left pairs.now row.now) }
{
    if !is_left(row) {
        return Ok(None);
    }
    match pairs.project_of(bytes_at(row, 0)) {
        Some(project) => Ok(Some((key_at(alloc, row, 0)?, project.copy(alloc)?))),
        None => Ok(None),
    }
}

/// Returns the pairs to publish in the second round: those of students without a first-round
/// project.
fn pairs_left(
    alloc: Global,
    rows: &[Row],
    pairs: &[(Key, Key)],
) -> Result<Vec<(Key, Key)>, TableFault>
    ensures { IfOk result (λ v. v.items ≡ filter_map (pair_left pairs.now) rows.now) }
{
    let pairs = Pairs::of(alloc, pairs)?;
    let mut found = Vec::new(alloc);
    for row in rows {
        if let Some(pair) = pair_left(alloc, row, &pairs)? {
            found.push(pair)?;
        }
    }
    Ok(found)
}

/// The step that publishes the second round's result: it writes the placements of students without
/// a project of the first round, then the phase.
struct PutSecond<'a> {
    left: &'a [(Key, Key)],
}

impl TableChange for PutSecond<'_> {
    ghost makes = { λ s. TurnsLeft s.left.now };

    fn take<S: Alter>(self, alloc: Global, tx: &mut Transaction<'_, S>) -> Result<(), Error> {
        let PutSecond { left } = self;
        put_placements(alloc, tx, left)?;
        set_phase(tx, Round::Second, Phase::Published)
    }
}

/// Publishes the result in one transaction. Each student who takes part in the round gets the
/// project of the first pair with the student's key, or none. An error changes nothing; after `Ok`
/// the result survives a crash.
pub(crate) fn publish<S: Alter>(
    alloc: Global,
    conn: &mut Connection<S>,
    round: Round,
    pairs: &[(Key, Key)],
) -> Result<(), TableFault>
    requires idle { conn.old.in_transaction ≡ false }
    ensures { CommitsChange (IsTransitionIn round (Placements pairs.now)) result
        (state S.Store conn.old) (state S.Store conn.new) }
{
    outside_transaction(conn);
    let rows = read(conn, Query::Whole(RollTable::Students))?;
    match round {
        Round::First => commit(alloc, conn, PutResult { rows: &rows, pairs }),
        Round::Second => {
            let left = pairs_left(alloc, &rows, pairs)?;
            commit(alloc, conn, PutSecond { left: &left })
        }
    }
}
