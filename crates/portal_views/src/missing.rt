//! Finds the students whose list is missing, and the lecturers whose ranking is missing.

ghost use Rattle.std.specs.Prelude.{◌≡◌, ◌&&◌, is_none, if◌then◌else◌};
ghost use Rattle.portal_rules.specs.World.{is_from_ranking};
ghost use Rattle.portal_views.specs.inner.Base.{[], Some, None, Err, IfOk, AllByRecursion, map};
ghost use Rattle.portal_views.specs.inner.Base.{not, filter, has, equals, Rise};
ghost use Rattle.portal_views.specs.inner.Office.{HasWholeLists, is_chosen_shown, is_wanted_shown};
ghost use Rattle.portal_views.specs.inner.Office.{waiting_key, waiting_keys, unlisted};
ghost use Rattle.portal_views.specs.inner.Lines.{HasKeyForm};
ghost use Rattle.portal_tables.specs.Reads.{MayRead, GivesOrFails, Blames, Reads, Gives};
ghost use Rattle.portal_tables.specs.inner.Placements.{placement_before};
ghost use Rattle.portal_tables.specs.inner.Shown.{first_cell, shown_project};

use portal_rules::{Phase, Round};
use portal_tables::reading::cells::{bytes_at, key_at};
use portal_tables::reading::decode::push_some;
use portal_tables::sql::list_table::Lists;
use portal_tables::sql::select::{Query, finds_any};
use portal_tables::{Rolls, TableFault, has_list_in, is_named, read_in_order, takes_part};
use spa_rows::Key;
use sqlite::{Alter, Connection, Row};
use std::alloc::Global;

/// Returns the keys of the students who take part in the round and are missing from `others`, in
/// the order of `students`. Both have their keys in column 0, and those of `others` ascend strictly.
fn keys_not_among(
    alloc: Global,
    round: Round,
    students: &[Row],
    others: &[Row],
) -> Result<Vec<Key>, TableFault>
    requires { Rise (map first_cell others.now) }
    ensures ok { IfOk result (λ v. v.items
        ≡ map first_cell (filter (λ c. is_none (placement_before round c)
        && not (has (map first_cell others.now) (first_cell c))) students.now)) }
    ensures damaged { result ≡ Err TableFault.Damaged
        → AllByRecursion HasKeyForm students.now → ⊥ }
    ensures store { result ≡ Err TableFault.Store → ⊥ }
{
    let mut keys = Vec::new(alloc);
    for row in students {
        if takes_part(round, row) && !is_named(others, bytes_at(row, 0)) {
            keys.push(key_at(alloc, row, 0)?)?;
        }
    }
    Ok(keys)
}

/// Finds by a query the students who take part in the round and have no list.
pub(crate) fn without_list<S: Alter>(
    alloc: Global,
    conn: &mut Connection<S>,
    round: Round,
    students: &[Row],
) -> Result<Vec<Key>, TableFault>
    ensures { Reads round S.Store (HasWholeLists round)
        (GivesOrFails (λ db v. v.items ≡ unlisted round db.trees students.now)
        (λ db fault. Blames fault (AllByRecursion HasKeyForm students.now)))
        result conn.old conn.new }
{
    let listed = read_in_order(alloc, conn, Query::Listed(round))?;
    keys_not_among(alloc, round, students, &listed)
}

/// Finds by a query whether a student lists the project, if it is this lecturer's. Returns `false`
/// for another lecturer's project.
fn is_chosen_in<S: Alter>(
    conn: &mut Connection<S>,
    round: Round,
    lecturer: &Row,
    project: &Row,
) -> Result<bool, TableFault>
    ensures undamaged { result ≡ Err TableFault.Damaged → ⊥ }
    ensures reads { MayRead round S.Store (HasWholeLists round)
        (Gives (λ db yes. yes
        ≡ (equals (shown_project project.now).lecturer (first_cell lecturer.now)
        && is_chosen_shown round db.trees (shown_project project.now).key)))
        result conn.old conn.new }
{
    if bytes_at(project, 1) != bytes_at(lecturer, 0) {
        return Ok(false);
    }
    Ok(finds_any(conn, Query::Choosers(round, bytes_at(project, 0)))?)
}

/// Finds by queries whether a project of the lecturer is on a student's list.
fn has_applicant<S: Alter>(
    conn: &mut Connection<S>,
    round: Round,
    projects: &[Row],
    lecturer: &Row,
) -> Result<bool, TableFault>
    ensures undamaged { result ≡ Err TableFault.Damaged → ⊥ }
    ensures reads { MayRead round S.Store (HasWholeLists round)
        (Gives (λ db yes. yes
        ≡ is_wanted_shown round db.trees (map shown_project projects.now)
        (first_cell lecturer.now))) result conn.old conn.new }
{
    for project in projects {
        if is_chosen_in(conn, round, lecturer, project)? {
            return Ok(true);
        }
    }
    Ok(false)
}

/// Returns the lecturer's key if queries find a project of the lecturer on a student's list.
fn wanted_in<S: Alter>(
    alloc: Global,
    conn: &mut Connection<S>,
    round: Round,
    projects: &[Row],
    lecturer: &Row,
) -> Result<Option<Key>, TableFault>
    ensures damaged { result ≡ Err TableFault.Damaged → HasKeyForm lecturer.now → ⊥ }
    ensures reads { MayRead round S.Store (HasWholeLists round)
        (Gives (λ db key. key
        ≡ (if is_wanted_shown round db.trees (map shown_project projects.now)
        (first_cell lecturer.now) then Some (first_cell lecturer.now) else None)))
        result conn.old conn.new }
{
    if !has_applicant(conn, round, projects, lecturer)? {
        return Ok(None);
    }
    Ok(Some(key_at(alloc, lecturer, 0)?))
}

/// Finds by queries whether the lecturer has an applicant and no ranking. If so, it returns the
/// lecturer's key.
fn waiting_in<S: Alter>(
    alloc: Global,
    conn: &mut Connection<S>,
    round: Round,
    projects: &[Row],
    lecturer: &Row,
) -> Result<Option<Key>, TableFault>
    ensures damaged { result ≡ Err TableFault.Damaged → HasKeyForm lecturer.now → ⊥ }
    ensures reads { MayRead round S.Store (HasWholeLists round)
        (Gives (λ db key. key
        ≡ waiting_key round db.trees (map shown_project projects.now) lecturer.now))
        result conn.old conn.new }
{
    if has_list_in(conn, Lists::Rankings(round), lecturer)? {
        return Ok(None);
    }
    wanted_in(alloc, conn, round, projects, lecturer)
}

/// Finds by queries the lecturers still to rank: those who have an applicant and no ranking. Before
/// the ranking phase there are none.
pub(crate) fn still_to_rank<S: Alter>(
    alloc: Global,
    conn: &mut Connection<S>,
    round: Round,
    phase: Phase,
    rolls: &Rolls,
) -> Result<Vec<Key>, TableFault>
    ensures damaged { result ≡ Err TableFault.Damaged
        → AllByRecursion HasKeyForm rolls.now.lecturers.items → ⊥ }
    ensures reads { MayRead round S.Store (HasWholeLists round)
        (Gives (λ db v. v.items
        ≡ (if is_from_ranking phase then waiting_keys round db.trees
        (map shown_project rolls.now.projects.items) rolls.now.lecturers.items else [])))
        result conn.old conn.new }
{
    let mut keys = Vec::new(alloc);
    if !phase.is_from_ranking() {
        return Ok(keys);
    }
    for lecturer in &rolls.lecturers {
        let key = waiting_in(alloc, conn, round, &rolls.projects, lecturer)?;
        push_some(&mut keys, key)?;
    }
    Ok(keys)
}
