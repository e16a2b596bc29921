//! Makes a lecturer's view by queries for projects, applicants and ranking.

ghost use Rattle.std.specs.Prelude.{◌≡◌};
ghost use Rattle.portal_views.specs.inner.Base.{Err, IfOk, AllByRecursion, option_map, map};
ghost use Rattle.portal_views.specs.inner.Base.{IsDatabase, Contradicts};
ghost use Rattle.portal_views.specs.inner.Callers.{own_keys_shown, HasOwnKeys, lecturer_shown};
ghost use Rattle.portal_views.specs.inner.Callers.{IsReadableByLecturer};
ghost use Rattle.portal_views.specs.inner.Lines.{HasTables, HasKeyForm};
ghost use Rattle.portal_views.specs.inner.Catalogue.{IsCatalogue, own_listed};
ghost use Rattle.portal_tables.specs.declared.sql.list_table.Lists.TheVariants.{Rankings};
ghost use Rattle.portal_tables.specs.inner.Owners.{IsFine, with_list, ranking_shown};
ghost use Rattle.portal_tables.specs.Reads.{MayRead, GivesOrFails, Blames};
ghost use Rattle.portal_tables.specs.inner.Shown.{first_cell};

use crate::applicants::project_students;
use crate::lines::person_at;
use portal_rules::{LecturerView, Listing, Phase, Round};
use portal_tables::reading::cells::{bytes_at, capacity_at, key_at};
use portal_tables::sql::list_table::Lists;
use portal_tables::sql::select::Query;
use portal_tables::{TableFault, entry_in, read_in_order};
use spa_rows::Key;
use sqlite::{Alter, Connection, Row};
use std::alloc::{AllocError, Global};
use std::rc::Rc;

/// Finds the lecturer's projects in the catalogue, for the lecturer's view. Returns their keys in
/// its order.
fn keys_listed(
    alloc: Global,
    catalogue: &[Listing],
    lecturer: &[u8],
) -> Result<Vec<Key>, AllocError>
    ensures { IfOk result (λ v. v.items ≡ own_listed catalogue.now lecturer.now) }
{
    let mut own = Vec::new(alloc);
    for project in catalogue {
        if project.lecturer.as_bytes() == lecturer {
            own.push(project.key.copy(alloc)?)?;
        }
    }
    Ok(own)
}

/// Decodes the keys of the lecturer's projects, in column 0 of the rows.
fn keys_of(alloc: Global, rows: &[Row]) -> Result<Vec<Key>, TableFault>
    ensures ok { IfOk result (λ v. v.items ≡ map first_cell rows.now) }
    ensures damaged { result ≡ Err TableFault.Damaged → AllByRecursion HasKeyForm rows.now → ⊥ }
    ensures store { result ≡ Err TableFault.Store → ⊥ }
{
    let mut keys = Vec::with_capacity(alloc, rows.len())?;
    for row in rows {
        keys.push(key_at(alloc, row, 0)?)?;
    }
    Ok(keys)
}

/// Returns the keys of the lecturer's projects, from the catalogue or by a query. In the first
/// round the catalogue has all of them, and the second round needs a query.
fn own_projects<S: Alter>(
    alloc: Global,
    conn: &mut Connection<S>,
    round: Round,
    lecturer: &[u8],
    catalogue: &[Listing],
) -> Result<Vec<Key>, TableFault>
    ensures { MayRead round S.Store HasTables
        (GivesOrFails (λ db v. IsCatalogue round db.trees catalogue.now
        → v.items ≡ own_keys_shown db.trees lecturer.now)
        (Contradicts (HasOwnKeys lecturer.now))) result conn.old conn.new }
{
    match round {
        Round::First => Ok(keys_listed(alloc, catalogue, lecturer)?),
        Round::Second => {
            let rows = read_in_order(alloc, conn, Query::ProjectsOf(lecturer))?;
            keys_of(alloc, &rows)
        }
    }
}

/// Returns the ranking that was read, without the lecturer's key.
fn list_of(entry: Option<(Key, Vec<Key>)>) -> Option<Vec<Key>>
    ensures { option_map (λ v. v.items) result
        ≡ option_map (λ e. e.1) (option_map with_list entry) }
{
    match entry {
        Some((_, list)) => Some(list),
        None => None,
    }
}

/// Reads the ranking of the lecturer in this row, if there is one, for the lecturer's view.
fn ranking_in<S: Alter>(
    alloc: Global,
    conn: &mut Connection<S>,
    round: Round,
    row: &Row,
) -> Result<Option<Vec<Key>>, TableFault>
    ensures { MayRead round S.Store IsDatabase
        (GivesOrFails (λ db o. option_map (λ v. v.items) o ≡ ranking_shown round db.trees row.now)
        (λ db fault. Blames fault (IsFine (Rankings round) db.trees row.now)))
        result conn.old conn.new }
{
    let entry = entry_in(alloc, conn, Lists::Rankings(round), row)?;
    Ok(list_of(entry))
}

/// Makes by queries the view of the lecturer in this row, for this round and phase. In the first
/// round the lecturer's projects come from the catalogue, which must be that of the tables. Fails
/// with `Damaged` if rows are not as the portal writes them. Fails with `Store` if the store
/// reports an error, and with `Memory` if memory runs out.
pub fn lecturer_view<S: Alter>(
    alloc: Global,
    conn: &mut Connection<S>,
    round: Round,
    phase: Phase,
    row: &Row,
    catalogue: Rc<Vec<Listing>>,
) -> Result<LecturerView, TableFault>
    ensures { MayRead round S.Store HasTables
        (GivesOrFails (λ db v. IsCatalogue round db.trees catalogue.value.items
        → v ≡ lecturer_shown round db.trees phase row.now catalogue.value.items)
        (Contradicts (IsReadableByLecturer round row.now))) result conn.old conn.new }
{
    let own = own_projects(alloc, conn, round, bytes_at(row, 0), &catalogue)?;
    let ranking = ranking_in(alloc, conn, round, row)?;
    let told = project_students(alloc, conn, round, phase, &own)?;
    Ok(LecturerView {
        round,
        phase,
        me: person_at(alloc, row)?,
        capacity: capacity_at(row, 3)?,
        catalogue,
        applicants: told.applicants,
        ranking,
        placed: told.placed,
    })
}
