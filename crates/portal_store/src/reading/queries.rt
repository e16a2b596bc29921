//! Identifies the caller, and makes the view from cache and queries.

ghost use Rattle.std.specs.Prelude.{◌≡◌, ◌≤◌, false, length, IfErr, List, None};
ghost use Rattle.sqlite.specs.Held.{state};
ghost use Rattle.sqlite.specs.State.{HasCleanDisk};
ghost use Rattle.portal_rules.specs.Good.{Good};
ghost use Rattle.portal_rules.specs.View as seen;
ghost use Rattle.portal_rules.specs.Words.{equals};
ghost use Rattle.portal_rules.specs.declared.phase.Round.TheVariants.{Second};
ghost use Rattle.portal_rules.specs.View.{sight_of, caller_among, OfficeCaller};
ghost use Rattle.portal_rules.specs.View.{student_with};
ghost use Rattle.portal_tables.specs.inner.Base.{Cells};
ghost use Rattle.portal_tables.specs.inner.Queries as asked;
ghost use Rattle.portal_tables.specs.Reads.{Always, Blames, Gives, GivesOrFails, HasReason, MayRead, NoFault, Reads, ReadsOr};
ghost use Rattle.portal_tables.specs.inner.Shown.{as_list};
ghost use Rattle.portal_store.specs.World.{world_in, world_of};
ghost use Rattle.portal_store.specs.Kept.{IsConsistent};
ghost use Rattle.portal_store.specs.inner.Reading.{IsNow, Remembers, RemembersIn, ShowsWorld, ShowsWorldIn};

use crate::reading::round::current_round;
use crate::reading::view_cache::ViewCache;
use portal_rules::{KeepFault, Listing, Phase, Round, View};
use portal_tables::reading::decode::at_most_one;
use portal_tables::sql::select::{Query, read_rows};
use portal_tables::{Office, TableFault};
use portal_views::{catalogue_in, lecturer_view, office_view, student_view};
use sqlite::{Alter, Connection, Row};
use std::alloc::Global;
use std::rc::Rc;

/// Finds the only row that the query shows, if there is one.
fn only_row<S: Alter>(
    alloc: Global,
    conn: &mut Connection<S>,
    query: Query<'_>,
) -> Result<Option<Row>, TableFault>
    ensures { Reads (asked.round_asked query.entry) S.Store Always
        (GivesOrFails (λ db row. asked.QueryShows query.entry db.trees (as_list row))
        (λ db fault. Blames fault ((rows : List Cells) → asked.QueryShows query.entry db.trees rows
        → length rows ≤ 1))) result conn.old conn.new }
{
    let rows = read_rows(alloc, conn, query)?;
    at_most_one(rows)
}

/// Returns the cached catalogue, or reads it from the tables and caches it.
fn shared_catalogue<S: Alter>(
    alloc: Global,
    conn: &mut Connection<S>,
    round: Round,
    cache: &mut ViewCache,
) -> Result<Rc<Vec<Listing>>, TableFault>
    ensures { MayRead round S.Store (RemembersIn round cache.old)
        (ShowsWorldIn round cache.new (λ w shared. shared.value.items ≡ seen.catalogue w))
        result conn.old conn.new }
{
    if let Some(shared) = &cache.catalogue {
        return Ok(shared.clone()?);
    }
    let shared = catalogue_in(alloc, conn, round)?;
    cache.catalogue = Some(shared.clone()?);
    Ok(shared)
}

/// Returns the office's view from the cache, or makes it by queries and caches it.
fn show_office<S: Alter>(
    alloc: Global,
    conn: &mut Connection<S>,
    round: Round,
    cache: &mut ViewCache,
    office: Office,
) -> Result<View, TableFault>
    ensures { MayRead round S.Store
        (λ db. RemembersIn round cache.old db × IsNow (world_in round db.trees) round office)
        (ShowsWorldIn round cache.new (λ w view. view ≡ sight_of w OfficeCaller))
        result conn.old conn.new }
{
    if let Some(view) = &cache.office {
        return Ok(View::Office(view.copy(alloc)?));
    }
    let catalogue = shared_catalogue(alloc, conn, round, cache)?;
    let view = office_view(alloc, conn, round, office, catalogue)?;
    cache.office = Some(view.copy(alloc)?);
    Ok(View::Office(view))
}

/// Returns the view of the student with the code, or `Nobody`, from cache and queries.
fn show_student<S: Alter>(
    alloc: Global,
    conn: &mut Connection<S>,
    round: Round,
    cache: &mut ViewCache,
    phase: Phase,
    code: &[u8],
) -> Result<View, TableFault>
    ensures { Reads round S.Store (RemembersIn round cache.old)
        (ShowsWorldIn round cache.new (λ w view. phase ≡ w.phase
        → view ≡ sight_of w (caller_among None (student_with w code.now))))
        result conn.old conn.new }
{
    let Some(row) = only_row(alloc, conn, Query::StudentByCode(code))? else {
        return Ok(View::Nobody);
    };
    let catalogue = shared_catalogue(alloc, conn, round, cache)?;
    Ok(View::Student(student_view(alloc, conn, round, phase, &row, catalogue)?))
}

/// Returns the view of a caller other than the office, from cache and queries.
fn show_person<S: Alter>(
    alloc: Global,
    conn: &mut Connection<S>,
    round: Round,
    cache: &mut ViewCache,
    phase: Phase,
    code: &[u8],
) -> Result<View, TableFault>
    ensures { Reads round S.Store (RemembersIn round cache.old)
        (ShowsWorldIn round cache.new (λ w view. phase ≡ w.phase → equals w.office code.now ≡ false
        → Good w → view ≡ seen.view w code.now))
        result conn.old conn.new }
{
    let Some(row) = only_row(alloc, conn, Query::LecturerByCode(code))? else {
        return show_student(alloc, conn, round, cache, phase, code);
    };
    let catalogue = shared_catalogue(alloc, conn, round, cache)?;
    Ok(View::Lecturer(lecturer_view(alloc, conn, round, phase, &row, catalogue)?))
}

/// Returns the view of the caller with the code, using and filling the cache.
pub(crate) fn show<S: Alter>(
    alloc: Global,
    conn: &mut Connection<S>,
    cache: &mut ViewCache,
    code: &[u8],
) -> Result<View, TableFault>
    ensures { Reads Second S.Store (Remembers cache.old)
        (ShowsWorld cache.new (λ w view. Good w → view ≡ seen.view w code.now))
        result conn.old conn.new }
{
    let (round, office) = current_round(alloc, conn)?;
    if office.code.as_bytes() == code {
        return show_office(alloc, conn, round, cache, office);
    }
    show_person(alloc, conn, round, cache, office.phase, code)
}

/// Returns the view of the caller with the code, by queries without a cache. For a student or a
/// lecturer it queries what that role may see. For the office it queries the rolls, and who has a
/// list, an applicant and a placement. The second round's catalogue also needs the students' keys
/// and first-round projects; it reads nothing else of them. No contract says which rows a query
/// reads; the SQL texts show it: of applicants, only key, name and placement are read for a
/// lecturer.
///
/// # Errors
///
/// Returns a fault if memory runs out, the connection fails or the rows represent no good world.
pub fn view<S: Alter>(
    alloc: Global,
    conn: &mut Connection<S>,
    code: &[u8],
) -> Result<View, KeepFault>
    ensures reads { ReadsOr NoFault Second S.Store IsConsistent
        (Gives (λ db view. Good (world_of db.trees)
        → view ≡ seen.view (world_of db.trees) code.now))
        result conn.old conn.new }
    ensures reason { IsConsistent (state S.Store conn.old).now
        → Good (world_of (state S.Store conn.old).now.trees) → HasCleanDisk (state S.Store conn.new)
        → IfErr result (λ fault. fault ≡ KeepFault.Store
        → HasReason (state S.Store conn.old) (state S.Store conn.new)) }
{
    let mut cache = ViewCache::nothing();
    match show(alloc, conn, &mut cache, code) {
        Ok(view) => Ok(view),
        Err(fault) => Err(KeepFault::from(fault)),
    }
}
