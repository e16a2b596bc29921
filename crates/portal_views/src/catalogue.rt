//! Makes the catalogue by queries; in the second round it shows the remaining room.

ghost use Rattle.std.specs.Prelude.{◌≡◌};
ghost use Rattle.portal_rules.specs.inner.Room as left_by;
ghost use Rattle.portal_rules.specs.declared.phase.Round.TheVariants.{First, Second};
ghost use Rattle.portal_views.specs.inner.Base.{IfOk, filter_map, map, IsDatabase, Contradicts};
ghost use Rattle.portal_views.specs.inner.Catalogue.{offered_in, catalogue_shown, HasOffers};
ghost use Rattle.portal_views.specs.inner.Catalogue.{HasFirstPairs};
ghost use Rattle.portal_tables.specs.inner.Placements.{first_pairs};
ghost use Rattle.portal_tables.specs.Reads.{MayRead, Always, GivesOrFails, Blames, Reads};
ghost use Rattle.portal_tables.specs.inner.Rolls.{lecturers_shown, projects_shown};
ghost use Rattle.portal_tables.specs.inner.Shown.{shown_lecturer, shown_project};

use portal_rules::{
    LecturerRow, Listing, ProjectRow, Round, lecturer_left, listings_of, project_left,
};
use portal_tables::reading::decode::{decode_rows, push_some};
use portal_tables::sql::select::RollTable;
use portal_tables::{TableFault, first_pairs_in, roll_in};
use spa_rows::Key;
use sqlite::{Alter, Connection};
use std::alloc::{AllocError, Global};
use std::rc::Rc;

/// Returns the lecturers with room left, for the second round's catalogue. Each has the remaining
/// capacity.
fn lecturers_left(
    alloc: Global,
    lecturers: &[LecturerRow],
    projects: &[ProjectRow],
    pairs: &[(Key, Key)],
) -> Result<Vec<LecturerRow>, AllocError>
    ensures { IfOk result (λ v. v.items
        ≡ filter_map (left_by.lecturer_left projects.now pairs.now) lecturers.now) }
{
    let mut found = Vec::new(alloc);
    for lecturer in lecturers {
        let left = lecturer_left(alloc, projects, pairs, lecturer)?;
        push_some(&mut found, left)?;
    }
    Ok(found)
}

/// Returns the projects with room left, for the second round's catalogue. Each has the remaining
/// capacity.
fn projects_left(
    alloc: Global,
    projects: &[ProjectRow],
    pairs: &[(Key, Key)],
) -> Result<Vec<ProjectRow>, AllocError>
    ensures { IfOk result (λ v. v.items ≡ filter_map
        (left_by.project_left pairs.now) projects.now) }
{
    let mut found = Vec::new(alloc);
    for project in projects {
        let left = project_left(alloc, pairs, project)?;
        push_some(&mut found, left)?;
    }
    Ok(found)
}

/// Makes the second round's catalogue of the rows that queries read. It lists the projects with
/// room after the first round whose lecturers also have room.
fn listings_left(
    alloc: Global,
    lecturers: &[LecturerRow],
    projects: &[ProjectRow],
    pairs: &[(Key, Key)],
) -> Result<Vec<Listing>, AllocError>
    ensures { IfOk result (λ v. v.items
        ≡ offered_in Second lecturers.now projects.now pairs.now) }
{
    let teaching = lecturers_left(alloc, lecturers, projects, pairs)?;
    let vacant = projects_left(alloc, projects, pairs)?;
    listings_of(alloc, &teaching, &vacant)
}

/// Makes a round's catalogue of these rows, in the second round with a query. The query reads the
/// first round's result.
fn listings_in<S: Alter>(
    alloc: Global,
    conn: &mut Connection<S>,
    round: Round,
    lecturers: &[LecturerRow],
    projects: &[ProjectRow],
) -> Result<Vec<Listing>, TableFault>
    ensures { MayRead First S.Store Always
        (GivesOrFails (λ db v. v.items
        ≡ offered_in round lecturers.now projects.now (first_pairs db.trees))
        (λ db fault. Blames fault (IsDatabase db × HasFirstPairs round db.trees)))
        result conn.old conn.new }
{
    match round {
        Round::First => Ok(listings_of(alloc, lecturers, projects)?),
        Round::Second => {
            let pairs = first_pairs_in(alloc, conn)?;
            Ok(listings_left(alloc, lecturers, projects, &pairs)?)
        }
    }
}

/// Reads the rolls of lecturers and projects, to make the catalogue of them. Both are sorted by
/// key.
fn offers_in<S: Alter>(
    alloc: Global,
    conn: &mut Connection<S>,
) -> Result<(Vec<LecturerRow>, Vec<ProjectRow>), TableFault>
    ensures { Reads First S.Store Always
        (GivesOrFails (λ db rows. (rows.0.items ≡ map shown_lecturer (lecturers_shown db.trees))
        × (rows.1.items ≡ map shown_project (projects_shown db.trees)))
        (Contradicts HasOffers)) result conn.old conn.new }
{
    let lecturers = roll_in(alloc, conn, RollTable::Lecturers)?;
    let projects = roll_in(alloc, conn, RollTable::Projects)?;
    Ok((
        decode_rows(alloc, &lecturers)?,
        decode_rows(alloc, &projects)?,
    ))
}

/// Makes a round's catalogue by queries, sorted by project key. For the second round it also reads
/// the keys and assigned projects of the students. Fails with `Damaged` if a roll's keys are not
/// strictly ascending or a cell holds an invalid value. Fails with `Store` if the store reports an
/// error, and with `Memory` if memory runs out.
pub fn catalogue_in<S: Alter>(
    alloc: Global,
    conn: &mut Connection<S>,
    round: Round,
) -> Result<Rc<Vec<Listing>>, TableFault>
    ensures { Reads First S.Store Always
        (GivesOrFails (λ db shared. shared.value.items ≡ catalogue_shown round db.trees)
        (λ db fault. Blames fault (HasOffers db × HasFirstPairs round db.trees)))
        result conn.old conn.new }
{
    let offers = offers_in(alloc, conn)?;
    let listings = listings_in(alloc, conn, round, &offers.0, &offers.1)?;
    Ok(Rc::new(alloc, listings)?)
}
