//! Makes the office's view by queries.

ghost use Rattle.std.specs.Prelude.{◌≡◌};
ghost use Rattle.portal_views.specs.inner.Base.{Err, IfOk, AllByRecursion, map, Contradicts};
ghost use Rattle.portal_views.specs.inner.Base.{IsLecturer, IsProject, IsStudent};
ghost use Rattle.portal_views.specs.inner.Office.{HasWholeLists, office_shown, IsReadableByOffice};
ghost use Rattle.portal_tables.specs.Reads.{GivesOrFails, Reads};
ghost use Rattle.portal_tables.specs.inner.Shown.{shown_lecturer, shown_project, shown_student};

use crate::missing::{still_to_rank, without_list};
use portal_rules::{Listing, OfficeView, Round};
use portal_tables::{Office, Rolls, TableFault, pairs_in, parts_of, rolls_in};
use spa_rows::Key;
use sqlite::{Alter, Connection};
use std::alloc::Global;
use std::rc::Rc;

/// Assembles the office's view from the parts that were read.
fn office_view_from(
    alloc: Global,
    round: Round,
    office: Office,
    catalogue: Rc<Vec<Listing>>,
    rolls: &Rolls,
    without_list: Vec<Key>,
    still_to_rank: Vec<Key>,
    pairs: Vec<(Key, Key)>,
) -> Result<OfficeView, TableFault>
    ensures ok { IfOk result (λ v. v
        ≡ record {
          round = round;
          phase = office.phase;
          office_code = office.code;
          lecturers = map shown_lecturer rolls.now.lecturers.items;
          projects = map shown_project rolls.now.projects.items;
          students = map shown_student rolls.now.students.items;
          catalogue = catalogue.value.items;
          without_list = without_list.items;
          still_to_rank = still_to_rank.items;
          pairs = pairs.items;
        }) }
    ensures damaged { result ≡ Err TableFault.Damaged
        → AllByRecursion (λ c. IsLecturer (shown_lecturer c)) rolls.now.lecturers.items
        → AllByRecursion (λ c. IsProject (shown_project c)) rolls.now.projects.items
        → AllByRecursion (λ c. IsStudent (shown_student c)) rolls.now.students.items → ⊥ }
    ensures store { result ≡ Err TableFault.Store → ⊥ }
{
    let parts = parts_of(alloc, rolls)?;
    Ok(OfficeView {
        round,
        phase: office.phase,
        office_code: office.code,
        lecturers: Rc::new(alloc, parts.lecturers)?,
        projects: Rc::new(alloc, parts.projects)?,
        students: Rc::new(alloc, parts.students)?,
        catalogue,
        without_list,
        still_to_rank,
        pairs,
    })
}

/// Makes by queries the office's view for this round, from the office's row and the catalogue.
/// Fails with `Damaged` if rows are not as the portal writes them. Fails with `Store` if the store
/// reports an error, and with `Memory` if memory runs out.
pub fn office_view<S: Alter>(
    alloc: Global,
    conn: &mut Connection<S>,
    round: Round,
    office: Office,
    catalogue: Rc<Vec<Listing>>,
) -> Result<OfficeView, TableFault>
    ensures { Reads round S.Store (HasWholeLists round)
        (GivesOrFails (λ db v. v
        ≡ office_shown round db.trees office.phase office.code catalogue.value.items)
        (Contradicts (IsReadableByOffice round))) result conn.old conn.new }
{
    let rolls = rolls_in(alloc, conn)?;
    let unlisted = without_list(alloc, conn, round, &rolls.students)?;
    let waiting = still_to_rank(alloc, conn, round, office.phase, &rolls)?;
    let pairs = pairs_in(alloc, conn, round, Some(office.phase), &rolls.students)?;
    office_view_from(
        alloc, round, office, catalogue, &rolls, unlisted, waiting, pairs,
    )
}
