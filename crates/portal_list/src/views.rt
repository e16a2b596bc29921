//! Finds students and lecturers by code; makes each role's view from the entries.

ghost use Rattle.std.specs.Prelude.{◌≡◌, IfOk, option_map};
ghost use Rattle.std.specs.List.{find};
ghost use Rattle.portal_rules.specs.Words.{equals};
ghost use Rattle.portal_rules.specs.View.{student_sees, lecturer_sees, office_sees};

mod by_project;
mod catalogue;
mod office;
mod placements;

use crate::copies::{person_of, place_copy, project_rows_of, ranking_copy};
use crate::entries::{LecturerEntry, StudentEntry};
use crate::keeper::ListKeeper;
use by_project::{applicants_by_project, placed_by_project};
pub(crate) use catalogue::catalogue_of;
pub(crate) use office::lecturers_to_rank;
use office::{lecturer_rows, still_to_rank, student_rows, without_list};
use placements::{pairs_of, placement_shown};
use portal_rules::{LecturerView, OfficeView, StudentView, copy_keys};
use std::alloc::{AllocError, Global};
use std::rc::Rc;

/// Finds the entry of the lecturer with this code.
pub(crate) fn lecturer_with<'a>(
    lecturers: &'a [LecturerEntry],
    code: &[u8],
) -> Option<&'a LecturerEntry>
    ensures { option_map (λ l. l.now) result ≡ find
        (λ l. equals l.row.code code.now) lecturers.now }
{
    lecturers.iter().find(|l| l.row.code.as_bytes() == code)
}

/// Finds the entry of the student with this code.
pub(crate) fn student_with<'a>(
    students: &'a [StudentEntry],
    code: &[u8],
) -> Option<&'a StudentEntry>
    ensures { option_map (λ s. s.now) result ≡ find (λ s. equals s.row.code code.now) students.now }
{
    students.iter().find(|s| s.row.code.as_bytes() == code)
}

/// Makes a student's view from the entries.
pub(crate) fn student_view(
    alloc: Global,
    keeper: &ListKeeper,
    student: &StudentEntry,
) -> Result<StudentView, AllocError>
    ensures { IfOk result (λ v. v ≡ student_sees keeper.now student.now) }
{
    Ok(StudentView {
        round: keeper.entries.round,
        phase: keeper.phase,
        me: person_of(alloc, &student.row.key, &student.row.name)?,
        catalogue: keeper.catalogue(alloc)?,
        choices: copy_keys(alloc, &student.choice)?,
        result: place_copy(alloc, placement_shown(keeper.phase, student))?,
    })
}

/// Makes a lecturer's view from the entries.
pub(crate) fn lecturer_view(
    alloc: Global,
    keeper: &ListKeeper,
    lecturer: &LecturerEntry,
) -> Result<LecturerView, AllocError>
    ensures { IfOk result (λ v. v ≡ lecturer_sees keeper.now lecturer.now) }
{
    let row = &lecturer.row;
    let closed = keeper.phase.is_from_ranking();
    let entries = &keeper.entries;
    Ok(LecturerView {
        round: entries.round,
        phase: keeper.phase,
        me: person_of(alloc, &row.key, &row.name)?,
        capacity: row.capacity,
        catalogue: keeper.catalogue(alloc)?,
        applicants: applicants_by_project(
            alloc,
            closed,
            &entries.students,
            &row.key,
            &entries.projects,
        )?,
        ranking: ranking_copy(alloc, &lecturer.ranking)?,
        placed: placed_by_project(
            alloc,
            keeper.phase,
            &entries.students,
            &row.key,
            &entries.projects,
        )?,
    })
}

/// Makes the office's view from the entries.
pub(crate) fn office_view(alloc: Global, keeper: &ListKeeper) -> Result<OfficeView, AllocError>
    ensures { IfOk result (λ v. v ≡ office_sees keeper.now) }
{
    let closed = keeper.phase.is_from_ranking();
    let entries = &keeper.entries;
    Ok(OfficeView {
        round: entries.round,
        phase: keeper.phase,
        office_code: keeper.office.copy(alloc)?,
        lecturers: Rc::new(alloc, lecturer_rows(alloc, &entries.lecturers)?)?,
        projects: Rc::new(alloc, project_rows_of(alloc, &entries.projects)?)?,
        students: Rc::new(alloc, student_rows(alloc, &entries.students)?)?,
        catalogue: keeper.catalogue(alloc)?,
        without_list: without_list(alloc, entries.round, &entries.students)?,
        still_to_rank: still_to_rank(
            alloc,
            closed,
            &entries.lecturers,
            &entries.projects,
            &entries.students,
        )?,
        pairs: pairs_of(alloc, keeper.phase, &entries.students)?,
    })
}
