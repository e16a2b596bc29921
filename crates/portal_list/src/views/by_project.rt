//! Finds a lecturer's applicants and placed students in the entries, project by project.

ghost use Rattle.std.specs.Prelude.{◌≡◌, IfOk, map, filter, [], if◌then◌else◌};
ghost use Rattle.portal_rules.specs.Words.{has};
ghost use Rattle.portal_rules.specs.World.{is_at, shown_placement};
ghost use Rattle.portal_rules.specs.View.{persons};
ghost use Rattle.portal_list.specs.inner.Shown.{applicants_shown, placements_shown};

use super::placements::placement_shown;
use crate::copies::{holds, person_of};
use crate::entries::StudentEntry;
use portal_rules::collecting::try_map_where;
use portal_rules::{Person, Phase, ProjectRow};
use spa_rows::Key;
use std::alloc::{AllocError, Global};

/// Finds the project's placed students in the entries: those whose shown placement it is.
fn placed_at(
    alloc: Global,
    phase: Phase,
    students: &[StudentEntry],
    project: &Key,
) -> Result<Vec<Person>, AllocError>
    ensures { IfOk result (λ v. v.items
        ≡ persons (filter (λ s. is_at project.now (shown_placement phase s)) students.now)) }
{
    try_map_where(
        alloc,
        students,
        |s| placement_shown(phase, s).is_some_and(|place| *place == *project),
        |s| person_of(alloc, &s.row.key, &s.row.name),
    )
}

/// Finds the project's applicants in the entries, the students whose list contains it, if lists
/// are closed, and otherwise nobody.
fn shown_applicants(
    alloc: Global,
    closed: bool,
    students: &[StudentEntry],
    project: &Key,
) -> Result<Vec<Person>, AllocError>
    ensures { IfOk result (λ v. v.items
        ≡ (if closed then persons (filter (λ s. has s.choice project.now) students.now) else [])) }
{
    if !closed {
        return Ok(Vec::new(alloc));
    }
    try_map_where(
        alloc,
        students,
        |s| holds(&s.choice, project),
        |s| person_of(alloc, &s.row.key, &s.row.name),
    )
}

/// Returns each project of the lecturer with its applicants, or with nobody while lists are open.
pub(super) fn applicants_by_project(
    alloc: Global,
    closed: bool,
    students: &[StudentEntry],
    lecturer: &Key,
    projects: &[ProjectRow],
) -> Result<Vec<(Key, Vec<Person>)>, AllocError>
    ensures { IfOk result (λ v. map (λ p. (p.0, p.1.items)) v.items
        ≡ applicants_shown closed students.now lecturer.now projects.now) }
{
    let mut found = Vec::new(alloc);
    for project in projects {
        if project.lecturer == *lecturer {
            let persons = shown_applicants(alloc, closed, students, &project.key)?;
            found.push((project.key.copy(alloc)?, persons))?;
        }
    }
    Ok(found)
}

/// Returns each project of the lecturer with the students whose shown placement it is.
pub(super) fn placed_by_project(
    alloc: Global,
    phase: Phase,
    students: &[StudentEntry],
    lecturer: &Key,
    projects: &[ProjectRow],
) -> Result<Vec<(Key, Vec<Person>)>, AllocError>
    ensures { IfOk result (λ v. map (λ p. (p.0, p.1.items)) v.items
        ≡ placements_shown phase students.now lecturer.now projects.now) }
{
    let mut found = Vec::new(alloc);
    for project in projects {
        if project.lecturer == *lecturer {
            let persons = placed_at(alloc, phase, students, &project.key)?;
            found.push((project.key.copy(alloc)?, persons))?;
        }
    }
    Ok(found)
}
