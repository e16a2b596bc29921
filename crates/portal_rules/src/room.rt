//! Computes the capacities that the first round left.

ghost use Rattle.std.specs.Prelude.{◌≡◌, IfOk, count_by, map};
ghost use Rattle.std.specs.List.{list_any};
ghost use Rattle.portal_rules.specs.Words.{equals, Key};
ghost use Rattle.portal_rules.specs.inner.Room as meant;
ghost use Rattle.portal_rules.specs.inner.Room.{own_keys, room_of};
ghost use Rattle.portal_rules.specs.Bodies as bodies;

use crate::rows::{LecturerRow, ProjectRow};
use spa_rows::Key;
use std::alloc::{AllocError, Global};

/// Returns how many students the pairs of a result give to the project.
pub fn students_at(pairs: &[(Key, Key)], project: &Key) -> usize
    ensures { result ≡ bodies.students_at pairs.now project.now }
{
    pairs.iter().filter(|pair| pair.1 == *project).count()
}

/// Returns the keys of the lecturer's projects, which share the lecturer's capacity, in their
/// order. Fails if memory runs out.
pub fn own_keys<'a>(
    alloc: Global,
    projects: &'a [ProjectRow],
    lecturer: &Key,
) -> Result<Vec<&'a Key>, AllocError>
    ensures { IfOk result (λ own. map (λ k. k.now) own.items ≡ own_keys projects.now lecturer.now) }
{
    let mut own = Vec::new(alloc);
    for project in projects {
        if project.lecturer == *lecturer {
            own.push(&project.key)?;
        }
    }
    Ok(own)
}

/// Returns whether the project of a first-round pair is one of these, to compute the capacity left.
fn is_among(keys: &[&Key], key: &Key) -> bool
    ensures { result ≡ list_any (λ k. equals key.now k.now) keys.now }
{
    keys.iter().any(|k| *key == **k)
}

/// Counts the first round's pairs with one of these projects, to compute the capacity left.
fn given_among(pairs: &[(Key, Key)], projects: &[&Key]) -> usize
    ensures { result ≡ count_by
        (λ (x : Key × Key). list_any (λ k. equals x.1 k.now) projects.now) pairs.now }
{
    pairs
        .iter()
        .filter(|pair| is_among(projects, &pair.1))
        .count()
}

/// Returns the capacity that `given` placements of the first round leave, or `None` if none is
/// left.
fn room_of(capacity: u32, given: usize) -> Option<u32>
    ensures { result ≡ room_of capacity given }
{
    let capacity = capacity as usize;
    if given < capacity {
        Some((capacity - given) as u32)
    } else {
        None
    }
}

/// Returns the project with the capacity that the first round left, or `None` if it is full.
/// `pairs` is the first round's result. Fails if memory runs out.
pub fn project_left(
    alloc: Global,
    pairs: &[(Key, Key)],
    project: &ProjectRow,
) -> Result<Option<ProjectRow>, AllocError>
    ensures { IfOk result (λ row. row ≡ meant.project_left pairs.now project.now) }
{
    let Some(capacity) = room_of(project.capacity, students_at(pairs, &project.key)) else {
        return Ok(None);
    };
    let mut row = project.copy(alloc)?;
    row.capacity = capacity;
    Ok(Some(row))
}

/// Returns the lecturer with the capacity that the first round left over all projects, or `None` if
/// none. `pairs` is the first round's result. Fails if memory runs out.
pub fn lecturer_left(
    alloc: Global,
    projects: &[ProjectRow],
    pairs: &[(Key, Key)],
    lecturer: &LecturerRow,
) -> Result<Option<LecturerRow>, AllocError>
    ensures { IfOk result (λ row. row ≡ meant.lecturer_left projects.now pairs.now lecturer.now) }
{
    let own = own_keys(alloc, projects, &lecturer.key)?;
    let Some(capacity) = room_of(lecturer.capacity, given_among(pairs, &own)) else {
        return Ok(None);
    };
    let mut row = lecturer.copy(alloc)?;
    row.capacity = capacity;
    Ok(Some(row))
}
