//! Copies rankings, project keys, pairs and rows; makes persons and entries; `holds` looks for a key.

ghost use Rattle.std.specs.Prelude.{◌≡◌, [], None, IfOk, option_map};
ghost use Rattle.portal_rules.specs.Words.{has};

use crate::entries::StudentEntry;
use portal_rules::collecting::try_map;
use portal_rules::{Name, Person, ProjectRow, StudentRow, copy_keys};
use spa_rows::Key;
use std::alloc::{AllocError, Global};

/// Returns whether the list contains the key.
pub(crate) fn holds(keys: &[Key], key: &Key) -> bool
    ensures { result ≡ has keys.now key.now }
{
    keys.iter().any(|k| key == k)
}

/// Makes a person from copies of the key and the name.
pub(crate) fn person_of(alloc: Global, key: &Key, name: &Name) -> Result<Person, AllocError>
    ensures { IfOk result (λ p. p ≡ record { key = key.now; name = name.now }) }
{
    Ok(Person {
        key: key.copy(alloc)?,
        name: name.copy(alloc)?,
    })
}

/// Copies the project, if there is one.
pub(crate) fn place_copy(alloc: Global, project: Option<&Key>) -> Result<Option<Key>, AllocError>
    ensures { IfOk result (λ o. o ≡ option_map (λ p. p.now) project.entry) }
{
    project.map(|key| key.copy(alloc)).transpose()
}

/// Makes a pair from copies of the student's key and the project, if there is one.
pub(crate) fn pair_copy(
    alloc: Global,
    student: &Key,
    project: Option<&Key>,
) -> Result<Option<(Key, Key)>, AllocError>
    ensures { IfOk result (λ o. o
        ≡ option_map (λ p. (student.now, p)) (option_map (λ p. p.now) project.entry)) }
{
    match project {
        Some(project) => Ok(Some((student.copy(alloc)?, project.copy(alloc)?))),
        None => Ok(None),
    }
}

/// Copies the ranking, if there is one.
pub(crate) fn ranking_copy(
    alloc: Global,
    ranking: &Option<Vec<Key>>,
) -> Result<Option<Vec<Key>>, AllocError>
    ensures { IfOk result (λ r. option_map (λ v. v.items) r
        ≡ option_map (λ v. v.items) ranking.now) }
{
    let keys = ranking.as_ref();
    keys.map(|keys| copy_keys(alloc, keys)).transpose()
}

/// Makes a student's entry from copies of the row, the list and the placement, without data of an
/// earlier round.
pub(crate) fn student_copy(
    alloc: Global,
    row: &StudentRow,
    choice: &[Key],
    placed: Option<&Key>,
) -> Result<StudentEntry, AllocError>
    ensures { IfOk result (λ s. s ≡ record {
      row = row.now;
      choice = choice.now;
      placed = option_map (λ p. p.now) placed.entry;
      earlier_choice = [];
      earlier_placement = None;
    }) }
{
    Ok(StudentEntry {
        row: row.copy(alloc)?,
        choice: copy_keys(alloc, choice)?,
        placed: place_copy(alloc, placed)?,
        earlier_choice: Vec::new(alloc),
        earlier_placement: None,
    })
}

/// Copies rows of projects.
pub(crate) fn project_rows_of(
    alloc: Global,
    rows: &[ProjectRow],
) -> Result<Vec<ProjectRow>, AllocError>
    ensures { IfOk result (λ v. v.items ≡ rows.now) }
{
    try_map(alloc, rows, |row| row.copy(alloc))
}
