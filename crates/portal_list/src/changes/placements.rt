//! Stores a result in the entries: sets the project of each student who takes part in the round.

ghost use Rattle.std.specs.Prelude.{◌≡◌, IfOk, OnOk, OnErr, map};
ghost use Rattle.portal_rules.specs.World.{placement_in, with_place};
ghost use Rattle.portal_list.specs.inner.Played.{placed_now};

use crate::copies::place_copy;
use crate::entries::StudentEntry;
use portal_rules::collecting::try_map;
use portal_rules::index::Pairs;
use spa_rows::Key;
use std::alloc::{AllocError, Global};

/// Returns the project that the result gives to each student of the entries, or `None`.
fn places_of(
    alloc: Global,
    students: &[StudentEntry],
    pairs: &[(Key, Key)],
) -> Result<Vec<Option<Key>>, AllocError>
    ensures { IfOk result (λ v. v.items
        ≡ map (λ s. placement_in pairs.now s.row.key) students.now) }
{
    let pairs = Pairs::of(alloc, pairs)?;
    try_map(alloc, students, |s| {
        place_copy(alloc, pairs.project_of(s.row.key.as_bytes()))
    })
}

/// Sets the project in the student's entry, unless the student has a project of the first round.
fn place(student: &mut StudentEntry, project: Option<Key>)
    ensures { student.new ≡ placed_now student.old project }
{
    if student.earlier_placement.is_none() {
        student.placed = project;
    }
}

/// Stores a result in the entries: gives each student who takes part the project of the pairs, or
/// none.
pub(crate) fn place_all(
    alloc: Global,
    students: &mut [StudentEntry],
    pairs: &[(Key, Key)],
) -> Result<(), AllocError>
    ensures made { OnOk result (students.new ≡ map (with_place pairs.now) students.old) }
    ensures same { OnErr result (students.new ≡ students.old) }
{
    let mut places = places_of(alloc, students, pairs)?;
    for (i, student) in students.iter_mut().enumerate() {
        place(student, places[i].take());
    }
    Ok(())
}
