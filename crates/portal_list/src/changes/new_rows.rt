//! Adds rows to a roll, keeping key order; makes entries without a list or ranking.

ghost use Rattle.std.specs.Prelude.{◌≡◌, IfOk, OnOk, OnErr, map};
ghost use Rattle.portal_rules.specs.Words.{put_all};
ghost use Rattle.portal_rules.specs.World.{new_lecturer, new_student};

use crate::entries::{LecturerEntry, StudentEntry};
use crate::keys::put_rows;
use portal_rules::collecting::try_map;
use portal_rules::{Keyed, LecturerRow, StudentRow};
use std::alloc::{AllocError, Global};

/// Makes the entries of new lecturers, without rankings.
pub(crate) fn new_lecturers(
    alloc: Global,
    rows: &[LecturerRow],
) -> Result<Vec<LecturerEntry>, AllocError>
    ensures { IfOk result (λ v. v.items ≡ map new_lecturer rows.now) }
{
    try_map(alloc, rows, |row| {
        Ok(LecturerEntry {
            row: row.copy(alloc)?,
            ranking: None,
            earlier_ranking: None,
        })
    })
}

/// Makes the entries of new students, without lists or placements.
pub(crate) fn new_students(
    alloc: Global,
    rows: &[StudentRow],
) -> Result<Vec<StudentEntry>, AllocError>
    ensures { IfOk result (λ v. v.items ≡ map new_student rows.now) }
{
    try_map(alloc, rows, |row| {
        Ok(StudentEntry {
            row: row.copy(alloc)?,
            choice: Vec::new(alloc),
            placed: None,
            earlier_choice: Vec::new(alloc),
            earlier_placement: None,
        })
    })
}

/// Adds rows to a roll in memory, in key order. If an allocation fails, nothing changes.
pub(crate) fn add_rows<T: Keyed + Drop>(rows: &mut Vec<T>, fresh: Vec<T>) -> Result<(), AllocError>
    ensures made { OnOk result (rows.new.items ≡ put_all T.key_of fresh.items rows.old.items) }
    ensures same { OnErr result (rows.new.items ≡ rows.old.items) }
{
    rows.reserve(fresh.len())?;
    put_rows(rows, fresh);
    Ok(())
}
