//! Decodes query results into rolls' rows or lists' keys, and checks the results' order.

ghost use Rattle.std.specs.Prelude.{◌≡◌, ◌↔◌, ◌≤◌, ◌++◌};
ghost use Rattle.std.specs.List.{cons_option};
ghost use Rattle.portal_tables.specs.inner.Base.{[], true, Err, IfOk, OnOk, IsTrue, length, map, ⊤};
ghost use Rattle.portal_tables.specs.inner.Base.{AllByRecursion, Cells, is_key, IsLecturer};
ghost use Rattle.portal_tables.specs.inner.Base.{IsProject, IsStudent, Rise};
ghost use Rattle.portal_tables.specs.Rows.{CountUp};
ghost use Rattle.portal_tables.specs.inner.Shown.{as_list, first_cell, shown_lecturer};
ghost use Rattle.portal_tables.specs.inner.Shown.{shown_project, shown_student, shown_rank};
ghost use Rattle.portal_tables.specs.inner.Shown.{shown_name};

use crate::fault::TableFault;
use crate::reading::cells::{bytes_at, capacity_at, code_at, key_at, name_at, number_at};
use portal_rules::{LecturerRow, ProjectRow, StudentRow};
use spa_rows::Key;
use sqlite::Row;
use std::alloc::{AllocError, Global};

/// A type that rows of a query are decoded to. Decoding fails with `Damaged` only if `is_fine` does
/// not hold of the row, and with `Memory` if memory runs out.
pub trait FromCells: Drop {
    /// The value that a row with these cells is decoded to.
    ghost shown: { Cells → Self };

    /// The condition under which a row is never refused as damaged.
    ghost is_fine: { Cells → Type 0 };

    /// Decodes the row.
    fn from_cells(alloc: Global, row: &Row) -> Result<Self, TableFault>
        ensures ok { IfOk result (λ x. x ≡ shown row.now) }
        ensures damaged { result ≡ Err TableFault.Damaged → is_fine row.now → ⊥ }
        ensures store { result ≡ Err TableFault.Store → ⊥ };
}

impl FromCells for LecturerRow {
    ghost shown = { shown_lecturer };

    ghost is_fine = { λ c. IsLecturer (shown_lecturer c) };

    fn from_cells(alloc: Global, row: &Row) -> Result<LecturerRow, TableFault> {
        Ok(LecturerRow {
            capacity: capacity_at(row, 3)?,
            key: key_at(alloc, row, 0)?,
            name: name_at(alloc, row, 1)?,
            code: code_at(alloc, row, 2)?,
        })
    }
}

impl FromCells for ProjectRow {
    ghost shown = { shown_project };

    ghost is_fine = { λ c. IsProject (shown_project c) };

    fn from_cells(alloc: Global, row: &Row) -> Result<ProjectRow, TableFault> {
        Ok(ProjectRow {
            capacity: capacity_at(row, 3)?,
            key: key_at(alloc, row, 0)?,
            lecturer: key_at(alloc, row, 1)?,
            title: name_at(alloc, row, 2)?,
        })
    }
}

impl FromCells for StudentRow {
    ghost shown = { shown_student };

    ghost is_fine = { λ c. IsStudent (shown_student c) };

    fn from_cells(alloc: Global, row: &Row) -> Result<StudentRow, TableFault> {
        Ok(StudentRow {
            key: key_at(alloc, row, 0)?,
            name: name_at(alloc, row, 1)?,
            code: code_at(alloc, row, 2)?,
        })
    }
}

/// The item in a row of a list, whose key is in column 1.
impl FromCells for Key {
    ghost shown = { shown_name };

    ghost is_fine = { λ c. is_key (shown_name c) ≡ true };

    fn from_cells(alloc: Global, row: &Row) -> Result<Key, TableFault> {
        key_at(alloc, row, 1)
    }
}

/// A copy of the row, for callers that decode its cells themselves.
impl FromCells for Row {
    ghost shown = { λ c. c };

    // no row is refused
    ghost is_fine = { λ c. ⊤ };

    fn from_cells(_alloc: Global, row: &Row) -> Result<Row, TableFault> {
        Ok(row.copy()?)
    }
}

/// Appends the item if there is one. Fails only if memory runs out.
pub fn push_some<T: Drop>(all: &mut Vec<T>, item: Option<T>) -> Result<(), AllocError>
    ensures { OnOk result (all.new.items ≡ all.old.items ++ cons_option item []) }
{
    if let Some(item) = item {
        all.push(item)?;
    }
    Ok(())
}

/// Decodes the rows of a query's result in order. Stops at the first fault and returns it.
pub fn decode_rows<T: FromCells>(alloc: Global, rows: &[Row]) -> Result<Vec<T>, TableFault>
    ensures ok { IfOk result (λ v. v.items ≡ map T.shown rows.now) }
    ensures damaged { result ≡ Err TableFault.Damaged → AllByRecursion T.is_fine rows.now → ⊥ }
    ensures store { result ≡ Err TableFault.Store → ⊥ }
{
    let mut all = Vec::new(alloc);
    for row in rows {
        all.push(T::from_cells(alloc, row)?)?;
    }
    Ok(all)
}

/// Returns the only decoded row of a query's result, or `None` without rows. Fails with `Damaged`
/// if there are several.
pub fn at_most_one<T: Drop>(mut rows: Vec<T>) -> Result<Option<T>, TableFault>
    ensures ok { IfOk result (λ row. as_list row ≡ rows.items) }
    ensures damaged { result ≡ Err TableFault.Damaged → length rows.items ≤ 1 → ⊥ }
    ensures store { result ≡ Err TableFault.Store → ⊥ }
{
    if rows.len() > 1 {
        return Err(TableFault::Damaged);
    }
    Ok(rows.pop())
}

/// Returns whether a query's rows are in order: their keys, in column 0, are strictly ascending.
pub fn do_rise(rows: &[Row]) -> bool
    ensures { IsTrue result ↔ Rise (map first_cell rows.now) }
{
    rows.is_sorted_by(|a, b| bytes_at(a, 0).cmp(bytes_at(b, 0)).is_lt())
}

/// Returns whether a list's rows are in order: their places, in column 0, are 1, 2 and so on.
fn do_count_up(rows: &[Row]) -> bool
    ensures { IsTrue result ↔ CountUp 1 (map shown_rank rows.now) }
{
    for (i, row) in rows.iter().enumerate() {
        if number_at(row, 0) != i as u64 + 1 {
            return false;
        }
    }
    true
}

/// Decodes the items of a list from rows of place and item. Fails with `Damaged` if the places are
/// not 1, 2 and so on, or an item is not a valid key.
pub(crate) fn list_from(alloc: Global, rows: &[Row]) -> Result<Vec<Key>, TableFault>
    ensures names { IfOk result (λ v. v.items ≡ map shown_name rows.now) }
    ensures whole { IfOk result (λ v. CountUp 1 (map shown_rank rows.now)) }
    ensures damaged { result ≡ Err TableFault.Damaged → CountUp 1 (map shown_rank rows.now)
        → AllByRecursion (λ c. is_key (shown_name c) ≡ true) rows.now → ⊥ }
    ensures store { result ≡ Err TableFault.Store → ⊥ }
{
    if !do_count_up(rows) {
        return Err(TableFault::Damaged);
    }
    decode_rows(alloc, rows)
}
