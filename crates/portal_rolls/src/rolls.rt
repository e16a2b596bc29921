//! Reads the rolls of lecturers, projects and students from CSV.

ghost use Rattle.std.specs.Prelude.{◌≡◌, IfOk};
ghost use Rattle.std.specs.List.{AllByRecursion};
ghost use Rattle.csv.specs.Records.{fields_of};
ghost use Rattle.portal_rules.specs.Good.{IsLecturer, IsProject, IsStudent};
ghost use Rattle.portal_rolls.specs.Views.{Gives};
ghost use Rattle.portal_rolls.specs.Lines as spec;
ghost use Rattle.portal_rolls.specs.Views as view;

use crate::fault::RollFault;
use crate::fields::{capacity_at, code_at, four, key_at, name_at, three};
use crate::reading::{FromRecord, read_text};
use csv::ByteRecord;
use portal_rules::{LecturerRow, ProjectRow, StudentRow};
use spa_rows::limits::{MOST_LECTURERS, MOST_PROJECTS, MOST_STUDENTS};
use std::alloc::Global;

impl FromRecord for LecturerRow {
    ghost format = { spec.lecturer_format };

    fn names() -> &'static [&'static str] {
        &["id", "name", "code", "capacity"]
    }

    fn limit() -> u32 {
        MOST_LECTURERS as u32
    }

    fn says(alloc: Global, number: u32, row: &ByteRecord) -> Result<LecturerRow, RollFault> {
        let (key, name, code, capacity) = four(row);
        Ok(LecturerRow {
            key: key_at(alloc, number, 1, key)?,
            name: name_at(alloc, number, 2, name)?,
            code: code_at(alloc, number, 3, code)?,
            capacity: capacity_at(number, 4, capacity)?,
        })
    }
}

impl FromRecord for ProjectRow {
    ghost format = { spec.project_format };

    fn names() -> &'static [&'static str] {
        &["id", "lecturer", "title", "capacity"]
    }

    fn limit() -> u32 {
        MOST_PROJECTS as u32
    }

    fn says(alloc: Global, number: u32, row: &ByteRecord) -> Result<ProjectRow, RollFault> {
        let (key, lecturer, title, capacity) = four(row);
        Ok(ProjectRow {
            key: key_at(alloc, number, 1, key)?,
            lecturer: key_at(alloc, number, 2, lecturer)?,
            title: name_at(alloc, number, 3, title)?,
            capacity: capacity_at(number, 4, capacity)?,
        })
    }
}

impl FromRecord for StudentRow {
    ghost format = { spec.student_format };

    fn names() -> &'static [&'static str] {
        &["id", "name", "code"]
    }

    fn limit() -> u32 {
        MOST_STUDENTS as u32
    }

    fn says(alloc: Global, number: u32, row: &ByteRecord) -> Result<StudentRow, RollFault> {
        let (key, name, code) = three(row);
        Ok(StudentRow {
            key: key_at(alloc, number, 1, key)?,
            name: name_at(alloc, number, 2, name)?,
            code: code_at(alloc, number, 3, code)?,
        })
    }
}

/// Reads the rows of a roll of lecturers from CSV. Each field then has the form of its column.
///
/// # Errors
///
/// Returns the first fault, with its row and column if it has them, or `Memory`.
pub fn read_lecturers(alloc: Global, text: &[u8]) -> Result<Vec<LecturerRow>, RollFault>
    ensures read { Gives view.items result (spec.lecturers text.now) }
    ensures formed { IfOk result (λ rows. AllByRecursion IsLecturer rows.items) }
{
    read_text::<LecturerRow>(alloc, text)
}

/// Reads the rows of a roll of projects from CSV. Each field then has the form of its column.
///
/// # Errors
///
/// Returns the first fault, with its row and column if it has them, or `Memory`.
pub fn read_projects(alloc: Global, text: &[u8]) -> Result<Vec<ProjectRow>, RollFault>
    ensures read { Gives view.items result (spec.projects text.now) }
    ensures formed { IfOk result (λ rows. AllByRecursion IsProject rows.items) }
{
    read_text::<ProjectRow>(alloc, text)
}

/// Reads the rows of a roll of students from CSV. Each field then has the form of its column.
///
/// # Errors
///
/// Returns the first fault, with its row and column if it has them, or `Memory`.
pub fn read_students(alloc: Global, text: &[u8]) -> Result<Vec<StudentRow>, RollFault>
    ensures read { Gives view.items result (spec.students text.now) }
    ensures formed { IfOk result (λ rows. AllByRecursion IsStudent rows.items) }
{
    read_text::<StudentRow>(alloc, text)
}
