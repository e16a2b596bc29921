//! Tests whether the rolls are sound: valid rows, distinct codes, ascending keys.

ghost use Rattle.std.specs.Prelude.{◌≡◌, ◌↔◌, ◌++◌, IfOk, OnOk, IsTrue, true, map};
ghost use Rattle.std.specs.List.{AllByRecursion};
ghost use Rattle.spa_rows.specs.Lines.{is_key};
ghost use Rattle.portal_rules.specs.Words.{has, is_code, is_name, Rise, AreDistinct};
ghost use Rattle.portal_rules.specs.Good.{IsLecturer, IsProject, IsStudent};
ghost use Rattle.portal_list.specs.inner.Parts.{codes_in, lecturer_row_keys, KeysRise, AreFew};
ghost use Rattle.portal_list.specs.inner.Parts.{RollsFit};

use crate::keys::{are_distinct, is_known, keys_rise};
use portal_rules::{Code, Coded, LecturerRow, Name, ProjectRow, StudentRow};
use spa_rows::Key;
use spa_rows::limits::{MOST_LECTURERS, MOST_PROJECTS, MOST_STUDENTS, is_capacity};
use std::alloc::{AllocError, Global};

/// Ensures that the key has its form, which its type keeps.
fn formed_key(key: &Key)
    ensures { is_key key.now ≡ true }
{
    key.as_bytes();
}

/// Ensures that the name or title has its form, which its type keeps.
fn formed_name(name: &Name)
    ensures { is_name name.now ≡ true }
{
    name.as_bytes();
}

/// Ensures that the code has its form, which its type keeps.
pub(crate) fn formed_code(code: &Code)
    ensures { is_code code.now ≡ true }
{
    code.as_bytes();
}

/// A row of a roll.
trait RollRow {
    /// The rules for the row, for contracts.
    ghost valid: { Self → Type 0 };

    /// Returns whether the row is valid. The types of its texts leave only the capacity to check.
    fn is_valid(&self) -> bool
        ensures { IsTrue result ↔ valid self.now };
}

impl RollRow for LecturerRow {
    ghost valid = { IsLecturer };

    fn is_valid(&self) -> bool {
        formed_key(&self.key);
        formed_name(&self.name);
        formed_code(&self.code);
        is_capacity(self.capacity)
    }
}

impl RollRow for ProjectRow {
    ghost valid = { IsProject };

    fn is_valid(&self) -> bool {
        formed_key(&self.key);
        formed_key(&self.lecturer);
        formed_name(&self.title);
        is_capacity(self.capacity)
    }
}

impl RollRow for StudentRow {
    ghost valid = { IsStudent };

    fn is_valid(&self) -> bool {
        formed_key(&self.key);
        formed_name(&self.name);
        formed_code(&self.code);
        true
    }
}

/// Returns whether all rows of a roll are valid.
fn are_valid<T: RollRow>(rows: &[T]) -> bool
    ensures { IsTrue result ↔ AllByRecursion T.valid rows.now }
{
    rows.iter().all(|row| row.is_valid())
}

/// Returns whether each project's lecturer is on the roll.
fn lecturers_are_known(lecturers: &[LecturerRow], projects: &[ProjectRow]) -> bool
    requires { Rise (lecturer_row_keys lecturers.now) }
    ensures { IsTrue result
        ↔ AllByRecursion
        (λ p. has (lecturer_row_keys lecturers.now) p.lecturer ≡ true) projects.now }
{
    projects
        .iter()
        .all(|project| is_known(lecturers, &project.lecturer))
}

/// Adds the codes of the rows to the codes, to test whether all are distinct.
fn push_codes<'a, T: Coded>(codes: &mut Vec<&'a [u8]>, rows: &'a [T]) -> Result<(), AllocError>
    ensures { OnOk result (map (λ code. code.now) codes.new.items
        ≡ map (λ code. code.now) codes.old.items ++ map T.code_of rows.now) }
{
    for row in rows {
        codes.push(row.code().as_bytes())?;
    }
    Ok(())
}

/// Returns whether the office's code and the codes on the rolls are distinct.
fn codes_differ(
    alloc: Global,
    office: &Code,
    lecturers: &[LecturerRow],
    students: &[StudentRow],
) -> Result<bool, AllocError>
    ensures codes { IfOk result (λ yes. IsTrue yes
        ↔ AreDistinct (codes_in office.now lecturers.now students.now)) }
    ensures office { OnOk result (is_code office.now ≡ true) }
{
    let mut codes = Vec::new(alloc);
    codes.push(office.as_bytes())?;
    push_codes(&mut codes, lecturers)?;
    push_codes(&mut codes, students)?;
    are_distinct(alloc, &codes)
}

/// Returns whether the keys of each roll rise strictly.
fn rolls_rise(lecturers: &[LecturerRow], projects: &[ProjectRow], students: &[StudentRow]) -> bool
    ensures { IsTrue result ↔ KeysRise lecturers.now projects.now students.now }
{
    keys_rise(lecturers) && keys_rise(projects) && keys_rise(students)
}

/// Returns whether each roll is within its limit of rows.
fn are_few(lecturers: &[LecturerRow], projects: &[ProjectRow], students: &[StudentRow]) -> bool
    ensures { IsTrue result ↔ AreFew lecturers.now projects.now students.now }
{
    lecturers.len() <= MOST_LECTURERS
        && projects.len() <= MOST_PROJECTS
        && students.len() <= MOST_STUDENTS
}

/// Returns whether the rolls obey the rules of a sound world, such as distinct codes and rising
/// keys.
pub(crate) fn rolls_fit(
    alloc: Global,
    office: &Code,
    lecturers: &[LecturerRow],
    projects: &[ProjectRow],
    students: &[StudentRow],
) -> Result<bool, AllocError>
    ensures { IfOk result (λ yes. IsTrue yes
        ↔ RollsFit office.now lecturers.now projects.now students.now) }
{
    if !rolls_rise(lecturers, projects, students) {
        return Ok(false);
    }
    if !are_few(lecturers, projects, students) {
        return Ok(false);
    }
    if !(are_valid(lecturers) && are_valid(projects) && are_valid(students)) {
        return Ok(false);
    }
    if !lecturers_are_known(lecturers, projects) {
        return Ok(false);
    }
    codes_differ(alloc, office, lecturers, students)
}
