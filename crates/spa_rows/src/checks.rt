//! Tests all rows for one fault, then all rows for the next fault. A refusal names the
//! lowest-numbered row that has the fault.

ghost use Rattle.std.specs.Prelude.{◌≡◌, Err, IfErr, IfOk, IsOk, MatchOption, OnOk};
ghost use Rattle.spa_rows.specs.Faults.{HasFault, HasNoneBefore, IsRefusal};
ghost use Rattle.spa_rows.specs.Numbers.{AreListNumbers};
ghost use Rattle.spa_rows.specs.inner.Least.{IsLeastOf, lesser_row};

use crate::faults::{BadInstance, InstanceFault};
use crate::index::{LineIndex, list_numbers};
use crate::least::{
    has_bad_key, is_bad_capacity, key_twice, least, least_where, repeat_in_list, unknown_in_list,
};
use crate::limits::{LONGEST_CHOICE, MOST_LECTURERS, MOST_PROJECTS, MOST_STUDENTS};
use crate::lines::{InstanceRows, ListNumbers};
use std::alloc::{AllocError, Global};

/// Returns the smaller of the faulty rows of two kinds of lines, or the only one present.
fn smaller_row(a: Option<u32>, b: Option<u32>) -> Option<u32>
    ensures { result ≡ lesser_row a b }
{
    match b {
        Some(row) => Some(least(a, row)),
        None => a,
    }
}

/// Returns row 0 if there are too many lines of any kind, and otherwise `None`.
fn too_many(rows: &InstanceRows) -> Option<u32>
    ensures { IsLeastOf (HasFault rows.now InstanceFault.TooMany) result }
{
    if rows.lecturers.len() > MOST_LECTURERS
        || rows.projects.len() > MOST_PROJECTS
        || rows.students.len() > MOST_STUDENTS
    {
        return Some(0);
    }
    None
}

/// Finds the lowest-numbered row of any kind with a malformed key.
fn bad_keys(rows: &InstanceRows) -> Option<u32>
    ensures { IsLeastOf (HasFault rows.now InstanceFault.BadKey) result }
{
    let lecturer = least_where(&rows.lecturers, has_bad_key);
    let project = least_where(&rows.projects, has_bad_key);
    let student = least_where(&rows.students, has_bad_key);
    smaller_row(lecturer, smaller_row(project, student))
}

/// Finds the lowest-numbered row of any kind that repeats a key of its kind.
fn keys_twice(alloc: Global, rows: &InstanceRows) -> Result<Option<u32>, AllocError>
    ensures { IfOk result (IsLeastOf (HasFault rows.now InstanceFault.KeyTwice)) }
{
    let lecturer = key_twice(alloc, &rows.lecturers)?;
    let project = key_twice(alloc, &rows.projects)?;
    let student = key_twice(alloc, &rows.students)?;
    Ok(smaller_row(lecturer, smaller_row(project, student)))
}

/// Finds the lowest-numbered row of a lecturer or project with a bad capacity.
fn bad_capacities(rows: &InstanceRows) -> Option<u32>
    ensures { IsLeastOf (HasFault rows.now InstanceFault.BadCapacity) result }
{
    let lecturer = least_where(&rows.lecturers, |line| is_bad_capacity(line.capacity));
    let project = least_where(&rows.projects, |line| is_bad_capacity(line.capacity));
    smaller_row(lecturer, project)
}

/// Finds the lowest-numbered row of a project whose lecturer is unknown.
fn lecturers_missing(alloc: Global, rows: &InstanceRows) -> Result<Option<u32>, AllocError>
    ensures { IfOk result (IsLeastOf (HasFault rows.now InstanceFault.NoSuchLecturer)) }
{
    let lecturers = LineIndex::of(alloc, &rows.lecturers)?;
    Ok(least_where(&rows.projects, |line| !lecturers.has(&line.lecturer)))
}

/// Finds the lowest-numbered row of a student who lists an unknown project.
fn projects_missing(rows: &InstanceRows, choices: &[Vec<usize>]) -> Option<u32>
    requires { AreListNumbers rows.now.projects (λ x. x.key) (λ x. x.list)
        rows.now.students choices.now }
    ensures { IsLeastOf (HasFault rows.now InstanceFault.NoSuchProject) result }
{
    unknown_in_list(&rows.students, choices, rows.projects.len())
}

/// Finds the lowest-numbered row of a lecturer or student whose list contains a text twice.
fn repeats_in_lists(
    alloc: Global,
    rows: &InstanceRows,
    choices: &[Vec<usize>],
    rankings: &[Vec<usize>],
) -> Result<Option<u32>, AllocError>
    requires faultless { HasNoneBefore rows.now InstanceFault.NoSuchLecturer }
    requires choices { AreListNumbers rows.now.projects (λ x. x.key) (λ x. x.list)
        rows.now.students choices.now }
    requires rankings { AreListNumbers rows.now.students (λ x. x.key) (λ x. x.list)
        rows.now.lecturers rankings.now }
    ensures { IfOk result (IsLeastOf (HasFault rows.now InstanceFault.RepeatInList)) }
{
    let lecturer = repeat_in_list(alloc, &rows.lecturers, rankings, rows.students.len() + 1)?;
    let student = repeat_in_list(alloc, &rows.students, choices, rows.projects.len() + 1)?;
    Ok(smaller_row(lecturer, student))
}

/// Finds the lowest-numbered row of a student whose list is too long.
fn lists_too_long(rows: &InstanceRows) -> Option<u32>
    ensures { IsLeastOf (HasFault rows.now InstanceFault.ListTooLong) result }
{
    least_where(&rows.students, |line| line.list.len() > LONGEST_CHOICE)
}

/// Refuses an instance's lines with this fault at `row`, or returns `Ok` if `row` is `None`.
pub fn refuse(fault: InstanceFault, row: Option<u32>) -> Result<(), BadInstance>
    ensures { MatchOption row (IsOk result) (λ r. result
        ≡ Err (record { fault = fault; row = r })) }
{
    match row {
        Some(row) => Err(BadInstance { fault, row }),
        None => Ok(()),
    }
}

/// Refuses too many lines, a malformed or repeated key, or a capacity that is not 1 to 200.
pub fn check_lines(alloc: Global, rows: &InstanceRows) -> Result<(), BadInstance>
    ensures ok { OnOk result (HasNoneBefore rows.now InstanceFault.NoSuchLecturer) }
    ensures err { IfErr result (λ e. IsRefusal rows.now e.fault e.row) }
{
    refuse(InstanceFault::TooMany, too_many(rows))?;
    refuse(InstanceFault::BadKey, bad_keys(rows))?;
    refuse(InstanceFault::KeyTwice, keys_twice(alloc, rows)?)?;
    refuse(InstanceFault::BadCapacity, bad_capacities(rows))
}

/// Refuses an unknown lecturer or project, a repeat in a list, or over 20 projects on a list, or
/// returns the lists by number.
pub fn check_lists(alloc: Global, rows: &InstanceRows) -> Result<ListNumbers, BadInstance>
    requires { HasNoneBefore rows.now InstanceFault.NoSuchLecturer }
    ensures ok { OnOk result (HasNoneBefore rows.now InstanceFault.NotApplicant) }
    ensures choices { IfOk result (λ numbers. AreListNumbers rows.now.projects (λ x. x.key)
        (λ x. x.list) rows.now.students numbers.choices.items) }
    ensures rankings { IfOk result (λ numbers. AreListNumbers rows.now.students (λ x. x.key)
        (λ x. x.list) rows.now.lecturers numbers.rankings.items) }
    ensures err { IfErr result (λ e. IsRefusal rows.now e.fault e.row) }
{
    refuse(
        InstanceFault::NoSuchLecturer,
        lecturers_missing(alloc, rows)?,
    )?;
    let choices = list_numbers(alloc, &rows.students, &rows.projects)?;
    refuse(
        InstanceFault::NoSuchProject,
        projects_missing(rows, &choices),
    )?;
    let rankings = list_numbers(alloc, &rows.lecturers, &rows.students)?;
    refuse(
        InstanceFault::RepeatInList,
        repeats_in_lists(alloc, rows, &choices, &rankings)?,
    )?;
    refuse(InstanceFault::ListTooLong, lists_too_long(rows))?;
    Ok(ListNumbers { choices, rankings })
}
