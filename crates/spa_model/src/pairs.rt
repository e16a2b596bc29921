//! Checks the pairs of a matching, and finds each student's project in them.

ghost use Rattle.std.specs.Prelude.{◌≡◌, ◌<◌, IfOk, IfErr, IfNone, OnOk, All, length};
ghost use Rattle.std.specs.Prelude.{map};
ghost use Rattle.spa_rows.specs.inner.Least.{IsLeastOf};
ghost use Rattle.spa_model.specs.Spa.{IsDistinct};
ghost use Rattle.spa_model.specs.Pairs.{HasPairFault, IsPairRefusal, student_in, project_in};
ghost use Rattle.spa_model.specs.Pairs.{AreSound};
ghost use Rattle.spa_model.specs.inner.Fitting.{AreAssigned};

use crate::fits::is_on;
use crate::instance::Instance;
use crate::matching::{BadMatching, MatchingFault};
use spa_rows::{PairLine, least_with};
use std::alloc::{AllocError, Global};

/// Returns the index of each pair's student, or the number of students if it is unknown.
pub(crate) fn student_numbers(
    alloc: Global,
    instance: &Instance,
    lines: &[PairLine],
) -> Result<Vec<usize>, AllocError>
    ensures { IfOk result (λ numbers. numbers.items ≡ map (student_in instance.now) lines.now) }
{
    lines
        .iter()
        .map(|line| instance.student_number(&line.student))
        .collect(alloc)
}

/// Returns the index of each pair's project, or the number of projects if it is unknown.
pub(crate) fn project_numbers(
    alloc: Global,
    instance: &Instance,
    lines: &[PairLine],
) -> Result<Vec<usize>, AllocError>
    ensures { IfOk result (λ numbers. numbers.items ≡ map (project_in instance.now) lines.now) }
{
    lines
        .iter()
        .map(|line| instance.project_number(&line.project))
        .collect(alloc)
}

/// Finds the lowest-numbered row of a pair with an unknown student.
fn no_such_student(instance: &Instance, lines: &[PairLine], students: &[usize]) -> Option<u32>
    requires { students.now ≡ map (student_in instance.now) lines.now }
    ensures least { IsLeastOf (HasPairFault instance.now lines.now MatchingFault.NoSuchStudent) result }
    ensures known { IfNone result (All (λ s. s < length instance.now.choices) students.now) }
{
    let count = instance.students();
    let mut best = None;
    for (j, line) in lines.iter().enumerate() {
        best = least_with(best, line.row, students[j] >= count);
    }
    best
}

/// Finds the lowest-numbered row of a pair with an unknown project.
fn no_such_project(instance: &Instance, lines: &[PairLine], projects: &[usize]) -> Option<u32>
    requires { projects.now ≡ map (project_in instance.now) lines.now }
    ensures least { IsLeastOf (HasPairFault instance.now lines.now MatchingFault.NoSuchProject) result }
    ensures known { IfNone result (All (λ p. p < length instance.now.lecturers) projects.now) }
{
    let count = instance.projects();
    let mut best = None;
    for (j, line) in lines.iter().enumerate() {
        best = least_with(best, line.row, projects[j] >= count);
    }
    best
}

/// Finds the lowest-numbered row of a pair whose project is not on the student's list.
fn not_acceptable(
    instance: &Instance,
    lines: &[PairLine],
    students: &[usize],
    projects: &[usize],
) -> Option<u32>
    requires students { students.now ≡ map (student_in instance.now) lines.now }
    requires projects { projects.now ≡ map (project_in instance.now) lines.now }
    requires known { All (λ s. s < length instance.now.choices) students.now }
    ensures { IsLeastOf (HasPairFault instance.now lines.now MatchingFault.NotAcceptable) result }
{
    let mut best = None;
    for (j, line) in lines.iter().enumerate() {
        let is_listed = is_on(instance.choices(students[j]), projects[j]);
        best = least_with(best, line.row, !is_listed);
    }
    best
}

/// Finds the lowest-numbered row of a pair whose student is in an earlier pair.
fn student_twice(
    alloc: Global,
    instance: &Instance,
    lines: &[PairLine],
    students: &[usize],
) -> Result<Option<u32>, AllocError>
    requires students { students.now ≡ map (student_in instance.now) lines.now }
    requires known { All (λ s. s < length instance.now.choices) students.now }
    ensures { IfOk result
        (IsLeastOf (HasPairFault instance.now lines.now MatchingFault.StudentTwice)) }
{
    let mut seen = vec![in alloc; false; instance.students()]?;
    let mut best = None;
    for (j, line) in lines.iter().enumerate() {
        let s = students[j];
        best = least_with(best, line.row, seen[s]);
        seen[s] = true;
    }
    Ok(best)
}

/// Finds the lowest-numbered row of a pair at which a project exceeds its capacity.
fn project_over(
    alloc: Global,
    instance: &Instance,
    lines: &[PairLine],
    projects: &[usize],
) -> Result<Option<u32>, AllocError>
    requires projects { projects.now ≡ map (project_in instance.now) lines.now }
    requires known { All (λ p. p < length instance.now.lecturers) projects.now }
    ensures { IfOk result
        (IsLeastOf (HasPairFault instance.now lines.now MatchingFault.ProjectOver)) }
{
    let mut counts = vec![in alloc; 0; instance.projects()]?;
    let mut best = None;
    for (j, line) in lines.iter().enumerate() {
        let p = projects[j];
        counts[p] += 1;
        let is_over = counts[p] > instance.project_capacity(p) as usize;
        best = least_with(best, line.row, is_over);
    }
    Ok(best)
}

/// Finds the lowest-numbered row of a pair at which a lecturer exceeds the capacity.
fn lecturer_over(
    alloc: Global,
    instance: &Instance,
    lines: &[PairLine],
    projects: &[usize],
) -> Result<Option<u32>, AllocError>
    requires projects { projects.now ≡ map (project_in instance.now) lines.now }
    requires known { All (λ p. p < length instance.now.lecturers) projects.now }
    ensures { IfOk result
        (IsLeastOf (HasPairFault instance.now lines.now MatchingFault.LecturerOver)) }
{
    let mut counts = vec![in alloc; 0; instance.lecturers()]?;
    let mut best = None;
    for (j, line) in lines.iter().enumerate() {
        let l = instance.lecturer_of(projects[j]);
        counts[l] += 1;
        let is_over = counts[l] > instance.lecturer_capacity(l) as usize;
        best = least_with(best, line.row, is_over);
    }
    Ok(best)
}

/// Refuses the pairs with this fault at `row`, or returns `Ok` if `row` is `None`.
fn refuse_pairs(fault: MatchingFault, row: Option<u32>) -> Result<(), BadMatching>
    ensures ok { OnOk result (row ≡ None) }
    ensures err { IfErr result (λ e. (e.fault ≡ fault) × (row ≡ Some e.row)) }
{
    match row {
        Some(row) => Err(BadMatching { fault, row }),
        None => Ok(()),
    }
}

/// Returns the first fault of the pairs as an error, if they have one.
pub(crate) fn check_pairs(
    alloc: Global,
    instance: &Instance,
    lines: &[PairLine],
    students: &[usize],
    projects: &[usize],
) -> Result<(), BadMatching>
    requires students { students.now ≡ map (student_in instance.now) lines.now }
    requires projects { projects.now ≡ map (project_in instance.now) lines.now }
    ensures ok { OnOk result (AreSound instance.now lines.now) }
    ensures err { IfErr result (λ e. IsPairRefusal instance.now lines.now e.fault e.row) }
{
    let unknown = no_such_student(instance, lines, students);
    refuse_pairs(MatchingFault::NoSuchStudent, unknown)?;
    let unknown = no_such_project(instance, lines, projects);
    refuse_pairs(MatchingFault::NoSuchProject, unknown)?;
    let unlisted = not_acceptable(instance, lines, students, projects);
    refuse_pairs(MatchingFault::NotAcceptable, unlisted)?;
    let again = student_twice(alloc, instance, lines, students)?;
    refuse_pairs(MatchingFault::StudentTwice, again)?;
    let over = project_over(alloc, instance, lines, projects)?;
    refuse_pairs(MatchingFault::ProjectOver, over)?;
    let over = lecturer_over(alloc, instance, lines, projects)?;
    refuse_pairs(MatchingFault::LecturerOver, over)
}

/// Returns the project that the pairs give each of so many students, if any.
pub(crate) fn assigned_projects(
    alloc: Global,
    count: usize,
    students: &[usize],
    projects: &[usize],
) -> Result<Vec<Option<usize>>, AllocError>
    requires size { length students.now ≡ length projects.now }
    requires known { All (λ s. s < count) students.now }
    requires apart { IsDistinct students.now }
    ensures { IfOk result (λ own. AreAssigned count students.now projects.now own.items) }
{
    let mut own = vec![in alloc; None; count]?;
    for (j, s) in students.iter().enumerate() {
        own[*s] = Some(projects[j]);
    }
    Ok(own)
}
