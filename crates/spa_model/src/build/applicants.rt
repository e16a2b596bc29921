//! Checks that the ranking in a lecturer's line has exactly the lecturer's applicants.

ghost use Rattle.std.specs.Prelude.{◌≡◌, ◌<◌, ◌↔◌, All, Any, IsTrue, None, length};
ghost use Rattle.spa_rows.specs.inner.Least.{IsLeastOf};
ghost use Rattle.spa_rows.specs.Faults.{BadAt};
ghost use Rattle.spa_model.specs.inner.Numbers.{HaveChoicesBelow, Finds, IsApplicantNumber};
ghost use Rattle.spa_model.specs.inner.Numbers.{Misses, numbers_at};
ghost use Rattle.spa_model.specs.inner.Numbers.{MissesBelow};

use crate::instance::{Lecturer, Project, Student};
use spa_rows::{LecturerLine, least_with};

/// Returns whether a student with these choices is an applicant of the lecturer.
fn finds(projects: &[Project], choices: &[usize], lecturer: usize) -> bool
    requires { All (λ p. p < length projects.now) choices.now }
    ensures { IsTrue result ↔ Finds projects.now choices.now lecturer }
{
    for choice in choices {
        let project = &projects[*choice];
        if project.lecturer == lecturer {
            return true;
        }
    }
    false
}

/// Returns whether the number, from a ranking, is that of an applicant of the lecturer.
fn is_applicant(students: &[Student], projects: &[Project], lecturer: usize, number: usize) -> bool
    requires { HaveChoicesBelow (length projects.now) students.now }
    ensures { IsTrue result ↔ IsApplicantNumber students.now projects.now lecturer number }
{
    if number >= students.len() {
        return false;
    }
    let student = &students[number];
    finds(projects, &student.choices, lecturer)
}

/// Returns whether the lecturer's ranking has a number that is no applicant's.
fn lists_other(
    students: &[Student],
    projects: &[Project],
    lecturer: usize,
    ranking: &[usize],
) -> bool
    requires { HaveChoicesBelow (length projects.now) students.now }
    ensures { IsTrue result ↔ Any
        (λ n. ¬ IsApplicantNumber students.now projects.now lecturer n) ranking.now }
{
    ranking.iter().any(|number| !is_applicant(students, projects, lecturer, *number))
}

/// Finds the lowest-numbered row of a lecturer whose ranking lists a non-applicant.
pub(crate) fn not_applicant(
    lecturers: &[LecturerLine],
    rankings: &[Vec<usize>],
    students: &[Student],
    projects: &[Project],
) -> Option<u32>
    requires count { length rankings.now ≡ length lecturers.now }
    requires choices { HaveChoicesBelow (length projects.now) students.now }
    ensures { IsLeastOf (BadAt lecturers.now (λ x. x.row)
        (λ l _. Any (λ n. ¬ IsApplicantNumber students.now projects.now l n)
        (numbers_at rankings.now l))) result }
{
    let mut best = None;
    for (number, lecturer) in lecturers.iter().enumerate() {
        let is_bad = lists_other(students, projects, number, &rankings[number]);
        best = least_with(best, lecturer.row, is_bad);
    }
    best
}

/// Finds the lowest-numbered row of a lecturer whose ranking lacks the applicant with these
/// choices.
fn misses(
    lines: &[LecturerLine],
    lecturers: &[Lecturer],
    projects: &[Project],
    choices: &[usize],
    student: usize,
) -> Option<u32>
    requires choices { All (λ p. p < length projects.now) choices.now }
    requires offered { All (λ p. p.lecturer < length lecturers.now) projects.now }
    requires count { length lecturers.now ≡ length lines.now }
    requires ranks { All (λ l. student < length l.ranks.items) lecturers.now }
    ensures { IsLeastOf (Misses lines.now lecturers.now projects.now choices.now student) result }
{
    let mut best = None;
    for choice in choices {
        let project = &projects[*choice];
        let lecturer = &lecturers[project.lecturer];
        let line = &lines[project.lecturer];
        best = least_with(best, line.row, lecturer.ranks[student].is_none());
    }
    best
}

/// Finds the lowest-numbered row of a lecturer whose ranking lacks an applicant.
pub(crate) fn applicant_missing(
    lines: &[LecturerLine],
    lecturers: &[Lecturer],
    projects: &[Project],
    students: &[Student],
) -> Option<u32>
    requires choices { HaveChoicesBelow (length projects.now) students.now }
    requires offered { All (λ p. p.lecturer < length lecturers.now) projects.now }
    requires count { length lecturers.now ≡ length lines.now }
    requires ranks { All (λ l. length l.ranks.items ≡ length students.now) lecturers.now }
    ensures { IsLeastOf
        (MissesBelow lines.now lecturers.now projects.now students.now (length students.now))
        result }
{
    let mut best = None;
    for (number, student) in students.iter().enumerate() {
        if let Some(row) = misses(lines, lecturers, projects, &student.choices, number) {
            best = least_with(best, row, true);
        }
    }
    best
}
