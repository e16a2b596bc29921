//! Converts lines into students, projects and lecturers, replacing keys by indices.

ghost use Rattle.std.specs.Prelude.{◌≡◌, ◌<◌, ◌≤◌, All, IfOk, List, true, length};
ghost use Rattle.spa_rows.specs.Lines.{Text, is_key};
ghost use Rattle.spa_rows.specs.Faults.{IsKeyOf};
ghost use Rattle.spa_model.specs.Spa.{IsDistinct};
ghost use Rattle.spa_model.specs.inner.Inside.{AreRanks};
ghost use Rattle.spa_model.specs.inner.Numbers.{keys_of_lecturers};
ghost use Rattle.spa_model.specs.inner.Numbers.{AreNumbers, IsStudentOf, IsProjectOf};
ghost use Rattle.spa_model.specs.inner.Numbers.{IsLecturerOf};
ghost use Rattle.std.specs.List.{AllZip};

use crate::instance::{Lecturer, Project, Student};
use spa_rows::{Key, KeyFault, LecturerLine, LineIndex, ProjectLine, StudentLine};
use std::alloc::{AllocError, Global};

/// Converts the bytes of a line's key, known to be well formed, into a key.
fn key_of(alloc: Global, bytes: &[u8]) -> Result<Key, AllocError>
    requires { is_key bytes.now ≡ true }
    ensures { IfOk result (λ key. key ≡ bytes.now) }
{
    match Key::parse(alloc, bytes) {
        Ok(key) => Ok(key),
        Err(KeyFault::Memory) => Err(AllocError),
        Err(KeyFault::BadKey) => unreachable!(),
    }
}

/// Converts a lecturer's ranking into each student's position on it, or none.
fn ranks_of(alloc: Global, count: usize, ranking: &[usize]) -> Result<Vec<Option<u32>>, AllocError>
    requires count { count ≤ 2000 }
    requires below { All (λ s. s < count) ranking.now }
    requires distinct { IsDistinct ranking.now }
    ensures { IfOk result (λ ranks. AreRanks count ranking.now ranks.items) }
{
    let mut ranks = vec![in alloc; None; count]?;
    for (place, student) in ranking.iter().enumerate() {
        ranks[*student] = Some(place as u32);
    }
    Ok(ranks)
}

/// Converts a student's line, replacing the keys on the list by their numbers.
fn numbered_student(
    alloc: Global,
    line: &StudentLine,
    choices: &[usize],
) -> Result<Student, AllocError>
    requires { is_key line.now.key ≡ true }
    ensures { IfOk result (λ student. (keys : List Text) →
        AreNumbers keys line.now.list choices.now → IsStudentOf keys line.now student) }
{
    let own = Vec::from_slice(alloc, choices)?;
    Ok(Student {
        key: key_of(alloc, &line.key)?,
        choices: own,
    })
}

/// Converts a project's line, replacing the lecturer's key by an index.
fn numbered_project(
    alloc: Global,
    line: &ProjectLine,
    lecturers: &LineIndex<LecturerLine>,
) -> Result<Project, AllocError>
    requires form { is_key line.now.key ≡ true }
    requires known { IsKeyOf lecturers.now (λ x. x.key) line.now.lecturer }
    ensures { IfOk result (IsProjectOf (keys_of_lecturers lecturers.now) line.now) }
{
    let Some(number) = lecturers.find(&line.lecturer) else {
        unreachable!()
    };
    Ok(Project {
        key: key_of(alloc, &line.key)?,
        capacity: line.capacity,
        lecturer: number,
    })
}

/// Converts a lecturer's line, replacing the keys on the ranking by their numbers.
fn numbered_lecturer(
    alloc: Global,
    line: &LecturerLine,
    ranking: &[usize],
    students: usize,
) -> Result<Lecturer, AllocError>
    requires form { is_key line.now.key ≡ true }
    requires count { students ≤ 2000 }
    requires below { All (λ s. s < students) ranking.now }
    requires distinct { IsDistinct ranking.now }
    ensures { IfOk result (λ lecturer. (keys : List Text) → length keys ≡ students →
        AreNumbers keys line.now.list ranking.now → IsLecturerOf keys line.now lecturer) }
{
    let own = Vec::from_slice(alloc, ranking)?;
    let ranks = ranks_of(alloc, students, ranking)?;
    Ok(Lecturer {
        key: key_of(alloc, &line.key)?,
        capacity: line.capacity,
        ranking: own,
        ranks,
    })
}

/// Converts the lines of all students, in order, given the numbers of the keys on their lists.
pub(crate) fn number_students(
    alloc: Global,
    lines: &[StudentLine],
    choices: &[Vec<usize>],
) -> Result<Vec<Student>, AllocError>
    requires form { All (λ x. is_key x.key ≡ true) lines.now }
    requires count { length choices.now ≡ length lines.now }
    ensures { IfOk result (λ students. (keys : List Text) →
        AllZip (λ x own. AreNumbers keys x.list own.items) lines.now choices.now →
        AllZip (IsStudentOf keys) lines.now students.items) }
{
    let mut students = Vec::with_capacity(alloc, lines.len())?;
    for (place, line) in lines.iter().enumerate() {
        let student = numbered_student(alloc, line, &choices[place])?;
        students.push(student)?;
    }
    Ok(students)
}

/// Converts the lines of all projects, in order, replacing keys by indices.
pub(crate) fn number_projects(
    alloc: Global,
    lines: &[ProjectLine],
    lecturers: &[LecturerLine],
) -> Result<Vec<Project>, AllocError>
    requires form { All (λ x. is_key x.key ≡ true) lines.now }
    requires known { All (λ x. IsKeyOf lecturers.now (λ y. y.key) x.lecturer) lines.now }
    ensures { IfOk result (λ projects. AllZip (IsProjectOf
        (keys_of_lecturers lecturers.now)) lines.now projects.items) }
{
    let places = LineIndex::of(alloc, lecturers)?;
    let mut projects = Vec::with_capacity(alloc, lines.len())?;
    for line in lines {
        projects.push(numbered_project(alloc, line, &places)?)?;
    }
    Ok(projects)
}

/// Converts the lines of all lecturers, in order, with each student's position on the ranking,
/// given the numbers of the keys on the rankings.
pub(crate) fn number_lecturers(
    alloc: Global,
    lines: &[LecturerLine],
    rankings: &[Vec<usize>],
    students: usize,
) -> Result<Vec<Lecturer>, AllocError>
    requires form { All (λ x. is_key x.key ≡ true) lines.now }
    requires count { length rankings.now ≡ length lines.now }
    requires few { students ≤ 2000 }
    requires below { All (λ own. All (λ s. s < students) own.items) rankings.now }
    requires distinct { All (λ own. IsDistinct own.items) rankings.now }
    ensures { IfOk result (λ lecturers. (keys : List Text) → length keys ≡ students →
        AllZip (λ x own. AreNumbers keys x.list own.items) lines.now rankings.now →
        AllZip (IsLecturerOf keys) lines.now lecturers.items) }
{
    let mut lecturers = Vec::with_capacity(alloc, lines.len())?;
    for (place, line) in lines.iter().enumerate() {
        let lecturer = numbered_lecturer(alloc, line, &rankings[place], students)?;
        lecturers.push(lecturer)?;
    }
    Ok(lecturers)
}
