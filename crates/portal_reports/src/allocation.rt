//! Writes the result as text.

ghost use Rattle.std.specs.Prelude.{◌≡◌, ◌++◌, IfOk, OnOk};
ghost use Rattle.std.specs.List.{flat_map};
ghost use Rattle.portal_rules.specs.Bodies as bodies;

use crate::lines::{assigned_line, placed_line, project_line, unplaced_line};
use portal_rules::index::Placings;
use portal_rules::{OfficeView, StudentRow, students_at};
use std::alloc::{AllocError, Global};

/// Appends the line of a student to the text of the result.
fn put_student(
    text: &mut Vec<u8>,
    alloc: Global,
    placings: &Placings,
    student: &StudentRow,
) -> Result<(), AllocError>
    ensures { OnOk result (text.new.items ≡ text.old.items
        ++ bodies.student_line placings.now student.now) }
{
    let line = match placings.project_of(student) {
        Some(project) => placed_line(alloc, &student.key, project)?,
        None => unplaced_line(alloc, &student.key)?,
    };
    text.extend_from_slice(line.as_bytes())
}

/// Appends the lines of the students to the text of the result.
fn put_students(text: &mut Vec<u8>, alloc: Global, view: &OfficeView) -> Result<(), AllocError>
    ensures { OnOk result (text.new.items ≡ text.old.items
        ++ flat_map (bodies.student_line view.now) view.now.students) }
{
    let placings = Placings::of(alloc, view)?;
    for student in view.students.iter() {
        put_student(text, alloc, &placings, student)?;
    }
    Ok(())
}

/// Appends the lines of the projects to the text of the result.
fn put_projects(text: &mut Vec<u8>, alloc: Global, view: &OfficeView) -> Result<(), AllocError>
    ensures { OnOk result (text.new.items ≡ text.old.items
        ++ flat_map (bodies.project_line view.now) view.now.projects) }
{
    for project in view.projects.iter() {
        let students = students_at(&view.pairs, &project.key);
        let line = project_line(alloc, project, students)?;
        text.extend_from_slice(line.as_bytes())?;
    }
    Ok(())
}

/// Returns the result as text: a line for each student, a line for each project, both by key, and
/// how many students have a project. An error means that memory ran out.
pub fn allocation_text(alloc: Global, view: &OfficeView) -> Result<Vec<u8>, AllocError>
    ensures { IfOk result (λ text. text.items ≡ bodies.result_text view.now) }
{
    let mut text = Vec::new(alloc);
    put_students(&mut text, alloc, view)?;
    text.push(b'\n')?;
    put_projects(&mut text, alloc, view)?;
    text.push(b'\n')?;
    let last = assigned_line(alloc, view.pairs.len(), view.students.len())?;
    text.extend_from_slice(last.as_bytes())?;
    Ok(text)
}
