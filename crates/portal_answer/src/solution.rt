//! Writes the lines of the student-optimal matching, for `solve`.

ghost use Rattle.std.specs.Prelude.{◌≡◌, ◌<◌, ◌++◌, IfOk, IfSome, OnOk, length, slice_index_or, []};
ghost use Rattle.spa_model.specs.Spa.{IsMatching};
ghost use Rattle.portal_answer.specs.Answer.{assign_line, assignment, TellsBest};

use crate::answer::Output;
use spa_model::{Instance, Matching};
use spa_student::solve;
use std::alloc::{AllocError, Global};

/// Appends the line of a student in the student-optimal matching, for `solve`.
fn put_student(
    text: &mut Vec<u8>,
    instance: &Instance,
    student: usize,
    project: Option<usize>,
) -> Result<(), AllocError>
    requires student { student < length instance.now.choices }
    requires project { IfSome project (λ p. p < length instance.now.lecturers) }
    ensures { OnOk result (text.new.items ≡ text.old.items
        ++ assign_line instance.now (slice_index_or instance.now.student_keys student []) project) }
{
    let key = instance.student_key(student).as_bytes();
    match project {
        Some(p) => {
            text.extend_from_slice(b"assign ")?;
            text.extend_from_slice(key)?;
            text.extend_from_slice(b" ")?;
            text.extend_from_slice(instance.project_key(p).as_bytes())?;
        }
        None => {
            text.extend_from_slice(b"none ")?;
            text.extend_from_slice(key)?;
        }
    }
    text.extend_from_slice(b"\n")?;
    Ok(())
}

/// Writes a line for each student, then how many have a project and how many do not, for `solve`.
fn lines(alloc: Global, instance: &Instance, matching: &Matching) -> Result<Output, AllocError>
    requires { IsMatching instance.now matching.now }
    ensures { IfOk result (λ t. t ≡ assignment instance.now matching.now) }
{
    let mut text = Vec::new(alloc);
    let mut assigned = 0usize;
    for student in 0..instance.students() {
        let project = instance.project_of(matching, student);
        put_student(&mut text, instance, student, project)?;
        assigned += usize::from(project.is_some());
    }
    let unassigned = instance.students() - assigned;
    let last = format!(in alloc; "assigned {assigned} unassigned {unassigned}\n")?;
    text.extend_from_slice(last.as_bytes())?;
    Ok(Output { text, status: 0 })
}

/// Computes the answer of `solve`: the student-optimal stable matching.
pub(crate) fn solve_answer(alloc: Global, instance: &Instance) -> Result<Output, AllocError>
    ensures { IfOk result (λ t. TellsBest instance.now t) }
{
    let matching = solve(alloc, instance)?;
    lines(alloc, instance, &matching)
}
