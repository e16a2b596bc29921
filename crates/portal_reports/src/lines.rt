//! Formats the lines of the office's texts.

ghost use Rattle.std.specs.Prelude.{◌≡◌, ◌++◌, IfOk, IsTrue, Some, None, codes, decimal};
ghost use Rattle.std.specs.Prelude.{string_bytes};
ghost use Rattle.portal_rules.specs.Bodies as bodies;
ghost use Rattle.portal_reports.specs.Status as spec;
ghost use Rattle.portal_reports.specs.inner.Labels as form;

use portal_rules::{Phase, ProjectRow};
use spa_rows::Key;
use std::alloc::{AllocError, Global};

/// Returns the text of a key for a line; it has at most 16 ASCII bytes.
fn short(key: &Key) -> &str
    ensures text { result.now ≡ key.now }
    ensures short { IsTrue (form.is_short key.now) }
{
    prove!(key.as_bytes().len() <= 16);
    key.as_str()
}

/// Formats a line of the office's texts with a label and a number.
pub(crate) fn number_line(alloc: Global, label: &str, number: usize) -> Result<String, AllocError>
    requires { IsTrue (form.is_short label.now) }
    ensures { IfOk result (λ line. string_bytes line ≡ spec.number_line label.now number) }
{
    format!(in alloc; "{label:<16}{number:>6}\n")
}

/// Formats the line of the phase in the office's texts.
pub(crate) fn phase_line(alloc: Global, phase: Phase) -> Result<String, AllocError>
    ensures { IfOk result (λ line. string_bytes line ≡ spec.phase_line phase) }
{
    format!(in alloc; "{:<16}{}\n", "phase", phase.word())
}

/// Formats the line of a student who has a project.
pub(crate) fn placed_line(
    alloc: Global,
    student: &Key,
    project: &ProjectRow,
) -> Result<String, AllocError>
    ensures { IfOk result (λ line. string_bytes line ≡ bodies.padded_left 16 student.now
        ++ codes "  " ++ bodies.project_and_lecturer (Some project.now) ++ bodies.line_feed) }
{
    let key = short(student);
    let place = short(&project.key);
    format!(in alloc; "{key:<16}  {place:<16}  {}\n", project.lecturer.as_str())
}

/// Formats the line of a student who has no project.
pub(crate) fn unplaced_line(alloc: Global, student: &Key) -> Result<String, AllocError>
    ensures { IfOk result (λ line. string_bytes line ≡ bodies.padded_left 16 student.now
        ++ codes "  " ++ bodies.project_and_lecturer None ++ bodies.line_feed) }
{
    let key = short(student);
    format!(in alloc; "{key:<16}  (none)\n")
}

/// Formats the line of a project with this many students.
pub(crate) fn project_line(
    alloc: Global,
    project: &ProjectRow,
    students: usize,
) -> Result<String, AllocError>
    ensures { IfOk result (λ line. string_bytes line
        ≡ bodies.padded_left 16 project.now.key ++ bodies.padded_right 4 (decimal students)
        ++ codes " of " ++ bodies.padded_right 4 (decimal project.now.capacity)
        ++ bodies.line_feed) }
{
    let key = short(&project.key);
    format!(in alloc; "{key:<16}{students:>4} of {:>4}\n", project.capacity)
}

/// Formats the line that says how many students have a project.
pub(crate) fn assigned_line(
    alloc: Global,
    assigned: usize,
    students: usize,
) -> Result<String, AllocError>
    ensures { IfOk result (λ line. string_bytes line ≡ codes "assigned " ++ decimal assigned
        ++ codes " of " ++ decimal students ++ bodies.line_feed) }
{
    format!(in alloc; "assigned {assigned} of {students}\n")
}
