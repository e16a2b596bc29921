//! Writes the status of the round as text.

ghost use Rattle.std.specs.Prelude.{◌≡◌, ◌++◌, IfOk, OnOk, IsTrue, codes, length};
ghost use Rattle.portal_reports.specs.Status as spec;
ghost use Rattle.portal_reports.specs.inner.Labels as form;

use crate::lines::{number_line, phase_line};
use portal_rules::{OfficeView, Round};
use std::alloc::{AllocError, Global};

/// Appends a line with a label and a number to the status.
fn put_number(
    text: &mut Vec<u8>,
    alloc: Global,
    label: &str,
    number: usize,
) -> Result<(), AllocError>
    requires { IsTrue (form.is_short label.now) }
    ensures { OnOk result (text.new.items ≡ text.old.items ++ spec.number_line label.now number) }
{
    let line = number_line(alloc, label, number)?;
    text.extend_from_slice(line.as_bytes())
}

/// Appends the line of the round to the status if it is the second.
fn put_round(text: &mut Vec<u8>, alloc: Global, round: Round) -> Result<(), AllocError>
    ensures { OnOk result (text.new.items ≡ text.old.items ++ spec.round_lines round) }
{
    match round {
        Round::First => Ok(()),
        Round::Second => put_number(text, alloc, "round", 2usize),
    }
}

/// Appends the sizes of the rolls to the status.
fn put_rolls(text: &mut Vec<u8>, alloc: Global, view: &OfficeView) -> Result<(), AllocError>
    ensures { OnOk result (text.new.items ≡ text.old.items
        ++ spec.number_line (codes "lecturers") (length view.now.lecturers)
        ++ spec.number_line (codes "projects") (length view.now.projects)
        ++ spec.number_line (codes "students") (length view.now.students)) }
{
    put_number(text, alloc, "lecturers", view.lecturers.len())?;
    put_number(text, alloc, "projects", view.projects.len())?;
    put_number(text, alloc, "students", view.students.len())
}

/// Appends to the status how many students have no list and how many lecturers are still to rank.
fn put_missing(text: &mut Vec<u8>, alloc: Global, view: &OfficeView) -> Result<(), AllocError>
    ensures { OnOk result (text.new.items ≡ text.old.items
        ++ spec.number_line (codes "without list") (length view.now.without_list)
        ++ spec.number_line (codes "still to rank") (length view.now.still_to_rank)) }
{
    put_number(text, alloc, "without list", view.without_list.len())?;
    put_number(text, alloc, "still to rank", view.still_to_rank.len())?;
    Ok(())
}

/// Appends to the status how many students have a project, if a result is available.
fn put_assigned(text: &mut Vec<u8>, alloc: Global, view: &OfficeView) -> Result<(), AllocError>
    ensures { OnOk result (text.new.items ≡ text.old.items ++ spec.assigned_number view.now) }
{
    if view.round.has_result(view.phase) {
        put_number(text, alloc, "assigned", view.pairs.len())
    } else {
        Ok(())
    }
}

/// Returns the status as text: phase, round if it is the second, sizes of the rolls, and numbers of
/// missing lists and rankings. If a result is available, the text ends with how many students have
/// a project. An error means that memory ran out.
pub fn status_text(alloc: Global, view: &OfficeView) -> Result<Vec<u8>, AllocError>
    ensures { IfOk result (λ text. text.items ≡ spec.status_text view.now) }
{
    let line = phase_line(alloc, view.phase)?;
    let mut text = Vec::from_slice(alloc, line.as_bytes())?;
    put_round(&mut text, alloc, view.round)?;
    put_rolls(&mut text, alloc, view)?;
    put_missing(&mut text, alloc, view)?;
    put_assigned(&mut text, alloc, view)?;
    Ok(text)
}
