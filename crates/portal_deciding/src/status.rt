//! Makes the body that shows the office the status.

ghost use Rattle.std.specs.Prelude.{◌≡◌, ◌∷◌, [], length, map, filter, not, codes, IfOk, OnOk};
ghost use Rattle.serde_json.specs.View as json;
ghost use Rattle.serde_json.specs.Data.{string, put as with_member};
ghost use Rattle.portal_rules.specs.World.{phase_word};
ghost use Rattle.portal_rules.specs.Bodies as bodies;
ghost use Rattle.portal_rules.specs.Bodies.{count, members};

use crate::bodies::{ToJson, array_of, put_text};
use portal_rules::index::Placings;
use portal_rules::{OfficeView, Phase, Round, StudentRow};
use serde_json::{Map, Value, put};
use std::alloc::{AllocError, Global};

/// Makes a JSON string of the key of each of `students` without a project, for the office's status.
fn unplaced_values(
    alloc: Global,
    placings: &Placings,
    students: &[StudentRow],
) -> Result<Vec<Value>, AllocError>
    ensures { IfOk result (λ values. map json.view values.items
        ≡ map string (map (λ s. s.key)
        (filter (λ s. not (bodies.is_assigned placings.now.pairs s.key)) students.now))) }
{
    let mut values = Vec::new(alloc);
    for student in students {
        if !placings.is_placed(student) {
            values.push(student.key.to_json(alloc)?)?;
        }
    }
    Ok(values)
}

/// Makes a JSON string of the key of each student without a project, for the office's status.
fn unassigned_values(alloc: Global, view: &OfficeView) -> Result<Vec<Value>, AllocError>
    ensures { IfOk result (λ values. map json.view values.items
        ≡ map string (bodies.unassigned view.now)) }
{
    let placings = Placings::of(alloc, view)?;
    unplaced_values(alloc, &placings, &view.students)
}

/// Adds the numbers of lecturers, projects and students to the JSON members.
fn put_counts(
    members: &mut Map<String, Value>,
    alloc: Global,
    view: &OfficeView,
) -> Result<(), AllocError>
    ensures { OnOk result (json.members_view members.new.entries
        ≡ with_member (codes "students") (count (length view.now.students))
        (with_member (codes "projects") (count (length view.now.projects))
        (with_member (codes "lecturers") (count (length view.now.lecturers))
        (json.members_view members.old.entries)))) }
{
    put(
        members,
        alloc,
        "lecturers",
        Value::from(view.lecturers.len()),
    )?;
    put(members, alloc, "projects", Value::from(view.projects.len()))?;
    put(members, alloc, "students", Value::from(view.students.len()))
}

/// Makes the JSON members that the office's status has in every phase.
fn status_members(alloc: Global, view: &OfficeView) -> Result<Map<String, Value>, AllocError>
    ensures { IfOk result (λ status. json.members_view status.entries ≡ members (
        (codes "lecturers", count (length view.now.lecturers))
        ∷ (codes "phase", string (phase_word view.now.phase))
        ∷ (codes "projects", count (length view.now.projects))
        ∷ (codes "still_to_rank", bodies.texts view.now.still_to_rank)
        ∷ (codes "students", count (length view.now.students))
        ∷ (codes "without_list", bodies.texts view.now.without_list) ∷ [])) }
{
    let mut status = Map::new(alloc);
    put_counts(&mut status, alloc, view)?;
    put_text(&mut status, alloc, "phase", view.phase.word())?;
    let still_to_rank = array_of(alloc, &view.still_to_rank)?;
    put(&mut status, alloc, "still_to_rank", still_to_rank)?;
    let without_list = array_of(alloc, &view.without_list)?;
    put(&mut status, alloc, "without_list", without_list)?;
    Ok(status)
}

/// Makes the JSON members of the office's status once there is a result.
fn status_with_result(alloc: Global, view: &OfficeView) -> Result<Map<String, Value>, AllocError>
    ensures { IfOk result (λ status. json.members_view status.entries ≡ members (
        (codes "assigned", count (length view.now.pairs))
        ∷ (codes "lecturers", count (length view.now.lecturers))
        ∷ (codes "phase", string (phase_word view.now.phase))
        ∷ (codes "projects", count (length view.now.projects))
        ∷ (codes "still_to_rank", bodies.texts view.now.still_to_rank)
        ∷ (codes "students", count (length view.now.students))
        ∷ (codes "unassigned", bodies.texts (bodies.unassigned view.now))
        ∷ (codes "without_list", bodies.texts view.now.without_list) ∷ [])) }
{
    let mut status = status_members(alloc, view)?;
    let unassigned = Value::Array(unassigned_values(alloc, view)?);
    put(
        &mut status,
        alloc,
        "assigned",
        Value::from(view.pairs.len()),
    )?;
    put(&mut status, alloc, "unassigned", unassigned)?;
    Ok(status)
}

/// Makes the body that shows the office the status.
pub(crate) fn status_body(alloc: Global, view: &OfficeView) -> Result<Value, AllocError>
    ensures { IfOk result (λ body. json.view body ≡ bodies.status_body view.now) }
{
    match (view.round, view.phase) {
        (Round::Second, _) => {
            let mut status = status_with_result(alloc, view)?;
            put(&mut status, alloc, "round", Value::from(2u32))?;
            Ok(Value::Object(status))
        }
        (Round::First, Phase::Published) => { Ok(Value::Object(status_with_result(alloc, view)?)) }
        (Round::First, _) => Ok(Value::Object(status_members(alloc, view)?)),
    }
}
