//! Decides a student's calls.

ghost use Rattle.std.specs.Prelude.{◌≡◌, [], IfOk};
ghost use Rattle.serde_json.specs.View as json;
ghost use Rattle.portal_rules.specs.Bodies.{text_or_null};
ghost use Rattle.portal_rules.specs.Bodies as bodies;
ghost use Rattle.portal_rules.specs.Faults.{choice_fault};
ghost use Rattle.portal_rules.specs.World as change;
ghost use Rattle.portal_rules.specs.Calls.{AbstractCall};
ghost use Rattle.portal_rules.specs.Answer as answer;
ghost use Rattle.portal_rules.specs.Answer.{unless_faulty, to_student};
ghost use Rattle.portal_rules.specs.Meaning.{call_model, texts_of, decision_model};

use crate::bodies::{ToJson, array_of, catalogue_body, me_members, object_of, put_person};
use crate::lists::{bad_list, checked_choices};
use crate::replies::{applies, not_yours, refusal_reply, refuses, shows, wrong_phase};
use portal_rules::{Call, Change, Decision, Phase, StudentView};
use serde_json::Value;
use spa_rows::Key;
use std::alloc::{AllocError, Global};

/// Makes the body that replies to a student's `Call::Me`.
fn me_body(alloc: Global, view: &StudentView) -> Result<Value, AllocError>
    ensures { IfOk result (λ body. json.view body ≡ bodies.student_me view.now) }
{
    let mut me = me_members(alloc, view.round, view.phase, "student")?;
    put_person(&mut me, alloc, &view.me)?;
    Ok(Value::Object(me))
}

/// Makes the body that shows a student the list.
fn choices_body(alloc: Global, choices: &[Key]) -> Result<Value, AllocError>
    ensures { IfOk result (λ body. json.view body ≡ bodies.projects_body choices.now) }
{
    object_of(alloc, "projects", array_of(alloc, choices)?)
}

/// Makes a JSON string of the key of the student's project, or null if there is none.
fn project_value(alloc: Global, project: &Option<Key>) -> Result<Value, AllocError>
    ensures { IfOk result (λ value. json.view value ≡ text_or_null project.now) }
{
    match project {
        None => Ok(Value::Null),
        Some(key) => key.to_json(alloc),
    }
}

/// Makes the body that shows a student the project that the result gives.
fn result_body(alloc: Global, project: &Option<Key>) -> Result<Value, AllocError>
    ensures { IfOk result (λ body. json.view body ≡ bodies.project_body project.now) }
{
    object_of(alloc, "project", project_value(alloc, project)?)
}

/// Decides to accept the student's list if it has no fault, and otherwise to refuse it.
fn take_choices(alloc: Global, view: &StudentView, list: &[Vec<u8>]) -> Result<Decision, AllocError>
    ensures { let texts = texts_of list.now in
        IfOk result (λ decision. decision_model decision
        ≡ unless_faulty (choice_fault view.now.catalogue texts)
        (answer.applies (bodies.projects_body texts) (change.Choices view.now.me.key texts))) }
{
    let projects = match checked_choices(alloc, &view.catalogue, list)? {
        Ok(projects) => projects,
        Err(fault) => return bad_list(alloc, fault),
    };
    let body = choices_body(alloc, &projects)?;
    let student = view.me.key.copy(alloc)?;
    Ok(applies(body, Change::Choices { student, projects }))
}

/// Decides a student's call to set the list: accepted without a fault, in choosing, unless already
/// placed.
fn set_choices(alloc: Global, view: &StudentView, list: &[Vec<u8>]) -> Result<Decision, AllocError>
    ensures { IfOk result (λ decision. decision_model decision
        ≡ to_student view.now (AbstractCall.SetChoices (texts_of list.now))) }
{
    match view.phase {
        Phase::Choosing => match view.result {
            None => take_choices(alloc, view, list),
            Some(_) => Ok(refuses(refusal_reply(alloc, 409, "already_placed")?)),
        },
        _ => wrong_phase(alloc),
    }
}

/// Decides a student's call to show the result: allowed once there is one.
fn show_result(alloc: Global, view: &StudentView) -> Result<Decision, AllocError>
    ensures { IfOk result (λ decision. decision_model decision
        ≡ to_student view.now AbstractCall.Result) }
{
    if view.round.has_result(view.phase) {
        Ok(shows(result_body(alloc, &view.result)?))
    } else {
        wrong_phase(alloc)
    }
}

/// Decides a student's call.
pub(crate) fn decide_student(
    alloc: Global,
    view: &StudentView,
    call: &Call,
) -> Result<Decision, AllocError>
    ensures { IfOk result (λ decision. decision_model decision
        ≡ to_student view.now (call_model call.now)) }
{
    match call {
        Call::Me => Ok(shows(me_body(alloc, view)?)),
        Call::Catalogue => Ok(shows(catalogue_body(alloc, &view.catalogue)?)),
        Call::ShowChoices => Ok(shows(choices_body(alloc, &view.choices)?)),
        Call::SetChoices(list) => set_choices(alloc, view, list),
        Call::Result => show_result(alloc, view),
        _ => not_yours(alloc),
    }
}
