//! Decides a lecturer's calls.

ghost use Rattle.std.specs.Prelude.{◌≡◌, [], ◌∷◌, map, option_map, codes, Some, IfOk};
ghost use Rattle.serde_json.specs.View as json;
ghost use Rattle.portal_rules.specs.World as world;
ghost use Rattle.portal_rules.specs.Bodies.{dictionary, several, texts_or_null};
ghost use Rattle.portal_rules.specs.Bodies as bodies;
ghost use Rattle.portal_rules.specs.Faults.{ranking_fault};
ghost use Rattle.portal_rules.specs.Calls.{AbstractCall};
ghost use Rattle.portal_rules.specs.Answer as answer;
ghost use Rattle.portal_rules.specs.Answer.{unless_faulty, to_lecturer};
ghost use Rattle.portal_rules.specs.Meaning.{call_model, texts_of, decision_model};
ghost use Rattle.portal_rules.specs.inner.Room.{by_project, project_and_persons};

use crate::bodies::{array_of, catalogue_body, me_members, object_of, put_person, put_text};
use crate::lists::{bad_list, checked_ranking};
use crate::replies::{applies, not_yours, shows, wrong_phase};
use portal_rules::{Call, Change, Decision, LecturerView, Person, Phase};
use serde_json::{Map, Value, put};
use spa_rows::Key;
use std::alloc::{AllocError, Global};

/// Makes the body that replies to a lecturer's `Call::Me`.
fn me_body(alloc: Global, view: &LecturerView) -> Result<Value, AllocError>
    ensures { IfOk result (λ body. json.view body ≡ bodies.lecturer_me view.now) }
{
    let mut me = me_members(alloc, view.round, view.phase, "lecturer")?;
    put_person(&mut me, alloc, &view.me)?;
    put(&mut me, alloc, "capacity", Value::from(view.capacity))?;
    Ok(Value::Object(me))
}

/// Makes a JSON object of a lecturer's project, with these persons as the member `name`.
fn project_value(
    alloc: Global,
    name: &str,
    project: &Key,
    persons: &[Person],
) -> Result<Value, AllocError>
    ensures { IfOk result (λ value. json.view value
        ≡ project_and_persons name.now (project.now, persons.now)) }
{
    let mut members = Map::new(alloc);
    put_text(&mut members, alloc, "id", project.as_str())?;
    put(&mut members, alloc, name, array_of(alloc, persons)?)?;
    Ok(Value::Object(members))
}

/// Makes a JSON object of each of a lecturer's projects, with its persons as the member `name`.
fn project_values(
    alloc: Global,
    name: &str,
    projects: &[(Key, Vec<Person>)],
) -> Result<Vec<Value>, AllocError>
    ensures { IfOk result (λ values. map json.view values.items
        ≡ map (project_and_persons name.now) (by_project projects.now)) }
{
    let mut values = Vec::new(alloc);
    for (project, persons) in projects {
        values.push(project_value(alloc, name, project, persons)?)?;
    }
    Ok(values)
}

/// Makes the body that shows a lecturer's projects, each with its persons as the member `name`: the
/// applicants, or the students whom the result places there.
fn projects_body(
    alloc: Global,
    name: &str,
    projects: &[(Key, Vec<Person>)],
) -> Result<Value, AllocError>
    ensures { IfOk result (λ body. json.view body ≡ dictionary (
        (codes "projects", several (map (project_and_persons name.now) (by_project projects.now))) ∷ [])) }
{
    let values = project_values(alloc, name, projects)?;
    object_of(alloc, "projects", Value::Array(values))
}

/// Makes a JSON array of the students whom a lecturer ranked, or null if there is no ranking.
fn ranking_value(alloc: Global, ranking: &Option<Vec<Key>>) -> Result<Value, AllocError>
    ensures { IfOk result (λ value. json.view value
        ≡ texts_or_null (option_map (λ r. r.items) ranking.now)) }
{
    match ranking {
        None => Ok(Value::Null),
        Some(students) => array_of(alloc, students),
    }
}

/// Decides a lecturer's call to show the applicants: allowed once the students' lists are closed.
fn show_applicants(alloc: Global, view: &LecturerView) -> Result<Decision, AllocError>
    ensures { IfOk result (λ decision. decision_model decision
        ≡ to_lecturer view.now AbstractCall.Applicants) }
{
    if view.phase.is_from_ranking() {
        Ok(shows(projects_body(alloc, "applicants", &view.applicants)?))
    } else {
        wrong_phase(alloc)
    }
}

/// Decides a lecturer's call to show the ranking: allowed once the students' lists are closed.
fn show_ranking(alloc: Global, view: &LecturerView) -> Result<Decision, AllocError>
    ensures { IfOk result (λ decision. decision_model decision
        ≡ to_lecturer view.now AbstractCall.ShowRanking) }
{
    if view.phase.is_from_ranking() {
        let students = ranking_value(alloc, &view.ranking)?;
        Ok(shows(object_of(alloc, "students", students)?))
    } else {
        wrong_phase(alloc)
    }
}

/// Decides to accept the lecturer's ranking if it has no fault, and otherwise to refuse it.
fn take_ranking(
    alloc: Global,
    view: &LecturerView,
    list: &[Vec<u8>],
) -> Result<Decision, AllocError>
    ensures { let texts = texts_of list.now in
        IfOk result (λ decision. decision_model decision
        ≡ unless_faulty (ranking_fault view.now.applicants texts)
        (answer.applies (bodies.students_body (Some texts)) (world.Ranks view.now.me.key texts))) }
{
    let students = match checked_ranking(alloc, &view.applicants, list)? {
        Ok(students) => students,
        Err(fault) => return bad_list(alloc, fault),
    };
    let body = object_of(alloc, "students", array_of(alloc, &students)?)?;
    let lecturer = view.me.key.copy(alloc)?;
    Ok(applies(body, Change::Ranking { lecturer, students }))
}

/// Decides a lecturer's call to set the ranking: accepted without a fault, in the phase ranking.
fn set_ranking(alloc: Global, view: &LecturerView, list: &[Vec<u8>]) -> Result<Decision, AllocError>
    ensures { IfOk result (λ decision. decision_model decision
        ≡ to_lecturer view.now (AbstractCall.SetRanking (texts_of list.now))) }
{
    match view.phase {
        Phase::Ranking => take_ranking(alloc, view, list),
        _ => wrong_phase(alloc),
    }
}

/// Decides a lecturer's call to show the result: allowed once there is one.
fn show_result(alloc: Global, view: &LecturerView) -> Result<Decision, AllocError>
    ensures { IfOk result (λ decision. decision_model decision
        ≡ to_lecturer view.now AbstractCall.Result) }
{
    if view.round.has_result(view.phase) {
        Ok(shows(projects_body(alloc, "students", &view.placed)?))
    } else {
        wrong_phase(alloc)
    }
}

/// Decides a lecturer's call.
pub(crate) fn decide_lecturer(
    alloc: Global,
    view: &LecturerView,
    call: &Call,
) -> Result<Decision, AllocError>
    ensures { IfOk result (λ decision. decision_model decision
        ≡ to_lecturer view.now (call_model call.now)) }
{
    match call {
        Call::Me => Ok(shows(me_body(alloc, view)?)),
        Call::Catalogue => Ok(shows(catalogue_body(alloc, &view.catalogue)?)),
        Call::Applicants => show_applicants(alloc, view),
        Call::ShowRanking => show_ranking(alloc, view),
        Call::SetRanking(list) => set_ranking(alloc, view, list),
        Call::Result => show_result(alloc, view),
        _ => not_yours(alloc),
    }
}
