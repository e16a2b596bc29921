//! Decides the office's calls.

ghost use Rattle.std.specs.Prelude.{◌≡◌, if◌then◌else◌, IfOk};
ghost use Rattle.serde_json.specs.View as json;
ghost use Rattle.portal_rules.specs.Words.{is_empty};
ghost use Rattle.portal_rules.specs.World as world;
ghost use Rattle.portal_rules.specs.World.{is_ranking, Fill};
ghost use Rattle.portal_rules.specs.Bodies as bodies;
ghost use Rattle.portal_rules.specs.Faults as rolls;
ghost use Rattle.portal_rules.specs.Faults.{Took};
ghost use Rattle.portal_rules.specs.Answer as answer;
ghost use Rattle.portal_rules.specs.Answer.{Nothing, Apply, open_where, row_fault, to_office, blank};
ghost use Rattle.portal_rules.specs.Answer.{emptied};
ghost use Rattle.portal_rules.specs.Meaning.{call_model, reply_model, act_model, decision_model};

use crate::bodies::{array_of, catalogue_body, me_members, object_of, put_text};
use crate::moves::move_to;
use crate::new_rows::{Added, take_rows};
use crate::replies::{json_reply, not_yours, refusal_reply, refuses, renders, shows, wrong_phase};
use crate::roll_refusal::RollRefusal;
use crate::roll_rules::{NewLecturers, NewProjects, NewStudents, RollRules};
use crate::status::status_body;
use portal_rules::{Act, Call, Change, Decision, Keyed, OfficeView, Phase, Reply, Round, Sheet};
use serde_json::{Map, Value, put};
use spa_rows::Key;
use std::alloc::{AllocError, Global};

/// Makes the body that replies to the office's `Call::Me`.
fn me_body(alloc: Global, view: &OfficeView) -> Result<Value, AllocError>
    ensures { IfOk result (λ body. json.view body ≡ bodies.office_me view.now) }
{
    let me = me_members(alloc, view.round, view.phase, "office")?;
    Ok(Value::Object(me))
}

/// Makes the body that shows the office the result.
fn allocation_body(alloc: Global, pairs: &[(Key, Key)]) -> Result<Value, AllocError>
    ensures { IfOk result (λ body. json.view body ≡ bodies.allocation_body pairs.now) }
{
    object_of(alloc, "pairs", array_of(alloc, pairs)?)
}

/// Makes the reply that refuses the office's new rows, and names the faulty one if there is one.
fn row_refusal(alloc: Global, fault: &RollRefusal) -> Result<Reply, AllocError>
    ensures { IfOk result (λ reply. reply_model reply
        ≡ row_fault fault.now.status fault.now.word fault.now.row) }
{
    match fault.row {
        None => refusal_reply(alloc, fault.status, fault.word),
        Some(row) => {
            let mut body = Map::new(alloc);
            put_text(&mut body, alloc, "error", fault.word)?;
            put(&mut body, alloc, "row", Value::from(row))?;
            Ok(json_reply(fault.status, Value::Object(body)))
        }
    }
}

/// Makes the body that tells the office how many rows are new and how many already present.
fn roll_body(alloc: Global, new: usize, same: u64) -> Result<Value, AllocError>
    ensures { IfOk result (λ body. json.view body ≡ bodies.roll_body new same) }
{
    let mut body = Map::new(alloc);
    put(&mut body, alloc, "added", Value::from(new))?;
    put(&mut body, alloc, "same", Value::from(same))?;
    Ok(Value::Object(body))
}

/// Returns the act that adds the office's new rows, or `Nothing` if there are none.
fn adds<X: Drop + Keyed, R: RollRules<X>>(roll: &R, new: Vec<X>) -> Act
    ensures { act_model result ≡
        (if is_empty new.items then Nothing else Apply (R.changes roll.now new.items)) }
{
    if new.is_empty() {
        return Act::Nothing;
    }
    Act::Apply(roll.change(new))
}

/// Decides to accept the office's rows and to add the new ones.
fn accepts<X: Drop + Keyed, R: RollRules<X>>(
    alloc: Global,
    roll: &R,
    added: Added<X>,
) -> Result<Decision, AllocError>
    ensures { IfOk result (λ decision. decision_model decision
        ≡ answer.added (R.changes roll.now) (Took added.new.items added.same)) }
{
    let body = roll_body(alloc, added.new.len(), added.same)?;
    Ok(Decision {
        reply: json_reply(200, body),
        act: adds(roll, added.new),
    })
}

/// Returns whether the office may add rows to rolls: in the first round, before ranking.
fn is_open_to_rolls(round: Round, phase: Phase) -> bool
    ensures { result ≡ answer.is_open_to_rolls round phase }
{
    match (round, phase) {
        (Round::First, Phase::Setup) | (Round::First, Phase::Choosing) => true,
        _ => false,
    }
}

/// Decides the office's call to add rows to a roll: accepted without a fault, if rolls are open.
fn add_rows<X: Drop + Keyed, R: RollRules<X>>(
    alloc: Global,
    is_open: bool,
    roll: &R,
    on_roll: &[X],
    rows: &[X],
) -> Result<Decision, AllocError>
    ensures { IfOk result (λ decision. decision_model decision
        ≡ open_where is_open
        (answer.added (R.changes roll.now)
        (rolls.take_rows (R.rules roll.now) 1 on_roll.now rows.now))) }
{
    if !is_open {
        return wrong_phase(alloc);
    }
    match take_rows(alloc, roll, on_roll, rows)? {
        Ok(added) => accepts(alloc, roll, added),
        Err(fault) => Ok(refuses(row_refusal(alloc, &fault)?)),
    }
}

/// Decides the office's call to show the result: allowed once there is one.
fn allocation(alloc: Global, view: &OfficeView) -> Result<Decision, AllocError>
    ensures { IfOk result (λ decision. decision_model decision
        ≡ open_where (world.has_result view.now.round view.now.phase)
        (answer.shows (bodies.allocation_body view.now.pairs))) }
{
    if !view.round.has_result(view.phase) {
        return wrong_phase(alloc);
    }
    Ok(shows(allocation_body(alloc, &view.pairs)?))
}

/// Decides the office's call to show the result as a sheet: allowed once there is one. The sheet's
/// text is still empty.
fn sheet(alloc: Global, view: &OfficeView, sheet: Sheet) -> Result<Decision, AllocError>
    ensures { IfOk result (λ decision. decision_model decision
        ≡ open_where (world.has_result view.now.round view.now.phase)
        (answer.renders (blank sheet) sheet)) }
{
    if !view.round.has_result(view.phase) {
        return wrong_phase(alloc);
    }
    Ok(renders(alloc, sheet))
}

/// Makes the body that tells the office which lecturers get a ranking by the fill.
fn filled_body(alloc: Global, keys: &[Key]) -> Result<Value, AllocError>
    ensures { IfOk result (λ body. json.view body ≡ bodies.filled_body keys.now) }
{
    object_of(alloc, "filled", array_of(alloc, keys)?)
}

/// Returns the act of the office's fill, or `Nothing` if no ranking is missing.
fn fill_act(view: &OfficeView) -> Act
    ensures { act_model result ≡ (if is_empty view.now.still_to_rank then Nothing else Apply Fill) }
{
    if view.still_to_rank.is_empty() {
        return Act::Nothing;
    }
    Act::Apply(Change::Fill)
}

/// Decides the office's call to fill the missing rankings: accepted in the phase ranking.
fn fill_rankings(alloc: Global, view: &OfficeView) -> Result<Decision, AllocError>
    ensures { IfOk result (λ decision. decision_model decision
        ≡ open_where (is_ranking view.now.phase) (answer.fills view.now)) }
{
    if view.phase != Phase::Ranking {
        return wrong_phase(alloc);
    }
    let body = filled_body(alloc, &view.still_to_rank)?;
    Ok(Decision {
        reply: json_reply(200, body),
        act: fill_act(view),
    })
}

/// Decides the office's call. The body of a sheet stays empty.
pub(crate) fn decide_office(
    alloc: Global,
    view: &OfficeView,
    call: &Call,
) -> Result<Decision, AllocError>
    ensures { IfOk result (λ decision. decision_model decision
        ≡ emptied (to_office view.now (call_model call.now))) }
{
    let is_open = is_open_to_rolls(view.round, view.phase);
    match call {
        Call::Me => Ok(shows(me_body(alloc, view)?)),
        Call::Catalogue => Ok(shows(catalogue_body(alloc, &view.catalogue)?)),
        Call::AddLecturers(rows) => {
            add_rows(alloc, is_open, &NewLecturers(view), &view.lecturers, rows)
        }
        Call::AddProjects(rows) => {
            add_rows(alloc, is_open, &NewProjects(view), &view.projects, rows)
        }
        Call::AddStudents(rows) => {
            add_rows(alloc, is_open, &NewStudents(view), &view.students, rows)
        }
        Call::Move { phase, round } => move_to(alloc, view, *phase, *round),
        Call::Status => Ok(shows(status_body(alloc, view)?)),
        Call::Allocation => allocation(alloc, view),
        Call::AllocationCsv => sheet(alloc, view, Sheet::Csv),
        Call::Report => sheet(alloc, view, Sheet::Report),
        Call::FillRankings => fill_rankings(alloc, view),
        _ => not_yours(alloc),
    }
}
