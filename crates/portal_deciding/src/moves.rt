//! Decides the office's moves to a phase or to the second round.

ghost use Rattle.std.specs.Prelude.{◌≡◌, IfOk};
ghost use Rattle.portal_rules.specs.Answer as answer;
ghost use Rattle.portal_rules.specs.Answer.{publishes, moves_on, opens, moves_in, moves};
ghost use Rattle.portal_rules.specs.Meaning.{reply_model, decision_model};

use crate::bodies::{array_of, phase_body, put_text};
use crate::replies::{applies, json_reply, refuses, shows, wrong_phase};
use portal_rules::{Act, Change, Decision, OfficeView, Phase, Reply, Round};
use serde_json::{Map, Value, put};
use spa_rows::Key;
use std::alloc::{AllocError, Global};

/// Makes the reply that refuses to publish while lecturers are still to rank, and names them.
fn still_to_rank(alloc: Global, keys: &[Key]) -> Result<Reply, AllocError>
    ensures { IfOk result (λ reply. reply_model reply ≡ answer.still_to_rank keys.now) }
{
    let mut body = Map::new(alloc);
    put_text(&mut body, alloc, "error", "still_to_rank")?;
    put(&mut body, alloc, "lecturers", array_of(alloc, keys)?)?;
    Ok(json_reply(409, Value::Object(body)))
}

/// Decides to publish, unless lecturers are still to rank. The reply does not contain the result.
fn publish(alloc: Global, view: &OfficeView) -> Result<Decision, AllocError>
    ensures { IfOk result (λ decision. decision_model decision ≡ publishes view.now) }
{
    if !view.still_to_rank.is_empty() {
        return Ok(refuses(still_to_rank(alloc, &view.still_to_rank)?));
    }
    let body = phase_body(alloc, view.round, Phase::Published)?;
    Ok(Decision {
        reply: json_reply(200, body),
        act: Act::Publish,
    })
}

/// Decides to move to the round's next phase, or to the current one, which changes nothing.
fn move_on(alloc: Global, view: &OfficeView, phase: Phase) -> Result<Decision, AllocError>
    ensures { IfOk result (λ decision. decision_model decision
        ≡ moves_on view.now view.now.phase phase) }
{
    match (view.phase, phase) {
        (Phase::Setup, Phase::Setup)
        | (Phase::Choosing, Phase::Choosing)
        | (Phase::Ranking, Phase::Ranking)
        | (Phase::Published, Phase::Published) => Ok(shows(phase_body(alloc, view.round, phase)?)),
        (Phase::Setup, Phase::Choosing) | (Phase::Choosing, Phase::Ranking) => {
            Ok(applies(phase_body(alloc, view.round, phase)?, Change::Phase(phase)))
        }
        (Phase::Ranking, Phase::Published) => publish(alloc, view),
        _ => wrong_phase(alloc),
    }
}

/// Decides to open the second round in choosing, once the first is published.
fn open_second(alloc: Global, view: &OfficeView, phase: Phase) -> Result<Decision, AllocError>
    ensures { IfOk result (λ decision. decision_model decision ≡ opens view.now.phase phase) }
{
    match (view.phase, phase) {
        (Phase::Published, Phase::Choosing) => {
            let body = phase_body(alloc, Round::Second, phase)?;
            Ok(applies(body, Change::SecondRound))
        }
        _ => wrong_phase(alloc),
    }
}

/// Decides to move to a phase of the named round: the current one, or the second. The second round
/// opens only if a move names it.
fn move_in(
    alloc: Global,
    view: &OfficeView,
    round: Round,
    phase: Phase,
) -> Result<Decision, AllocError>
    ensures { IfOk result (λ decision. decision_model decision
        ≡ moves_in view.now view.now.round round phase) }
{
    match (view.round, round) {
        (Round::First, Round::First) | (Round::Second, Round::Second) => {
            move_on(alloc, view, phase)
        }
        (Round::First, Round::Second) => open_second(alloc, view, phase),
        (Round::Second, Round::First) => wrong_phase(alloc),
    }
}

/// Decides the office's move to a phase of the named round, or of the current one if none is named.
pub(crate) fn move_to(
    alloc: Global,
    view: &OfficeView,
    phase: Phase,
    round: Option<Round>,
) -> Result<Decision, AllocError>
    ensures { IfOk result (λ decision. decision_model decision ≡ moves view.now phase round) }
{
    match round {
        None => move_on(alloc, view, phase),
        Some(round) => move_in(alloc, view, round, phase),
    }
}
