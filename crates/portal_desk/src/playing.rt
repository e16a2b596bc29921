//! Plays a call over any keeper: gets the view, decides, writes any sheet, performs the act.

ghost use Rattle.std.specs.Prelude.{◌≡◌, IfOk, OnOk, OnErr, IfErr};
ghost use Rattle.spa_model.specs.Spa.{IsMatching};
ghost use Rattle.portal_rules.specs.Answer as answer;
ghost use Rattle.portal_rules.specs.Answer.{Answer, Publish, HasWholeNumbers};
ghost use Rattle.portal_rules.specs.Keeping.{Changes, CountsFaults, IsAlive, IsSettled, KeepsGood, Looks, AfterCall};
ghost use Rattle.portal_rules.specs.Meaning.{call_model, decision_model};
ghost use Rattle.portal_rules.specs.Meaning.{act_model, reply_model, body_model};
ghost use Rattle.portal_rules.specs.Good.{Good, CanPublish};
ghost use Rattle.portal_rules.specs.inner.Room.{pairs_by};
ghost use Rattle.portal_rules.specs.Run.{HasForm, StepLeaves, Step};
ghost use Rattle.portal_rules.specs.View as seen;
ghost use Rattle.portal_desk.specs.Kept.{IsAnsweredBody};
ghost use Rattle.portal_desk.specs.inner.Play.{CanDo, IsSolved, sheet_text, with_sheet};

use portal_core::{
    Act, Body, Call, Change, Decision, KeepFault, Keeper, OfficeView, Reply, Sheet, View, decide,
};
use portal_reports::allocation_text;
use portal_rolls::write_allocation;
use spa_model::{Instance, Key, Matching};
use spa_student::solve;
use std::alloc::{AllocError, Global};

/// Makes the reply's body with the text of the sheet for which the act asks.
fn sheet_body(alloc: Global, view: &OfficeView, sheet: Sheet) -> Result<Body, AllocError>
    ensures { IfOk result (λ body. body_model body ≡ sheet_text view.now sheet) }
{
    match sheet {
        Sheet::Csv => Ok(Body::Csv(write_allocation(alloc, view)?)),
        Sheet::Report => Ok(Body::Plain(allocation_text(alloc, view)?)),
    }
}

/// Replaces the body of the office's reply by the sheet if the act asks for one.
fn reply_with_sheet(
    alloc: Global,
    view: &View,
    act: &Act,
    reply: Reply,
) -> Result<Reply, AllocError>
    requires { HasWholeNumbers (body_model reply.body) }
    ensures told { IfOk result (λ whole. reply_model whole
        ≡ with_sheet view.now (act_model act.now) (reply_model reply)) }
    ensures whole { IfOk result (λ whole. HasWholeNumbers (body_model whole.body)) }
{
    let View::Office(office) = view else {
        return Ok(reply);
    };
    let Act::Render(sheet) = act else {
        return Ok(reply);
    };
    let body = sheet_body(alloc, office, *sheet)?;
    Ok(Reply {
        status: reply.status,
        allow: reply.allow,
        body,
    })
}

/// Decides a call for a caller with this view, and writes the sheet if there is one.
fn decide_whole(alloc: Global, view: &View, call: &Call) -> Result<Decision, KeepFault>
    ensures decided { IfOk result (λ d. decision_model d
        ≡ answer.decision view.now (call_model call.now)) }
    ensures whole { IfOk result (λ d. IsAnsweredBody (decision_model d).reply.body) }
    ensures memory { IfErr result (λ fault. fault ≡ KeepFault.Memory) }
{
    let Ok(Decision { reply, act }) = decide(alloc, view, call) else {
        return Err(KeepFault::Memory);
    };
    let Ok(reply) = reply_with_sheet(alloc, view, &act, reply) else {
        return Err(KeepFault::Memory);
    };
    Ok(Decision { reply, act })
}

/// Gets the view of the caller with this code from the keeper, and decides the call, with the text
/// of any sheet. It performs no act: the world of a keeper that is still clean is unchanged, but a
/// failing disk may break the keeper. The reply is not 503.
fn ask<K: Keeper>(
    alloc: Global,
    keeper: &mut K,
    code: &[u8],
    call: &Call,
) -> Result<Decision, KeepFault>
    ensures looks { Looks result (K.state keeper.old) (K.state keeper.new) }
    ensures alive { OnOk result (IsAlive (K.state keeper.new)) }
    ensures decided { IfOk result (λ d. (K.state keeper.new).clean
        → Good (K.state keeper.old).world → decision_model d
        ≡ answer.decision (seen.view (K.state keeper.old).world code.now) (call_model call.now)) }
    ensures whole { IfOk result (λ d. IsAnsweredBody (decision_model d).reply.body) }
{
    let view = keeper.view(alloc, code)?;
    decide_whole(alloc, &view, call)
}

/// Returns the pairs of the matching that a call publishes, in the order of the students.
fn pairs_of(
    alloc: Global,
    instance: &Instance,
    matching: &Matching,
) -> Result<Vec<(Key, Key)>, AllocError>
    requires { IsMatching instance.now matching.now }
    ensures { IfOk result (λ pairs. pairs.items
        ≡ pairs_by instance.now.student_keys instance.now.project_keys matching.now) }
{
    let mut pairs = Vec::new(alloc);
    for s in 0..instance.students() {
        if let Some(p) = instance.project_of(matching, s) {
            let student = instance.student_key(s).copy(alloc)?;
            let project = instance.project_key(p).copy(alloc)?;
            pairs.push((student, project))?;
        }
    }
    Ok(pairs)
}

/// Solves the instance for a publication. Returns the pairs of the best matching.
fn best_pairs(alloc: Global, instance: &Instance) -> Result<Vec<(Key, Key)>, AllocError>
    ensures { IfOk result (λ pairs. IsSolved instance.now pairs.items) }
{
    let matching = solve(alloc, instance)?;
    pairs_of(alloc, instance, &matching)
}

/// Performs a publication: gets the keeper's instance, solves it and applies the result.
fn publish<K: Keeper>(alloc: Global, keeper: &mut K) -> Result<(), KeepFault>
    requires good { KeepsGood (K.state keeper.old) }
    requires ready { (K.state keeper.old).clean → CanPublish (K.state keeper.old).world }
    ensures changes { Changes result (K.state keeper.old) (K.state keeper.new)
        (StepLeaves (K.state keeper.old).world Publish) }
{
    let instance = keeper.instance(alloc)?;
    match best_pairs(alloc, &instance) {
        Ok(pairs) => keeper.apply(alloc, &Change::Result(pairs)),
        Err(_) => Err(KeepFault::Memory),
    }
}

/// Performs a decision's act on the keeper.
fn perform_act<K: Keeper>(alloc: Global, keeper: &mut K, act: Act) -> Result<(), KeepFault>
    requires good { KeepsGood (K.state keeper.old) }
    requires can { (K.state keeper.old).clean → CanDo (K.state keeper.old).world (act_model act) }
    requires alive { IsAlive (K.state keeper.old) }
    requires settled { (K.state keeper.old).clean → IsSettled (K.state keeper.old) }
    ensures changes { Changes result (K.state keeper.old) (K.state keeper.new)
        (StepLeaves (K.state keeper.old).world (act_model act)) }
{
    match act {
        Act::Nothing | Act::Render(_) => Ok(()),
        Act::Apply(change) => keeper.apply(alloc, &change),
        Act::Publish => publish(alloc, keeper),
    }
}

/// Plays one call as a step of the keeper's world, and returns the reply, which is not 503. If the
/// keeper is clean afterwards, a stop leaves only its world.
///
/// # Errors
///
/// Memory runs out, or the store fails. The world of a keeper that is still clean is unchanged. If
/// a clean and settled one breaks, and the disk is clean, a stop leaves the world before the call
/// or after it.
pub fn play<K: Keeper>(
    alloc: Global,
    keeper: &mut K,
    code: &[u8],
    call: &Call,
) -> Result<Reply, KeepFault>
    requires good { KeepsGood (K.state keeper.old) }
    requires form { HasForm (call_model call.now) }
    ensures uses { let old = K.state keeper.old in
        AfterCall result old (K.state keeper.new) (λ w. (old.broken → ⊥) × (old.clean
        → (reply : Answer) × Step old.world code.now (call_model call.now) reply w)) }
    ensures alive { OnOk result (IsAlive (K.state keeper.new)) }
    ensures step { IfOk result (λ r. (K.state keeper.new).clean
        → Step (K.state keeper.old).world code.now (call_model call.now) (reply_model r)
        (K.state keeper.new).world) }
    ensures same { OnErr result ((K.state keeper.new).clean
        → (K.state keeper.new).world ≡ (K.state keeper.old).world) }
    ensures counts { CountsFaults result (K.state keeper.old).faults (K.state keeper.new).faults }
    ensures good { KeepsGood (K.state keeper.new) }
    ensures whole { IfOk result (λ r. IsAnsweredBody (body_model r.body)) }
{
    let Decision { reply, act } = ask(alloc, keeper, code, call)?;
    perform_act(alloc, keeper, act)?;
    Ok(reply)
}
