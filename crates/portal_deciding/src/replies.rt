//! Builds replies and decisions, such as refusals.

ghost use Rattle.std.specs.Prelude.{◌≡◌, codes, IfOk};
ghost use Rattle.serde_json.specs.View as json;
ghost use Rattle.portal_rules.specs.Answer as answer;
ghost use Rattle.portal_rules.specs.Answer.{answered, by_word, blank};
ghost use Rattle.portal_rules.specs.Meaning.{reply_model, change_model, decision_model};

use crate::bodies::object_of;
use portal_rules::{Act, Body, Change, Decision, Reply, Sheet};
use serde_json::Value;
use std::alloc::{AllocError, Global};

/// Makes a reply with this status and this JSON body.
pub(crate) fn json_reply(status: u16, body: Value) -> Reply
    ensures { reply_model result ≡ answered status (json.view body) }
{
    Reply {
        status,
        allow: "",
        body: Body::Json(body),
    }
}

/// Makes a decision that shows the body and changes nothing.
pub(crate) fn shows(body: Value) -> Decision
    ensures { decision_model result ≡ answer.shows (json.view body) }
{
    Decision {
        reply: json_reply(200, body),
        act: Act::Nothing,
    }
}

/// Makes a decision that makes the change and replies with the body.
pub(crate) fn applies(body: Value, change: Change) -> Decision
    ensures { decision_model result ≡ answer.applies (json.view body) (change_model change) }
{
    Decision {
        reply: json_reply(200, body),
        act: Act::Apply(change),
    }
}

/// Makes a decision to write the sheet into the reply's body, which is still empty.
pub(crate) fn renders(alloc: Global, sheet: Sheet) -> Decision
    ensures { decision_model result ≡ answer.renders (blank sheet) sheet }
{
    let text = Vec::new(alloc);
    let body = match sheet {
        Sheet::Csv => Body::Csv(text),
        Sheet::Report => Body::Plain(text),
    };
    Decision {
        reply: Reply {
            status: 200,
            allow: "",
            body,
        },
        act: Act::Render(sheet),
    }
}

/// Makes a decision that refuses with this reply and changes nothing.
pub(crate) fn refuses(reply: Reply) -> Decision
    ensures { decision_model result ≡ answer.refuses (reply_model reply) }
{
    Decision {
        reply,
        act: Act::Nothing,
    }
}

/// Makes a reply that refuses a call and whose body is only an error word.
pub(crate) fn refusal_reply(alloc: Global, status: u16, word: &str) -> Result<Reply, AllocError>
    ensures { IfOk result (λ reply. reply_model reply ≡ by_word status word.now) }
{
    let word = Value::try_from_str(alloc, word)?;
    Ok(json_reply(status, object_of(alloc, "error", word)?))
}

/// Makes the decision that refuses a call of another role.
pub(crate) fn not_yours(alloc: Global) -> Result<Decision, AllocError>
    ensures { IfOk result (λ decision. decision_model decision ≡ answer.not_yours) }
{
    Ok(refuses(refusal_reply(alloc, 403, "not_yours")?))
}

/// Makes the decision that refuses a call that this phase does not allow.
pub(crate) fn wrong_phase(alloc: Global) -> Result<Decision, AllocError>
    ensures { IfOk result (λ decision. decision_model decision ≡ answer.wrong_phase) }
{
    Ok(refuses(refusal_reply(alloc, 409, "wrong_phase")?))
}
