//! Turns a request into a call, or refuses it.

ghost use Rattle.std.specs.Prelude.{◌≡◌, ◌⊎◌, IfOk, IfErr};
ghost use Rattle.portal_rules.specs.Meaning.{call_model};
ghost use Rattle.portal_rules.specs.Run.{HasForm, Calls};
ghost use Rattle.portal_frame.specs.Stream.{request_content, refusal_content};
ghost use Rattle.portal_rules.specs.Calls.{AbstractCall};
ghost use Rattle.portal_wire.specs.declared.calls.CallFault.TheVariants as why;
ghost use Rattle.portal_wire.specs.Wish.{no_memory, turned_away, to_move};
ghost use Rattle.portal_wire.specs.Wish.{wish_at, wish_of, by_body, move_in, nothing_in};
ghost use Rattle.portal_wire.specs.inner.Calls.{IsCallOf, refusal_for, of_body, of_roll};

use crate::bodies::{BodyFault, read_empty, read_list, read_move};
use crate::routes::{Method, Route, allow_at, method_in, route_in};
use matchit::InsertError;
use portal_frame::{Refusal, Request};
use portal_rolls::{RollFault, read_lecturers, read_projects, read_students};
use portal_rules::Call;
use std::alloc::{AllocError, Global};

/// Why a request makes no call.
#[derive(Clone, Copy, Debug, PartialEq, Eq, Drop)]
pub(crate) enum CallFault {
    /// No route has the path.
    NoRoute,
    /// The route does not allow the method.
    BadMethod(Route),
    /// The body does not have the required form.
    BadBody,
    /// A row of a roll is malformed; the field is its number, from 1.
    BadRow(u32),
    /// A roll has more rows than the limit.
    RollFull,
    /// There was not enough memory.
    Memory,
}

impl From<AllocError> for CallFault {
    ghost from_gives = { λ _ fault. fault ≡ why.Memory };

    fn from(_: AllocError) -> CallFault {
        CallFault::Memory
    }
}

// No two of the literal routes conflict, so inserting one fails only if memory runs out.
impl From<InsertError> for CallFault {
    ghost from_gives = { λ _ fault. fault ≡ why.Memory };

    fn from(_: InsertError) -> CallFault {
        CallFault::Memory
    }
}

impl From<BodyFault> for CallFault {
    ghost from_gives = { λ body fault. fault ≡ of_body body };

    fn from(fault: BodyFault) -> CallFault {
        match fault {
            BodyFault::Bad => CallFault::BadBody,
            BodyFault::Memory => CallFault::Memory,
        }
    }
}

impl From<RollFault> for CallFault {
    ghost from_gives = { λ roll fault. fault ≡ of_roll roll };

    fn from(fault: RollFault) -> CallFault {
        match fault {
            RollFault::NoHeader | RollFault::BadHeader => CallFault::BadBody,
            RollFault::FieldCount(row) | RollFault::NotText(row) | RollFault::BadField(row, _) => {
                CallFault::BadRow(row)
            }
            RollFault::TooMany => CallFault::RollFull,
            RollFault::Memory => CallFault::Memory,
        }
    }
}

/// Returns the call that moves to the phase in a request's body. The body may also name the round,
/// which is otherwise the current one.
fn move_call(alloc: Global, body: &[u8]) -> Result<Call, CallFault>
    ensures wish { IsCallOf (by_body to_move (move_in body.now)) result }
    ensures form { IfOk result (λ call. HasForm (call_model call)) }
{
    let (phase, round) = read_move(alloc, body)?;
    Ok(Call::Move { phase, round })
}

/// Returns the call that fills missing rankings; its body is an object without members.
fn fill_call(alloc: Global, body: &[u8]) -> Result<Call, CallFault>
    ensures wish { IsCallOf (by_body (λ u. AbstractCall.FillRankings)
        (nothing_in body.now)) result }
    ensures form { IfOk result (λ call. HasForm (call_model call)) }
{
    read_empty(alloc, body)?;
    Ok(Call::FillRankings)
}

/// Returns the call of a method at a route.
fn call_at(alloc: Global, route: Route, method: Method, body: &[u8]) -> Result<Call, CallFault>
    ensures wish { IsCallOf (wish_at route method body.now) result }
    ensures form { IfOk result (λ call. HasForm (call_model call)) }
{
    match (route, method) {
        (Route::Me, Method::Get) => Ok(Call::Me),
        (Route::Catalogue, Method::Get) => Ok(Call::Catalogue),
        (Route::Choices, Method::Get) => Ok(Call::ShowChoices),
        (Route::Choices, Method::Put) => Ok(Call::SetChoices(read_list(alloc, body, "projects")?)),
        (Route::Applicants, Method::Get) => Ok(Call::Applicants),
        (Route::Ranking, Method::Get) => Ok(Call::ShowRanking),
        (Route::Ranking, Method::Put) => Ok(Call::SetRanking(read_list(alloc, body, "students")?)),
        (Route::Outcome, Method::Get) => Ok(Call::Result),
        (Route::Lecturers, Method::Post) => Ok(Call::AddLecturers(read_lecturers(alloc, body)?)),
        (Route::Projects, Method::Post) => Ok(Call::AddProjects(read_projects(alloc, body)?)),
        (Route::Students, Method::Post) => Ok(Call::AddStudents(read_students(alloc, body)?)),
        (Route::Phase, Method::Post) => move_call(alloc, body),
        (Route::Fill, Method::Post) => fill_call(alloc, body),
        (Route::Status, Method::Get) => Ok(Call::Status),
        (Route::Allocation, Method::Get) => Ok(Call::Allocation),
        (Route::AllocationCsv, Method::Get) => Ok(Call::AllocationCsv),
        (Route::Report, Method::Get) => Ok(Call::Report),
        _ => Err(CallFault::BadMethod(route)),
    }
}

/// Returns the call that a request makes, or why it makes none.
fn routed_call(alloc: Global, request: &Request) -> Result<Call, CallFault>
    ensures wish { IsCallOf (wish_of (request_content request.now)) result }
    ensures form { IfOk result (λ call. HasForm (call_model call)) }
{
    let Some(route) = route_in(alloc, request.path.as_slice())? else {
        return Err(CallFault::NoRoute);
    };
    let method = method_in(alloc, request.method.as_slice())?;
    call_at(alloc, route, method, request.body.as_slice())
}

/// Refuses a request that cannot be turned into a call. Returns the reason, not yet a reply.
fn refusal_of(fault: CallFault) -> Refusal
    ensures { refusal_content result ≡ refusal_for fault }
{
    match fault {
        CallFault::NoRoute => Refusal::by_word(404, "no_route"),
        CallFault::BadMethod(route) => Refusal {
            allow: allow_at(route),
            ..Refusal::by_word(405, "bad_method")
        },
        CallFault::BadBody => Refusal::by_word(400, "bad_body"),
        CallFault::BadRow(row) => Refusal {
            row: Some(row),
            ..Refusal::by_word(422, "bad_row")
        },
        CallFault::RollFull => Refusal::by_word(422, "roll_full"),
        CallFault::Memory => Refusal::by_word(503, "unavailable"),
    }
}

/// Returns the caller's code and the call that a request makes. The rows of an Add call have the
/// forms of their roll.
///
/// # Errors
///
/// Refuses, in this order: a path without a route; a method that the route does not allow; a
/// malformed body, or a roll with too many rows. Also refuses if memory runs out.
pub fn call_of(alloc: Global, request: &Request) -> Result<(Vec<u8>, Call), Refusal>
    ensures code { IfOk result (λ found. found.0.items ≡ request.now.code.items) }
    ensures wish { IfOk result (λ found. wish_of (request_content request.now)
        ≡ Calls (call_model found.1)) }
    ensures form { IfOk result (λ found. HasForm (call_model found.1)) }
    ensures refused { IfErr result (λ refusal. (refusal_content refusal ≡ no_memory)
        ⊎ (wish_of (request_content request.now) ≡ turned_away (refusal_content refusal))) }
{
    let Ok(code) = Vec::from_slice(alloc, request.code.as_slice()) else {
        return Err(refusal_of(CallFault::Memory));
    };
    match routed_call(alloc, request) {
        Ok(call) => Ok((code, call)),
        Err(fault) => Err(refusal_of(fault)),
    }
}
