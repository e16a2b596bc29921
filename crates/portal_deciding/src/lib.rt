//! `decide` turns a view and a call into a reply and an act. A crate of its own because only a desk decides: what changes here leaves
//! readers, tables and stores as they were proved.
#![tactic(auto)]

ghost use Rattle.std.specs.Prelude.{◌≡◌, IfOk};
ghost use Rattle.portal_rules.specs.Answer as answer;
ghost use Rattle.portal_rules.specs.Answer.{emptied, HasWholeNumbers};
ghost use Rattle.portal_rules.specs.Meaning as meaning;
ghost use Rattle.portal_rules.specs.Meaning.{call_model};

mod applicants;
mod bodies;
mod lecturer;
mod lists;
mod moves;
mod new_rows;
mod office;
mod replies;
mod roll_refusal;
mod roll_rules;
mod status;
mod student;

use crate::lecturer::decide_lecturer;
use crate::office::decide_office;
use crate::replies::{refusal_reply, refuses};
use crate::student::decide_student;
use portal_rules::{Call, Decision, View};
use std::alloc::{AllocError, Global};

/// Returns the reply and the act for a call by a caller with this view. The body of a sheet stays
/// empty. Fails if memory runs out.
pub fn decide(alloc: Global, view: &View, call: &Call) -> Result<Decision, AllocError>
    ensures decided { IfOk result (λ d. meaning.decision_model d
        ≡ emptied (answer.decision view.now (call_model call.now))) }
    ensures whole { IfOk result (λ d. HasWholeNumbers (meaning.decision_model d).reply.body) }
{
    match view {
        View::Nobody => Ok(refuses(refusal_reply(alloc, 403, "no_caller")?)),
        View::Office(office) => decide_office(alloc, office, call),
        View::Lecturer(lecturer) => decide_lecturer(alloc, lecturer, call),
        View::Student(student) => decide_student(alloc, student, call),
    }
}
