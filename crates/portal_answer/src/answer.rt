//! Computes the answer of `check` or `solve` to an instance file: a text with an exit status.

ghost use Rattle.std.specs.Prelude.{IfOk};
ghost use Rattle.spa_model.specs.Spa.{IsMatching};
ghost use Rattle.portal_answer.specs.Answer.{IsAnswer, OfPairs, OfMatching};

use crate::blocking::check_answer;
use crate::refusal::{plain, refused_file, refused_instance, refused_matching};
use crate::solution::solve_answer;
use portal_rolls::read_instance;
use spa_model::{Instance, Matching, PairLine};
use std::alloc::{AllocError, Global};
use std::marker::Model;

/// What to compute for an instance file.
#[derive(Clone, Copy, Debug, PartialEq, Eq)]
pub enum Task {
    /// The blocking pairs of the file's matching.
    Check,
    /// The student-optimal stable matching of the file's instance.
    Solve,
}

/// An output text with its exit status.
#[derive(Drop)]
pub struct Output {
    pub text: Vec<u8>,
    pub status: u8,
}

impl Model for Output {
    ghost use Rattle.portal_answer.specs.Answer as spec;

    ghost Value = { spec.Output };

    ghost view = { λ t. record { text = t.text.items; status = t.status } };
}

/// The greatest size of a file, in bytes.
pub const LIMIT: usize = 4_194_304;

/// Computes the answer of `check` or `solve` for an instance and a matching.
fn of_matching(
    alloc: Global,
    task: Task,
    instance: &Instance,
    matching: &Matching,
) -> Result<Output, AllocError>
    requires { IsMatching instance.now matching.now }
    ensures { IfOk result (λ t. OfMatching task instance.now matching.now t) }
{
    match task {
        Task::Check => check_answer(alloc, instance, matching),
        Task::Solve => solve_answer(alloc, instance),
    }
}

/// Computes the answer of `check` or `solve` for an instance and the pairs of a matching.
fn of_pairs(
    alloc: Global,
    task: Task,
    instance: &Instance,
    pairs: Vec<PairLine>,
) -> Result<Output, AllocError>
    ensures { IfOk result (λ t. OfPairs task instance.now pairs.items t) }
{
    match Matching::build(alloc, instance, pairs) {
        Ok(matching) => of_matching(alloc, task, instance, &matching),
        Err(bad) => refused_matching(alloc, bad),
    }
}

/// Computes the answer of `check` or `solve` for the bytes of an instance file. An error means that
/// memory ran out.
pub fn answer_to(alloc: Global, task: Task, bytes: &[u8]) -> Result<Output, AllocError>
    ensures { IfOk result (λ t. IsAnswer task bytes.now t) }
{
    if bytes.len() > LIMIT {
        return plain(alloc, "too_large");
    }
    let (rows, pairs) = match read_instance(alloc, bytes) {
        Ok(parts) => parts,
        Err(fault) => return refused_file(alloc, fault),
    };
    match Instance::build(alloc, rows) {
        Ok(instance) => of_pairs(alloc, task, &instance, pairs),
        Err(bad) => refused_instance(alloc, bad),
    }
}
